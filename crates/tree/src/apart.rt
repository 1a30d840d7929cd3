// Whether no subspace and path stands twice in the subspace-first tree and no entry prunes another. In key order the entries that cover a
// record stand before it, each covering the next: a stack. Rank being transitive, a record is compared with the nearest of them alone, and
// each record goes onto the stack once and off it once.
ghost use Rattle.std.specs.Prelude.{ℕ, ◌-◌, ◌≤◌, ◌<◌, ◌≡◌, true, false, not, ◌&&◌, List, length, get_or};
ghost use Rattle.laws.specs.Order.{is_greater};
ghost use Rattle.laws.specs.Prefix.{same_number, same_list, prefix_of};
ghost use Rattle.data_model.specs.Path.{field};
ghost use Rattle.data_model.specs.Entry.{by_rank};
ghost use Rattle.tree.specs.Stored.{contents};
ghost use Rattle.tree.specs.Tree.{Ordered};
ghost use Rattle.tree.specs.Lent.{record_in, records_in, IsReadable};
ghost use Rattle.tree.specs.Apart.{apart};
ghost use Rattle.tree.specs.Address.{address_at, open_at, rank_at};
ghost use Rattle.tree.specs.declared.stored.KeyOrder.TheVariants.{Spt};

use crate::address::begins;
use crate::stored::{KeyOrder, Tree};
use data_model::answer::Recency;
use data_model::path::MCC;
use layout::bytes::same;

// The most entries that cover one another: their paths have 0 to MCC components.
const DEEPEST: usize = MCC + 1;

impl<'a, 'd> Tree<'a, 'd> {
    // How many of the record numbers on a stack are left when those on top go that do not cover record k.
    fn covering(self, stack: &[usize], k: usize) -> usize
        requires { (IsReadable self k) × ((i : ℕ) → i < length stack.now → IsReadable self (get_or stack.now i 0)) }
        ensures { (result ≤ length stack.now) × ((i : ℕ) → result ≤ i → i < length stack.now → prefix_of same_number (open_at self.entry.order (record_in self.entry (get_or stack.now i 0))) (address_at self.entry.order (record_in self.entry k)) ≡ false) × (0 < result → prefix_of same_number (open_at self.entry.order (record_in self.entry (get_or stack.now (result - 1) 0))) (address_at self.entry.order (record_in self.entry k)) ≡ true) }
    {
        let address = self.address_at(k);
        for d in (0..stack.len()).rev() {
            if begins(address, self.open_at(stack[d])) {
                return d + 1;
            }
        }
        0
    }

    // Whether record j may stand before record k, which it covers: it is at another address, and not newer.
    fn may_cover(self, j: usize, k: usize) -> bool
        requires { (IsReadable self j) × (IsReadable self k) }
        ensures { result ≡ (not (same_list same_number (address_at self.entry.order (record_in self.entry j)) (address_at self.entry.order (record_in self.entry k))) && not (is_greater (by_rank (rank_at self.entry.order (record_in self.entry j)) (rank_at self.entry.order (record_in self.entry k))))) }
    {
        !same(self.address_at(j), self.address_at(k))
            && !matches!(self.compare_records(j, k), Recency::Newer)
    }

    // Whether the nearest record number on a stack, which is the last, may stand before record k, if there is one.
    fn nearest_may(self, stack: &[usize], k: usize) -> bool
        requires { (IsReadable self k) × ((i : ℕ) → i < length stack.now → IsReadable self (get_or stack.now i 0)) }
        ensures { (length stack.now ≡ 0 → result ≡ true) × (0 < length stack.now → result ≡ (not (same_list same_number (address_at self.entry.order (record_in self.entry (get_or stack.now (length stack.now - 1) 0))) (address_at self.entry.order (record_in self.entry k))) && not (is_greater (by_rank (rank_at self.entry.order (record_in self.entry (get_or stack.now (length stack.now - 1) 0))) (rank_at self.entry.order (record_in self.entry k)))))) }
    {
        match stack.last() {
            Some(&nearest) => self.may_cover(nearest, k),
            None => true,
        }
    }

    // Whether no two records of a tree, read as subspace-first, are of one subspace and path, and none prunes another; whatever the namespace
    // that they are of.
    pub fn apart(self) -> bool
        requires { Ordered Spt self.count self.dir.now self.bytes.now }
        ensures { (namespace : List ℕ) → result ≡ apart (contents Spt field namespace (records_in self.entry)) }
    {
        let spt = Tree {
            order: KeyOrder::Spt,
            count: self.count,
            dir: self.dir,
            bytes: self.bytes,
        };
        let mut stack = [0usize; DEEPEST];
        let mut depth: usize = 0;
        for k in 0..spt.count {
            depth = spt.covering(&stack[..depth], k);
            if !spt.nearest_may(&stack[..depth], k) {
                return false;
            }
            stack[depth] = k;
            depth += 1;
        }
        true
    }
}
