// Whether what one tree holds stands in the other, in its order.
ghost use Rattle.std.specs.Prelude.{◌≡◌, List, true, ℕ, ◌≤◌, ◌<◌, length};
ghost use Rattle.laws.specs.Sorted.{any};
ghost use Rattle.tree.specs.Stored.{same_stored};
ghost use Rattle.tree.specs.Address.{slots};
ghost use Rattle.tree.specs.Tree.{within};
ghost use Rattle.tree.specs.Lent.{stored_in, contents_in, IsFormed, IsOrdered};

use crate::stored::{Tree, encode_key};
use keys::encode::KEY_MOST;
use layout::bytes::same;

// Where to look first: entries of one time stand in one order in both trees, so each is looked for right behind the last of its time.
// A table by times, without regard to clashes, says where; a wrong place only costs the search.
pub const SLOTS: usize = 16381;

// The slot of a time in the table.
fn slot(time: u64) -> usize
    ensures { result < slots }
{
    (time % (SLOTS as u64)) as usize
}

impl<'a, 'd> Tree<'a, 'd> {
    // Whether record k stands in the other tree with the same value.
    fn stands_in(self, other: Tree, namespace: [u8; 16], k: usize) -> bool
        requires { (IsFormed self) × (IsOrdered other) × (k < self.count) }
        ensures { result ≡ any (same_stored (stored_in self.entry namespace k)) (contents_in other.entry namespace) }
    {
        let e = self.stored_at(namespace, k).entry;
        let mut key = [0u8; KEY_MOST];
        let n = encode_key(other.order, e.subspace_id, e.path, e.timestamp, &mut key);
        other.has_record(&key[..n], self.value_at(k))
    }

    // Whether record k is record j of the other tree, whatever their namespace.
    fn is_at(self, other: Tree, k: usize, j: usize) -> bool
        requires { (IsFormed self) × (IsFormed other) × (k < self.count) }
        ensures { (namespace : List ℕ) → result ≡ true → any (same_stored (stored_in self.entry namespace k)) (contents_in other.entry namespace) ≡ true }
    {
        if other.count <= j || self.time_at(k) != other.time_at(j) {
            return false;
        }
        same(self.address_at(k), other.address_at(j)) && same(other.value_at(j), self.value_at(k))
    }

    // The first place of each time, in the slot of the time.
    fn first_places(self, next: &mut [u16])
        requires { (IsFormed self) × (slots ≤ length next.old) }
    {
        for k in (0..self.count).rev() {
            next[slot(self.time_at(k))] = (k % 0x10000) as u16;
        }
    }

    // Whether record k stands in the other tree, looked for at a place first.
    fn stands_near(self, other: Tree, namespace: [u8; 16], k: usize, j: usize) -> bool
        requires { (IsFormed self) × (IsOrdered other) × (k < self.count) }
        ensures { result ≡ any (same_stored (stored_in self.entry namespace k)) (contents_in other.entry namespace) }
    {
        self.is_at(other, k, j) || self.stands_in(other, namespace, k)
    }

    // Whether all records stand in the other tree, looked for by the table.
    fn within_by(self, other: Tree, namespace: [u8; 16], next: &mut [u16]) -> bool
        requires { (IsFormed self) × (IsOrdered other) × (slots ≤ length next.old) }
        ensures { result ≡ within (contents_in self.entry namespace) (contents_in other.entry namespace) }
    {
        for k in 0..self.count {
            let at = slot(self.time_at(k));
            let j = next[at];
            if !self.stands_near(other, namespace, k, j as usize) {
                return false;
            }
            next[at] = j % 0xffff + 1;
        }
        true
    }

    // Whether what the tree holds, as of a namespace, stands in the other tree, each of the two in its own order.
    pub fn within(self, other: Tree, namespace: [u8; 16]) -> bool
        requires { (IsFormed self) × (IsOrdered other) }
        ensures { result ≡ within (contents_in self.entry namespace) (contents_in other.entry namespace) }
    {
        let mut next = [0u16; SLOTS];
        other.first_places(&mut next);
        self.within_by(other, namespace, &mut next)
    }
}
