// Whether a tree is well-formed, in one pass.
ghost use Rattle.std.specs.Prelude.{◌≡◌, cond, true, ◌&&◌, ◌+◌, ◌*◌, ◌-◌, ◌≤◌, ◌<◌, length, get_or, leb, eqb};
ghost use Rattle.data_model.specs.Path.{field};
ghost use Rattle.tree.specs.Stored.{is_record, key_below};
ghost use Rattle.tree.specs.Tree.{well_formed};
ghost use Rattle.tree.specs.Lent.{record_in, IsInBounds};

use crate::stored::{Tree, is_record};
use layout::bytes::{less, zeros};
use layout::directory::{offset, size, zero_numbers};

impl<'a, 'd> Tree<'a, 'd> {
    // Whether pair k begins at `at`, and what it cuts out is within the tree and a record.
    fn lies_at(self, k: usize, at: usize) -> bool
        requires { (2 * k + 1 < length self.dir.now) × (at ≤ length self.bytes.now) }
        ensures { result ≡ (eqb (get_or self.entry.dir.now (2 * k) 0) at && (leb (at + get_or self.entry.dir.now (2 * k + 1) 0) (length self.entry.bytes.now) && is_record self.entry.order field (record_in self.entry k))) }
    {
        let l = size(self.dir, k);
        offset(self.dir, k) == at
            && l <= self.bytes.len() - at
            && is_record(self.order, &self.bytes[at..at + l])
    }

    // Whether the key of record k is above the one before it, if there is one.
    fn ascends_at(self, k: usize) -> bool
        requires in_bounds { IsInBounds self k }
        requires in_bounds_2 { 0 < k → IsInBounds self (k - 1) }
        ensures { result ≡ cond (eqb k 0) true (key_below (record_in self.entry (k - 1)) (record_in self.entry k)) }
    {
        k == 0 || less(self.key_at(k - 1), self.key_at(k))
    }

    // Whether the tree is well-formed: its records chain from its first byte without gaps, zeros stand behind them and behind their pairs,
    // and the keys ascend.
    pub fn well_formed(self) -> bool
        ensures { result ≡ well_formed self.entry.order field self.entry.count self.entry.dir.now self.entry.bytes.now }
    {
        if self.dir.len() / 2 < self.count {
            return false;
        }
        let mut at = 0;
        for k in 0..self.count {
            if !self.lies_at(k, at) || !self.ascends_at(k) {
                return false;
            }
            at += size(self.dir, k);
        }
        zeros(self.bytes, at) && zero_numbers(self.dir, 2 * self.count)
    }
}
