// Marks on the records of a tree, for the store above: the first, how many, the pairs of the marked records, and marks that others take away.
// Kept (2): 01 wants store proofs over tree contracts alone, so that what the store needs of `layout` has a function and a contract here.
ghost use Rattle.std.specs.Prelude.{◌≡◌, ◌+◌, ◌*◌, ◌≤◌, ◌<◌, ℕ, List, Bool, length, drop};
ghost use Rattle.laws.specs.Lists.{put};
ghost use Rattle.layout.specs.Marks.{marks_of, first_mark, count_marks, marked_pairs, unmarked};
ghost use Rattle.tree.specs.Stored.{Stored};
ghost use Rattle.tree.specs.Lent.{stored_in, contents_in, IsFormed};

use crate::stored::Tree;

impl<'a, 'd> Tree<'a, 'd> {
    // Marks the records whose number a test holds of: a 1 for each of them, a 0 for each of the others. Ensures, for whatever the test is
    // of what record k says, in whatever namespace, the marks of that.
    pub(crate) fn mark_all<F: Fn(usize) -> bool>(self, marks: &mut [u8], test: F)
        requires { (IsFormed self) × (self.count ≤ length marks.old) × ((k : ℕ) → k < self.count → F.pre test k) }
        ensures { (p : Stored → Bool) (ns : List ℕ) → ((k : ℕ) (b : Bool) → k < self.entry.count → F.post test k b → b ≡ p (stored_in self.entry ns k)) → marks.new ≡ put (marks_of p (contents_in self.entry ns)) marks.old }
    {
        for k in 0..self.count {
            marks[k] = test(k) as u8;
        }
    }
}

// The place of the first mark 1 from `from` on, or the number of marks.
pub fn first_marked(marks: &[u8], from: usize) -> usize
    requires { from ≤ length marks.now }
    ensures { result ≡ from + first_mark (drop from marks.now) }
{
    layout::marks::first_marked(marks, from)
}

// How many marks are 1.
pub fn count_marked(marks: &[u8]) -> usize
    ensures { result ≡ count_marks marks.now }
{
    layout::marks::count_marked(marks)
}

// Writes the pairs of the marked records at the front of `out`, as they stand and in their order, and answers how many.
pub fn write_pairs(dir: &[u32], marks: &[u8], out: &mut [u32]) -> usize
    requires { (2 * length marks.now ≤ length dir.now) × (2 * count_marks marks.now ≤ length out.old) }
    ensures { (result ≡ count_marks marks.now) × (out.new ≡ put (marked_pairs marks.now dir.now) out.old) }
{
    layout::marks::write_pairs(dir, marks, out)
}

// Zeroes the marks of what `other` marks too. Marks behind the last of `other` stay.
pub fn unmark(marks: &mut [u8], other: &[u8])
    requires { length other.now ≤ length marks.old }
    ensures { marks.new ≡ unmarked marks.old other.now }
{
    layout::marks::unmark(marks, other);
}
