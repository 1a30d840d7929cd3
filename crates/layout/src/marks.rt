// A mark for each record: the first that is 1, how many are, the pairs of the marked records, and marks that others take away.
ghost use Rattle.std.specs.Prelude.{◌≡◌, cond, ◌+◌, ◌*◌, ◌≤◌, eqb, length, drop};
ghost use Rattle.laws.specs.Lists.{put};
ghost use Rattle.layout.specs.Marks.{first_mark, count_marks, marked_pairs, unmarked};

use crate::directory::{offset, put_pair, size};

// The place of the first mark 1 from `from` on, or the number of marks.
pub fn first_marked(marks: &[u8], from: usize) -> usize
    requires { from ≤ length marks.now }
    ensures { result ≡ from + first_mark (drop from marks.now) }
{
    match marks[from..].iter().position(|mark| *mark == 1) {
        Some(k) => from + k,
        None => marks.len(),
    }
}

// How many marks are 1.
pub fn count_marked(marks: &[u8]) -> usize
    ensures { result ≡ count_marks marks.now }
{
    marks.iter().filter(|mark| **mark == 1).count()
}

// Writes the pairs of the marked records at the front of `out`, as they stand and in their order, and answers how many.
pub fn write_pairs(dir: &[u32], marks: &[u8], out: &mut [u32]) -> usize
    requires { (2 * length marks.now ≤ length dir.now) × (2 * count_marks marks.now ≤ length out.old) }
    ensures { (result ≡ count_marks marks.now) × (out.new ≡ put (marked_pairs marks.now dir.now) out.old) }
{
    let mut n = 0;
    for (k, mark) in marks.iter().enumerate() {
        if *mark == 1 {
            put_pair(out, n, offset(dir, k), size(dir, k));
            n += 1;
        }
    }
    n
}

// Zeroes the marks of what `other` marks too. Marks behind the last of `other` stay.
pub fn unmark(marks: &mut [u8], other: &[u8])
    requires { length other.now ≤ length marks.old }
    ensures { marks.new ≡ unmarked marks.old other.now }
{
    for (k, taken) in other.iter().enumerate() {
        if *taken == 1 {
            marks[k] = 0;
        }
    }
}
