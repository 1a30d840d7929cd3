// Changes of the records in two buffers: all taken out, some taken out, one put in. What a record holds is not looked at.
// Kept (5): a clause could name what a struct of `&mut` leaves only by the numbers of its parts, as `t.exit.1.0.now`.
ghost use Rattle.std.specs.Prelude.{◌≡◌, [], ◌∷◌, ◌+◌, ◌-◌, ◌*◌, ◌≤◌, ◌<◌, ◌^◌, length, drop};
ghost use Rattle.layout.specs.Layout.{Editable, records, joined, tree_bytes, dir_numbers, inserted, end_at, sizes, end_of, opened};
ghost use Rattle.layout.specs.Marks.{kept};

use crate::bytes::{clear, shift_down, shift_up, write};
use crate::directory::{offset, put_pair, size};

// Zeroes both buffers, which then hold no records.
pub fn open(dir: &mut [u32], tree: &mut [u8])
    ensures bytes { tree.new ≡ tree_bytes (length tree.old) [] }
    ensures numbers { dir.new ≡ dir_numbers (length dir.old) [] }
{
    tree.fill(0);
    dir.fill(0);
}

// Takes out the records whose mark is 1 in one pass, zeroes what is freed, and answers how many are left.
pub fn retain(count: usize, dir: &mut [u32], tree: &mut [u8], marks: &[u8]) -> usize
    requires { (Editable count dir.old tree.old) × (count ≤ length marks.now) }
    ensures left { result ≡ length (kept marks.now (records count dir.old tree.old)) }
    ensures bytes { tree.new ≡ tree_bytes (length tree.old) (kept marks.now (records count dir.old tree.old)) }
    ensures numbers { dir.new ≡ dir_numbers (length dir.old) (kept marks.now (records count dir.old tree.old)) }
{
    let mut n = 0;
    let mut from = 0;
    let mut to = 0;
    for i in 0..count {
        let l = size(dir, i);
        if marks[i] != 1 {
            shift_down(tree, from, to, l);
            put_pair(dir, n, to, l);
            to += l;
            n += 1;
        }
        from += l;
    }
    clear(tree, to, from);
    dir[2 * n..2 * count].fill(0);
    n
}

// Where the first k records end.
fn end_of(dir: &[u32], k: usize) -> usize
    requires { 2 * k ≤ length dir.now }
    ensures { (result ≡ end_at k dir.now) × (result < 2 ^ 33) }
{
    if k == 0 {
        0
    } else {
        offset(dir, k - 1) + size(dir, k - 1)
    }
}

// Puts a pair of offset o and length l at place `at` of the directory, and moves the later ones on.
fn open_pairs(dir: &mut [u32], count: usize, at: usize, o: usize, l: usize)
    requires { (at ≤ count) × (2 * (count + 1) ≤ length dir.old) × (end_of o (l ∷ sizes (count - at) (drop (2 * at) dir.old)) < 2 ^ 32) }
    ensures { dir.new ≡ opened count at o l dir.old }
{
    let mut pos = o;
    let mut len = l;
    for k in at..count {
        let next = size(dir, k);
        put_pair(dir, k, pos, len);
        pos += len;
        len = next;
    }
    put_pair(dir, count, pos, len);
}

// Puts a record in at place `at`: moves the later ones up by its length in one move, and opens a pair for it.
pub fn insert_at(count: usize, dir: &mut [u32], tree: &mut [u8], at: usize, rec: &[u8])
    requires { (Editable count dir.old tree.old) × (at ≤ count) × (2 * (count + 1) ≤ length dir.old) × (length (joined (records count dir.old tree.old)) + length rec.now ≤ length tree.old) }
    ensures bytes { tree.new ≡ tree_bytes (length tree.old) (inserted at rec.now (records count dir.old tree.old)) }
    ensures numbers { dir.new ≡ dir_numbers (length dir.old) (inserted at rec.now (records count dir.old tree.old)) }
{
    let o = end_of(dir, at);
    let e = end_of(dir, count);
    let n = rec.len();
    shift_up(tree, o, o + n, e - o);
    write(tree, o, rec);
    open_pairs(dir, count, at, o, n);
}
