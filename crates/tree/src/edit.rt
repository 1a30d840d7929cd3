// Changes of a tree, for the store above: all records taken out, some taken out, one put in, the available
// length of one written. They take the buffers themselves, which they change.
// Kept (5): a clause could name what a struct of `&mut` leaves only by the numbers of its parts, as `t.exit.1.0.now`.
// Kept (2): 01 wants store proofs over tree contracts alone, so that what the store needs of `layout` has a function and a contract here.
ghost use Rattle.std.specs.Prelude.{◌≡◌, [], ◌+◌, ◌*◌, ◌≤◌, length};
ghost use Rattle.layout.specs.Buffers.{written};
ghost use Rattle.layout.specs.Layout.{Editable, records, joined, tree_bytes, dir_numbers, inserted, record_at, offset_at};
ghost use Rattle.layout.specs.Marks.{kept};
ghost use Rattle.keys.specs.Encode.{be};
ghost use Rattle.tree.specs.Stored.{available_in};
ghost use Rattle.tree.specs.Tree.{InBounds};

use crate::value::{AVAILABLE_AT, VALUE};
use keys::number::write_u64;
use layout::directory::{offset, size};

// Makes a tree of no records.
pub fn open(dir: &mut [u32], tree: &mut [u8])
    ensures bytes { tree.new ≡ tree_bytes (length tree.old) [] }
    ensures numbers { dir.new ≡ dir_numbers (length dir.old) [] }
{
    layout::edit::open(dir, tree);
}

// Takes out the records whose mark is 1 in one pass, zeroes what is freed, and answers how many are left.
pub fn retain(count: usize, dir: &mut [u32], tree: &mut [u8], marks: &[u8]) -> usize
    requires { (Editable count dir.old tree.old) × (count ≤ length marks.now) }
    ensures left { result ≡ length (kept marks.now (records count dir.old tree.old)) }
    ensures bytes { tree.new ≡ tree_bytes (length tree.old) (kept marks.now (records count dir.old tree.old)) }
    ensures numbers { dir.new ≡ dir_numbers (length dir.old) (kept marks.now (records count dir.old tree.old)) }
{
    layout::edit::retain(count, dir, tree, marks)
}

// Puts a record in at place `at`, with one move.
pub fn insert_at(count: usize, dir: &mut [u32], tree: &mut [u8], at: usize, rec: &[u8])
    requires { (Editable count dir.old tree.old) × (at ≤ count) × (2 * (count + 1) ≤ length dir.old) × (length (joined (records count dir.old tree.old)) + length rec.now ≤ length tree.old) }
    ensures bytes { tree.new ≡ tree_bytes (length tree.old) (inserted at rec.now (records count dir.old tree.old)) }
    ensures numbers { dir.new ≡ dir_numbers (length dir.old) (inserted at rec.now (records count dir.old tree.old)) }
{
    layout::edit::insert_at(count, dir, tree, at, rec);
}

// Writes the available length in the value of record k.
pub fn set_available(dir: &[u32], tree: &mut [u8], k: usize, n: u64)
    requires { InBounds k dir.now tree.old }
    ensures { tree.new ≡ written (offset_at k dir.now + available_in (record_at k dir.now tree.old)) (be 8 n) tree.old }
{
    let at = offset(dir, k) + size(dir, k) - VALUE + AVAILABLE_AT;
    write_u64(n, &mut tree[at..]);
}
