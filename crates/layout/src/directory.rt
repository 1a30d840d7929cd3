// The directory: a pair of 32-bit numbers, offset and length, for each record; and the record that a pair cuts out of the bytes.
// Kept (5): `2 * k + 1 < length dir`: a type for pairs would be a slice of structs, and 01 has numbers.
// Kept (6): 01 fixes the directory as a lent slice of 32-bit numbers; a slice of structs is what crate pairs writes.
ghost use Rattle.std.specs.Prelude.{◌≡◌, ◌+◌, ◌*◌, ◌≤◌, ◌<◌, ◌^◌, length, set, get_or, drop};
ghost use Rattle.laws.specs.Parts.{PartBegins};
ghost use Rattle.layout.specs.Buffers.{all_zero};
ghost use Rattle.layout.specs.Layout.{CutsOut, record_at, offset_at};

use crate::bytes::all_are;

// The offset in pair k.
pub fn offset(dir: &[u32], k: usize) -> usize
    requires { 2 * k + 1 < length dir.now }
    ensures { (result ≡ get_or dir.now (2 * k) 0) × (result < 2 ^ 32) }
{
    dir[2 * k] as usize
}

// The length in pair k.
pub fn size(dir: &[u32], k: usize) -> usize
    requires { 2 * k + 1 < length dir.now }
    ensures { (result ≡ get_or dir.now (2 * k + 1) 0) × (result < 2 ^ 32) }
{
    dir[2 * k + 1] as usize
}

// Record k as a part of the bytes: what it is, and where it begins.
pub fn record_at<'a>(tree: &'a [u8], dir: &[u32], k: usize) -> &'a [u8]
    requires { CutsOut k dir.now tree.now }
    ensures result_value { result.now ≡ record_at k dir.now tree.now }
    ensures part_begins { PartBegins tree.entry.ref_ptr result.ref_ptr (offset_at k dir.now) }
{
    let o = offset(dir, k);
    &tree[o..o + size(dir, k)]
}

// Writes offset o and length l as pair k.
pub fn put_pair(dir: &mut [u32], k: usize, o: usize, l: usize)
    requires { (2 * k + 1 < length dir.old) × (o < 2 ^ 32) × (l < 2 ^ 32) }
    ensures { dir.new ≡ set (set dir.old (2 * k) o) (2 * k + 1) l }
{
    dir[2 * k] = o as u32;
    dir[2 * k + 1] = l as u32;
}

// Whether the numbers from `from` on are zero.
pub fn zero_numbers(dir: &[u32], from: usize) -> bool
    requires { from ≤ length dir.now }
    ensures { result ≡ all_zero (drop from dir.now) }
{
    all_are(&dir[from..], 0)
}
