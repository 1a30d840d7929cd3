// Bytes that are no records, for the store: numbers and subspaces written, zeros looked for.
// Kept (2): 01 wants store proofs over tree contracts alone, so that what the store needs of `keys` and `layout` has a function and a contract here.
ghost use Rattle.std.specs.Prelude.{◌≡◌, ◌≤◌, length, drop};
ghost use Rattle.laws.specs.Lists.{put};
ghost use Rattle.layout.specs.Buffers.{all_zero};
ghost use Rattle.keys.specs.Encode.{be, subspace_key};

use data_model::parameters::Subspace;

// Writes a number as 8 bytes, big-endian, and answers 8.
pub fn write_u64(x: u64, out: &mut [u8]) -> usize
    requires { 8 ≤ length out.old }
    ensures { (result ≡ 8) × (out.new ≡ put (be 8 x) out.old) }
{
    keys::number::write_u64(x, out)
}

// Writes the 16 bytes of a subspace, and answers 16.
pub fn write_subspace(s: Subspace, out: &mut [u8]) -> usize
    requires { 16 ≤ length out.old }
    ensures { (result ≡ 16) × (out.new ≡ put (subspace_key s) out.old) }
{
    keys::number::write_subspace(s, out)
}

// Whether the bytes from `from` on are zero.
pub fn zeros(buf: &[u8], from: usize) -> bool
    requires { from ≤ length buf.now }
    ensures { result ≡ all_zero (drop from buf.now) }
{
    layout::bytes::zeros(buf, from)
}
