// Numbers as 8 bytes, big-endian, and subspaces, at the front of a slice: for the encoders and decoders here, and for the layers above.
ghost use Rattle.std.specs.Prelude.{◌≡◌, ◌≤◌, length};
ghost use Rattle.laws.specs.Lists.{put};
ghost use Rattle.keys.specs.Encode.{be, subspace_key};
ghost use Rattle.keys.specs.Decode.{number, subspace_at};

use data_model::parameters::Subspace;

// Writes a number as 8 bytes, big-endian, and answers 8.
pub fn write_u64(x: u64, out: &mut [u8]) -> usize
    requires { 8 ≤ length out.old }
    ensures { (result ≡ 8) × (out.new ≡ put (be 8 x) out.old) }
{
    out[..8].copy_from_slice(&x.to_be_bytes());
    8
}

// The number in the first 8 bytes, big-endian.
pub fn read_u64(k: &[u8]) -> u64
    requires { 8 ≤ length k.now }
    ensures { result ≡ number k.now }
{
    u64::from_be_bytes([k[0], k[1], k[2], k[3], k[4], k[5], k[6], k[7]])
}

// Writes the 16 bytes of a subspace, and answers 16.
pub fn write_subspace(s: Subspace, out: &mut [u8]) -> usize
    requires { 16 ≤ length out.old }
    ensures { (result ≡ 16) × (out.new ≡ put (subspace_key s) out.old) }
{
    let n = write_u64(s.high, out);
    n + write_u64(s.low, &mut out[n..])
}

// The subspace in the first 16 bytes.
pub fn read_subspace(k: &[u8]) -> Subspace
    requires { 16 ≤ length k.now }
    ensures { result ≡ subspace_at k.now }
{
    Subspace {
        high: read_u64(k),
        low: read_u64(&k[8..]),
    }
}
