// Subspaces and digests. A subspace is its last byte, the rest 0, or all 16 bytes; a digest is the byte that fills it, or all 32.
ghost use Rattle.std.specs.Prelude.{◌≡◌, ◌≤◌, length};
ghost use Rattle.laws.specs.Lists.{put};
ghost use Rattle.laws.specs.Sorted.{all};
ghost use Rattle.text.specs.Value.{bytes_read, subspace_field, digest_field, is_short, subspace_text};

use crate::hex::{is_hex, read_byte, write_bytes_of, write_hex, write_hex_byte};
use data_model::parameters::Subspace;
use keys::number;

// The bytes of a field of so many, two digits each.
fn read_bytes<const N: usize>(s: &[u8]) -> Option<[u8; N]>
    ensures { result ≡ bytes_read N s.now }
{
    if !is_hex(s) || s.len() / 2 != N {
        return None;
    }
    let mut bytes = [0; N];
    write_bytes_of(s, &mut bytes);
    Some(bytes)
}

// The subspace of a field.
pub fn read_subspace(s: &[u8]) -> Option<Subspace>
    ensures { result ≡ subspace_field s.now }
{
    if let Some(last) = read_byte(s) {
        return Some(Subspace {
            high: 0,
            low: u64::from(last),
        });
    }
    let all: [u8; 16] = read_bytes(s)?;
    Some(number::read_subspace(&all))
}

// The digest of a field.
pub fn read_digest(s: &[u8]) -> Option<[u8; 32]>
    ensures { result ≡ digest_field s.now }
{
    match read_byte(s) {
        Some(b) => Some([b; 32]),
        None => read_bytes(s),
    }
}

// Whether a subspace is its last byte, the rest 0.
#[tactic(auto, unfolding(crate::specs::Value::is_short))]
fn is_short(s: Subspace) -> bool
    ensures { result ≡ is_short s }
{
    s.high == 0 && s.low < 256
}

// The subspace in hexadecimal: at most 32 digits.
pub fn write_subspace(s: Subspace, out: &mut [u8]) -> usize
    requires { 32 ≤ length out.old }
    ensures { (result ≡ length (subspace_text s)) × (out.new ≡ put (subspace_text s) out.old) }
{
    if is_short(s) {
        return write_hex_byte(s.low as u8, out);
    }
    let mut all = [0; 16];
    number::write_subspace(s, &mut all);
    write_hex(&all, out)
}
