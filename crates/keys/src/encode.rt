// Both keys of an entry, written (`encode_spt_entry_key` and `encode_tsp_entry_key` of the Rust).
ghost use Rattle.std.specs.Prelude.{◌≡◌, true, ◌+◌, ◌*◌, ◌≤◌, length};
ghost use Rattle.laws.specs.Lists.{put};
ghost use Rattle.data_model.specs.Path.{field, cut, components, legal, legal_ends};
ghost use Rattle.data_model.specs.Refusal.{said};
ghost use Rattle.keys.specs.Encode.{escaped, component_key, path_key, triple, spt_key, tsp_key, path_key_most, key_most, roomy, writable, encoded, encoded_in};

use crate::number::{write_subspace, write_u64};
use data_model::answer::Refusal;
use data_model::parameters::Subspace;
use data_model::path::{MCC, MPL, Path};

// A component ends 00 01, a path 00 00, and a component's byte 00 is written 00 02.
pub const COMPONENT_END: [u8; 2] = [0, 1];

pub const PATH_END: [u8; 2] = [0, 0];

pub const ESCAPED_ZERO: [u8; 2] = [0, 2];

// The most bytes of a key: a subspace, each byte escaped, a mark for each component and one for the path, a timestamp.
pub const KEY_MOST: usize = 16 + 2 * MPL + 2 * MCC + 2 + 8;

// Kept (5): the room that a writer asks of its buffer: the buffer is the rest of a longer one, so that no array type says it.
// Every writer writes at the front of the buffer that it is lent, and answers how many bytes.
fn write_mark(mark: [u8; 2], out: &mut [u8]) -> usize
    requires { 2 ≤ length out.old }
    ensures { (result ≡ 2) × (out.new ≡ put mark out.old) }
{
    out[..2].copy_from_slice(&mark);
    2
}

// A byte of a component.
fn encode_byte(b: u8, out: &mut [u8]) -> usize
    requires { 2 ≤ length out.old }
    ensures { (result ≡ length (escaped b)) × (out.new ≡ put (escaped b) out.old) }
{
    if b == 0 {
        return write_mark(ESCAPED_ZERO, out);
    }
    out[0] = b;
    1
}

// A component and its end.
fn encode_component(c: &[u8], out: &mut [u8]) -> usize
    requires { 2 * length c.now + 2 ≤ length out.old }
    ensures { (result ≡ length (component_key c.now)) × (out.new ≡ put (component_key c.now) out.old) }
{
    let mut at = 0;
    for &b in c {
        at += encode_byte(b, &mut out[at..]);
    }
    at + write_mark(COMPONENT_END, &mut out[at..])
}

// The components that the ends cut, and the path's end.
fn encode_components(bytes: &[u8], ends: &[usize], out: &mut [u8]) -> usize
    requires { (legal_ends (length bytes.now) (length bytes.now) 0 ends.now ≡ true) × (2 * length bytes.now + 2 * length ends.now + 2 ≤ length out.old) }
    ensures { (result ≡ length (path_key (cut bytes.now 0 ends.now))) × (out.new ≡ put (path_key (cut bytes.now 0 ends.now)) out.old) }
{
    let mut at = 0;
    let mut from = 0;
    for &end in ends {
        at += encode_component(&bytes[from..end], &mut out[at..]);
        from = end;
    }
    at + write_mark(PATH_END, &mut out[at..])
}

// The components of a path, and the path's end.
fn encode_path(p: Path, out: &mut [u8]) -> usize
    requires { (legal field p ≡ true) × (path_key_most field ≤ length out.old) }
    ensures { (result ≡ length (path_key (components p))) × (out.new ≡ put (path_key (components p)) out.old) }
{
    encode_components(&p.bytes, &p.ends[..p.count], out)
}

// Subspace, path, timestamp: the path is encoded into the rest of the key's buffer.
fn write_spt_key(s: Subspace, p: Path, t: u64, out: &mut [u8]) -> usize
    requires { (legal field p ≡ true) × (key_most field ≤ length out.old) }
    ensures { (result ≡ length (spt_key (triple s (components p) t))) × (out.new ≡ put (spt_key (triple s (components p) t)) out.old) }
{
    write_subspace(s, out);
    let at = 16 + encode_path(p, &mut out[16..]);
    at + write_u64(t, &mut out[at..])
}

// Timestamp, subspace, path.
// Kept (2): the two writers differ in the order of three calls, so one for both would only choose between them.
fn write_tsp_key(s: Subspace, p: Path, t: u64, out: &mut [u8]) -> usize
    requires { (legal field p ≡ true) × (key_most field ≤ length out.old) }
    ensures { (result ≡ length (tsp_key (triple s (components p) t))) × (out.new ≡ put (tsp_key (triple s (components p) t)) out.old) }
{
    write_u64(t, out);
    write_subspace(s, &mut out[8..]);
    24 + encode_path(p, &mut out[24..])
}

// Whether a key may be written: the buffer holds every key, and the path is legal.
fn may_write(path: Path, out: &[u8]) -> Result<(), Refusal>
    ensures { said result ≡ writable (roomy field out.now) (legal field path) }
{
    if out.len() < KEY_MOST {
        return Err(Refusal::ShortBuffer);
    }
    if path.is_legal() {
        Ok(())
    } else {
        Err(Refusal::IllegalPath)
    }
}

// Writes the subspace-first key of a triple to the front of the buffer. A refusal leaves the buffer as it was.
pub fn encode_spt_entry_key(
    subspace: Subspace,
    path: Path,
    timestamp: u64,
    out: &mut [u8],
) -> Result<usize, Refusal>
    ensures result_value { said result ≡ encoded (roomy field out.old) (legal field path) (spt_key (triple subspace (components path) timestamp)) }
    ensures out_after { out.new ≡ encoded_in (roomy field out.old) (legal field path) (spt_key (triple subspace (components path) timestamp)) out.old }
{
    may_write(path, out)?;
    Ok(write_spt_key(subspace, path, timestamp, out))
}

// Writes the time-first key of a triple to the front of the buffer. A refusal leaves the buffer as it was.
// Kept (2): the C interface has a name for each order; what the two share is `may_write`.
pub fn encode_tsp_entry_key(
    subspace: Subspace,
    path: Path,
    timestamp: u64,
    out: &mut [u8],
) -> Result<usize, Refusal>
    ensures result_value { said result ≡ encoded (roomy field out.old) (legal field path) (tsp_key (triple subspace (components path) timestamp)) }
    ensures out_after { out.new ≡ encoded_in (roomy field out.old) (legal field path) (tsp_key (triple subspace (components path) timestamp)) out.old }
{
    may_write(path, out)?;
    Ok(write_tsp_key(subspace, path, timestamp, out))
}
