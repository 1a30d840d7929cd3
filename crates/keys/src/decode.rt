// Both keys of an entry, read: from a slice and a position.
ghost use Rattle.std.specs.Prelude.{◌≡◌, ◌+◌, ◌≤◌, length, drop};
ghost use Rattle.data_model.specs.Path.{field, joined, ends_from};
ghost use Rattle.data_model.specs.Refusal.{said};
ghost use Rattle.keys.specs.Decode.{read_component, read_components, read_path, component_says, component_read, path_read, read_spt, read_tsp, decoded};
ghost use Rattle.keys.specs.Inner.{part_of, Filled, read_key};

use crate::number::{read_subspace, read_u64};
use crate::token::{Token, ends_path, token_at, width};
use data_model::answer::Refusal;
use data_model::parameters::Subspace;
use data_model::path::{COMPONENT_BYTES, MCL, PATH_BYTES, PATH_ENDS, Path};

// The next component: its bytes, with 0 behind them, its length and the position behind it; or the position behind the path's end.
// Kept (6): a component by itself is a value of 64 bytes and a length, since there is no heap.
#[derive(Clone, Copy, PartialEq, Eq, Debug)]
pub enum Next {
    Component {
        bytes: [u8; COMPONENT_BYTES],
        len: usize,
        next: usize,
    },
    PathEnd(usize),
}

// A path and the position behind it.
#[derive(Clone, Copy)]
pub struct PathRead {
    pub path: Path,
    pub next: usize,
}

// What a key stands for.
#[derive(Clone, Copy)]
pub struct EntryKey {
    pub subspace: Subspace,
    pub path: Path,
    pub timestamp: u64,
}

// A component of at most lim bytes, and its end: its bytes go to the front of the buffer. Answers how many they are, and how many bytes of
// the key they and the end took.
fn read_component(k: &[u8], lim: usize, bytes: &mut [u8]) -> Result<(usize, usize), Refusal>
    requires { lim ≤ length bytes.old }
    ensures { (said result ≡ part_of (read_component lim k.now)) × Filled (λ c. c) (read_component lim k.now) bytes.old bytes.new }
{
    let mut at = 0;
    let mut n = 0;
    // Kept (3): a turn moves on by one byte or two, as the token says.
    loop {
        match token_at(k, at)? {
            Token::Byte(b) if n < lim => {
                bytes[n] = b;
                n += 1;
                at += width(b);
            }
            Token::ComponentEnd => return Ok((n, at + 2)),
            _ => return Err(Refusal::NoKey),
        }
    }
}

// The components of a path and its end: their bytes and their ends go to the front of the two buffers, whose lengths are the
// most bytes and the most components. Answers how many they are, and how many bytes of the key they and the end took.
fn decode_components(
    k: &[u8],
    mcl: usize,
    bytes: &mut [u8],
    ends: &mut [usize],
) -> Result<(usize, usize), Refusal>
    ensures value { said result ≡ part_of (read_components mcl (length bytes.old) (length ends.old) k.now) }
    ensures filled { Filled joined (read_components mcl (length bytes.old) (length ends.old) k.now) bytes.old bytes.new }
    ensures filled_2 { Filled (ends_from 0) (read_components mcl (length bytes.old) (length ends.old) k.now) ends.old ends.new }
{
    let mut at = 0;
    let mut total = 0;
    for n in 0..ends.len() {
        if ends_path(k, at) {
            return Ok((n, at + 2));
        }
        let lim = mcl.min(bytes.len() - total);
        let (len, used) = read_component(&k[at..], lim, &mut bytes[total..])?;
        total += len;
        at += used;
        ends[n] = total;
    }
    if ends_path(k, at) {
        Ok((ends.len(), at + 2))
    } else {
        Err(Refusal::NoKey)
    }
}

// What comes next in a path that is read at a position. A component's own length is judged; how many components and bytes a path
// may have is `decode_path`'s to judge.
pub fn component_bytes(key: &[u8], at: usize) -> Result<Next, Refusal>
    ensures { component_says result ≡ component_read field at (drop at key.now) }
{
    if key.len() < at {
        return Err(Refusal::NoKey);
    }
    if ends_path(key, at) {
        return Ok(Next::PathEnd(at + 2));
    }
    let mut bytes = [0; COMPONENT_BYTES];
    let (len, used) = read_component(&key[at..], MCL, &mut bytes)?;
    Ok(Next::Component {
        bytes,
        len,
        next: at + used,
    })
}

// The path at a position, and the position behind it. How many bytes and components it may have is what the value has room for.
#[inline(always)]
pub fn decode_path(key: &[u8], at: usize) -> Result<PathRead, Refusal>
    ensures { said result ≡ path_read at (read_path field (drop at key.now)) }
{
    if key.len() < at {
        return Err(Refusal::NoKey);
    }
    let mut bytes = [0; PATH_BYTES];
    let mut ends = [0; PATH_ENDS];
    let (count, used) = decode_components(&key[at..], MCL, &mut bytes, &mut ends)?;
    Ok(PathRead {
        path: Path { bytes, ends, count },
        next: at + used,
    })
}

// The path of a key with so many bytes before it. `decode_path` is compiled where it is used, so that its answer is written where it is wanted: once here
// for all keys, and once for the reader of a path.
#[inline(never)]
fn path_behind(key: &[u8], before: usize) -> Result<PathRead, Refusal>
    requires { before ≤ length key.now }
    ensures { said result ≡ path_read 0 (read_path field (drop before key.now)) }
{
    decode_path(&key[before..], 0)
}

// A key with so many bytes before its path and so many behind it; the subspace stands before the path, the timestamp at a position. The
// path is read from the part of the key behind the bytes before it.
fn decode_key(key: &[u8], before: usize, behind: usize, time: usize) -> Result<EntryKey, Refusal>
    requires { (16 ≤ before) × (before + behind ≤ 24) × (24 ≤ length key.now) × (time + 8 ≤ length key.now) }
    ensures { said result ≡ decoded (read_key field before behind time key.now) }
{
    let read = path_behind(key, before)?;
    if before + read.next + behind != key.len() {
        return Err(Refusal::NoKey);
    }
    Ok(EntryKey {
        subspace: read_subspace(&key[before - 16..]),
        path: read.path,
        timestamp: read_u64(&key[time..]),
    })
}

// What a subspace-first key stands for: subspace, path, timestamp.
pub fn decode_spt_entry_key(key: &[u8]) -> Result<EntryKey, Refusal>
    ensures { said result ≡ decoded (read_spt field key.now) }
{
    if key.len() < 24 {
        return Err(Refusal::NoKey);
    }
    decode_key(key, 16, 8, key.len() - 8)
}

// What a time-first key stands for: timestamp, subspace, path.
// Kept (2): the C interface has a name for each order; what the two share is `decode_key`.
pub fn decode_tsp_entry_key(key: &[u8]) -> Result<EntryKey, Refusal>
    ensures { said result ≡ decoded (read_tsp field key.now) }
{
    if key.len() < 24 {
        return Err(Refusal::NoKey);
    }
    decode_key(key, 24, 0, 0)
}

// What the subspace-first key from a position on stands for; past the end: 5.
pub fn decode_spt_entry_key_at(key: &[u8], at: usize) -> Result<EntryKey, Refusal>
    ensures { said result ≡ decoded (read_spt field (drop at key.now)) }
{
    decode_spt_entry_key(key.get(at..).ok_or(Refusal::NoKey)?)
}

// What the time-first key from a position on stands for; past the end: 5.
// Kept (2): both are public entries, which docs/STATEMENTS.md names; the order as a type is the tree's, above.
pub fn decode_tsp_entry_key_at(key: &[u8], at: usize) -> Result<EntryKey, Refusal>
    ensures { said result ≡ decoded (read_tsp field (drop at key.now)) }
{
    decode_tsp_entry_key(key.get(at..).ok_or(Refusal::NoKey)?)
}
