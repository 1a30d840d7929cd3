// Values of a line's fields, counted from 0. What is missing or not of the form is 0. Every call has the same places: 1 namespace, 2 subspace (high,
// low), 4 path (bytes, eight ends, count), 14 timestamp or first time, 15 payload length or end of the times, 16 digest, 17 token, 18 any subspace or
// open subspaces, 19 open times, 20 second subspace, 22 second path, 32 open paths; from 33 on stands what only some calls have.
ghost use Rattle.std.specs.Prelude.{◌<◌, ◌≤◌, length};

use data_model::entry::Entry;
use data_model::parameters::Subspace;
use data_model::path::Path;
use plain::input::{PlainArea, PlainOrigin, PlainRange, PlainTimes};
use text::hex::{HexError, digit_value, read_hex};
use text::line::nth_field;

// The k-th field.
fn text_at(q: &[u8], k: usize) -> &[u8] {
    nth_field(q, b' ', k)
}

// The number that the last 16 digits of a field spell.
pub fn number(q: &[u8], k: usize) -> u64 {
    text_at(q, k).iter().fold(0, |x, &b| {
        x % 0x1000_0000_0000_0000 * 16 + u64::from(digit_value(b)) % 16
    })
}

// A number's last byte.
pub fn flag(q: &[u8], k: usize) -> u8 {
    (number(q, k) % 256) as u8
}

// The bytes of a field, and zeros behind them.
fn bytes<const N: usize>(q: &[u8], k: usize) -> [u8; N] {
    let mut out = [0; N];
    let _ = read_hex(text_at(q, k), &mut out);
    out
}

// The namespace.
pub fn namespace(q: &[u8]) -> [u8; 16] {
    bytes(q, 1)
}

// The digest.
pub fn digest(q: &[u8]) -> [u8; 32] {
    bytes(q, 16)
}

// The token.
pub fn token(q: &[u8]) -> [u8; 64] {
    bytes(q, 17)
}

// A subspace, from field k on.
pub fn subspace(q: &[u8], k: usize) -> Subspace
    requires { k < 99 }
{
    Subspace {
        high: number(q, k),
        low: number(q, k + 1),
    }
}

// A path, from field k on.
pub fn path(q: &[u8], k: usize) -> Path
    requires { k < 99 }
{
    let mut ends = [0; 8];
    for i in 0..8 {
        ends[i] = number(q, k + 1 + i) as usize;
    }
    Path {
        bytes: bytes(q, k),
        ends,
        count: number(q, k + 9) as usize,
    }
}

// The entry.
pub fn entry(q: &[u8]) -> Entry {
    Entry {
        namespace_id: namespace(q),
        subspace_id: subspace(q, 2),
        path: path(q, 4),
        timestamp: number(q, 14),
        payload_length: number(q, 15),
        payload_digest: digest(q),
    }
}

// Where an entry came from, fields 34 and 35: whether it is remote, and its session.
pub fn origin(q: &[u8]) -> PlainOrigin {
    PlainOrigin {
        remote: flag(q, 34),
        session: number(q, 35),
    }
}

// How many bytes of a remembered key are read: two more than any key has.
pub const LAST_MOST: usize = 300;

// The key that a listing remembers, field 35, read into a buffer; empty for what is not of the form, and zeros for what is too long.
pub fn last<'a>(q: &[u8], out: &'a mut [u8; LAST_MOST]) -> &'a [u8]
    ensures { length result.now ≤ 300 }
{
    let n = match read_hex(text_at(q, 35), out) {
        Ok(n) => n.min(LAST_MOST),
        Err(HexError::Bad) => 0,
        Err(HexError::Short) => LAST_MOST,
    };
    &out[..n]
}

// The times.
fn times(q: &[u8]) -> PlainTimes {
    PlainTimes {
        start: number(q, 14),
        end: number(q, 15),
        open: flag(q, 19),
    }
}

// The area.
pub fn area(q: &[u8]) -> PlainArea {
    PlainArea {
        any_subspace: flag(q, 18),
        subspace: subspace(q, 2),
        path: path(q, 4),
        times: times(q),
    }
}

// The protected area, from field 20 on; its flag and its times are fields 34 to 37.
pub fn kept(q: &[u8]) -> PlainArea {
    PlainArea {
        any_subspace: flag(q, 34),
        subspace: subspace(q, 20),
        path: path(q, 22),
        times: PlainTimes {
            start: number(q, 35),
            end: number(q, 36),
            open: flag(q, 37),
        },
    }
}

// The range.
pub fn range(q: &[u8]) -> PlainRange {
    PlainRange {
        subspaces: plain::input::PlainSubspaces {
            start: subspace(q, 2),
            end: subspace(q, 20),
            open: flag(q, 18),
        },
        paths: plain::input::PlainPaths {
            start: path(q, 4),
            end: path(q, 22),
            open: flag(q, 32),
        },
        times: times(q),
    }
}
