// The value of a record: payload length 8 bytes, digest 32, token 64, available length 8, and the origin, which is a kind of 1 byte and a session number of 8;
// whole numbers big-endian.
ghost use Rattle.std.specs.Prelude.{◌≡◌, ◌++◌, ◌-◌, ◌≤◌, length};
ghost use Rattle.laws.specs.Lists.{put};
ghost use Rattle.data_model.specs.Origin.{is_origin};
ghost use Rattle.keys.specs.Encode.{be};
ghost use Rattle.tree.specs.Value.{token_at, available_at, origin_at, value_length, origin_bytes, value_bytes, read_value, is_value};

use data_model::entry_origin::is_origin;
use keys::number::{read_u64, write_u64};
use layout::bytes::write;

// How many bytes a token has; where in a value the digest, the token, the available length, the origin and its session number begin; how many bytes a value has.
const TOKEN: usize = 64;

const DIGEST_AT: usize = 8;

const TOKEN_AT: usize = DIGEST_AT + 32;

pub const AVAILABLE_AT: usize = TOKEN_AT + TOKEN;

const ORIGIN_AT: usize = AVAILABLE_AT + 8;

const SESSION_AT: usize = ORIGIN_AT + 1;

pub const VALUE: usize = SESSION_AT + 8;

// A value as it lies: kind and session number of an origin, whether or not they are those of one.
// Kept (1): the definition `read_value` reads any bytes, also such as are of no origin, which `is_value` then refuses.
// Kept (5): `length value ≡ value_length`: a value is lent as the end of a record, a slice; as an array it would be copied.
#[derive(Clone, Copy)]
pub struct Value {
    pub payload_length: u64,
    pub payload_digest: [u8; 32],
    pub token: [u8; 64],
    pub available: u64,
    pub kind: u8,
    pub session: u64,
}

// Writes the front of a value: a payload length, and a digest behind it.
fn write_front(n: u64, digest: &[u8], out: &mut [u8])
    requires { (length digest.now ≡ 32) × (token_at ≤ length out.old) }
    ensures { out.new ≡ put (be 8 n ++ digest.now) out.old }
{
    write_u64(n, out);
    write(out, DIGEST_AT, digest);
}

// Writes the nine bytes of an origin: its kind, and its session number behind it.
fn write_origin(kind: u8, session: u64, out: &mut [u8])
    requires { value_length - origin_at ≤ length out.old }
    ensures { out.new ≡ put (origin_bytes kind session) out.old }
{
    out[0] = kind;
    write_u64(session, &mut out[SESSION_AT - ORIGIN_AT..]);
}

// Writes the end of a value: an available length, and an origin behind it.
fn write_end(n: u64, kind: u8, session: u64, out: &mut [u8])
    requires { value_length - available_at ≤ length out.old }
    ensures { out.new ≡ put (be 8 n ++ origin_bytes kind session) out.old }
{
    write_u64(n, out);
    write_origin(kind, session, &mut out[ORIGIN_AT - AVAILABLE_AT..]);
}

// Writes the rest of a value: a token, and behind it an available length and an origin.
fn write_back(token: &[u8], n: u64, kind: u8, session: u64, out: &mut [u8])
    requires { (length token.now ≡ 64) × (value_length - token_at ≤ length out.old) }
    ensures { out.new ≡ put (token.now ++ (be 8 n ++ origin_bytes kind session)) out.old }
{
    write(out, 0, token);
    write_end(n, kind, session, &mut out[TOKEN..]);
}

// Writes a value at the front of the buffer, and answers how many bytes.
pub fn encode_entry_values(v: Value, out: &mut [u8]) -> usize
    requires { value_length ≤ length out.old }
    ensures { (result ≡ value_length) × (out.new ≡ put (value_bytes v) out.old) }
{
    write_front(v.payload_length, &v.payload_digest, out);
    write_back(
        &v.token,
        v.available,
        v.kind,
        v.session,
        &mut out[TOKEN_AT..],
    );
    VALUE
}

// Bytes as an array of that length.
// Kept (4): `try_into` would leave a case to rule out where the lengths differ, which this clause rules out before.
fn copy<const N: usize>(from: &[u8]) -> [u8; N]
    requires { length from.now ≡ N }
    ensures { result ≡ from.now }
{
    let mut out = [0u8; N];
    out.copy_from_slice(from);
    out
}

// Reads a value.
pub fn decode_entry_values(value: &[u8]) -> Value
    requires { length value.now ≡ value_length }
    ensures { result ≡ read_value value.now }
{
    Value {
        payload_length: read_u64(value),
        payload_digest: copy(&value[DIGEST_AT..TOKEN_AT]),
        token: copy(&value[TOKEN_AT..AVAILABLE_AT]),
        available: read_u64(&value[AVAILABLE_AT..]),
        kind: value[ORIGIN_AT],
        session: read_u64(&value[SESSION_AT..]),
    }
}

// The payload length of a value.
pub fn payload_length(value: &[u8]) -> u64
    requires { length value.now ≡ value_length }
    ensures { result ≡ (read_value value.now).payload_length }
{
    read_u64(value)
}

// The available length of a value.
pub fn available(value: &[u8]) -> u64
    requires { length value.now ≡ value_length }
    ensures { result ≡ (read_value value.now).available }
{
    read_u64(&value[AVAILABLE_AT..])
}

// The bytes of the digest, as a part of the value.
pub fn payload_digest<'a>(value: &'a [u8]) -> &'a [u8]
    requires { length value.now ≡ value_length }
    ensures { result.now ≡ (read_value value.now).payload_digest }
{
    &value[DIGEST_AT..TOKEN_AT]
}

// Whether kind and session number are those of an origin.
fn has_origin(value: &[u8]) -> bool
    requires { length value.now ≡ value_length }
    ensures { result ≡ is_origin (read_value value.now).kind (read_value value.now).session }
{
    is_origin(value[ORIGIN_AT], read_u64(&value[SESSION_AT..]))
}

// Whether no more is available than there is, and kind and session number are those of an origin.
pub fn is_value(value: &[u8]) -> bool
    requires { length value.now ≡ value_length }
    ensures { result ≡ is_value (read_value value.now) }
{
    available(value) <= payload_length(value) && has_origin(value)
}
