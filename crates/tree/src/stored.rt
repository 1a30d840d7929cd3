// Records: their keys in the two orders, their values, and the entry that a record says.
ghost use Rattle.std.specs.Prelude.{◌≡◌, true, ◌+◌, ◌*◌, ◌≤◌, ◌<◌, ◌^◌, length};
ghost use Rattle.laws.specs.Lists.{put};
ghost use Rattle.laws.specs.Parts.{PartBegins};
ghost use Rattle.layout.specs.Layout.{CutsOut, record_at, offset_at, length_at};
ghost use Rattle.data_model.specs.Path.{field, legal, components};
ghost use Rattle.data_model.specs.Origin.{origin_session};
ghost use Rattle.key_laws.specs.Bytes.{Bytes};
ghost use Rattle.data_model.specs.Refusal.{said};
ghost use Rattle.keys.specs.Encode.{triple, key_most};
ghost use Rattle.keys.specs.Decode.{decoded};
ghost use Rattle.tree.specs.Value.{value_length, read_value};
ghost use Rattle.tree.specs.Stored.{key_in, read_in, key_of, value_part, is_key, is_record, triple_read, entry_key, stored_from, stored, record_of, lengthy, stored_of};
ghost use Rattle.tree.specs.Tree.{InBounds};

use crate::value::{VALUE, Value, decode_entry_values, encode_entry_values, is_value};
use data_model::answer::Refusal;
use data_model::entry::Entry;
use data_model::entry_origin::EntryOrigin;
use data_model::parameters::Subspace;
use data_model::path::Path;
use keys::decode::{EntryKey, decode_spt_entry_key, decode_tsp_entry_key};
use keys::encode::{encode_spt_entry_key, encode_tsp_entry_key};
use keys::judge::{is_spt_key, is_tsp_key};
use layout::directory::{offset, size};

// By which key a tree is ordered: subspace, path, timestamp; or timestamp, subspace, path.
#[derive(Clone, Copy)]
pub enum KeyOrder {
    Spt,
    Tsp,
}

// One tree, to read: by which key it is ordered, how many records it has, its directory of pairs of offset and length, and its bytes. It
// promises only what the type says of any bytes: what a function needs besides, its contract asks.
// Kept (5): `Readable`, `InBounds`, `IsFormed` and `IsOrdered` stay clauses: docs/STATEMENTS.md names these functions, and an invariant would ask more of whoever makes a tree to test it.
#[derive(Clone, Copy)]
pub struct Tree<'a, 'd> {
    pub order: KeyOrder,
    pub count: usize,
    pub dir: &'d [u32],
    pub bytes: &'a [u8],
    ghost fits: { Bytes bytes.now },
}

// An entry with its token, how much of its payload is available, and where it came from.
#[derive(Clone, Copy)]
pub struct LengthyAuthorisedEntry {
    pub entry: Entry,
    pub token: [u8; 64],
    pub available: u64,
    pub origin: EntryOrigin,
}

// What a key says, or why it is none.
// Kept (7): 01 has two orders, and a closure for each would be picked by this very match.
pub fn decode_key(order: KeyOrder, key: &[u8]) -> Result<EntryKey, Refusal>
    ensures { said result ≡ decoded (read_in order field key.now) }
{
    match order {
        KeyOrder::Spt => decode_spt_entry_key(key),
        KeyOrder::Tsp => decode_tsp_entry_key(key),
    }
}

// Writes a key at the front of the buffer, and answers how many bytes.
pub fn encode_key(order: KeyOrder, s: Subspace, p: Path, t: u64, out: &mut [u8]) -> usize
    requires { (legal field p ≡ true) × (key_most field ≤ length out.old) }
    ensures { (result ≡ length (key_in order (triple s (components p) t))) × (out.new ≡ put (key_in order (triple s (components p) t)) out.old) }
{
    match order {
        KeyOrder::Spt => encode_spt_entry_key(s, p, t, out).unwrap_or(0),
        KeyOrder::Tsp => encode_tsp_entry_key(s, p, t, out).unwrap_or(0),
    }
}

// Whether bytes are a key that an encoder writes.
pub fn is_key(order: KeyOrder, key: &[u8]) -> bool
    ensures { result ≡ is_key order field key.now }
{
    match order {
        KeyOrder::Spt => is_spt_key(key),
        KeyOrder::Tsp => is_tsp_key(key),
    }
}

// Whether bytes are a record: a key that an encoder writes, and a value.
pub fn is_record(order: KeyOrder, rec: &[u8]) -> bool
    ensures { result ≡ is_record order field rec.now }
{
    if rec.len() < VALUE {
        return false;
    }
    let (key, value) = rec.split_at(rec.len() - VALUE);
    is_key(order, key) && is_value(value)
}

// Where record k begins in the tree.
pub fn record_offset(dir: &[u32], k: usize) -> usize
    requires { 2 * k + 1 < length dir.now }
    ensures { result ≡ offset_at k dir.now }
{
    offset(dir, k)
}

// How many bytes record k has.
pub fn record_length(dir: &[u32], k: usize) -> usize
    requires { 2 * k + 1 < length dir.now }
    ensures { result ≡ length_at k dir.now }
{
    size(dir, k)
}

impl<'a, 'd> Tree<'a, 'd> {
    // Record k as a part of the tree: its bytes, and where they lie.
    pub fn record_at(self, k: usize) -> &'a [u8]
        requires { CutsOut k self.dir.now self.bytes.now }
        ensures result_value { result.now ≡ record_at k self.entry.dir.now self.entry.bytes.now }
        ensures part_begins { PartBegins self.entry.bytes.ref_ptr result.ref_ptr (offset_at k self.entry.dir.now) }
    {
        layout::directory::record_at(self.bytes, self.dir, k)
    }

    // The key of record k, as a part of the tree.
    pub fn key_at(self, k: usize) -> &'a [u8]
        requires { InBounds k self.dir.now self.bytes.now }
        ensures { result.now ≡ key_of (record_at k self.entry.dir.now self.entry.bytes.now) }
    {
        let at = offset(self.dir, k);
        &self.bytes[at..at + size(self.dir, k) - VALUE]
    }

    // The value of record k, as a part of the tree.
    pub fn value_at(self, k: usize) -> &'a [u8]
        requires { InBounds k self.dir.now self.bytes.now }
        ensures { result.now ≡ value_part (record_at k self.entry.dir.now self.entry.bytes.now) }
    {
        let end = offset(self.dir, k) + size(self.dir, k);
        &self.bytes[end - VALUE..end]
    }

    // The entry at record k.
    pub fn stored_at(self, namespace: [u8; 16], k: usize) -> LengthyAuthorisedEntry
        requires { InBounds k self.dir.now self.bytes.now }
        ensures value { result ≡ lengthy (stored self.entry.order field namespace (record_at k self.entry.dir.now self.entry.bytes.now)) }
        ensures path_value { (legal field result.entry.path ≡ true) × (stored_of result ≡ stored self.entry.order field namespace (record_at k self.entry.dir.now self.entry.bytes.now)) }
    {
        stored_in(self.order, namespace, self.key_at(k), self.value_at(k))
    }
}

// What a key says, its path canonical; the empty path of the first subspace at time 0 for what is no key.
fn key_said(order: KeyOrder, key: &[u8]) -> EntryKey
    ensures { result ≡ entry_key (triple_read (read_in order field key.now)) }
{
    match decode_key(order, key) {
        Ok(said) => said,
        Err(_) => EntryKey {
            subspace: Subspace { high: 0, low: 0 },
            path: Path::new_empty(),
            timestamp: 0,
        },
    }
}

// What a record says, its path canonical and legal.
pub fn stored_in(
    order: KeyOrder,
    namespace: [u8; 16],
    key: &[u8],
    value: &[u8],
) -> LengthyAuthorisedEntry
    requires { length value.now ≡ value_length }
    ensures { result ≡ lengthy (stored_from namespace (triple_read (read_in order field key.now)) (read_value value.now)) }
{
    let d = key_said(order, key);
    let v = decode_entry_values(value);
    let payload_digest = v.payload_digest;
    let token = v.token;
    LengthyAuthorisedEntry {
        entry: Entry {
            namespace_id: namespace,
            subspace_id: d.subspace,
            path: d.path,
            timestamp: d.timestamp,
            payload_length: v.payload_length,
            payload_digest,
        },
        token,
        available: v.available,
        origin: EntryOrigin::new(v.kind, v.session),
    }
}

// Writes the record of an entry at the front of the buffer, and answers how many bytes. Ensures besides that the origin's session is below 2 ^ 64, which of an
// enum that is handed in nothing else says.
pub fn encode_record(order: KeyOrder, a: LengthyAuthorisedEntry, out: &mut [u8]) -> usize
    requires { (legal field a.entry.path ≡ true) × (key_most field + value_length ≤ length out.old) }
    ensures { (result ≡ length (record_of order (stored_of a))) × (out.new ≡ put (record_of order (stored_of a)) out.old) × (origin_session a.origin < 2 ^ 64) }
{
    let e = a.entry;
    let payload_digest = e.payload_digest;
    let token = a.token;
    let n = encode_key(order, e.subspace_id, e.path, e.timestamp, out);
    let v = Value {
        payload_length: e.payload_length,
        payload_digest,
        token,
        available: a.available,
        kind: a.origin.kind(),
        session: a.origin.session(),
    };
    n + encode_entry_values(v, &mut out[n..])
}
