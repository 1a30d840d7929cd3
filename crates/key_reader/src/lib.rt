// A reader that holds a key's bytes by reference, with its position. Its methods leave the work to the decoder on slice and number.
#![tactic(auto)]

ghost use Rattle.std.specs.Prelude.{◌≡◌, min, length, drop};
ghost use Rattle.laws.specs.Parts.{PartBegins};
ghost use Rattle.data_model.specs.Path.{field};
ghost use Rattle.data_model.specs.Refusal.{said};
ghost use Rattle.keys.specs.Decode.{read_path, component_says, component_read, path_read, read_spt, read_tsp, decoded};
ghost use Rattle.key_reader.specs.Reader.{behind, stepped_says, stepped};

use data_model::answer::Refusal;
use keys::decode::{EntryKey, Next, PathRead};

// A key's bytes, and the position of the next byte to read.
#[derive(Clone, Copy)]
pub struct KeyReader<'a> {
    pub bytes: &'a [u8],
    pub at: usize,
}

// A slice from a position on; past the end: nothing, at its end.
fn from_position(bytes: &[u8], at: usize) -> &[u8]
    ensures { (result.now ≡ drop at bytes.now) × PartBegins bytes.entry.ref_ptr result.ref_ptr (min at (length bytes.now)) }
{
    &bytes[at.min(bytes.len())..]
}

impl<'a> KeyReader<'a> {
    // A reader at the beginning of a key.
    pub fn new(bytes: &'a [u8]) -> KeyReader<'a>
        ensures { (result.bytes ≡ bytes.entry) × (result.at ≡ 0) }
    {
        KeyReader { bytes, at: 0 }
    }

    // The position of the next byte to read.
    pub fn position(self) -> usize
        ensures { result ≡ self.entry.at }
    {
        self.at
    }

    // What is left to read, as a part of the key: its bytes, and where they lie. Past the end: nothing, at the key's end.
    pub fn rest(self) -> &'a [u8]
        ensures { (result.now ≡ drop self.entry.at self.entry.bytes.now) × PartBegins self.entry.bytes.ref_ptr result.ref_ptr (min self.entry.at (length self.entry.bytes.now)) }
    {
        from_position(self.bytes, self.at)
    }

    // Reads the component at the reader's position, or the path's end, and moves the reader behind it. A refusal leaves the reader where it was.
    pub fn next_component<'s>(&'s mut self) -> Result<Next, Refusal>
        ensures { (component_says result ≡ component_read field self.old.at (drop self.old.at self.old.bytes.now)) × (self.new.bytes ≡ self.old.bytes) × (self.new.at ≡ behind (component_says result) self.old.at) }
    {
        let component = keys::decode::component_bytes(self.bytes, self.at)?;
        self.at = match component {
            Next::Component { next, .. } => next,
            Next::PathEnd(next) => next,
        };
        Ok(component)
    }

    // Decodes the path that begins at the reader's position. The reader stays where it is.
    #[inline(always)]
    pub fn decode_path(self) -> Result<PathRead, Refusal>
        ensures { said result ≡ path_read self.entry.at (read_path field (drop self.entry.at self.entry.bytes.now)) }
    {
        keys::decode::decode_path(self.bytes, self.at)
    }

    // Decodes the bytes from the reader's position to the key's end as a subspace-first key.
    pub fn decode_spt_entry_key(self) -> Result<EntryKey, Refusal>
        ensures { said result ≡ decoded (read_spt field (drop self.entry.at self.entry.bytes.now)) }
    {
        keys::decode::decode_spt_entry_key_at(self.bytes, self.at)
    }

    // Decodes the bytes from the reader's position to the key's end as a time-first key.
    // Kept (2): the Rust has a decoder for each order; the order as a type is the tree's, above.
    pub fn decode_tsp_entry_key(self) -> Result<EntryKey, Refusal>
        ensures { said result ≡ decoded (read_tsp field (drop self.entry.at self.entry.bytes.now)) }
    {
        keys::decode::decode_tsp_entry_key_at(self.bytes, self.at)
    }
}

// What one step of a reader gives: the component or the path's end that it read, its position behind it, and how many bytes are left to read.
#[derive(Clone, Copy)]
pub struct Stepped {
    pub component: Result<Next, Refusal>,
    pub position: usize,
    pub left: usize,
}

// Reads one component, or the path's end, at a position of a key: one step of a reader, for callers that cannot hold a reader.
pub fn component_at(bytes: &[u8], at: usize) -> Stepped
    ensures { stepped_says result ≡ stepped at bytes.now }
{
    let mut r = KeyReader { bytes, at };
    let component = r.next_component();
    Stepped {
        component,
        position: r.position(),
        left: r.rest().len(),
    }
}

// Decodes the path that begins at a position of a key, through a reader.
#[inline(always)]
pub fn path_at(bytes: &[u8], at: usize) -> Result<PathRead, Refusal>
    ensures { said result ≡ path_read at (read_path field (drop at bytes.now)) }
{
    KeyReader { bytes, at }.decode_path()
}

// Decodes a whole subspace-first key through a reader.
pub fn read_spt_entry_key(key: &[u8]) -> Result<EntryKey, Refusal>
    ensures { said result ≡ decoded (read_spt field key.now) }
{
    KeyReader::new(key).decode_spt_entry_key()
}

// Decodes a whole time-first key through a reader.
// Kept (2): the C interface has a name for each order.
pub fn read_tsp_entry_key(key: &[u8]) -> Result<EntryKey, Refusal>
    ensures { said result ≡ decoded (read_tsp field key.now) }
{
    KeyReader::new(key).decode_tsp_entry_key()
}
