// What the program prints: answers, and at the end the list.
ghost use Rattle.std.specs.Prelude.{◌≡◌, true, [], ◌∷◌, ◌++◌, ◌+◌, ◌≤◌, ◌<◌, length};
ghost use Rattle.laws.specs.Lists.{put};
ghost use Rattle.data_model.specs.Path.{field, legal};
ghost use Rattle.data_model.specs.Entry.{entry_of};
ghost use Rattle.text.specs.Decimal.{decimal_text};
ghost use Rattle.text.specs.EntryLine.{listed_text_most};
ghost use Rattle.tree.specs.Value.{value_length};
ghost use Rattle.listing.specs.Input.{newline};
ghost use Rattle.listing.specs.List.{entry_line_most};
ghost use Rattle.listing.specs.Say.{number_most, numbered, answer_text, answer_text_most, entry_text, record_text};

use crate::carry::Answer;
use data_model::entry::Entry;
use text::decimal::write_number;
use text::entry_line::write_listed;
use text::line::write_bytes;
use tree::stored::{KeyOrder, stored_in};
use tree::value::VALUE;

// The most bytes of an answer.
pub const ANSWER: usize = 29;

// A number and the line's end.
fn write_ended(x: u64, out: &mut [u8]) -> usize
    requires { number_most ≤ length out.old }
    ensures { (result ≡ length (decimal_text x ++ newline ∷ [])) × (result ≤ number_most) × (out.new ≡ put (decimal_text x ++ newline ∷ []) out.old) }
{
    let n = write_number(x, out);
    out[n] = b'\n';
    n + 1
}

// A word, a number behind it, and the line's end.
pub fn write_numbered(word: &[u8], x: u64, out: &mut [u8]) -> usize
    requires { length word.now + number_most ≤ length out.old }
    ensures { (result ≡ length (numbered word.now x)) × (result ≤ length word.now + number_most) × (out.new ≡ put (numbered word.now x) out.old) }
{
    let n = write_bytes(word, out);
    n + write_ended(x, &mut out[n..])
}

// The answer to a line, and the line's end.
pub fn write_answer(answer: Answer, out: &mut [u8]) -> usize
    requires { answer_text_most ≤ length out.old }
    ensures { (result ≡ length (answer_text answer)) × (result ≤ answer_text_most) × (out.new ≡ put (answer_text answer) out.old) }
{
    match answer {
        Answer::Ok => write_bytes(b"ok\n", out),
        Answer::Obsolete => write_bytes(b"obsolete\n", out),
        Answer::Held => write_bytes(b"held\n", out),
        Answer::Bad => write_bytes(b"bad\n", out),
        Answer::Refused(n) => write_numbered(b"refused ", u64::from(n), out),
    }
}

// `S P T L D`: of the subspace its last byte, of the digest its first.
// Kept (5): `listed_text_most ≤ length out`: the room that a writer asks of the rest of a buffer, which no array type says.
fn write_entry(e: Entry, out: &mut [u8]) -> usize
    requires { (legal field e.path ≡ true) × (listed_text_most ≤ length out.old) }
    ensures { (result ≡ length (entry_text (entry_of e))) × (result ≤ listed_text_most) × (out.new ≡ put (entry_text (entry_of e)) out.old) }
{
    write_listed(
        (e.subspace_id.low % 256) as u8,
        e.path,
        e.timestamp,
        e.payload_length,
        e.payload_digest[0],
        out,
    )
}

// The entry that a record of the subspace-first tree says.
fn write_record(rec: &[u8], out: &mut [u8]) -> usize
    requires { (value_length ≤ length rec.now) × (listed_text_most ≤ length out.old) }
    ensures { (result ≡ length (record_text rec.now)) × (result ≤ listed_text_most) × (out.new ≡ put (record_text rec.now) out.old) }
{
    let n = rec.len() - VALUE;
    let stored = stored_in(KeyOrder::Spt, [0; 16], &rec[..n], &rec[n..]);
    write_entry(stored.entry, out)
}

// The same, and the line's end.
pub fn write_line(rec: &[u8], out: &mut [u8]) -> usize
    requires { (value_length ≤ length rec.now) × (listed_text_most < length out.old) }
    ensures { (result ≡ length (record_text rec.now ++ newline ∷ [])) × (result ≤ entry_line_most) × (out.new ≡ put (record_text rec.now ++ newline ∷ []) out.old) }
{
    let n = write_record(rec, out);
    out[n] = b'\n';
    n + 1
}
