// A line of the listing program, `in S P T L D`, read; and an entry listed, `S P T L D`, written.
ghost use Rattle.std.specs.Prelude.{◌≡◌, true, ◌+◌, ◌≤◌, ◌<◌, ◌++◌, ◌∷◌, [], length};
ghost use Rattle.laws.specs.Lists.{put};
ghost use Rattle.data_model.specs.Path.{field, legal, components};
ghost use Rattle.text.specs.Hex.{hex_byte};
ghost use Rattle.text.specs.Decimal.{decimal_text};
ghost use Rattle.text.specs.PathText.{path_text, path_text_most};
ghost use Rattle.text.specs.EntryLine.{space, is_in_line, line_read, rank_text, rank_text_most, listed_text, listed_text_most};

use crate::decimal::{read_number, write_number};
use crate::hex::{read_byte, write_hex_byte};
use crate::line::{count_fields, nth_field};
use crate::path::{FieldError, read_path};
use crate::path_text::write_path;
use data_model::path::Path;

// The most bytes of a line.
pub const LINE_MOST: usize = 1024;

// The entry that a line says: the subspace's last byte, the byte that fills the digest.
#[derive(Clone, Copy)]
pub struct EntryLine {
    pub subspace: u8,
    pub path: Path,
    pub timestamp: u64,
    pub payload_length: u64,
    pub digest: u8,
}

// Six fields, the first of them `in`, in a line that is not too long.
#[tactic(auto, unfolding(crate::specs::EntryLine::is_in_line))]
fn is_in_line(line: &[u8]) -> bool
    ensures { result ≡ is_in_line line.now }
{
    line.len() <= LINE_MOST
        && count_fields(line, b' ') == 6
        && nth_field(line, b' ', 0) == b"in".as_slice()
}

// The entry of a line. The path is asked last: only a line that is right in all other fields is illegal for its path.
pub fn read_line(line: &[u8]) -> Result<EntryLine, FieldError>
    ensures { result ≡ line_read line.now }
{
    if !is_in_line(line) {
        return Err(FieldError::Bad);
    }
    let Some(subspace) = read_byte(nth_field(line, b' ', 1)) else {
        return Err(FieldError::Bad);
    };
    let Some(timestamp) = read_number(nth_field(line, b' ', 3)) else {
        return Err(FieldError::Bad);
    };
    let Some(payload_length) = read_number(nth_field(line, b' ', 4)) else {
        return Err(FieldError::Bad);
    };
    let Some(digest) = read_byte(nth_field(line, b' ', 5)) else {
        return Err(FieldError::Bad);
    };
    let path = read_path(nth_field(line, b' ', 2))?;
    Ok(EntryLine {
        subspace,
        path,
        timestamp,
        payload_length,
        digest,
    })
}

// A number and the space behind it: at most 21 bytes.
fn write_spaced(x: u64, out: &mut [u8]) -> usize
    requires { 20 < length out.old }
    ensures { (result ≡ length (decimal_text x ++ space ∷ [])) × (result ≤ 21) × (out.new ≡ put (decimal_text x ++ space ∷ []) out.old) }
{
    let n = write_number(x, out);
    out[n] = b' ';
    n + 1
}

// `T L D`.
fn write_rank(t: u64, l: u64, d: u8, out: &mut [u8]) -> usize
    requires { rank_text_most ≤ length out.old }
    ensures { (result ≡ length (rank_text t l d)) × (result ≤ rank_text_most) × (out.new ≡ put (rank_text t l d) out.old) }
{
    let n = write_spaced(t, out);
    let m = n + write_spaced(l, &mut out[n..]);
    m + write_hex_byte(d, &mut out[m..])
}

// A byte, a path, each with the space behind it: 3 bytes, at most 273.
fn write_byte_spaced(b: u8, out: &mut [u8]) -> usize
    requires { 3 ≤ length out.old }
    ensures { (result ≡ 3) × (out.new ≡ put (hex_byte b ++ space ∷ []) out.old) }
{
    let n = write_hex_byte(b, out);
    out[n] = b' ';
    n + 1
}

fn write_path_spaced(p: Path, out: &mut [u8]) -> usize
    requires { (legal field p ≡ true) × (path_text_most < length out.old) }
    ensures { (result ≡ length (path_text (components p) ++ space ∷ [])) × (result ≤ path_text_most + 1) × (out.new ≡ put (path_text (components p) ++ space ∷ []) out.old) }
{
    let n = write_path(p, out);
    out[n] = b' ';
    n + 1
}

// `S P T L D`: at most 320 bytes.
pub fn write_listed(s: u8, p: Path, t: u64, l: u64, d: u8, out: &mut [u8]) -> usize
    requires { (legal field p ≡ true) × (listed_text_most ≤ length out.old) }
    ensures { (result ≡ length (listed_text s (components p) t l d)) × (out.new ≡ put (listed_text s (components p) t l d) out.old) }
{
    let n = write_byte_spaced(s, out);
    let m = n + write_path_spaced(p, &mut out[n..]);
    m + write_rank(t, l, d, &mut out[m..])
}
