// Paths read: `-` for the empty path, else components joined by `/`, each `.` if it is empty, else two hex digits a byte.
ghost use Rattle.std.specs.Prelude.{◌≡◌, true, map, ◌/◌, ◌≤◌, length};
ghost use Rattle.laws.specs.Lists.{put};
ghost use Rattle.laws.specs.Sorted.{all};
ghost use Rattle.data_model.specs.Path.{field, joined, ends_from};
ghost use Rattle.text.specs.Hex.{hex_of};
ghost use Rattle.text.specs.Fields.{fields};
ghost use Rattle.text.specs.PathField.{is_only, slash, is_component_field, path_field, fields_fit, counted, PutIf};

use crate::hex::{is_hex, write_bytes_of};
use crate::line::field_end;
use data_model::path::{MCL, PATH_BYTES, PATH_ENDS, Path};

// Why a field is no path, or a line no entry.
#[derive(Clone, Copy, PartialEq, Eq, Debug)]
pub enum FieldError {
    // Of the form, but outside the bounds of a path.
    Illegal,
    // Not of the form.
    Bad,
}

// Whether a field is one byte and that one.
#[tactic(auto, unfolding(crate::specs::PathField::is_only))]
fn is_only(f: &[u8], b: u8) -> bool
    ensures { result ≡ is_only b f.now }
{
    f == [b].as_slice()
}

#[tactic(auto, unfolding(crate::specs::PathField::is_component_field))]
fn is_component_field(f: &[u8]) -> bool
    ensures { result ≡ is_component_field f.now }
{
    is_only(f, b'.') || !f.is_empty() && is_hex(f)
}

fn all_components(s: &[u8]) -> bool
    ensures { result ≡ all is_component_field (fields slash s.now) }
{
    s.split(|&b| b == b'/').all(is_component_field)
}

// The bytes of a component.
fn write_component(f: &[u8], out: &mut [u8]) -> usize
    requires { (is_component_field f.now ≡ true) × (length f.now / 2 ≤ length out.old) }
    ensures { (result ≡ length (hex_of f.now)) × (out.new ≡ put (hex_of f.now) out.old) }
{
    if f.len() == 1 {
        return 0;
    }
    write_bytes_of(f, out)
}

// The components of a field that is no `-`: their bytes and their ends go to the front of the two buffers, whose lengths are
// the most bytes and the most components. How many there are, if they fit.
fn read_components(s: &[u8], bytes: &mut [u8], ends: &mut [usize]) -> Option<usize>
    requires { all is_component_field (fields slash s.now) ≡ true }
    ensures value { result ≡ counted (fields_fit (length bytes.old) (length ends.old) s.now) (length (fields slash s.now)) }
    ensures put_if { PutIf (fields_fit (length bytes.old) (length ends.old) s.now) (joined (map hex_of (fields slash s.now))) bytes.old bytes.new }
    ensures put_if_2 { PutIf (fields_fit (length bytes.old) (length ends.old) s.now) (ends_from 0 (map hex_of (fields slash s.now))) ends.old ends.new }
{
    let mut at = 0;
    let mut total = 0;
    for n in 0..ends.len() {
        let e = field_end(s, b'/', at);
        let len = (e - at) / 2;
        if MCL < len || bytes.len() - total < len {
            return None;
        }
        write_component(&s[at..e], &mut bytes[total..]);
        total += len;
        ends[n] = total;
        if e == s.len() {
            return Some(n + 1);
        }
        at = e + 1;
    }
    None
}

// The path of a field.
pub fn read_path(s: &[u8]) -> Result<Path, FieldError>
    ensures { result ≡ path_field s.now }
{
    if is_only(s, b'-') {
        return Ok(Path::new_empty());
    }
    if !all_components(s) {
        return Err(FieldError::Bad);
    }
    let mut bytes = [0; PATH_BYTES];
    let mut ends = [0; PATH_ENDS];
    let Some(count) = read_components(s, &mut bytes, &mut ends) else {
        return Err(FieldError::Illegal);
    };
    Ok(Path { bytes, ends, count })
}
