// Paths written, as they are read.
ghost use Rattle.std.specs.Prelude.{◌≡◌, true, ◌+◌, ◌*◌, ◌≤◌, length};
ghost use Rattle.laws.specs.Lists.{put};
ghost use Rattle.data_model.specs.Path.{field, cut, components, legal, legal_ends};
ghost use Rattle.text.specs.PathText.{component_text, behind_text, path_text, path_text_most};

use crate::hex::write_hex;
use data_model::path::Path;

fn write_component(c: &[u8], out: &mut [u8]) -> usize
    requires { 2 * length c.now + 1 ≤ length out.old }
    ensures { (result ≡ length (component_text c.now)) × (out.new ≡ put (component_text c.now) out.old) }
{
    if c.is_empty() {
        out[0] = b'.';
        return 1;
    }
    write_hex(c, out)
}

// The components that the ends cut from a place on, each behind its `/`.
fn write_behind(bytes: &[u8], start: usize, ends: &[usize], out: &mut [u8]) -> usize
    requires { (legal_ends (length bytes.now) (length bytes.now) start ends.now ≡ true) × (2 * length bytes.now + 2 * length ends.now ≤ length out.old + 2 * start) }
    ensures { (result ≡ length (behind_text (cut bytes.now start ends.now))) × (out.new ≡ put (behind_text (cut bytes.now start ends.now)) out.old) }
{
    let mut at = 0;
    let mut from = start;
    for &end in ends {
        out[at] = b'/';
        at += 1;
        at += write_component(&bytes[from..end], &mut out[at..]);
        from = end;
    }
    at
}

// At most 272 bytes.
pub fn write_path(p: Path, out: &mut [u8]) -> usize
    requires { (legal field p ≡ true) × (path_text_most ≤ length out.old) }
    ensures { (result ≡ length (path_text (components p))) × (out.new ≡ put (path_text (components p)) out.old) }
{
    if p.count == 0 {
        out[0] = b'-';
        return 1;
    }
    let first = p.ends[0];
    let at = write_component(&p.bytes[..first], out);
    at + write_behind(&p.bytes, first, &p.ends[1..p.count], &mut out[at..])
}
