// The fields of a line: what stands between the single bytes that part them.
ghost use Rattle.std.specs.Prelude.{◌≡◌, [], ◌+◌, ◌≤◌, length, drop, get_or};
ghost use Rattle.laws.specs.Lists.{put};
ghost use Rattle.text.specs.Fields.{fields, front};

// The bytes as they are.
pub fn write_bytes(from: &[u8], out: &mut [u8]) -> usize
    requires { length from.now ≤ length out.old }
    ensures { (result ≡ length from.now) × (out.new ≡ put from.now out.old) }
{
    out[..from.len()].copy_from_slice(from);
    from.len()
}

// Where the field that begins at a place ends.
pub fn field_end(s: &[u8], sep: u8, from: usize) -> usize
    requires { from ≤ length s.now }
    ensures { (result ≡ from + length (front sep (drop from s.now))) × (result ≤ length s.now) }
{
    match s[from..].iter().position(|&b| b == sep) {
        Some(n) => from + n,
        None => s.len(),
    }
}

// How many fields there are: one more than there are bytes that part them. There is no early way out, so that this is compiled to wide compares.
pub fn count_fields(s: &[u8], sep: u8) -> usize
    ensures { result ≡ length (fields sep s.now) }
{
    let mut n = 1;
    for b in s {
        if *b == sep {
            n += 1;
        }
    }
    n
}

// The k-th field, from 0; empty where there is none.
pub fn nth_field(s: &[u8], sep: u8, k: usize) -> &[u8]
    ensures { result.now ≡ get_or (fields sep s.now) k [] }
{
    s.split(|&b| b == sep).nth(k).unwrap_or(&[])
}
