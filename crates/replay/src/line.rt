// Lines read, and fields told, each behind a space. Numbers are in hex; bytes two digits each, without the zeros at the end, `-` if that is nothing.
ghost use Rattle.std.specs.Prelude.{◌≤◌, length};

use std::io;
use std::io::Read;

// The next byte of the input; none at its end.
fn next_byte<R: Read>(reader: &mut R) -> io::Result<Option<u8>> {
    let mut b = [0];
    let n = reader.read(&mut b)?;
    Ok(if n == 0 { None } else { Some(b[0]) })
}

// Reads a line and a space behind it, as far as the buffer goes; false at the input's end.
pub fn read_line<R: Read>(reader: &mut R, q: &mut [u8]) -> io::Result<bool> {
    for place in q {
        let Some(b) = next_byte(reader)? else {
            return Ok(false);
        };
        if b == b'\n' {
            *place = b' ';
            return Ok(true);
        }
        *place = b;
    }
    Ok(true)
}

// A number.
pub fn tell(rt: &impl Print, x: u64) -> io::Result<()> {
    print!(rt; " {x:x}")
}

// How many bytes there are up to the last that is not 0.
fn used(s: &[u8]) -> usize
    ensures { result ≤ length s.now }
{
    match s.iter().rposition(|&b| b != 0) {
        Some(last) => last + 1,
        None => 0,
    }
}

// Bytes, without the zeros at the end.
pub fn tell_bytes(rt: &impl Print, s: &[u8]) -> io::Result<()> {
    print!(rt; " ")?;
    let n = used(s);
    if n == 0 {
        print!(rt; "-")?;
    }
    for x in &s[..n] {
        print!(rt; "{x:02x}")?;
    }
    Ok(())
}

// The numbers that are not 0, each behind its place.
pub fn tell_numbers(rt: &impl Print, s: &[u32]) -> io::Result<()> {
    for (i, &x) in s.iter().enumerate() {
        if x != 0 {
            tell(rt, i as u64)?;
            tell(rt, u64::from(x))?;
        }
    }
    Ok(())
}

// Eight sizes.
pub fn tell_sizes(rt: &impl Print, s: &[usize; 8]) -> io::Result<()> {
    for &x in s {
        tell(rt, x as u64)?;
    }
    Ok(())
}
