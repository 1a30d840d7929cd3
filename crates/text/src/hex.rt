// Lower-case hexadecimal, two digits a byte.
ghost use Rattle.std.specs.Prelude.{◌≡◌, true, ◌∷◌, [], ◌+◌, ◌*◌, ◌≤◌, ◌<◌, length};
ghost use Rattle.laws.specs.Lists.{put};
ghost use Rattle.laws.specs.Sorted.{all};
ghost use Rattle.text.specs.Hex.{digit_value, is_digit, is_hex, hex_of, hex_digit, hex_byte, hex_text, hex_read, hex_in, has_room, byte_read};

// Why digits are not taken as bytes.
#[derive(Clone, Copy, PartialEq, Eq, Debug)]
pub enum HexError {
    // They are not of the form.
    Bad,
    // They stand for more bytes than the buffer holds.
    Short,
}

// The value of a digit; 16 for a byte that is none.
#[tactic(auto, unfolding(crate::specs::Hex::digit_value))]
pub fn digit_value(b: u8) -> u8
    ensures { result ≡ digit_value b }
{
    match b {
        b'0'..=b'9' => b - b'0',
        b'a'..=b'f' => b - b'a' + 10,
        // Kept (1): `digit_value` of specs/Hex, on which `is_digit`, `hex_of` and `number_from` rest, is 16 for a byte that is no digit.
        _ => 16,
    }
}

// Whether every byte is a digit of that base, 10 or 16.
pub fn all_digits(s: &[u8], base: u8) -> bool
    ensures { result ≡ all (is_digit base) s.now }
{
    s.iter().all(|&b| digit_value(b) < base)
}

// Whether the bytes are digits, an even number of them.
#[tactic(auto, unfolding(crate::specs::Hex::is_hex))]
pub fn is_hex(s: &[u8]) -> bool
    ensures { result ≡ is_hex s.now }
{
    s.len() % 2 == 0 && all_digits(s, 16)
}

// The byte of two digits.
fn pair_value(a: u8, b: u8) -> u8
    requires { (digit_value a < 16) × (digit_value b < 16) }
    ensures { result ≡ digit_value a * 16 + digit_value b }
{
    digit_value(a) * 16 + digit_value(b)
}

// The byte that a field of two digits stands for.
#[tactic(auto, unfolding(crate::specs::Hex::byte_read))]
pub fn read_byte(s: &[u8]) -> Option<u8>
    ensures { result ≡ byte_read s.now }
{
    if s.len() == 2 && is_hex(s) {
        Some(pair_value(s[0], s[1]))
    } else {
        None
    }
}

// The bytes of digits.
pub fn write_bytes_of(s: &[u8], out: &mut [u8]) -> usize
    requires { (is_hex s.now ≡ true) × (length s.now ≤ 2 * length out.old) }
    ensures { (result ≡ length (hex_of s.now)) × (out.new ≡ put (hex_of s.now) out.old) }
{
    let n = s.len() / 2;
    for i in 0..n {
        out[i] = pair_value(s[2 * i], s[2 * i + 1]);
    }
    n
}

// The same for any field and any buffer: how many bytes the digits stand for. Where they are not taken, the buffer is as it was.
pub fn read_hex(s: &[u8], out: &mut [u8]) -> Result<usize, HexError>
    ensures value { result ≡ hex_read (is_hex s.now) (has_room s.now out.old) (hex_of s.now) }
    ensures out_after { out.new ≡ hex_in (is_hex s.now) (has_room s.now out.old) (hex_of s.now) out.old }
{
    if !is_hex(s) {
        return Err(HexError::Bad);
    }
    if out.len() < s.len() / 2 {
        return Err(HexError::Short);
    }
    Ok(write_bytes_of(s, out))
}

// The digit of a value.
#[tactic(auto, unfolding(crate::specs::Hex::hex_digit))]
fn digit(n: u8) -> u8
    requires { n < 16 }
    ensures { result ≡ hex_digit n }
{
    if n < 10 { b'0' + n } else { b'a' + (n - 10) }
}

// The two digits of a byte.
pub fn write_hex_byte(b: u8, out: &mut [u8]) -> usize
    requires { 2 ≤ length out.old }
    ensures { (result ≡ 2) × (out.new ≡ put (hex_byte b) out.old) }
{
    out[0] = digit(b / 16);
    out[1] = digit(b % 16);
    2
}

// The digits of bytes.
pub fn write_hex(s: &[u8], out: &mut [u8]) -> usize
    requires { 2 * length s.now ≤ length out.old }
    ensures { (result ≡ length (hex_text s.now)) × (out.new ≡ put (hex_text s.now) out.old) }
{
    let mut at = 0;
    for &b in s {
        at += write_hex_byte(b, &mut out[at..]);
    }
    at
}
