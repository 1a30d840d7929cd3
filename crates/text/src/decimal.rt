// Decimal numbers from 0 to 2^64 − 1, without leading zeros.
ghost use Rattle.std.specs.Prelude.{◌≡◌, true, ◌≤◌, ◌<◌, length, drop};
ghost use Rattle.laws.specs.Lists.{put};
ghost use Rattle.laws.specs.Sorted.{all};
ghost use Rattle.text.specs.Hex.{is_digit, digit_value};
ghost use Rattle.text.specs.Decimal.{is_plain, number_read, number_from, decimal_text, value_read};

use crate::hex::{all_digits, digit_value};
use crate::line::write_bytes;

// Digits, at least one, and no 0 before others.
pub fn is_plain(s: &[u8]) -> bool
    ensures { result ≡ is_plain s.now }
{
    !s.is_empty() && (s.len() == 1 || s[0] != b'0') && all_digits(s, 10)
}

// The number that digits stand for, unless it is 2^64 or above.
fn read_digits(s: &[u8]) -> Option<u64>
    ensures { result ≡ value_read (number_from 0 s.now) }
{
    let mut n: u64 = 0;
    for &b in s {
        n = n.checked_mul(10)?.checked_add(u64::from(digit_value(b)))?;
    }
    Some(n)
}

// The number of a field in decimal, below 2^64.
#[tactic(auto, unfolding(crate::specs::Decimal::number_read))]
pub fn read_number(s: &[u8]) -> Option<u64>
    ensures { result ≡ number_read s.now }
{
    if is_plain(s) { read_digits(s) } else { None }
}

// The digits of a number at the end of a buffer of 20, from the answer on.
fn digits_behind(x: u64, d: &mut [u8]) -> usize
    requires { length d.old ≡ 20 }
    ensures { (result ≤ 20) × (drop result d.new ≡ decimal_text x) }
{
    let mut rest = x;
    let mut j = 20;
    // Kept (3): the number of turns is that of the digits, and a `for` over the places would still leave by `return` when `rest` is 0.
    while 10 <= rest {
        j -= 1;
        d[j] = b'0' + (rest % 10) as u8;
        rest /= 10;
    }
    j -= 1;
    d[j] = b'0' + rest as u8;
    j
}

// The number in decimal: at most 20 digits.
pub fn write_number(x: u64, out: &mut [u8]) -> usize
    requires { 20 ≤ length out.old }
    ensures { (result ≡ length (decimal_text x)) × (out.new ≡ put (decimal_text x) out.old) }
{
    let mut d = [0; 20];
    let j = digits_behind(x, &mut d);
    write_bytes(&d[j..], out)
}
