// What stands at a position of a path's bytes: a byte of a component, or an end.
ghost use Rattle.std.specs.Prelude.{◌≡◌, length, drop};
ghost use Rattle.data_model.specs.Refusal.{said_by};
ghost use Rattle.keys.specs.Encode.{escaped};
ghost use Rattle.keys.specs.Decode.{token_says, token_of, ends_path};
ghost use Rattle.keys.specs.Inner.{escape_case};

use crate::encode::{COMPONENT_END, ESCAPED_ZERO, PATH_END};
use data_model::answer::Refusal;

// What stands at a position of a path's bytes.
#[derive(Clone, Copy, PartialEq, Eq, Debug)]
pub enum Token {
    Byte(u8),
    ComponentEnd,
    PathEnd,
}

// The cases of the escape table: an ordinary byte; 00 then 00, 01, 02 or anything else; 00 at the end.
#[derive(Clone, Copy, PartialEq, Eq, Debug)]
enum EscapeCase {
    Ordinary(u8),
    ZeroZero,
    ZeroOne,
    ZeroTwo,
    ZeroOther,
    ZeroLast,
}

// Which case a byte is, by the bytes behind it. A 00 and the next byte are compared with the marks.
fn escape_case(b: u8, rest: &[u8]) -> EscapeCase
    ensures { result ≡ escape_case b rest.now }
{
    if b != 0 {
        return EscapeCase::Ordinary(b);
    }
    let Some(&m) = rest.first() else {
        return EscapeCase::ZeroLast;
    };
    if [b, m] == PATH_END {
        EscapeCase::ZeroZero
    } else if [b, m] == COMPONENT_END {
        EscapeCase::ZeroOne
    } else if [b, m] == ESCAPED_ZERO {
        EscapeCase::ZeroTwo
    } else {
        EscapeCase::ZeroOther
    }
}

// The token at a position. Past the end of the key stands nothing: 5.
pub fn token_at(key: &[u8], at: usize) -> Result<Token, Refusal>
    ensures { said_by token_says result ≡ token_of (drop at key.now) }
{
    if key.len() <= at {
        return Err(Refusal::NoKey);
    }
    match escape_case(key[at], &key[at + 1..]) {
        // An ordinary byte: itself.
        EscapeCase::Ordinary(b) => Ok(Token::Byte(b)),
        // 00 then 00: the path ends.
        EscapeCase::ZeroZero => Ok(Token::PathEnd),
        // 00 then 01: the component ends.
        EscapeCase::ZeroOne => Ok(Token::ComponentEnd),
        // 00 then 02: the byte 00.
        EscapeCase::ZeroTwo => Ok(Token::Byte(0)),
        // 00 then anything else: 5.
        EscapeCase::ZeroOther => Err(Refusal::NoKey),
        // 00 at the end: 5.
        EscapeCase::ZeroLast => Err(Refusal::NoKey),
    }
}

// How many bytes a byte of a component takes.
pub fn width(b: u8) -> usize
    ensures { result ≡ length (escaped b) }
{
    if b == 0 { 2 } else { 1 }
}

// Whether a path ends at a position.
pub fn ends_path(key: &[u8], at: usize) -> bool
    ensures { result ≡ ends_path (token_of (drop at key.now)) }
{
    matches!(token_at(key, at), Ok(Token::PathEnd))
}
