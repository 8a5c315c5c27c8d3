// The spelling of a line or a word, piece by piece.

ghost use Rattle.std.specs.Prelude.{◌<◌, ◌≤◌, length, IfSome};
ghost use Rattle.std.specs.Iterator.{at_most};

use crate::numbers::read_number;
use memchr::memchr;

/// A piece of a spelling.
#[derive(Clone, Copy)]
pub(crate) enum Spelled<'a> {
    /// Bytes that stand for themselves, at least one.
    Plain(&'a [u8]),
    /// The byte that an escape stands for.
    Byte(u8),
    /// A number that grows from turn to turn.
    Number { start: u64, step: u64 },
    /// A backslash before what is no escape. Nothing behind it is looked at.
    Bad,
}

/// The pieces of a spelling that are left.
#[derive(Drop)]
pub(crate) struct Spelling<'a> {
    rest: &'a [u8],
}

impl<'a> Spelling<'a> {
    /// The pieces of this spelling.
    pub fn of(text: &'a [u8]) -> Spelling<'a> {
        Spelling { rest: text }
    }
}

impl<'a> Iterator for Spelling<'a> {
    type Item = Spelled<'a>;

    ghost remaining = { λ spelling. at_most (length spelling.rest.now) };

    fn next(&mut self) -> Option<Spelled<'a>> {
        let (first, behind) = self.rest.split_first()?;
        if *first == b'\\' {
            let (spelled, rest) = read_escape(behind);
            self.rest = rest;
            return Some(spelled);
        }
        let end = memchr(b'\\', behind).map_or(behind.len(), |at| at);
        let plain = &self.rest[..end + 1];
        self.rest = &behind[end..];
        Some(Spelled::Plain(plain))
    }
}

// What the bytes behind a backslash stand for, and what is behind them.
fn read_escape(text: &[u8]) -> (Spelled<'_>, &[u8])
    ensures { length result.1.now ≤ length text.now }
{
    match text {
        [b'\\', behind @ ..] => (Spelled::Byte(b'\\'), behind),
        [b'x', high, low, behind @ ..] => (hex_byte(*high, *low), behind),
        [b'(', inner @ ..] => match memchr(b')', inner) {
            Some(end) => (read_growing(&inner[..end]), &inner[end + 1..]),
            None => (Spelled::Bad, &[]),
        },
        _ => (Spelled::Bad, &[]),
    }
}

// The byte of two hexadecimal digits.
fn hex_byte<'a>(high: u8, low: u8) -> Spelled<'a> {
    match (hex_digit(high), hex_digit(low)) {
        (Some(high), Some(low)) => Spelled::Byte(high * 16 + low),
        _ => Spelled::Bad,
    }
}

// What a hexadecimal digit stands for.
fn hex_digit(digit: u8) -> Option<u8>
    ensures { IfSome result (λ n. n < 16) }
{
    match digit {
        b'0'..=b'9' => Some(digit - b'0'),
        b'a'..=b'f' => Some(digit - b'a' + 10),
        b'A'..=b'F' => Some(digit - b'A' + 10),
        _ => None,
    }
}

// The number that `START` or `START STEP` stands for.
fn read_growing<'a>(text: &[u8]) -> Spelled<'a> {
    let (start, step) = match memchr(b' ', text) {
        None => (read_number(text), Some(1)),
        Some(space) => (read_number(&text[..space]), read_number(&text[space + 1..])),
    };
    match (start, step) {
        (Some(start), Some(step)) => Spelled::Number { start, step },
        _ => Spelled::Bad,
    }
}
