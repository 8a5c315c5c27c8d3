// The lines of a text, one by one, and the bytes that they may have.

ghost use Rattle.std.specs.Prelude.{◌≡◌, ◌==◌, length};
ghost use Rattle.std.specs.Option.{option_copied};
ghost use Rattle.ssa_lines.specs.Lines.{lines_of, is_plain_byte, is_allowed};
ghost use Rattle.ssa_lines.specs.Words.{TakesNext};

use memchr::memchr;
use std::marker::Model;

/// The lines of a text that are left. LF ends a line, and may be absent behind the last one.
#[derive(Drop)]
pub struct TextLines<'a> {
    rest: &'a [u8],
}

impl<'a> Model for TextLines<'a> {
    ghost use Rattle.std.specs.Prelude.{ℕ, List};
    ghost use Rattle.ssa_lines.specs.Lines.{lines_of};

    ghost Value = { List (List ℕ) };

    ghost view = { λ l. lines_of l.rest.now };
}

impl<'a> TextLines<'a> {
    /// The lines of a text.
    pub fn of(text: &'a [u8]) -> TextLines<'a>
        ensures { result ≡ lines_of text.now }
    {
        TextLines { rest: text }
    }

    /// Whether no line is left.
    pub fn is_empty(&self) -> bool
        ensures { result ≡ (length self.now == 0) }
    {
        self.rest.is_empty()
    }

    /// The next line, without its LF, which is then no longer left; none exactly where none is left.
    pub fn next(&mut self) -> Option<&'a [u8]>
        ensures { TakesNext self.old self.new (option_copied result) }
    {
        let text = self.rest;
        match memchr(b'\n', text) {
            Some(end) => {
                self.rest = &text[end + 1..];
                Some(&text[..end])
            }
            None if text.is_empty() => None,
            None => {
                self.rest = &[];
                Some(text)
            }
        }
    }
}

/// Whether a line has allowed bytes alone: printable ASCII, tabs, and the arrows `←` and `→`.
pub fn is_allowed(line: &[u8]) -> bool
    ensures { result ≡ is_allowed line.now }
{
    let mut rest = line;
    loop {
        match rest {
            [byte, behind @ ..] if is_plain_byte(*byte) => rest = behind,
            [0xE2, 0x86, 0x90 | 0x92, behind @ ..] => rest = behind,
            [] => return true,
            _ => return false,
        }
    }
}

// A byte that may stand by itself: printable ASCII, or a tab.
fn is_plain_byte(byte: u8) -> bool
    ensures { result ≡ is_plain_byte byte }
{
    matches!(byte, b' '..=b'~' | b'\t')
}
