// The lines of an archive, with their numbers.

ghost use Rattle.std.specs.Prelude.{length};
ghost use Rattle.std.specs.Iterator.{at_most};

use crate::fault::{ArchiveFault, ArchiveRefusal};
use memchr::memchr;

/// A line without its LF, and its number from 1.
#[derive(Clone, Copy)]
pub(crate) struct Line<'a> {
    pub number: u64,
    pub text: &'a [u8],
}

impl<'a> Line<'a> {
    /// The refusal of an archive for this line.
    pub fn refusal(self, fault: ArchiveFault) -> ArchiveRefusal {
        ArchiveRefusal::At {
            line: self.number,
            fault,
        }
    }

    /// The name of the row whose head this line is.
    pub fn row_name(self) -> Option<&'a [u8]> {
        self.text.strip_prefix(b"=== ")
    }

    /// The name of the part whose head this line is.
    pub fn part_name(self) -> Option<&'a [u8]> {
        self.text.strip_prefix(b"-- ")?.strip_suffix(b" --")
    }
}

/// The lines of a text that are left. LF ends a line, and may be absent behind the last one.
#[derive(Drop)]
pub(crate) struct Lines<'a> {
    rest: &'a [u8],
    number: u64,
}

impl<'a> Lines<'a> {
    /// The lines of a text.
    pub fn of(text: &'a [u8]) -> Lines<'a> {
        Lines {
            rest: text,
            number: 1,
        }
    }
}

impl<'a> Iterator for Lines<'a> {
    type Item = Line<'a>;

    ghost remaining = { λ lines. at_most (length lines.rest.now) };

    fn next(&mut self) -> Option<Line<'a>> {
        let text = self.rest;
        let number = self.number;
        if text.is_empty() {
            return None;
        }
        self.number = number.saturating_add(1);
        match memchr(b'\n', text) {
            Some(end) => {
                self.rest = &text[end + 1..];
                Some(Line {
                    number,
                    text: &text[..end],
                })
            }
            None => {
                self.rest = &[];
                Some(Line { number, text })
            }
        }
    }
}
