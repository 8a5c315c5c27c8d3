// The words of a line, one by one.

ghost use Rattle.std.specs.Prelude.{◌≡◌, ◌==◌, ◌≤◌, length};
ghost use Rattle.std.specs.List.{prefix_len};
ghost use Rattle.std.specs.Option.{option_copied};
ghost use Rattle.ssa_lines.specs.Lines.{is_space};
ghost use Rattle.ssa_lines.specs.Words.{words_of, is_word_byte, is_same, without_first, without_last, is_marked, opens};
ghost use Rattle.ssa_lines.specs.Words.{TakesNext};

use std::marker::Model;

/// The words of a line that are left, which spaces and tabs part.
#[derive(Drop)]
pub struct Words<'a> {
    rest: &'a [u8],
}

impl<'a> Model for Words<'a> {
    ghost use Rattle.std.specs.Prelude.{ℕ, List};
    ghost use Rattle.ssa_lines.specs.Words.{words_of};

    ghost Value = { List (List ℕ) };

    ghost view = { λ w. words_of w.rest.now };
}

impl<'a> Words<'a> {
    /// The words of a line.
    pub fn of(line: &'a [u8]) -> Words<'a>
        ensures { result ≡ words_of line.now }
    {
        Words { rest: line }
    }

    /// Whether no word is left.
    pub fn is_empty(&self) -> bool
        ensures { result ≡ (length self.now == 0) }
    {
        space_length(self.rest) == self.rest.len()
    }

    /// Whether the next word begins with this byte.
    pub fn opens(&self, first: u8) -> bool
        ensures { result ≡ opens first self.now }
    {
        let mut ahead = Words { rest: self.rest };
        match ahead.next() {
            None => false,
            Some(word) => without_first(first, word).is_some(),
        }
    }

    /// The next word, which is then no longer left; none exactly where none is left.
    pub fn next(&mut self) -> Option<&'a [u8]>
        ensures { TakesNext self.old self.new (option_copied result) }
    {
        let behind = &self.rest[space_length(self.rest)..];
        let (word, rest) = behind.split_at(word_length(behind));
        self.rest = rest;
        if word.is_empty() { None } else { Some(word) }
    }
}

/// Whether two words are the same.
pub fn is_same(word: &[u8], other: &[u8]) -> bool
    ensures { result ≡ is_same word.now other.now }
{
    word == other
}

/// The word without its first byte, where that is `first`; none elsewhere.
pub fn without_first(first: u8, word: &[u8]) -> Option<&[u8]>
    ensures { option_copied result ≡ without_first first word.now }
{
    let (front, rest) = word.split_first()?;
    if *front == first { Some(rest) } else { None }
}

/// The word without its last byte, where that is `last`; none elsewhere.
pub fn without_last(last: u8, word: &[u8]) -> Option<&[u8]>
    ensures { option_copied result ≡ without_last last word.now }
{
    let (end, front) = word.split_last()?;
    if *end == last { Some(front) } else { None }
}

/// Whether the word stands in parentheses.
pub fn is_marked(word: &[u8]) -> bool
    ensures { result ≡ is_marked word.now }
{
    without_first(b'(', word).is_some() && without_last(b')', word).is_some()
}

// How many spaces and tabs stand at the front.
fn space_length(bytes: &[u8]) -> usize
    ensures exact { result ≡ prefix_len is_space bytes.now }
    ensures within { result ≤ length bytes.now }
{
    bytes
        .iter()
        .position(|byte| !is_space(*byte))
        .unwrap_or(bytes.len())
}

// How many bytes stand before the first space or tab.
fn word_length(bytes: &[u8]) -> usize
    ensures exact { result ≡ prefix_len is_word_byte bytes.now }
    ensures within { result ≤ length bytes.now }
{
    bytes
        .iter()
        .position(|byte| is_space(*byte))
        .unwrap_or(bytes.len())
}

// A space or a tab.
fn is_space(byte: u8) -> bool
    ensures { result ≡ is_space byte }
{
    byte == b' ' || byte == b'\t'
}
