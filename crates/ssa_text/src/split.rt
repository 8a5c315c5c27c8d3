// Where the cases of a text begin.

ghost use Rattle.std.specs.Prelude.{◌≡◌, ◌+◌, ◌≤◌, ◌^◌, length};
ghost use Rattle.ssa_text.specs.CaseSplit as spec;
ghost use Rattle.ssa_text.specs.CaseSplit.{case_offset, case_line};

use ssa_lines::{TextLines, Words, is_same};

/// Where the cases of a text begin: the place of the first byte of the first line whose first word is `case`, and that
/// line's number, from 1. Where there is no such line, the text's length, and the number of its lines plus one.
pub fn split_cases(text: &[u8]) -> (usize, u32)
    requires few { length text.now ≤ 2 ^ 30 }
    ensures offset { result.0 ≡ case_offset text.now }
    ensures line { result.1 ≡ case_line text.now }
    ensures within { result.0 ≤ length text.now }
    ensures few_lines { result.1 ≤ length text.now + 1 }
{
    let mut lines = TextLines::of(text);
    let mut offset = 0;
    let mut number = 1;
    while let Some(line) = lines.next() {
        if is_case_line(line) {
            return (offset, number);
        }
        offset += line.len() + 1;
        number += 1;
    }
    (text.len(), number)
}

/// Whether the first word of a line is `case`.
pub(crate) fn is_case_line(line: &[u8]) -> bool
    ensures { result ≡ spec.is_case_line line.now }
{
    let mut words = Words::of(line);
    let Some(word) = words.next() else {
        return false;
    };
    is_same(word, b"case")
}
