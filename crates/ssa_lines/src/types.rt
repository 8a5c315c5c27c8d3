// The types that words spell.

ghost use Rattle.std.specs.Prelude.{◌≡◌, ◌==◌, true, false, [], ◌∷◌, length, map, position, find, option_copied, IfOk};
ghost use Rattle.std.specs.Prelude.{MatchOption};
ghost use Rattle.std.specs.Option.{option_map};
ghost use Rattle.std.specs.List.{before_first, after_first, list_any, list_all, slice_split};
ghost use Rattle.ssa_lines.specs.Types.{is_comma, is_pointed_byte, is_pointer, scalar_of, scalar_among, type_names};
ghost use Rattle.ssa_lines.specs.Types.{tuple_of, type_of_parts, type_of};
ghost use Rattle.ssa_lines.specs.Words.{is_same, TakesNext};

use crate::words::{is_same, without_first};
use gossa_base::{NoMemory, Sequence};
use ssa_ir::{Scalar, Scalars, Ty};
use std::alloc::Global;
use std::marker::Model;

/// The type of one word that a word spells; none where it spells none.
pub fn read_scalar(word: &[u8]) -> Option<Scalar>
    ensures { result ≡ scalar_of word.now }
{
    if is_pointer(word) {
        return Some(Scalar::Ptr);
    }
    named_scalar(word)
}

// Whether a word is a pointer's type.
fn is_pointer(word: &[u8]) -> bool
    ensures { result ≡ is_pointer word.now }
{
    let Some(pointed) = without_first(b'*', word) else {
        return false;
    };
    !pointed.is_empty() && are_pointed_bytes(pointed)
}

fn are_pointed_bytes(bytes: &[u8]) -> bool
    ensures { result ≡ list_all is_pointed_byte bytes.now }
{
    bytes.iter().all(|byte| is_pointed_byte(*byte))
}

// Whether a byte may stand in what a pointer points to.
fn is_pointed_byte(byte: u8) -> bool
    ensures { result ≡ is_pointed_byte byte }
{
    byte.is_ascii_alphanumeric() || matches!(byte, b'_' | b'.' | b'*' | b'[' | b']')
}

// The names of the types: Go's, with its other names for three of them, and the pointer that has a name.
static TYPE_NAMES: [(&'static str, Scalar); 14] = [
    ("int8", Scalar::I8),
    ("int16", Scalar::I16),
    ("int32", Scalar::I32),
    ("int64", Scalar::I64),
    ("uint8", Scalar::U8),
    ("uint16", Scalar::U16),
    ("uint32", Scalar::U32),
    ("uint64", Scalar::U64),
    ("uintptr", Scalar::Uintptr),
    ("bool", Scalar::Bool),
    ("int", Scalar::I64),
    ("uint", Scalar::U64),
    ("byte", Scalar::U8),
    ("unsafe.Pointer", Scalar::Ptr),
];

// The type of this name.
fn named_scalar(word: &[u8]) -> Option<Scalar>
    ensures { result ≡ scalar_among type_names word.now }
{
    scalar_in(&TYPE_NAMES, word)
}

// The type of this name in a table of names.
fn scalar_in(names: &[(&'static str, Scalar)], word: &[u8]) -> Option<Scalar>
    ensures { result ≡ scalar_among (map (λ row. (row.0.now, row.1)) names.now) word.now }
{
    for row in names {
        if is_same(row.0.as_bytes(), word) {
            return Some(row.1);
        }
    }
    None
}

/// The type that the text in angle brackets spells; none where it spells none. `mem` alone is a tuple without words,
/// where `tuple` says so, and else a memory. An error comes only for want of memory.
pub fn read_type(alloc: Global, tuple: bool, inside: &[u8]) -> Result<Option<Ty>, NoMemory>
    ensures { IfOk result (λ ty. ty ≡ type_of tuple inside.now) }
{
    let mut parts = Parts::of(inside);
    let Some(part) = parts.next() else {
        return Ok(None);
    };
    if parts.is_empty() {
        return Ok(single_type(alloc, tuple, part));
    }
    let Some(types) = read_tuple(alloc, part, &mut parts)? else {
        return Ok(None);
    };
    Ok(Some(Ty::Tuple(types)))
}

// The type that one part alone spells.
fn single_type(alloc: Global, tuple: bool, part: &[u8]) -> Option<Ty>
    ensures { result ≡ type_of_parts tuple (part.now ∷ []) }
{
    if is_same(part, b"mem") {
        return Some(if tuple {
            Ty::Tuple(Sequence::new(alloc))
        } else {
            Ty::Mem
        });
    }
    let scalar = read_scalar(part)?;
    Some(Ty::One(scalar))
}

// The types of one word that stand, from this part on, before a last `mem`.
fn read_tuple(alloc: Global, first: &[u8], parts: &mut Parts) -> Result<Option<Scalars>, NoMemory>
    ensures { IfOk result (λ types. types ≡ tuple_of (first.now ∷ parts.old)) }
{
    let mut types = Sequence::new(alloc);
    let mut part = first;
    while let Some(next) = parts.next() {
        let Some(scalar) = read_scalar(part) else {
            return Ok(None);
        };
        types.push(scalar)?;
        part = next;
    }
    Ok(is_same(part, b"mem").then_some(types))
}

// What stands before the first of these bytes, and what stands behind it; none where the text has no such byte.
pub(crate) fn cut_at(byte: u8, text: &[u8]) -> Option<(&[u8], &[u8])>
    ensures { MatchOption result
        (list_any (λ b. b == byte) text.now ≡ false)
        (λ parts. (list_any (λ b. b == byte) text.now ≡ true)
        × (parts.0.now ≡ before_first (λ b. b == byte) text.now)
        × (parts.1.now ≡ after_first (λ b. b == byte) text.now)) }
{
    let Some(place) = first_place(byte, text) else {
        return None;
    };
    Some((&text[..place], &text[place + 1..]))
}

// Where the first of these bytes stands.
fn first_place(byte: u8, text: &[u8]) -> Option<usize>
    ensures { result ≡ position (λ b. b == byte) text.now }
{
    text.iter().position(|b| *b == byte)
}

// The parts that are left, which commas part.
#[derive(Drop)]
struct Parts<'a> {
    rest: Option<&'a [u8]>,
}

impl<'a> Model for Parts<'a> {
    ghost use Rattle.std.specs.Prelude.{ℕ, List, []};
    ghost use Rattle.std.specs.Option.{option_map_or};
    ghost use Rattle.std.specs.List.{slice_split};
    ghost use Rattle.ssa_lines.specs.Types.{is_comma};

    ghost Value = { List (List ℕ) };

    ghost view = { λ p. option_map_or (λ rest. slice_split is_comma rest.now) p.rest [] };
}

impl<'a> Parts<'a> {
    // The parts of a text.
    fn of(text: &'a [u8]) -> Parts<'a>
        ensures { result ≡ slice_split is_comma text.now }
    {
        Parts { rest: Some(text) }
    }

    // The next part, which is then no longer left; none exactly where none is left.
    fn next(&mut self) -> Option<&'a [u8]>
        ensures { TakesNext self.old self.new (option_copied result) }
    {
        let rest = self.rest?;
        let Some((part, behind)) = cut_at(b',', rest) else {
            self.rest = None;
            return Some(rest);
        };
        self.rest = Some(behind);
        Some(part)
    }

    // Whether no part is left.
    fn is_empty(&self) -> bool
        ensures { result ≡ (length self.now == 0) }
    {
        self.rest.is_none()
    }
}
