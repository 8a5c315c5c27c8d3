// The signatures that the words behind `sig` and `func` spell.

ghost use Rattle.std.specs.Prelude.{◌≡◌, [], ◌∷◌, option_copied, IfOk};
ghost use Rattle.std.specs.Option.{option_map};
ghost use Rattle.std.specs.List.{list_all};
ghost use Rattle.ssa_ir.specs.Names.{is_name_start, is_name_byte, has_name_bytes};
ghost use Rattle.ssa_lines.specs.Headers.{is_name, type_before, types_ahead, group_ahead, group_or_type, results_of};
ghost use Rattle.ssa_lines.specs.Headers.{signature_of};
ghost use Rattle.ssa_lines.specs.Words.{is_same, without_first, without_last};

use crate::types::{cut_at, read_scalar};
use crate::words::{Words, is_same, without_first, without_last};
use gossa_base::name::MAX_NAME_BYTES;
use gossa_base::{Name, NoMemory, Sequence};
use ssa_ir::{Scalar, Scalars, Sig};
use std::alloc::Global;

/// The signature that the words left spell: a name, the parameters, the results; none where they spell none, and then
/// some of them may still be left. An error comes only for want of memory.
pub fn read_signature(alloc: Global, words: &mut Words) -> Result<Option<Sig>, NoMemory>
    ensures { IfOk result (λ sig. sig ≡ signature_of words.old) }
{
    let Some(word) = words.next() else {
        return Ok(None);
    };
    let Some((name, inside)) = cut_at(b'(', word) else {
        return Ok(None);
    };
    if !is_name(name) {
        return Ok(None);
    }
    let Some(params) = read_group(alloc, inside, words)? else {
        return Ok(None);
    };
    let Some(results) = read_results(alloc, words)? else {
        return Ok(None);
    };
    let name = Name::from_slice(alloc, name)?;
    Ok(Some(Sig {
        name,
        params,
        results,
    }))
}

/// Whether these bytes are a name: 1 to 100 letters, digits and `_ . / $`, the first a letter or `_`.
pub fn is_name(bytes: &[u8]) -> bool
    ensures { result ≡ is_name bytes.now }
{
    has_name_bytes(bytes) && bytes.len() <= MAX_NAME_BYTES
}

fn has_name_bytes(bytes: &[u8]) -> bool
    ensures { result ≡ has_name_bytes bytes.now }
{
    match bytes.split_first() {
        None => false,
        Some((first, others)) => is_name_start(*first) && are_name_bytes(others),
    }
}

fn are_name_bytes(bytes: &[u8]) -> bool
    ensures { result ≡ list_all is_name_byte bytes.now }
{
    bytes.iter().all(|byte| is_name_byte(*byte))
}

fn is_name_start(byte: u8) -> bool
    ensures { result ≡ is_name_start byte }
{
    byte.is_ascii_alphabetic() || byte == b'_'
}

fn is_name_byte(byte: u8) -> bool
    ensures { result ≡ is_name_byte byte }
{
    is_name_start(byte) || byte.is_ascii_digit() || matches!(byte, b'.' | b'/' | b'$')
}

// The types of a group whose first word, from inside the parenthesis on, is this one. What stands behind the group is
// left.
fn read_group(alloc: Global, first: &[u8], words: &mut Words) -> Result<Option<Scalars>, NoMemory>
    ensures { IfOk result
        (λ group. option_map (λ types. (types, words.new)) group ≡ group_ahead (first.now ∷ words.old)) }
{
    if is_same(first, b")") {
        return Ok(Some(Sequence::new(alloc)));
    }
    read_types(alloc, first, words)
}

// Such a group that is not empty.
fn read_types(alloc: Global, first: &[u8], words: &mut Words) -> Result<Option<Scalars>, NoMemory>
    ensures { IfOk result
        (λ group. option_map (λ types. (types, words.new)) group ≡ types_ahead (first.now ∷ words.old)) }
{
    let mut types = Sequence::new(alloc);
    let mut word = first;
    loop {
        if let Some(scalar) = type_before(b')', word) {
            types.push(scalar)?;
            return Ok(Some(types));
        }
        let Some(scalar) = type_before(b',', word) else {
            return Ok(None);
        };
        types.push(scalar)?;
        let Some(next) = words.next() else {
            return Ok(None);
        };
        word = next;
    }
}

// The type without this byte behind it.
fn type_before(last: u8, word: &[u8]) -> Option<Scalar>
    ensures { result ≡ type_before last word.now }
{
    let Some(front) = without_last(last, word) else {
        return None;
    };
    read_scalar(front)
}

// The types of the results, which are all that is left.
fn read_results(alloc: Global, words: &mut Words) -> Result<Option<Scalars>, NoMemory>
    ensures { IfOk result (λ types. types ≡ results_of words.old) }
{
    let Some(word) = words.next() else {
        return Ok(Some(Sequence::new(alloc)));
    };
    let Some(inside) = without_first(b'(', word) else {
        return read_one_type(alloc, word, words);
    };
    let Some(types) = read_group(alloc, inside, words)? else {
        return Ok(None);
    };
    if words.next().is_some() {
        return Ok(None);
    }
    Ok(Some(types))
}

// The one type that this word spells, with nothing behind it.
fn read_one_type(alloc: Global, word: &[u8], words: &mut Words) -> Result<Option<Scalars>, NoMemory>
    ensures { IfOk result (λ types. types ≡ group_or_type None word.now words.old) }
{
    let Some(scalar) = read_scalar(word) else {
        return Ok(None);
    };
    if words.next().is_some() {
        return Ok(None);
    }
    let mut types = Sequence::new(alloc);
    types.push(scalar)?;
    Ok(Some(types))
}
