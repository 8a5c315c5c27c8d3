// The form of a line among cases.

ghost use Rattle.std.specs.Prelude.{◌≡◌, ◌<◌, IfOk, IfSome};
ghost use Rattle.ssa_lines.specs.Numbers.{digit_in};
ghost use Rattle.ssa_lines.specs.ValueForms.{checked_name};
ghost use Rattle.ssa_lines.specs.Words.{words_of};
ghost use Rattle.case_text.specs.CaseForms as spec;

use crate::forms::{CaseForm, CaseHead, SymLine};
use gossa_base::{Bytes, Name, NoMemory, Sequence};
use ssa_ir::Piece;
use ssa_ir::limits::MAX_WORDS;
use ssa_lines::{Integer, Spelled, Words, is_name, is_same, read_integer};
use std::alloc::Global;

// How many words of `args` and of `reply` are kept.

/// The form of a line among cases, by its words alone.
///
/// # Errors
/// Only for want of memory.
pub fn read_case_form(alloc: Global, line: &[u8]) -> Result<CaseForm, NoMemory>
    ensures { IfOk result (λ form. form ≡ spec.case_form_of (words_of line.now)) }
{
    let mut words = Words::of(line);
    let Some(first) = words.next() else {
        return Ok(CaseForm::Blank);
    };
    if first.starts_with(b"//") {
        return Ok(CaseForm::Blank);
    }
    read_keyword_line(alloc, first, &mut words)
}

// A line of a case behind its keyword.
fn read_keyword_line(alloc: Global, keyword: &[u8], words: &mut Words) -> Result<CaseForm, NoMemory>
    ensures { IfOk result (λ form. form ≡ spec.keyword_line keyword.now words.old) }
{
    if is_same(keyword, b"case") {
        let head = read_head(alloc, words)?;
        return Ok(head.map_or(CaseForm::Bad, CaseForm::Head));
    }
    if is_same(keyword, b"args") {
        let args = read_first_words(alloc, words)?;
        return Ok(args.map_or(CaseForm::Bad, CaseForm::Args));
    }
    if is_same(keyword, b"sym") {
        let sym = read_sym(alloc, words)?;
        return Ok(sym.map_or(CaseForm::Bad, CaseForm::Sym));
    }
    if is_same(keyword, b"mem") {
        let piece = read_piece(alloc, words)?;
        return Ok(piece.map_or(CaseForm::Bad, CaseForm::Mem));
    }
    if is_same(keyword, b"junk") {
        let junk = read_words(alloc, words)?;
        return Ok(junk.map_or(CaseForm::Bad, CaseForm::Junk));
    }
    if is_same(keyword, b"fill") {
        return Ok(read_only_word(words).map_or(CaseForm::Bad, CaseForm::Fill));
    }
    read_reply_line(alloc, keyword, words)
}

// A line of a reply behind its keyword.
fn read_reply_line(alloc: Global, keyword: &[u8], words: &mut Words) -> Result<CaseForm, NoMemory>
    ensures { IfOk result (λ form. form ≡ spec.reply_line keyword.now words.old) }
{
    if is_same(keyword, b"reply") {
        let results = read_first_words(alloc, words)?;
        return Ok(results.map_or(CaseForm::Bad, CaseForm::Reply));
    }
    if is_same(keyword, b"write") {
        let piece = read_piece(alloc, words)?;
        return Ok(piece.map_or(CaseForm::Bad, CaseForm::Write));
    }
    if is_same(keyword, b"rjunk") {
        let junk = read_words(alloc, words)?;
        return Ok(junk.map_or(CaseForm::Bad, CaseForm::ReplyJunk));
    }
    if is_same(keyword, b"rfill") {
        return Ok(read_only_word(words).map_or(CaseForm::Bad, CaseForm::ReplyFill));
    }
    if is_same(keyword, b"clobber") {
        return Ok(read_only_word(words).map_or(CaseForm::Bad, CaseForm::Clobber));
    }
    Ok(CaseForm::Bad)
}

// A function's name and a bound, which are all that is left.
fn read_head(alloc: Global, words: &mut Words) -> Result<Option<Spelled<CaseHead>>, NoMemory>
    ensures { IfOk result (λ head. head ≡ spec.head_in words.old) }
{
    let Some(name) = words.next() else {
        return Ok(None);
    };
    let Some(bound) = words.next() else {
        return Ok(None);
    };
    if !words.is_empty() {
        return Ok(None);
    }
    let Some(name) = read_name(alloc, name)? else {
        return Ok(None);
    };
    let Some(bound) = read_integer(bound) else {
        return Ok(None);
    };
    Ok(Some(head_of(name, bound)))
}

// The head of this name and this bound, or that the bound is too large.
fn head_of(name: Name, bound: Integer) -> Spelled<CaseHead>
    ensures { result ≡ spec.with_word bound (spec.head_of name) }
{
    match bound {
        Integer::Word(bound) => Spelled::Fits(CaseHead { name, bound }),
        Integer::TooLarge => Spelled::TooLarge,
    }
}

// A symbol and its address, which are all that is left.
fn read_sym(alloc: Global, words: &mut Words) -> Result<Option<Spelled<SymLine>>, NoMemory>
    ensures { IfOk result (λ sym. sym ≡ spec.sym_in words.old) }
{
    let Some(name) = words.next() else {
        return Ok(None);
    };
    let Some(address) = words.next() else {
        return Ok(None);
    };
    if !words.is_empty() {
        return Ok(None);
    }
    let Some(name) = read_name(alloc, name)? else {
        return Ok(None);
    };
    let Some(address) = read_integer(address) else {
        return Ok(None);
    };
    Ok(Some(sym_of(name, address)))
}

// The symbol of this name at this address, or that the address is too large.
fn sym_of(name: Name, address: Integer) -> Spelled<SymLine>
    ensures { result ≡ spec.with_word address (spec.sym_of name) }
{
    match address {
        Integer::Word(address) => Spelled::Fits(SymLine { name, address }),
        Integer::TooLarge => Spelled::TooLarge,
    }
}

// The name that a word is.
fn read_name(alloc: Global, word: &[u8]) -> Result<Option<Name>, NoMemory>
    ensures { IfOk result (λ name. name ≡ checked_name word.now) }
{
    if !is_name(word) {
        return Ok(None);
    }
    Ok(Some(Name::from_slice(alloc, word)?))
}

// Bytes behind their address, which are all that is left.
fn read_piece(alloc: Global, words: &mut Words) -> Result<Option<Spelled<Piece>>, NoMemory>
    ensures { IfOk result (λ piece. piece ≡ spec.piece_in words.old) }
{
    let Some(address) = words.next() else {
        return Ok(None);
    };
    let Some(digits) = words.next() else {
        return Ok(None);
    };
    if !words.is_empty() {
        return Ok(None);
    }
    let Some(address) = read_integer(address) else {
        return Ok(None);
    };
    let Some(bytes) = read_some_bytes(alloc, digits)? else {
        return Ok(None);
    };
    Ok(Some(piece_of(address, bytes)))
}

// The bytes at this address, or that the address is too large.
fn piece_of(address: Integer, bytes: Bytes) -> Spelled<Piece>
    ensures { result ≡ spec.with_word address (spec.piece bytes) }
{
    match address {
        Integer::Word(addr) => Spelled::Fits(Piece { addr, bytes }),
        Integer::TooLarge => Spelled::TooLarge,
    }
}

// One or more bytes in hexadecimal digits.
fn read_some_bytes(alloc: Global, digits: &[u8]) -> Result<Option<Bytes>, NoMemory>
    ensures { IfOk result (λ bytes. bytes ≡ spec.some_bytes_in digits.now) }
{
    if digits.is_empty() {
        return Ok(None);
    }
    read_bytes(alloc, digits)
}

// The bytes of hexadecimal digits, two for each.
fn read_bytes(alloc: Global, digits: &[u8]) -> Result<Option<Bytes>, NoMemory>
    ensures { IfOk result (λ bytes. bytes ≡ spec.bytes_in digits.now) }
{
    let mut bytes = Sequence::new(alloc);
    let mut rest = digits;
    while let Some((high, others)) = rest.split_first() {
        let Some((low, behind)) = others.split_first() else {
            return Ok(None);
        };
        let Some(byte) = byte_of(*high, *low) else {
            return Ok(None);
        };
        bytes.push(byte)?;
        rest = behind;
    }
    Ok(Some(bytes))
}

// The byte of two digits.
fn byte_of(high: u8, low: u8) -> Option<u8>
    ensures { result ≡ spec.byte_of (digit_in 16 high) (digit_in 16 low) }
{
    let high = hex_digit(high)?;
    let low = hex_digit(low)?;
    Some(high * 16 + low)
}

// What a hexadecimal digit counts, in either case.
fn hex_digit(byte: u8) -> Option<u8>
    ensures exact { result ≡ digit_in 16 byte }
    ensures within { IfSome result (λ digit. digit < 16) }
{
    match byte {
        b'0'..=b'9' => Some(byte - b'0'),
        b'a'..=b'f' => Some(byte - b'a' + 10),
        b'A'..=b'F' => Some(byte - b'A' + 10),
        _ => None,
    }
}

// The only word left.
fn read_only_word(words: &mut Words) -> Option<Spelled<u64>>
    ensures { result ≡ spec.only_word words.old }
{
    let word = words.next()?;
    if !words.is_empty() {
        return None;
    }
    Some(word_of(read_integer(word)?))
}

fn word_of(integer: Integer) -> Spelled<u64>
    ensures { result ≡ spec.with_word integer (λ n. n) }
{
    match integer {
        Integer::Word(word) => Spelled::Fits(word),
        Integer::TooLarge => Spelled::TooLarge,
    }
}

// The integers that all words left spell.
fn read_words(alloc: Global, words: &mut Words) -> Result<Option<Spelled<ssa_ir::Words>>, NoMemory>
    ensures { IfOk result (λ list. list ≡ spec.words_in words.old) }
{
    let mut list = Sequence::new(alloc);
    let mut too_large = false;
    while let Some(word) = words.next() {
        match read_integer(word) {
            None => return Ok(None),
            Some(Integer::TooLarge) => too_large = true,
            Some(Integer::Word(word)) => list.push(word)?,
        }
    }
    Ok(Some(if too_large {
        Spelled::TooLarge
    } else {
        Spelled::Fits(list)
    }))
}

// The same, of which the first ones are kept.
fn read_first_words(
    alloc: Global,
    words: &mut Words,
) -> Result<Option<Spelled<ssa_ir::Words>>, NoMemory>
    ensures { IfOk result (λ list. list ≡ spec.first_words_in words.old) }
{
    let mut list = Sequence::new(alloc);
    let mut too_large = false;
    while let Some(word) = words.next() {
        match read_integer(word) {
            None => return Ok(None),
            Some(Integer::TooLarge) => too_large = true,
            Some(Integer::Word(word)) if list.len() < MAX_WORDS => list.push(word)?,
            Some(Integer::Word(_)) => {}
        }
    }
    Ok(Some(if too_large {
        Spelled::TooLarge
    } else {
        Spelled::Fits(list)
    }))
}
