// The form of a line.

ghost use Rattle.std.specs.Prelude.{◌≡◌, ◌<◌, length, IfOk};
ghost use Rattle.std.specs.List.{list_all};
ghost use Rattle.std.specs.Option.{option_map};
ghost use Rattle.ssa_lines.specs.Forms as spec;
ghost use Rattle.ssa_lines.specs.NumberWords.{numbers_ahead};
ghost use Rattle.ssa_lines.specs.Words.{words_of, is_marked};

use crate::forms::{BlockLine, ControlLine, Form, Spelled};
use crate::headers::read_signature;
use crate::numbers::{Number, read_number};
use crate::values::read_value_line;
use crate::words::{Words, is_marked, is_same, without_last};
use gossa_base::{BlockId, NoMemory, Sequence, ValueId};
use ssa_ir::{BlockIds, Kind};
use std::alloc::Global;

/// The form of a line, by its words alone.
///
/// # Errors
/// Only for want of memory.
pub fn read_form(alloc: Global, line: &[u8]) -> Result<Form, NoMemory>
    ensures { IfOk result (λ form. form ≡ spec.form_of (words_of line.now)) }
{
    let mut words = Words::of(line);
    let Some(first) = words.next() else {
        return Ok(Form::Blank);
    };
    if first.starts_with(b"//") {
        return Ok(Form::Blank);
    }
    if is_same(first, b"case") {
        return Ok(Form::Case);
    }
    if is_same(first, b"sig") {
        let sig = read_signature(alloc, &mut words)?;
        return Ok(sig.map_or(Form::Bad, Form::Sig));
    }
    if is_same(first, b"func") {
        let sig = read_signature(alloc, &mut words)?;
        return Ok(sig.map_or(Form::Bad, Form::Func));
    }
    read_body_form(alloc, line)
}

// The form of a line of a function's body.
fn read_body_form(alloc: Global, line: &[u8]) -> Result<Form, NoMemory>
    ensures { IfOk result (λ form. form ≡ spec.control_or_other (spec.control_line (words_of line.now))
        (words_of line.now)) }
{
    if let Some(control) = read_control_line(alloc, &mut Words::of(line))? {
        return Ok(Form::Control(control));
    }
    if let Some(block) = read_block_line(alloc, &mut Words::of(line))? {
        return Ok(Form::Block(block));
    }
    match read_value_line(alloc, &mut Words::of(line))? {
        None => Ok(Form::Bad),
        Some(value) => Ok(Form::Value(value)),
    }
}

// The beginning of a block.
fn read_block_line(alloc: Global, words: &mut Words) -> Result<Option<Spelled<BlockLine>>, NoMemory>
    ensures { IfOk result (λ block. block ≡ spec.block_line words.old) }
{
    let Some(label) = words.next() else {
        return Ok(None);
    };
    let Some(front) = without_last(b':', label) else {
        return Ok(None);
    };
    let Some(number) = read_number(b'b', front) else {
        return Ok(None);
    };
    let Some(preds) = read_preds(alloc, words)? else {
        return Ok(None);
    };
    Ok(Some(block_of(number, preds)))
}

// A block of this number and these predecessors, or that a number is too large.
fn block_of(number: Number, preds: Spelled<BlockIds>) -> Spelled<BlockLine>
    ensures { result ≡ spec.block_of number preds }
{
    let (Number::Fits(n), Spelled::Fits(preds)) = (number, preds) else {
        return Spelled::TooLarge;
    };
    Spelled::Fits(BlockLine { n, preds })
}

// The predecessors: none, none behind a dash, or those behind an arrow.
fn read_preds(alloc: Global, words: &mut Words) -> Result<Option<Spelled<BlockIds>>, NoMemory>
    ensures { IfOk result (λ preds. preds ≡ option_map spec.blocks_of (spec.preds_of words.old)) }
{
    let Some(word) = words.next() else {
        return Ok(Some(Spelled::Fits(Sequence::new(alloc))));
    };
    if words.is_empty() {
        return Ok(if is_same(word, b"-") {
            Some(Spelled::Fits(Sequence::new(alloc)))
        } else {
            None
        });
    }
    if !is_left_arrow(word) {
        return Ok(None);
    }
    read_blocks(alloc, words)
}

// The blocks that all words left name.
fn read_blocks(alloc: Global, words: &mut Words) -> Result<Option<Spelled<BlockIds>>, NoMemory>
    requires { 0 < length words.old }
    ensures { IfOk result (λ ids. ids ≡ option_map spec.blocks_of (spec.some_blocks (numbers_ahead 98 words.old))) }
{
    let mut blocks = Sequence::new(alloc);
    let mut too_large = false;
    while let Some(word) = words.next() {
        match read_number(b'b', word) {
            None => return Ok(None),
            Some(Number::TooLarge) => too_large = true,
            Some(Number::Fits(n)) => blocks.push(BlockId { split: false, n })?,
        }
    }
    Ok(Some(if too_large {
        Spelled::TooLarge
    } else {
        Spelled::Fits(blocks)
    }))
}

// The arrow of predecessors, in either spelling.
fn is_left_arrow(word: &[u8]) -> bool
    ensures { result ≡ spec.is_left_arrow word.now }
{
    is_same(word, b"<-") || is_same(word, b"\xE2\x86\x90")
}

// The arrow of successors, in either spelling.
fn is_right_arrow(word: &[u8]) -> bool
    ensures { result ≡ spec.is_right_arrow word.now }
{
    is_same(word, b"->") || is_same(word, b"\xE2\x86\x92")
}

// The end of a block.
fn read_control_line(
    alloc: Global,
    words: &mut Words,
) -> Result<Option<Spelled<ControlLine>>, NoMemory>
    ensures { IfOk result (λ control. control ≡ spec.control_line words.old) }
{
    let Some(word) = words.next() else {
        return Ok(None);
    };
    if is_same(word, b"Plain") {
        return read_plain_end(alloc, words);
    }
    if is_same(word, b"If") {
        return read_if_end(alloc, words);
    }
    if is_same(word, b"Ret") {
        return Ok(read_leaving_end(alloc, Kind::Ret, words));
    }
    if is_same(word, b"Exit") {
        return Ok(read_leaving_end(alloc, Kind::Exit, words));
    }
    Ok(None)
}

// A plain end, behind its first word.
fn read_plain_end(
    alloc: Global,
    words: &mut Words,
) -> Result<Option<Spelled<ControlLine>>, NoMemory>
    ensures { IfOk result (λ control. control ≡ spec.plain_end words.old) }
{
    let Some(arrow) = words.next() else {
        return Ok(None);
    };
    let Some(target) = words.next() else {
        return Ok(None);
    };
    if !(is_right_arrow(arrow) && all_marked(words)) {
        return Ok(None);
    }
    let Some(number) = read_number(b'b', target) else {
        return Ok(None);
    };
    let succs = blocks_of(alloc, &[number])?;
    Ok(Some(control_of(Kind::Plain, Spelled::Fits(None), succs)))
}

// An end that decides between two blocks, behind its first word.
fn read_if_end(alloc: Global, words: &mut Words) -> Result<Option<Spelled<ControlLine>>, NoMemory>
    ensures { IfOk result (λ control. control ≡ spec.if_end words.old) }
{
    let Some(control) = words.next() else {
        return Ok(None);
    };
    let Some(arrow) = words.next() else {
        return Ok(None);
    };
    let Some(target) = words.next() else {
        return Ok(None);
    };
    let Some(other) = words.next() else {
        return Ok(None);
    };
    if !(is_right_arrow(arrow) && all_marked(words)) {
        return Ok(None);
    }
    if_of(alloc, control, target, other)
}

// An end with this control and these successors, as words.
fn if_of(
    alloc: Global,
    control: &[u8],
    target: &[u8],
    other: &[u8],
) -> Result<Option<Spelled<ControlLine>>, NoMemory>
    ensures { IfOk result (λ line. line ≡ spec.if_of control.now target.now other.now) }
{
    let Some(control) = read_number(b'v', control) else {
        return Ok(None);
    };
    let Some(target) = read_number(b'b', target) else {
        return Ok(None);
    };
    let Some(other) = read_number(b'b', other) else {
        return Ok(None);
    };
    let succs = blocks_of(alloc, &[target, other])?;
    Ok(Some(control_of(Kind::If, control_named(control), succs)))
}

// An end that leaves the function, behind its first word.
fn read_leaving_end(alloc: Global, kind: Kind, words: &mut Words) -> Option<Spelled<ControlLine>>
    ensures { result ≡ spec.leaving_end kind words.old }
{
    let control = words.next()?;
    if !all_marked(words) {
        return None;
    }
    let control = control_named(read_number(b'v', control)?);
    Some(control_of(kind, control, Spelled::Fits(Sequence::new(alloc))))
}

// A control of this number.
fn control_named(number: Number) -> Spelled<Option<ValueId>>
    ensures { result ≡ spec.control_named number }
{
    match number {
        Number::Fits(n) => Spelled::Fits(Some(ValueId(n))),
        Number::TooLarge => Spelled::TooLarge,
    }
}

// A control line of this kind with this control and these successors.
fn control_of(
    kind: Kind,
    control: Spelled<Option<ValueId>>,
    succs: Spelled<BlockIds>,
) -> Spelled<ControlLine>
    ensures { result ≡ spec.control_of kind control succs }
{
    let (Spelled::Fits(control), Spelled::Fits(succs)) = (control, succs) else {
        return Spelled::TooLarge;
    };
    Spelled::Fits(ControlLine {
        kind,
        control,
        succs,
    })
}

// The blocks of these numbers.
fn blocks_of(alloc: Global, numbers: &[Number]) -> Result<Spelled<BlockIds>, NoMemory>
    ensures { IfOk result (λ blocks. blocks ≡ spec.blocks_of numbers.now) }
{
    let mut blocks = Sequence::new(alloc);
    for number in numbers {
        let Number::Fits(n) = *number else {
            return Ok(Spelled::TooLarge);
        };
        blocks.push(BlockId { split: false, n })?;
    }
    Ok(Spelled::Fits(blocks))
}

// Whether each word left stands in parentheses.
fn all_marked(words: &mut Words) -> bool
    ensures { result ≡ list_all is_marked words.old }
{
    while let Some(word) = words.next() {
        if !is_marked(word) {
            return false;
        }
    }
    true
}
