// The canonical text of a line's parts: registers, places, symbols, conditions and notes.

#![tactic(auto, using(gossa_base::proofs::PrefixLemmas::prefixes))]

ghost use Rattle.std.specs.Prelude.{◌≡◌, ◌++◌, OnOk, OnErr};
ghost use Rattle.gossa_base.specs.Prefixes.{AddsPrefix};
ghost use Rattle.gossa_base.specs.Texts.{value_text};
ghost use Rattle.listing.specs.Frame.{frame_offset};
ghost use Rattle.listing.specs.Text.{reg_text, reg_or_none, sym_text, stack_text, place_text, note_text, cond_text};

use crate::code::Code;
use crate::line::{Note, Place};
use gossa_base::{NoMemory, Print, ValueId, put, put_number, put_signed};
use ssa_ir::CondCode;

pub(crate) fn print_register(text: &mut Vec<u8>, register: u32) -> Result<(), NoMemory>
    ensures ok { OnOk result (text.new.items ≡ text.old.items ++ reg_text register) }
    ensures prefix { OnErr result (AddsPrefix text.old.items text.new.items (reg_text register)) }
{
    put(text, b"R")?;
    put_number(text, u64::from(register))
}

pub(crate) fn print_register_or_none(
    text: &mut Vec<u8>,
    register: Option<u32>,
) -> Result<(), NoMemory>
    ensures ok { OnOk result (text.new.items ≡ text.old.items ++ reg_or_none register) }
    ensures prefix { OnErr result (AddsPrefix text.old.items text.new.items (reg_or_none register)) }
{
    match register {
        None => Ok(()),
        Some(register) => print_register(text, register),
    }
}

// A place in this code; a home has no text.
pub(crate) fn print_place(text: &mut Vec<u8>, code: &Code, place: &Place) -> Result<(), NoMemory>
    ensures ok { OnOk result (text.new.items ≡ text.old.items ++ place_text code.now.out code.now.syms place.now) }
    ensures prefix { OnErr result
        (AddsPrefix text.old.items text.new.items (place_text code.now.out code.now.syms place.now)) }
{
    match place {
        Place::Reg(register) => print_register(text, *register),
        Place::Out(word) => print_stack_word(text, 0, *word),
        Place::Arg(word) => {
            put_number(text, 8 * u64::from(*word))?;
            put(text, b"(FP)")
        }
        Place::Frame(word) => print_stack_word(text, code.out, *word),
        Place::Home(_) => Ok(()),
        Place::Const(constant) => {
            put(text, b"$")?;
            put_signed(text, *constant)
        }
        Place::Addr(symbol) => {
            put(text, b"$")?;
            print_symbol(text, code, *symbol)?;
            put(text, b"(SB)")
        }
    }
}

// A word of the frame that stands behind these outgoing words.
fn print_stack_word(text: &mut Vec<u8>, out: u32, word: u32) -> Result<(), NoMemory>
    ensures ok { OnOk result (text.new.items ≡ text.old.items ++ stack_text (frame_offset out word)) }
    ensures prefix { OnErr result (AddsPrefix text.old.items text.new.items (stack_text (frame_offset out word))) }
{
    put_number(text, 8 + 8 * (u64::from(out) + u64::from(word)))?;
    put(text, b"(RSP)")
}

// A symbol of this code; one that isn't there has no text.
pub(crate) fn print_symbol(text: &mut Vec<u8>, code: &Code, symbol: u32) -> Result<(), NoMemory>
    ensures ok { OnOk result (text.new.items ≡ text.old.items ++ sym_text code.now.syms symbol) }
    ensures prefix { OnErr result (AddsPrefix text.old.items text.new.items (sym_text code.now.syms symbol)) }
{
    match code.syms.as_slice().get(symbol as usize) {
        None => Ok(()),
        Some(name) => name.print(text),
    }
}

pub(crate) fn print_condition(text: &mut Vec<u8>, condition: CondCode) -> Result<(), NoMemory>
    ensures ok { OnOk result (text.new.items ≡ text.old.items ++ cond_text condition) }
    ensures prefix { OnErr result (AddsPrefix text.old.items text.new.items (cond_text condition)) }
{
    match condition {
        CondCode::EQ => put(text, b"EQ"),
        CondCode::NE => put(text, b"NE"),
        CondCode::LT => put(text, b"LT"),
        CondCode::LE => put(text, b"LE"),
        CondCode::GT => put(text, b"GT"),
        CondCode::GE => put(text, b"GE"),
        CondCode::LO => put(text, b"LO"),
        CondCode::LS => put(text, b"LS"),
        CondCode::HI => put(text, b"HI"),
        CondCode::HS => put(text, b"HS"),
    }
}

impl Print for Note {
    ghost text = { note_text };

    fn print(&self, out: &mut Vec<u8>) -> Result<(), NoMemory> {
        match self {
            Note::Bare => Ok(()),
            Note::Value(value) => noted(out, b" // ", value),
            Note::Spill(value) => noted(out, b" // spill ", value),
            Note::Load(value) => noted(out, b" // load ", value),
            Note::Edge => put(out, b" // edge"),
            Note::Args => put(out, b" // args"),
            Note::Results => put(out, b" // results"),
        }
    }
}

// These bytes, and then a value's name.
fn noted(text: &mut Vec<u8>, words: &[u8], value: &ValueId) -> Result<(), NoMemory>
    ensures ok { OnOk result (text.new.items ≡ text.old.items ++ (words.now ++ value_text value.now)) }
    ensures prefix { OnErr result (AddsPrefix text.old.items text.new.items (words.now ++ value_text value.now)) }
{
    put(text, words)?;
    value.print(text)
}
