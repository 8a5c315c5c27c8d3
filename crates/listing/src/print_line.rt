// The canonical text of a line.

#![tactic(auto, using(gossa_base::proofs::PrefixLemmas::prefixes))]

ghost use Rattle.std.specs.Prelude.{◌≡◌, ◌++◌, codes, OnOk, OnErr};
ghost use Rattle.gossa_base.specs.Prefixes.{AddsPrefix};
ghost use Rattle.gossa_base.specs.Texts.{led};
ghost use Rattle.listing.specs.Text.{three_regs, op_text, held_text, bit_test_text, label_text, computing_text};
ghost use Rattle.listing.specs.Text.{move_text, nil_check_text, branch_text, bit_branch_text, jump_text, call_text};
ghost use Rattle.listing.specs.Text.{line_text};

use crate::code::Code;
use crate::line::{Line, Note, Operands, Place};
use crate::print_parts::{
    print_condition, print_place, print_register, print_register_or_none, print_symbol,
};
use gossa_base::{BlockId, NoMemory, Print, ValueId, put, put_number};
use ssa_ir::{CondCode, Op};

// One line of this code, without its end.
pub(crate) fn print_line(text: &mut Vec<u8>, code: &Code, line: &Line) -> Result<(), NoMemory>
    ensures ok { OnOk result (text.new.items ≡ text.old.items ++ line_text code.now.out code.now.syms line.now) }
    ensures prefix { OnErr result
        (AddsPrefix text.old.items text.new.items (line_text code.now.out code.now.syms line.now)) }
{
    match line {
        Line::Label(block, held) => print_label(text, block, held.as_slice()),
        Line::Op(op, aux, operands, note) => print_computing(text, *op, *aux, operands, note),
        Line::Move(to, from, note) => print_move(text, code, to, from, note),
        Line::Nil(register, note) => print_nil_check(text, *register, note),
        Line::Branch(condition, block) => print_branch(text, *condition, block),
        Line::BitBranch(set, register, block) => print_bit_branch(text, *set, *register, block),
        Line::Jump(block) => print_jump(text, block),
        Line::Call(symbol, map, note) => print_call(text, code, *symbol, *map, note),
        Line::Ret => put(text, b"RET"),
        Line::Exit => put(text, b"EXIT"),
    }
}

// A label, with the registers that hold a value there.
fn print_label(text: &mut Vec<u8>, block: &BlockId, held: &[(u32, ValueId)]) -> Result<(), NoMemory>
    ensures ok { OnOk result (text.new.items ≡ text.old.items ++ label_text block.now held.now) }
    ensures prefix { OnErr result (AddsPrefix text.old.items text.new.items (label_text block.now held.now)) }
{
    block.print(text)?;
    put(text, b":")?;
    print_held(text, held)
}

// A computing line.
fn print_computing(
    text: &mut Vec<u8>,
    op: Op,
    aux: i64,
    operands: &Operands,
    note: &Note,
) -> Result<(), NoMemory>
    ensures ok { OnOk result (text.new.items ≡ text.old.items ++ computing_text op aux operands.now note.now) }
    ensures prefix { OnErr result
        (AddsPrefix text.old.items text.new.items (computing_text op aux operands.now note.now)) }
{
    print_op(text, op, aux, operands)?;
    note.print(text)
}

// A move, from its source to its place.
fn print_move(
    text: &mut Vec<u8>,
    code: &Code,
    to: &Place,
    from: &Place,
    note: &Note,
) -> Result<(), NoMemory>
    ensures ok { OnOk result
        (text.new.items ≡ text.old.items ++ move_text code.now.out code.now.syms to.now from.now note.now) }
    ensures prefix { OnErr result
        (AddsPrefix text.old.items text.new.items (move_text code.now.out code.now.syms to.now from.now note.now)) }
{
    put(text, b"MOVD ")?;
    print_place(text, code, from)?;
    put(text, b", ")?;
    print_place(text, code, to)?;
    note.print(text)
}

// A check for nil.
fn print_nil_check(text: &mut Vec<u8>, register: u32, note: &Note) -> Result<(), NoMemory>
    ensures ok { OnOk result (text.new.items ≡ text.old.items ++ nil_check_text register note.now) }
    ensures prefix { OnErr result (AddsPrefix text.old.items text.new.items (nil_check_text register note.now)) }
{
    put(text, b"NILCHECK ")?;
    print_register(text, register)?;
    note.print(text)
}

// A branch on the flags.
fn print_branch(text: &mut Vec<u8>, condition: CondCode, block: &BlockId) -> Result<(), NoMemory>
    ensures ok { OnOk result (text.new.items ≡ text.old.items ++ branch_text condition block.now) }
    ensures prefix { OnErr result (AddsPrefix text.old.items text.new.items (branch_text condition block.now)) }
{
    put(text, b"B")?;
    print_condition(text, condition)?;
    put(text, b" ")?;
    block.print(text)
}

// A branch on a bit of a register.
fn print_bit_branch(
    text: &mut Vec<u8>,
    set: bool,
    register: u32,
    block: &BlockId,
) -> Result<(), NoMemory>
    ensures ok { OnOk result (text.new.items ≡ text.old.items ++ bit_branch_text set register block.now) }
    ensures prefix { OnErr result
        (AddsPrefix text.old.items text.new.items (bit_branch_text set register block.now)) }
{
    print_bit_test(text, set)?;
    print_register(text, register)?;
    put(text, b", ")?;
    block.print(text)
}

// A jump.
fn print_jump(text: &mut Vec<u8>, block: &BlockId) -> Result<(), NoMemory>
    ensures ok { OnOk result (text.new.items ≡ text.old.items ++ jump_text block.now) }
    ensures prefix { OnErr result (AddsPrefix text.old.items text.new.items (jump_text block.now)) }
{
    put(text, b"JMP ")?;
    block.print(text)
}

// A call, by the number of its map.
fn print_call(
    text: &mut Vec<u8>,
    code: &Code,
    symbol: u32,
    map: u32,
    note: &Note,
) -> Result<(), NoMemory>
    ensures ok { OnOk result (text.new.items ≡ text.old.items ++ call_text code.now.syms symbol map note.now) }
    ensures prefix { OnErr result
        (AddsPrefix text.old.items text.new.items (call_text code.now.syms symbol map note.now)) }
{
    put(text, b"CALL ")?;
    print_symbol(text, code, symbol)?;
    put(text, b"(SB), map=")?;
    put_number(text, u64::from(map))?;
    note.print(text)
}

// The test of a bit: whether it is set, or clear.
fn print_bit_test(text: &mut Vec<u8>, set: bool) -> Result<(), NoMemory>
    ensures ok { OnOk result (text.new.items ≡ text.old.items ++ bit_test_text set) }
    ensures kept { OnErr result (text.new.items ≡ text.old.items) }
{
    put(text, if set { b"TBNZ $0, " } else { b"TBZ $0, " })
}

// The registers of a label and the values in them, each behind a space.
fn print_held(text: &mut Vec<u8>, held: &[(u32, ValueId)]) -> Result<(), NoMemory>
    ensures ok { OnOk result (text.new.items ≡ text.old.items ++ led (codes " ") held_text held.now) }
    ensures prefix { OnErr result (AddsPrefix text.old.items text.new.items (led (codes " ") held_text held.now)) }
{
    for (register, value) in held {
        print_held_value(text, *register, value)?;
    }
    Ok(())
}

// A register and the value in it, behind a space.
fn print_held_value(text: &mut Vec<u8>, register: u32, value: &ValueId) -> Result<(), NoMemory>
    ensures ok { OnOk result (text.new.items ≡ text.old.items ++ (codes " " ++ held_text (register, value.now))) }
    ensures prefix { OnErr result
        (AddsPrefix text.old.items text.new.items (codes " " ++ held_text (register, value.now))) }
{
    put(text, b" ")?;
    print_register(text, register)?;
    put(text, b"=")?;
    value.print(text)
}

// A computing line; of the machine's ops only the sum has a text yet.
fn print_op(text: &mut Vec<u8>, op: Op, _aux: i64, operands: &Operands) -> Result<(), NoMemory>
    ensures ok { OnOk result (text.new.items ≡ text.old.items ++ op_text op _aux operands.now) }
    ensures prefix { OnErr result (AddsPrefix text.old.items text.new.items (op_text op _aux operands.now)) }
{
    match op {
        Op::Arm64ADD => {
            put(text, b"ADD ")?;
            print_three_registers(text, operands)
        }
        _ => Ok(()),
    }
}

// The second argument's register, the first argument's, and the result's.
fn print_three_registers(text: &mut Vec<u8>, operands: &Operands) -> Result<(), NoMemory>
    ensures ok { OnOk result (text.new.items ≡ text.old.items ++ three_regs operands.now) }
    ensures prefix { OnErr result (AddsPrefix text.old.items text.new.items (three_regs operands.now)) }
{
    print_register_or_none(text, operands.b)?;
    put(text, b", ")?;
    print_register_or_none(text, operands.a)?;
    put(text, b", ")?;
    print_register_or_none(text, operands.dst)
}
