// The canonical text of units.

ghost use Rattle.std.specs.Prelude.{◌≡◌, ◌++◌, OnOk, IfOk};
ghost use Rattle.std.specs.List.{flat_map};
ghost use Rattle.case_text.specs.CaseText.{cases_text, name_at};
ghost use Rattle.ssa_text.specs.Text.{before_commas, type_name, type_text, bool_word, brackets_text, name_or_none};
ghost use Rattle.ssa_text.specs.Text.{scalar_or_none, braces_text, aux_text, behind_op, value_line, preds_text};
ghost use Rattle.ssa_text.specs.Text.{control_text, succ_text, choice_text, end_text, block_head, control_line};
ghost use Rattle.ssa_text.specs.Text.{block_lines, func_text, func_names, unit_text};

use case_text::print_case;
use gossa_base::{
    BlockId, Bytes, Name, NoMemory, Print, Sequence, ValueId, print_led, put, put_signed,
};
use ssa_ir::{AuxRule, Block, Case, Func, Kind, Scalar, SsaUnit, Ty, Value, op_row, print_sigs};
use std::alloc::Global;

/// The canonical text of a unit: its signatures, its functions and its cases, each line ended by LF.
///
/// Any value has a text. What has no form in a dump has the empty text, and the fixed words around it stay: the types
/// of flags and of nothing print as `<>`, a name, type, control or successor that isn't there as nothing. docs/TEXT.md
/// has the whole list.
///
/// # Errors
/// Only for want of memory.
pub fn print_unit(alloc: Global, unit: &SsaUnit) -> Result<Bytes, NoMemory>
    ensures { IfOk result (λ text. text ≡ unit_text unit.now) }
{
    let mut text = Vec::new(alloc);
    print_sigs(&mut text, unit.sigs.as_slice())?;
    print_funcs(&mut text, unit.funcs.as_slice())?;
    print_unit_cases(&mut text, unit.funcs.as_slice(), unit.cases.as_slice())?;
    Ok(Sequence::from_vec(text))
}

/// The cases of these functions, behind what the text has.
pub fn print_unit_cases(text: &mut Vec<u8>, funcs: &[Func], cases: &[Case]) -> Result<(), NoMemory>
    ensures { OnOk result (text.new.items ≡ text.old.items ++ cases_text (func_names funcs.now) cases.now) }
{
    for case in cases {
        print_case(text, func_name(funcs, case), case)?;
    }
    Ok(())
}

// The name of a case's function; one that isn't there has the empty name.
fn func_name<'a>(funcs: &'a [Func], case: &Case) -> &'a [u8]
    ensures { result.now ≡ name_at (func_names funcs.now) case.now.func }
{
    match funcs.get(case.func as usize) {
        None => &[],
        Some(func) => func.sig.name.as_slice(),
    }
}

fn print_funcs(text: &mut Vec<u8>, funcs: &[Func]) -> Result<(), NoMemory>
    ensures { OnOk result (text.new.items ≡ text.old.items ++ flat_map func_text funcs.now) }
{
    for func in funcs {
        print_func(text, func)?;
    }
    Ok(())
}

// A function: its line, and its blocks.
fn print_func(text: &mut Vec<u8>, func: &Func) -> Result<(), NoMemory>
    ensures { OnOk result (text.new.items ≡ text.old.items ++ func_text func.now) }
{
    put(text, b"func ")?;
    func.sig.print(text)?;
    put(text, b"\n")?;
    print_blocks(text, func.blocks.as_slice())
}

fn print_blocks(text: &mut Vec<u8>, blocks: &[Block]) -> Result<(), NoMemory>
    ensures { OnOk result (text.new.items ≡ text.old.items ++ flat_map block_lines blocks.now) }
{
    for block in blocks {
        print_block_head(text, block)?;
        print_values(text, block.values.as_slice())?;
        print_control(text, block)?;
    }
    Ok(())
}

// The line of a block's beginning.
fn print_block_head(text: &mut Vec<u8>, block: &Block) -> Result<(), NoMemory>
    ensures { OnOk result (text.new.items ≡ text.old.items ++ block_head block.now) }
{
    block.id.print(text)?;
    put(text, b":")?;
    print_preds(text, block.preds.as_slice())?;
    put(text, b"\n")
}

// The blocks from which one is entered, behind an arrow, which is absent where there are none.
fn print_preds(text: &mut Vec<u8>, blocks: &[BlockId]) -> Result<(), NoMemory>
    ensures { OnOk result (text.new.items ≡ text.old.items ++ preds_text blocks.now) }
{
    if blocks.is_empty() {
        return Ok(());
    }
    put(text, b" <-")?;
    print_led(text, b" ", blocks)
}

// The line of a block's end.
fn print_control(text: &mut Vec<u8>, block: &Block) -> Result<(), NoMemory>
    ensures { OnOk result (text.new.items ≡ text.old.items ++ control_line block.now) }
{
    print_end(text, block)?;
    put(text, b"\n")
}

// How a block ends; the two branches of the machine have no word.
fn print_end(text: &mut Vec<u8>, block: &Block) -> Result<(), NoMemory>
    ensures { OnOk result (text.new.items ≡ text.old.items ++ end_text block.now.kind block.now.control block.now.succs) }
{
    match block.kind {
        Kind::Plain => {
            put(text, b"Plain -> ")?;
            print_succ(text, block.succs.as_slice(), 0)
        }
        Kind::If => {
            put(text, b"If")?;
            print_choice(text, block)
        }
        Kind::Ret => {
            put(text, b"Ret ")?;
            print_controlling(text, block.control)
        }
        Kind::Exit => {
            put(text, b"Exit ")?;
            print_controlling(text, block.control)
        }
        Kind::Cond(_) | Kind::Bit => print_choice(text, block),
    }
}

// A control that decides between two successors, and both, the one of yes first.
fn print_choice(text: &mut Vec<u8>, block: &Block) -> Result<(), NoMemory>
    ensures { OnOk result (text.new.items ≡ text.old.items ++ choice_text block.now.control block.now.succs) }
{
    put(text, b" ")?;
    print_controlling(text, block.control)?;
    put(text, b" -> ")?;
    print_succ(text, block.succs.as_slice(), 0)?;
    put(text, b" ")?;
    print_succ(text, block.succs.as_slice(), 1)
}

// The control of a block that has one.
fn print_controlling(text: &mut Vec<u8>, control: Option<ValueId>) -> Result<(), NoMemory>
    ensures { OnOk result (text.new.items ≡ text.old.items ++ control_text control) }
{
    match control {
        None => Ok(()),
        Some(value) => value.print(text),
    }
}

// A successor that is there.
fn print_succ(text: &mut Vec<u8>, succs: &[BlockId], place: usize) -> Result<(), NoMemory>
    ensures { OnOk result (text.new.items ≡ text.old.items ++ succ_text succs.now place) }
{
    match succs.get(place) {
        None => Ok(()),
        Some(block) => block.print(text),
    }
}

fn print_values(text: &mut Vec<u8>, values: &[Value]) -> Result<(), NoMemory>
    ensures { OnOk result (text.new.items ≡ text.old.items ++ flat_map value_line values.now) }
{
    for value in values {
        print_value(text, value)?;
    }
    Ok(())
}

// The line of a value.
fn print_value(text: &mut Vec<u8>, value: &Value) -> Result<(), NoMemory>
    ensures { OnOk result (text.new.items ≡ text.old.items ++ value_line value.now) }
{
    value.id.print(text)?;
    put(text, b" = ")?;
    value.op.print(text)?;
    print_behind_op(text, value)
}

// What stands behind a value's op on its line, and the line's end.
fn print_behind_op(text: &mut Vec<u8>, value: &Value) -> Result<(), NoMemory>
    ensures { OnOk result (text.new.items ≡ text.old.items ++ behind_op value.now) }
{
    print_type(text, &value.ty)?;
    print_aux(text, value)?;
    print_led(text, b" ", value.args.as_slice())?;
    put(text, b"\n")
}

// A type in angle brackets.
fn print_type(text: &mut Vec<u8>, ty: &Ty) -> Result<(), NoMemory>
    ensures { OnOk result (text.new.items ≡ text.old.items ++ type_text ty.now) }
{
    put(text, b" <")?;
    print_type_name(text, ty)?;
    put(text, b">")
}

// A type's name; flags and nothing have none.
fn print_type_name(text: &mut Vec<u8>, ty: &Ty) -> Result<(), NoMemory>
    ensures { OnOk result (text.new.items ≡ text.old.items ++ type_name ty.now) }
{
    match ty {
        Ty::One(scalar) => scalar.print(text),
        Ty::Mem => put(text, b"mem"),
        Ty::Tuple(scalars) => {
            print_before_commas(text, scalars.as_slice())?;
            put(text, b"mem")
        }
        Ty::Flags | Ty::Void => Ok(()),
    }
}

// Types, each followed by a comma.
fn print_before_commas(text: &mut Vec<u8>, types: &[Scalar]) -> Result<(), NoMemory>
    ensures { OnOk result (text.new.items ≡ text.old.items ++ before_commas types.now) }
{
    for scalar in types {
        scalar.print(text)?;
        put(text, b",")?;
    }
    Ok(())
}

// What stands between the type and the arguments of a value: the brackets and the braces of its op's row.
fn print_aux(text: &mut Vec<u8>, value: &Value) -> Result<(), NoMemory>
    ensures { OnOk result (text.new.items ≡ text.old.items ++ aux_text value.now) }
{
    let rule = op_row(value.op).aux;
    print_brackets(text, rule, value.aux)?;
    print_braces(text, rule, value)
}

// A number in brackets, or of a ConstBool its word.
fn print_brackets(text: &mut Vec<u8>, rule: AuxRule, aux: i64) -> Result<(), NoMemory>
    ensures { OnOk result (text.new.items ≡ text.old.items ++ brackets_text rule aux) }
{
    match rule {
        AuxRule::Int => {
            put(text, b" [")?;
            put_signed(text, aux)?;
            put(text, b"]")
        }
        AuxRule::Bool => {
            put(text, b" [")?;
            print_bool(text, aux)?;
            put(text, b"]")
        }
        AuxRule::Nothing | AuxRule::Sym | AuxRule::Elem | AuxRule::Dropped => Ok(()),
    }
}

// The word of a bool's number; a number other than 0 and 1 has none.
fn print_bool(text: &mut Vec<u8>, aux: i64) -> Result<(), NoMemory>
    ensures { OnOk result (text.new.items ≡ text.old.items ++ bool_word aux) }
{
    match aux {
        0 => put(text, b"false"),
        1 => put(text, b"true"),
        _ => Ok(()),
    }
}

// A name or a type in braces.
fn print_braces(text: &mut Vec<u8>, rule: AuxRule, value: &Value) -> Result<(), NoMemory>
    ensures { OnOk result (text.new.items ≡ text.old.items ++ braces_text rule value.now.sym value.now.elem) }
{
    match rule {
        AuxRule::Sym => {
            put(text, b" {")?;
            print_name(text, &value.sym)?;
            put(text, b"}")
        }
        AuxRule::Elem => {
            put(text, b" {")?;
            print_elem(text, value.elem)?;
            put(text, b"}")
        }
        AuxRule::Nothing | AuxRule::Int | AuxRule::Bool | AuxRule::Dropped => Ok(()),
    }
}

// A name that is there.
fn print_name(text: &mut Vec<u8>, name: &Option<Name>) -> Result<(), NoMemory>
    ensures { OnOk result (text.new.items ≡ text.old.items ++ name_or_none name.now) }
{
    match name {
        None => Ok(()),
        Some(name) => name.print(text),
    }
}

// A type that is there.
fn print_elem(text: &mut Vec<u8>, elem: Option<Scalar>) -> Result<(), NoMemory>
    ensures { OnOk result (text.new.items ≡ text.old.items ++ scalar_or_none elem) }
{
    match elem {
        None => Ok(()),
        Some(scalar) => scalar.print(text),
    }
}
