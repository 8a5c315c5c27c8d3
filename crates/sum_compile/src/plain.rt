// The plain allocation: each value but constants has a word of the frame of its own.

ghost use Rattle.std.specs.Prelude.{◌≡◌, ◌<◌, ◌≤◌, ◌^◌, [], ◌∷◌, ◌++◌, length, map, replicate, None, IfOk, IfSome};
ghost use Rattle.std.specs.Prelude.{OnOk};
ghost use Rattle.std.specs.Option.{option_copied};
ghost use Rattle.std.specs.List.{All, flat_map};
ghost use Rattle.ssa_ir.specs.FirstOrder.{first_order};
ghost use Rattle.listing.specs.CodeFacts.{IsCode};
ghost use Rattle.sum_compile.specs.Narrow.{Narrow};
ghost use Rattle.sum_compile.specs.tables.Numbered.{NumberedFrom};
ghost use Rattle.sum_compile.specs.tables.Parameters.{noted, noted_all, held_from};
ghost use Rattle.sum_compile.specs.tables.Places.{place_in};
ghost use Rattle.sum_compile.specs.Plain.{parameter_number, spill_line, load_line, sum_lines, add_lines, value_lines};
ghost use Rattle.sum_compile.specs.Plain.{result_lines, end_lines, lines_in_order, value_named, returned_value};
ghost use Rattle.sum_compile.specs.Plain.{plain_listing};

use crate::places::Places;
use gossa_base::{NoMemory, Sequence, ValueId};
use listing::{Code, Line, Listing, ListingList, Note, Operands, Place, RegState};
use ssa_ir::{Block, Func, Kind, Op, Sig, Value};
use std::alloc::Global;

/// The listings of narrow functions, in order, for a machine with this many registers.
pub fn allocate_all(alloc: Global, funcs: &[Func], regs: u32) -> Result<ListingList, NoMemory>
    requires narrow { All Narrow funcs.now }
    requires many { 16 ≤ regs }
    requires most { regs ≤ 24 }
    ensures { IfOk result (λ listings. listings ≡ map (plain_listing regs) funcs.now) }
{
    let mut listings = ListingList::new(alloc);
    for func in funcs {
        listings.push(allocate(alloc, func, regs)?)?;
    }
    Ok(listings)
}

/// The listing of a narrow function by the plain allocation, for a machine with this many registers: at least 16, so
/// that each parameter comes in one, and at most the 24 of the pool.
pub fn allocate(alloc: Global, func: &Func, regs: u32) -> Result<Listing, NoMemory>
    requires narrow { Narrow func.now }
    requires many { 16 ≤ regs }
    requires most { regs ≤ 24 }
    ensures { IfOk result (λ listing. listing ≡ plain_listing regs func.now) }
{
    match func.blocks.as_slice() {
        [block] => allocate_block(alloc, &func.sig, block, regs),
        _ => unreachable!(),
    }
}

// The listing of a function of this one block.
fn allocate_block(alloc: Global, sig: &Sig, block: &Block, regs: u32) -> Result<Listing, NoMemory>
    requires numbered { NumberedFrom 1 block.now.values }
    requires few { length block.now.values < 2 ^ 32 }
    requires few_params { length sig.now.params < 2 ^ 32 }
    requires few_results { IfSome (returned_value block.now.values block.now.control) (λ v. length v.args < 2 ^ 32) }
    requires in_order { first_order block.now.values ≡ block.now.values }
    requires facts { IsCode (plain_listing regs (record { sig = sig.now; blocks = block.now ∷ [] })).code }
    ensures { IfOk result (λ made. made ≡ plain_listing regs (record { sig = sig.now; blocks = block.now ∷ [] })) }
{
    let places = Places::of(alloc, block.values.as_slice())?;
    let held = parameters(alloc, block.values.as_slice(), sig.params.len())?;
    let mut lines = Vec::new(alloc);
    emit_block(&mut lines, &places, held, block)?;
    let sig = same_sig(sig)?;
    Ok(Listing {
        code: Code {
            sig,
            regs,
            syms: Sequence::new(alloc),
            lines: Sequence::from_vec(lines),
            out: 0,
            arg_words: 0,
        },
        ptr: 0,
        scalar: places.words(),
        maps: Sequence::new(alloc),
    })
}

// A signature of its own that is the same.
fn same_sig(sig: &Sig) -> Result<Sig, NoMemory>
    ensures { IfOk result (λ copy. copy ≡ sig.now) }
{
    Ok(sig.clone()?)
}

// The parameters that these values name, of so many, each with its register.
fn parameters(alloc: Global, values: &[Value], count: usize) -> Result<RegState, NoMemory>
    requires { count < 2 ^ 32 }
    ensures { IfOk result (λ held. held ≡ held_from 0 (noted_all (replicate count None) values.now)) }
{
    let mut ids = vec![in alloc; None; count]?;
    for value in values {
        note_parameter(&mut ids, value);
    }
    held_registers(alloc, &ids)
}

// Notes a value in a table of parameters, where it is the first to be its parameter.
fn note_parameter(ids: &mut [Option<ValueId>], value: &Value)
    ensures { ids.new ≡ noted ids.old value.now }
{
    if let Some(number) = parameter_number(value) {
        if number < ids.len() && ids[number].is_none() {
            ids[number] = Some(value.id);
        }
    }
}

// Which parameter a value is, if any.
pub(crate) fn parameter_number(value: &Value) -> Option<usize>
    ensures { result ≡ parameter_number value.now.op value.now.aux }
{
    match value.op {
        Op::Arg => usize::try_from(value.aux).ok(),
        _ => None,
    }
}

// The parameters of a table that are there, each with its register.
fn held_registers(alloc: Global, ids: &[Option<ValueId>]) -> Result<RegState, NoMemory>
    requires { length ids.now < 2 ^ 32 }
    ensures { IfOk result (λ held. held ≡ held_from 0 ids.now) }
{
    let mut held = RegState::new(alloc);
    for (register, id) in ids.iter().enumerate() {
        if let Some(id) = id {
            held.push((register as u32, *id))?;
        }
    }
    Ok(held)
}

// The lines of a block that begins with these parameters in registers, with its values in text order.
fn emit_block(
    lines: &mut Vec<Line>,
    places: &Places,
    held: RegState,
    block: &Block,
) -> Result<(), NoMemory>
    requires numbered { NumberedFrom 1 block.now.values }
    requires few_results { IfSome (returned_value block.now.values block.now.control) (λ v. length v.args < 2 ^ 32) }
    ensures { OnOk result (lines.new.items ≡ lines.old.items
        ++ lines_in_order (place_in places.now.places) held block.now.values block.now) }
{
    emit(lines, Line::Label(block.id, held.clone()?))?;
    for (register, id) in held.as_slice() {
        emit_spill(lines, places, *register, *id)?;
    }
    emit_values(lines, places, block.values.as_slice())?;
    emit_end(lines, places, block)
}

// One more line.
fn emit(lines: &mut Vec<Line>, line: Line) -> Result<(), NoMemory>
    ensures { OnOk result (lines.new.items ≡ lines.old.items ++ line ∷ []) }
{
    lines.push(line)?;
    Ok(())
}

// A value goes from a register to its home.
fn emit_spill(
    lines: &mut Vec<Line>,
    places: &Places,
    register: u32,
    id: ValueId,
) -> Result<(), NoMemory>
    ensures { OnOk result (lines.new.items ≡ lines.old.items ++ spill_line (place_in places.now.places) (register, id)
        ∷ []) }
{
    emit(
        lines,
        Line::Move(places.place(id), Place::Reg(register), Note::Spill(id)),
    )
}

// An operand goes to a register.
fn emit_load(
    lines: &mut Vec<Line>,
    places: &Places,
    register: u32,
    id: ValueId,
) -> Result<(), NoMemory>
    ensures { OnOk result (lines.new.items ≡ lines.old.items ++ load_line (place_in places.now.places) register id
        ∷ []) }
{
    emit(
        lines,
        Line::Move(Place::Reg(register), places.place(id), Note::Load(id)),
    )
}

// The lines of the values in their order.
fn emit_values(lines: &mut Vec<Line>, places: &Places, values: &[Value]) -> Result<(), NoMemory>
    ensures { OnOk result (lines.new.items ≡ lines.old.items
        ++ flat_map (value_lines (place_in places.now.places)) values.now) }
{
    for value in values {
        emit_value(lines, places, value)?;
    }
    Ok(())
}

// The lines of a value; only sums have any.
fn emit_value(lines: &mut Vec<Line>, places: &Places, value: &Value) -> Result<(), NoMemory>
    ensures { OnOk result (lines.new.items ≡ lines.old.items ++ value_lines (place_in places.now.places) value.now) }
{
    match value.op {
        Op::Add(_) => emit_operands_and_sum(lines, places, value.id, value.args.as_slice()),
        _ => Ok(()),
    }
}

// A sum: its operands in order, one that is named twice once, and then the sum.
fn emit_operands_and_sum(
    lines: &mut Vec<Line>,
    places: &Places,
    id: ValueId,
    args: &[ValueId],
) -> Result<(), NoMemory>
    ensures { OnOk result (lines.new.items ≡ lines.old.items ++ add_lines (place_in places.now.places) id args.now) }
{
    match args {
        [first, second] if first.0 == second.0 => {
            emit_load(lines, places, 0, *first)?;
            emit_sum(lines, places, id, 0)
        }
        [first, second] => {
            emit_load(lines, places, 0, *first)?;
            emit_load(lines, places, 1, *second)?;
            emit_sum(lines, places, id, 1)
        }
        _ => Ok(()),
    }
}

// The sum of the words in R0 and another register goes to R0, and from there to its home.
fn emit_sum(
    lines: &mut Vec<Line>,
    places: &Places,
    id: ValueId,
    second: u32,
) -> Result<(), NoMemory>
    ensures { OnOk result (lines.new.items ≡ lines.old.items ++ sum_lines (place_in places.now.places) id second) }
{
    let operands = Operands {
        dst: Some(0),
        a: Some(0),
        b: Some(second),
    };
    emit(lines, Line::Op(Op::Arm64ADD, 0, operands, Note::Value(id)))?;
    emit_spill(lines, places, 0, id)
}

// How a block ends; only a return has lines.
fn emit_end(lines: &mut Vec<Line>, places: &Places, block: &Block) -> Result<(), NoMemory>
    requires numbered { NumberedFrom 1 block.now.values }
    requires few_results { IfSome (returned_value block.now.values block.now.control) (λ v. length v.args < 2 ^ 32) }
    ensures { OnOk result (lines.new.items ≡ lines.old.items
        ++ end_lines (place_in places.now.places) block.now.values block.now.control block.now.kind) }
{
    match block.kind {
        Kind::Ret => {
            if let Some(value) = returned_value(block) {
                let args = value.args.as_slice();
                emit_results(lines, places, &args[..args.len().saturating_sub(1)])?;
            }
            emit(lines, Line::Ret)
        }
        _ => Ok(()),
    }
}

// The value that a block returns, if it is there.
fn returned_value(block: &Block) -> Option<&Value>
    requires { NumberedFrom 1 block.now.values }
    ensures { option_copied result ≡ returned_value block.now.values block.now.control }
{
    match block.control {
        None => None,
        Some(id) => value_named(block.values.as_slice(), id),
    }
}

// The value of a number, among values that are numbered from 1 on.
fn value_named(values: &[Value], id: ValueId) -> Option<&Value>
    requires { NumberedFrom 1 values.now }
    ensures { option_copied result ≡ value_named values.now id }
{
    if id.0 == 0 {
        None
    } else {
        values.get(id.0 as usize - 1)
    }
}

// Results go to the registers from R0 on.
fn emit_results(lines: &mut Vec<Line>, places: &Places, ids: &[ValueId]) -> Result<(), NoMemory>
    requires { length ids.now < 2 ^ 32 }
    ensures { OnOk result (lines.new.items ≡ lines.old.items ++ result_lines (place_in places.now.places) 0 ids.now) }
{
    for (register, id) in ids.iter().enumerate() {
        let target = Place::Reg(register as u32);
        emit(lines, Line::Move(target, places.place(*id), Note::Results))?;
    }
    Ok(())
}
