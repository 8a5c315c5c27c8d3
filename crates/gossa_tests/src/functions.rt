// Functions and units as passes see them: look-ups, arguments, and copies.

ghost use Rattle.std.specs.Prelude.{◌≡◌, ◌≤◌, length};
ghost use Rattle.ssa_ir.specs.WellFormed.{WellFormed};

use crate::dumps::{CANONICAL, MARKED};
use crate::made::{has_text, unit_of_text};
use gossa_base::{BlockId, Name, NoMemory, ValueId};
use ssa_ir::{Args, Func, SsaUnit};
use ssa_tables::SignatureTable;
use ssa_text::TextRefusal;
use std::alloc::Global;

// Names of 1 to 100 bytes: how many parameters the signature of each has in the dump, and the number of its function.
const NAMES: [(&[u8], Option<usize>, Option<u32>); 3] = [
    (b"runtime.panicIndex", Some(2), None),
    (b"main.sum", Some(3), Some(0)),
    (b"main.su", None, None),
];

#[test]
fn looks_up_what_is_there(rt: HostRuntime) {
    for (name, params, func) in NAMES.iter() {
        assert!(rt; !name.is_empty() && name.len() <= 100);
        assert!(rt; looked_up(rt.alloc(), name) == Ok((*params, *params, *func)));
    }
}

// What the dump has of a name: how many parameters its signature has, how many by the table of signatures, and the
// number of its function.
fn looked_up(
    alloc: Global,
    name: &[u8],
) -> Result<(Option<usize>, Option<usize>, Option<u32>), TextRefusal>
    requires some { 1 ≤ length name.now }
    requires few { length name.now ≤ 100 }
{
    let name = Name::from_slice(alloc, name)?;
    let unit = unit_of_text(alloc, MARKED)?;
    let tabled = params_by_table(alloc, &unit, &name)?;
    let params = unit.sig_of(&name).map(|sig| sig.params.len());
    Ok((params, tabled, func_of(&unit, &name)))
}

fn params_by_table(alloc: Global, unit: &SsaUnit, name: &Name) -> Result<Option<usize>, NoMemory>
    requires { WellFormed unit.now }
{
    let table = SignatureTable::new(alloc, unit)?;
    match table.sig(unit, name) {
        Some(sig) => Ok(Some(sig.params.len())),
        None => Ok(None),
    }
}

// The number of the function of this name in a unit of one.
fn func_of(unit: &SsaUnit, name: &Name) -> Option<u32> {
    if unit.funcs.len() == 1 {
        unit.func_named(name)
    } else {
        None
    }
}

#[test]
fn looks_up_values_and_blocks(rt: HostRuntime) {
    assert!(rt; sum_has_its_parts(rt.alloc()) == Ok(true));
}

fn sum_has_its_parts(alloc: Global) -> Result<bool, TextRefusal> {
    let unit = unit_of_text(alloc, MARKED)?;
    match unit.funcs.as_slice() {
        [func] => Ok(has_its_parts(func)),
        _ => Ok(false),
    }
}

// Whether value 20 and block 6 are there, and value 19 and a split block 6 aren't.
fn has_its_parts(func: &Func) -> bool {
    func.value(ValueId(20)).is_some()
        && func.value(ValueId(19)).is_none()
        && func.block(BlockId { split: false, n: 6 }).is_some()
        && func.block(BlockId { split: true, n: 6 }).is_none()
}

// The numbers of values that argument lists of tests are cut from: the first four fit without memory of their own.
const IDS: [ValueId; 6] = [
    ValueId(9),
    ValueId(2),
    ValueId(7),
    ValueId(7),
    ValueId(1),
    ValueId(4),
];

#[test]
fn arguments_stand_in_order(rt: HostRuntime) {
    assert!(rt; stand_in_order(rt.alloc(), &[]) == Ok(true));
    assert!(rt; stand_in_order(rt.alloc(), &IDS[..4]) == Ok(true));
    assert!(rt; stand_in_order(rt.alloc(), &IDS) == Ok(true));
}

fn stand_in_order(alloc: Global, ids: &[ValueId]) -> Result<bool, NoMemory> {
    Ok(Args::from_slice(alloc, ids)?.as_slice() == ids)
}

#[test]
fn arguments_grow(rt: HostRuntime) {
    assert!(rt; grown_are_whole(rt.alloc()) == Ok(true));
}

fn grown_are_whole(alloc: Global) -> Result<bool, NoMemory> {
    let args = grown(alloc)?;
    Ok(args.as_slice() == IDS.as_slice() && copy_is_whole(&args)?)
}

fn grown(alloc: Global) -> Result<Args, NoMemory> {
    let mut args = Args::new(alloc);
    for id in IDS.iter() {
        args.push(*id)?;
    }
    Ok(args)
}

fn copy_is_whole(args: &Args) -> Result<bool, NoMemory> {
    Ok(args.clone()?.as_slice() == IDS.as_slice())
}

#[test]
fn a_copy_has_the_same_parts(rt: HostRuntime) {
    assert!(rt; copy_has_text(rt.alloc()) == Ok(true));
}

fn copy_has_text(alloc: Global) -> Result<bool, TextRefusal> {
    let copy = copied(alloc)?;
    has_text(alloc, &copy, CANONICAL)
}

// A copy of the dump's unit.
fn copied(alloc: Global) -> Result<SsaUnit, TextRefusal> {
    let unit = unit_of_text(alloc, MARKED)?;
    copy_of(&unit)
}

fn copy_of(unit: &SsaUnit) -> Result<SsaUnit, TextRefusal> {
    match unit.clone() {
        Ok(copy) => Ok(copy),
        Err(_) => Err(TextRefusal::NoMemory),
    }
}
