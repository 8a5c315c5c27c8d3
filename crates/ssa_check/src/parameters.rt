// Parameters, and the memory at the entry.

ghost use Rattle.std.specs.Prelude.{◌≡◌, ℤ, [], ◌∷◌, ◌&&◌, not, Some, MatchOption, IfOk, OnOk};
ghost use Rattle.std.specs.List.{list_any};
ghost use Rattle.std.specs.Ordering.{int_eq};
ghost use Rattle.indexmap.specs.IndexMap.{get};
ghost use Rattle.ssa_ir.specs.declared.func.SsaUnit.{SsaUnit as IrUnit};
ghost use Rattle.ssa_ir.specs.Lookups.{values_of};
ghost use Rattle.ssa_ir.specs.WellFormed.{WellFormedFunc};
ghost use Rattle.ssa_check.specs.declared.refusal.Check.TheVariants as check;
ghost use Rattle.ssa_check.specs.Failing.{Meets, LeastPlace};
ghost use Rattle.ssa_check.specs.tables.ParameterTables as tables;
ghost use Rattle.ssa_check.specs.tables.Lowest.{lower_where};
ghost use Rattle.ssa_ir.specs.OpKinds as kinds;
ghost use Rattle.ssa_check.specs.ValueChecks as spec;

use crate::arity::is_first;
use crate::lowest::{ValueTest, lower, lowest_value, value_place};
use crate::refusal::At;
use gossa_base::NoMemory;
use indexmap::IndexMap;
use ssa_ir::{Block, Func, Scalar, Value, class_of, class_of_scalar, same_class};
use std::alloc::Global;

// The lowest number of an InitMem, and for the number of each parameter that of its Args.
#[derive(Drop)]
struct ParameterTable {
    init: Option<u32>,
    args: IndexMap<i64, u32>,
}

// The lowest number of an InitMem, with this value.
fn with_init(before: Option<u32>, value: &Value) -> Option<u32>
    ensures { result ≡ lower_where (kinds.is_init value.now.op) before value.now.id.0 }
{
    if value.op.is_init() {
        lower(before, value.id.0)
    } else {
        before
    }
}

// Takes note of a value, where it is an Arg.
fn note_arg(args: &mut IndexMap<i64, u32>, value: &Value) -> Result<(), NoMemory>
    ensures { OnOk result ((number : ℤ) → get int_eq args.new number
        ≡ lower_where (tables.is_arg_of number value.now) (get int_eq args.old number) value.now.id.0) }
{
    if !value.op.is_arg() {
        return Ok(());
    }
    if let Some(lowest) = args.get(&value.aux) {
        if *lowest <= value.id.0 {
            return Ok(());
        }
    }
    args.insert(value.aux, value.id.0)?;
    Ok(())
}

impl ParameterTable {
    // Takes note of a value.
    fn note(&mut self, value: &Value) -> Result<(), NoMemory>
        ensures { OnOk result (tables.IsNoted self.old (value.now ∷ []) self.new) }
    {
        self.init = with_init(self.init, value);
        note_arg(&mut self.args, value)
    }

    // Takes note of the values of a block.
    fn note_block(&mut self, block: &Block) -> Result<(), NoMemory>
        ensures { OnOk result (tables.IsNoted self.old block.now.values self.new) }
    {
        for value in block.values.as_slice() {
            self.note(value)?;
        }
        Ok(())
    }

    // The table of a function.
    fn of_func(alloc: Global, func: &Func) -> Result<ParameterTable, NoMemory>
        ensures { IfOk result (λ table. tables.IsTableOf (values_of func.now) table) }
    {
        let mut table = ParameterTable {
            init: None,
            args: IndexMap::new(alloc),
        };
        for block in func.blocks.as_slice() {
            table.note_block(block)?;
        }
        Ok(table)
    }
}

// Whether there is a lowest number, and it is below this one.
fn is_below(lowest: Option<u32>, number: u32) -> bool
    ensures { result ≡ tables.is_below lowest number }
{
    match lowest {
        Some(lowest) => lowest < number,
        None => false,
    }
}

// The type of the parameter of this number.
fn parameter(func: &Func, number: i64) -> Option<Scalar>
    ensures { result ≡ spec.parameter func.now number }
{
    let Ok(index) = usize::try_from(number) else {
        return None;
    };
    func.sig.params.as_slice().get(index).copied()
}

// Whether a value is of the class of this type.
fn is_of_class(value: &Value, scalar: Option<Scalar>) -> bool
    ensures { result ≡ spec.is_of_class value.now scalar }
{
    match scalar {
        Some(scalar) => same_class(class_of(&value.ty), class_of_scalar(scalar)),
        None => false,
    }
}

// Whether an Arg or an InitMem isn't as it must be.
#[derive(Drop)]
struct ParameterTest<'a> {
    func: &'a Func,
    table: &'a ParameterTable,
}

impl ParameterTest<'_> {
    // Whether an InitMem has a lower number than this value.
    fn has_lower_init(&self, value: &Value) -> bool
        requires { tables.IsTableOf (values_of self.now.func.now) self.now.table.now }
        ensures { result ≡ list_any (λ u. kinds.is_init u.op && spec.is_lower u value.now) (values_of self.now.func.now) }
    {
        is_below(self.table.init, value.id.0)
    }

    // Whether an Arg of this value's number in brackets has a lower number than this value.
    fn has_lower_arg(&self, value: &Value) -> bool
        requires { tables.IsTableOf (values_of self.now.func.now) self.now.table.now }
        ensures { result ≡ list_any (λ u. kinds.is_arg u.op && int_eq u.aux value.now.aux
            && spec.is_lower u value.now) (values_of self.now.func.now) }
    {
        is_below(self.table.args.get(&value.aux).copied(), value.id.0)
    }

    // Whether a value may be the InitMem.
    fn init_holds(&self, block: &Block, value: &Value) -> bool
        requires { tables.IsTableOf (values_of self.now.func.now) self.now.table.now }
        ensures { result ≡ spec.init_holds self.now.func.now block.now value.now }
    {
        is_first(self.func.blocks.as_slice(), block) && !self.has_lower_init(value)
    }

    // Whether a value may be the Arg of its number in brackets.
    fn arg_holds(&self, block: &Block, value: &Value) -> bool
        requires { tables.IsTableOf (values_of self.now.func.now) self.now.table.now }
        ensures { result ≡ spec.arg_holds self.now.func.now block.now value.now }
    {
        is_first(self.func.blocks.as_slice(), block)
            && is_of_class(value, parameter(self.func, value.aux))
            && !self.has_lower_arg(value)
    }
}

impl ValueTest for ParameterTest<'_> {
    ghost takes = { λ t b v. tables.IsTableOf (values_of t.func.now) t.table.now };

    ghost fails = { λ t b v. not (spec.arg_or_init_holds t.func.now b v) };

    fn fails_at(&self, block: &Block, value: &Value) -> bool {
        (value.op.is_init() && !self.init_holds(block, value))
            || (value.op.is_arg() && !self.arg_holds(block, value))
    }
}

// The least place at which the check ArgOrInit fails: the function, where it has no InitMem, or the least value.
pub(crate) fn parameters_fault(alloc: Global, func: &Func) -> Result<Option<At>, NoMemory>
    requires { WellFormedFunc func.now }
    ensures { (u : IrUnit) → IfOk result (λ found. MatchOption found (Meets check.ArgOrInit u func.now)
        (LeastPlace check.ArgOrInit u func.now)) }
{
    let table = ParameterTable::of_func(alloc, func)?;
    if table.init.is_none() {
        return Ok(Some(At::Func));
    }
    let test = ParameterTest {
        func,
        table: &table,
    };
    Ok(value_place(lowest_value(func, &test)))
}
