// Calls and their selects.

ghost use Rattle.std.specs.Prelude.{◌≡◌, ℤ, nat_eq, ◌||◌, not, [], ◌∷◌, ◌++◌, List, Some, Contains, MatchOption, IfOk};
ghost use Rattle.std.specs.Prelude.{OnOk};
ghost use Rattle.std.specs.List.{list_any};
ghost use Rattle.std.specs.Map.{lookup};
ghost use Rattle.ssa_ir.specs.declared.func.Value.{Value as IrValue};
ghost use Rattle.ssa_ir.specs.FirstOrder as order;
ghost use Rattle.ssa_ir.specs.Limits as limits;
ghost use Rattle.ssa_ir.specs.Lookups.{values_of};
ghost use Rattle.ssa_check.specs.declared.refusal.Check.TheVariants as check;
ghost use Rattle.ssa_check.specs.CalleeCheck as spec;
ghost use Rattle.ssa_check.specs.Failing.{Meets, LeastPlace};
ghost use Rattle.ssa_check.specs.OpTypes as ops;
ghost use Rattle.ssa_check.specs.tables.Selects.{picks_by, picks_of, is_memory_of, is_index_of, is_below, is_key};
ghost use Rattle.ssa_check.specs.tables.Selects.{says_memory};
ghost use Rattle.ssa_check.specs.tables.Selects.{says_lowest, TellsOf};
ghost use Rattle.ssa_tables.specs.SignatureTable.{names_of};
ghost use Rattle.ssa_check.specs.tables.Lowest.{lower_where};

use crate::lowest::{ValueTest, lowest_value, value_place};
use crate::refusal::At;
use crate::types::{before_last, class_at};
use gossa_base::{NoMemory, ValueId};
use indexmap::{IndexMap, IndexSet};
use ssa_ir::{
    Block, Class, Func, Scalar, Sig, SsaUnit, Ty, Value, class_of, class_of_scalar, same_class,
};
use ssa_tables::{FuncTables, SignatureTable};
use std::alloc::Global;

// An index of a value: what a select selects.
#[derive(Clone, Copy, PartialEq, Eq, Hash)]
struct SelectKey {
    value: ValueId,
    index: i64,
}

// The values that selects of type mem name, and the lowest select of each index of a value. A select names each of its
// arguments.
#[derive(Drop)]
struct SelectTable {
    memories: IndexSet<u32>,
    lowest: IndexMap<SelectKey, u32>,
}

impl SelectTable {
    // Notes the selects of a function.
    fn new(alloc: Global, func: &Func) -> Result<SelectTable, NoMemory>
        ensures { IfOk result (TellsOf (picks_of (values_of func.now))) }
    {
        let mut table = SelectTable {
            memories: IndexSet::new(alloc),
            lowest: IndexMap::new(alloc),
        };
        for block in func.blocks.as_slice() {
            table.put_values(block.values.as_slice())?;
        }
        Ok(table)
    }

    // Notes the selects among these values.
    fn put_values(&mut self, values: &[Value]) -> Result<(), NoMemory>
        ensures { OnOk result ((picks : List (ValueId × IrValue)) → TellsOf picks self.old
            → TellsOf (picks ++ picks_of values.now) self.new) }
    {
        for value in values {
            self.put_value(value)?;
        }
        Ok(())
    }

    // Notes a value, if it is a select: each of its arguments.
    fn put_value(&mut self, value: &Value) -> Result<(), NoMemory>
        ensures { OnOk result ((picks : List (ValueId × IrValue)) → TellsOf picks self.old
            → TellsOf (picks ++ picks_by value.now) self.new) }
    {
        if !value.op.is_select() {
            return Ok(());
        }
        for id in value.args.as_slice() {
            self.put(*id, value)?;
        }
        Ok(())
    }

    // Notes a select, and a value that it names.
    fn put(&mut self, id: ValueId, select: &Value) -> Result<(), NoMemory>
        ensures { OnOk result ((picks : List (ValueId × IrValue)) → TellsOf picks self.old
            → TellsOf (picks ++ (id, select.now) ∷ []) self.new) }
    {
        note_memory(&mut self.memories, id, select)?;
        note_lowest(&mut self.lowest, id, select)
    }

    // Whether a select of type mem names the value.
    fn has_memory_of(&self, id: ValueId) -> bool
        ensures { result ≡ says_memory self.now id }
    {
        self.memories.contains(&id.0)
    }

    // Whether a select of a lower number has the same index of the value.
    fn has_lower_twin(&self, value: ValueId, select: &Value) -> bool
        ensures { result ≡ is_below (says_lowest self.now value select.now.aux) select.now.id.0 }
    {
        let key = SelectKey {
            value,
            index: select.aux,
        };
        match self.lowest.get(&key) {
            Some(lowest) => *lowest < select.id.0,
            None => false,
        }
    }
}

// Notes the value that a select names, if the select is of type mem.
fn note_memory(memories: &mut IndexSet<u32>, id: ValueId, select: &Value) -> Result<(), NoMemory>
    ensures { OnOk result ((other : ValueId) → list_any (nat_eq other.0) memories.new.keys
        ≡ (list_any (nat_eq other.0) memories.old.keys || is_memory_of other (id, select.now))) }
{
    if select.is_memory() {
        memories.insert(id.0)?;
    }
    Ok(())
}

// Notes a select at its index of the value that it names, if none of a lower number is there.
fn note_lowest(
    lowest: &mut IndexMap<SelectKey, u32>,
    id: ValueId,
    select: &Value,
) -> Result<(), NoMemory>
    ensures { OnOk result ((other : ValueId) (index : ℤ)
        → lookup (is_key other index) lowest.new.entries
        ≡ lower_where (is_index_of other index (id, select.now)) (lookup (is_key other index) lowest.old.entries)
        select.now.id.0) }
{
    let key = SelectKey {
        value: id,
        index: select.aux,
    };
    if let Some(number) = lowest.get(&key) {
        if *number <= select.id.0 {
            return Ok(());
        }
    }
    lowest.insert(key, select.id.0)?;
    Ok(())
}

// The words that a tuple has before its memory.
pub(crate) fn tuple_words(ty: &Ty) -> &[Scalar]
    ensures { result.now ≡ limits.tuple_words ty.now }
{
    match ty {
        Ty::Tuple(types) => types.as_slice(),
        _ => &[],
    }
}

// Whether values have the classes of these types, one each.
pub(crate) fn have_types(tables: &FuncTables, ids: &[ValueId], types: &[Scalar]) -> bool
    ensures { result ≡ ops.are (ops.classes_of tables.now ids.now) (spec.classes types.now) }
{
    if ids.len() != types.len() {
        return false;
    }
    for (i, ty) in types.iter().enumerate() {
        if !same_class(class_at(tables, ids[i]), class_of_scalar(*ty)) {
            return false;
        }
    }
    true
}

// Whether types have the classes of these, one each.
pub(crate) fn are_like(types: &[Scalar], asked: &[Scalar]) -> bool
    ensures { result ≡ ops.are (spec.classes types.now) (spec.classes asked.now) }
{
    if types.len() != asked.len() {
        return false;
    }
    for (i, ty) in asked.iter().enumerate() {
        if !same_class(class_of_scalar(types[i]), class_of_scalar(*ty)) {
            return false;
        }
    }
    true
}

// Whether a call has the parameters and the results of this signature.
fn has_sig(tables: &FuncTables, call: &Value, sig: &Sig) -> bool
    ensures { result ≡ spec.matches tables.now call.now (Some sig.now) }
{
    let args = before_last(call.args.as_slice());
    have_types(tables, args, sig.params.as_slice())
        && are_like(tuple_words(&call.ty), sig.results.as_slice())
}

// The class of a result of a tuple, by its index: behind the last word stands the memory.
fn result_class(types: &[Scalar], index: i64) -> Option<Class>
    ensures { result ≡ spec.result_class types.now index }
{
    let place = usize::try_from(index).ok()?;
    if place == types.len() {
        return Some(Class::Memory);
    }
    let ty = types.get(place)?;
    Some(class_of_scalar(*ty))
}

// Whether a value has this class.
fn is_class(value: &Value, asked: Option<Class>) -> bool
    ensures { result ≡ spec.is_class value.now asked }
{
    match asked {
        Some(class) => same_class(class_of(&value.ty), class),
        None => false,
    }
}

// Whether the value of this number stands in this block.
pub(crate) fn stands_in(tables: &FuncTables, block: &Block, id: ValueId) -> bool
    requires of_block { Contains tables.now.blocks block.now }
    ensures { result ≡ order.has_value block.now.values id }
{
    let func = tables.func();
    let Some(place) = tables.place(id) else {
        return false;
    };
    match func.blocks.as_slice().get(place.block) {
        Some(home) => home.id == block.id,
        None => false,
    }
}

// The test of calls and selects: whether one isn't as its callee's signature asks.
#[derive(Drop)]
struct CalleeTest<'a> {
    unit: &'a SsaUnit,
    signatures: &'a SignatureTable,
    tables: &'a FuncTables<'a>,
    selects: &'a SelectTable,
}

impl CalleeTest<'_> {
    // Whether a call has a callee, and its parameters and results.
    fn has_callee(&self, call: &Value) -> bool
        requires of_unit { self.now.signatures.now ≡ names_of self.now.unit.now }
        ensures { result ≡ spec.matches self.now.tables.now call.now (spec.callee self.now.unit.now call.now.sym) }
    {
        let Some(name) = &call.sym else {
            return false;
        };
        match self.signatures.sig(self.unit, name) {
            Some(sig) => has_sig(self.tables, call, sig),
            None => false,
        }
    }

    // Whether a select stands in the block of this call, and has an index and the class of the call's tuple there; no
    // select of a lower number may have the same index.
    fn selects_of_call(&self, block: &Block, select: &Value, call: &Value) -> bool
        requires of_block { Contains self.now.tables.now.blocks block.now }
        requires of_selects { TellsOf (picks_of (values_of self.now.tables.now)) self.now.selects.now }
        ensures { result ≡ spec.selects_of_call self.now.tables.now block.now select.now call.now }
    {
        if !call.op.is_call() {
            return false;
        }
        if !stands_in(self.tables, block, call.id) {
            return false;
        }
        let asked = result_class(tuple_words(&call.ty), select.aux);
        is_class(select, asked) && !self.selects.has_lower_twin(call.id, select)
    }

    // Whether a select is one of a call.
    fn select_holds(&self, block: &Block, select: &Value) -> bool
        requires of_block { Contains self.now.tables.now.blocks block.now }
        requires of_selects { TellsOf (picks_of (values_of self.now.tables.now)) self.now.selects.now }
        ensures { result ≡ spec.select_holds self.now.tables.now block.now select.now }
    {
        let Some(id) = select.args.as_slice().first() else {
            return false;
        };
        match self.tables.value(*id) {
            Some(call) => self.selects_of_call(block, select, call),
            None => false,
        }
    }

    // Whether a call is one of its callee's signature, and the memory that it leaves is named.
    fn call_holds(&self, call: &Value) -> bool
        requires of_unit { self.now.signatures.now ≡ names_of self.now.unit.now }
        requires of_selects { TellsOf (picks_of (values_of self.now.tables.now)) self.now.selects.now }
        ensures { result ≡ spec.call_holds self.now.unit.now self.now.tables.now call.now }
    {
        self.has_callee(call) && self.selects.has_memory_of(call.id)
    }
}

impl ValueTest for CalleeTest<'_> {
    ghost takes = { λ t b v. (t.signatures.now ≡ names_of t.unit.now)
        × TellsOf (picks_of (values_of t.tables.now)) t.selects.now × Contains t.tables.now.blocks b };

    ghost fails = { λ t b v. not (spec.callee_holds t.unit.now t.tables.now b v) };

    fn fails_at(&self, block: &Block, value: &Value) -> bool {
        if value.op.is_call() {
            return !self.call_holds(value);
        }
        value.op.is_select() && !self.select_holds(block, value)
    }
}

// The least value at which the check Callee fails.
pub(crate) fn callee_fault(
    alloc: Global,
    unit: &SsaUnit,
    signatures: &SignatureTable,
    tables: &FuncTables,
) -> Result<Option<At>, NoMemory>
    requires of_unit { signatures.now ≡ names_of unit.now }
    ensures { IfOk result (λ found. MatchOption found (Meets check.Callee unit.now tables.now)
        (LeastPlace check.Callee unit.now tables.now)) }
{
    let func = tables.func();
    let selects = SelectTable::new(alloc, func)?;
    let test = CalleeTest {
        unit,
        signatures,
        tables,
        selects: &selects,
    };
    Ok(value_place(lowest_value(func, &test)))
}
