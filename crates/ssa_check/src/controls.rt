// How blocks end.

ghost use Rattle.std.specs.Prelude.{◌≡◌, ◌++◌, ◌∷◌, [], ◌||◌, List, Some, true, not, Contains, MatchOption, IfOk, OnOk};
ghost use Rattle.std.specs.List.{list_any};
ghost use Rattle.gossa_base.specs.declared.ids.ValueId.{ValueId as IrValueId};
ghost use Rattle.ssa_ir.specs.declared.func.Block.{Block as IrBlock};
ghost use Rattle.ssa_ir.specs.declared.func.Kind.TheVariants as kind;
ghost use Rattle.ssa_ir.specs.declared.func.SsaUnit.{SsaUnit as IrUnit};
ghost use Rattle.ssa_ir.specs.FirstOrder.{same_value};
ghost use Rattle.ssa_ir.specs.Lookups.{value_of};
ghost use Rattle.ssa_check.specs.declared.refusal.Check.TheVariants as check;
ghost use Rattle.ssa_check.specs.BlockChecks as spec;
ghost use Rattle.ssa_ir.specs.Classes as classes;
ghost use Rattle.ssa_check.specs.Failing.{Meets, LeastPlace};
ghost use Rattle.ssa_check.specs.OpTypes as types;
ghost use Rattle.ssa_check.specs.tables.Uses.{is_noted, is_taken, is_control, TellsOf};

use crate::callees::{are_like, have_types, stands_in, tuple_words};
use crate::lowest::{BlockTest, lowest_block, place_of_block};
use crate::refusal::At;
use crate::types::{before_last, class_at};
use gossa_base::{NoMemory, ValueId};
use indexmap::IndexSet;
use ssa_ir::{Block, Class, Func, Kind, Value, same_class};
use ssa_tables::FuncTables;
use std::alloc::Global;

// Puts the numbers of arguments among those noted.
fn note_args(used: &mut IndexSet<u32>, args: &[ValueId]) -> Result<(), NoMemory>
    ensures { OnOk result ((id : IrValueId) → is_noted id used.new.keys
        ≡ (is_noted id used.old.keys || list_any (same_value id) args.now)) }
{
    for arg in args {
        used.insert(arg.0)?;
    }
    Ok(())
}

// Puts the numbers of all arguments of values among those noted.
fn note_values(used: &mut IndexSet<u32>, values: &[Value]) -> Result<(), NoMemory>
    ensures { OnOk result ((id : IrValueId) → is_noted id used.new.keys
        ≡ (is_noted id used.old.keys || is_taken id values.now)) }
{
    for value in values {
        note_args(used, value.args.as_slice())?;
    }
    Ok(())
}

// The numbers of the values that are used. A look-up takes constant time on average.
#[derive(Drop)]
struct UseTable {
    // Those that some value takes, or by which more than one block ends.
    used: IndexSet<u32>,
    // Those by which blocks end.
    ends: IndexSet<u32>,
}

impl UseTable {
    // The uses of a function.
    fn of_func(alloc: Global, func: &Func) -> Result<UseTable, NoMemory>
        ensures { IfOk result (TellsOf func.now.blocks) }
    {
        let mut table = UseTable {
            used: IndexSet::new(alloc),
            ends: IndexSet::new(alloc),
        };
        for block in func.blocks.as_slice() {
            table.note(block)?;
        }
        Ok(table)
    }

    // Takes note of one more block.
    fn note(&mut self, block: &Block) -> Result<(), NoMemory>
        ensures { OnOk result ((blocks : List IrBlock) → TellsOf blocks self.old
            → TellsOf (blocks ++ block.now ∷ []) self.new) }
    {
        note_values(&mut self.used, block.values.as_slice())?;
        let Some(id) = block.control else {
            return Ok(());
        };
        if self.ends.insert(id.0)? {
            return Ok(());
        }
        self.used.insert(id.0)?;
        Ok(())
    }

    // Whether some value takes this one, or more than one block ends by it.
    fn is_used(&self, id: ValueId) -> bool
        ensures { result ≡ is_noted id self.now.used.keys }
    {
        self.used.contains(&id.0)
    }
}

// Whether a block ends by something else than what its kind takes.
#[derive(Drop)]
struct ControlTest<'a> {
    tables: &'a FuncTables<'a>,
    uses: &'a UseTable,
}

impl ControlTest<'_> {
    // Whether a value has a class.
    fn has_class(&self, id: ValueId, class: Class) -> bool
        ensures { result ≡ classes.same_class (types.class_at self.now.tables.now id) class }
    {
        same_class(class_at(self.tables, id), class)
    }

    // Whether a value is a MakeResult of what the function returns.
    fn has_results(&self, id: ValueId) -> bool
        ensures { result ≡ spec.has_results self.now.tables.now (value_of self.now.tables.now id) }
    {
        let Some(value) = self.tables.value(id) else {
            return false;
        };
        let args = before_last(value.args.as_slice());
        let results = self.tables.func().sig.results.as_slice();
        value.op.is_result()
            && have_types(self.tables, args, results)
            && are_like(tuple_words(&value.ty), results)
    }

    // Whether a block that ends by this value may return it.
    fn may_return(&self, block: &Block, id: ValueId) -> bool
        requires of_uses { TellsOf self.now.tables.now.blocks self.now.uses.now }
        requires of_block { Contains self.now.tables.now.blocks block.now }
        requires is_its { is_control id block.now ≡ true }
        ensures { result ≡ spec.takes self.now.tables.now block.now kind.Ret (Some id) }
    {
        let _well_formed = self.tables.func();
        self.has_results(id) && stands_in(self.tables, block, id) && !self.uses.is_used(id)
    }
}

impl BlockTest for ControlTest<'_> {
    ghost takes = { λ t b. TellsOf t.tables.now.blocks t.uses.now × Contains t.tables.now.blocks b };

    ghost fails = { λ t b. not (spec.control_holds t.tables.now b) };

    fn fails_at(&self, block: &Block) -> bool {
        match (block.kind, block.control) {
            (Kind::Plain, _) => false,
            (Kind::If, Some(id)) => !self.has_class(id, Class::Bool),
            (Kind::Ret, Some(id)) => !self.may_return(block, id),
            (Kind::Exit, Some(id)) => !self.has_class(id, Class::Memory),
            _ => true,
        }
    }
}

// The least block at which the check Control fails.
pub(crate) fn control_fault(alloc: Global, tables: &FuncTables) -> Result<Option<At>, NoMemory>
    ensures { (u : IrUnit) → IfOk result (λ found. MatchOption found (Meets check.Control u tables.now)
        (LeastPlace check.Control u tables.now)) }
{
    let func = tables.func();
    let uses = UseTable::of_func(alloc, func)?;
    let test = ControlTest {
        tables,
        uses: &uses,
    };
    Ok(place_of_block(lowest_block(func, &test)))
}
