// The values of a block, one after the other.

ghost use Rattle.std.specs.Prelude.{◌≡◌, ◌<◌, List, [], IfOk, OnOk, IsSome, unwrap_or};
ghost use Rattle.std.specs.List.{All};
ghost use Rattle.ssa_ir.specs.declared.case.Case.{Case as IrCase};
ghost use Rattle.ssa_ir.specs.declared.func.Value.{Value as IrValue};
ghost use Rattle.ssa_ir.specs.declared.role.Role.TheVariants.{ChecksNil};
ghost use Rattle.ssa_ir.specs.Access as access;
ghost use Rattle.ssa_ir.specs.FirstOrder.{first_order, followers_of};
ghost use Rattle.ssa_ir.specs.Inputs.{Inputs, inputs_of, symbol_word as word_of_symbol};
ghost use Rattle.ssa_ir.specs.Lookups.{sig_of};
ghost use Rattle.ssa_ir.specs.OpFacts.{facts};
ghost use Rattle.ssa_ir.specs.Roles.{role};
ghost use Rattle.ssa_ir.specs.Run.{Form, generic, run_role, run_values, with_word, loaded_word, stored_memory};
ghost use Rattle.ssa_meaning.specs.tables.Given.{IsGiven};
ghost use Rattle.block_order.specs.Items.{AreInFirstOrder, IsItem, item_values, values_at};
ghost use Rattle.ssa_meaning.specs.tables.Ran.{Ran, next_of};
ghost use Rattle.ssa_meaning.specs.tables.Runnable.{HasItsName, IsRunnable};
ghost use Rattle.block_order.specs.Apart.{AreApart};
ghost use Rattle.ssa_meaning.specs.tables.Running.{room_of, state_of};

use crate::operands::parameter_word;
use crate::running::Running;
use crate::symbols::SymbolTable;
use crate::widths::{element_bytes, kept};
use block_order::Item;
use gossa_base::{NoMemory, sext};
use ssa_ir::{Access, Block, Case, End, Role, SsaUnit, Value, facts_of, role_of};
use ssa_tables::SignatureTable;
use std::alloc::Global;

/// What stays the same in a run: the unit with the table of its signatures, and the case with the table of its symbols.
#[derive(Clone, Copy, Drop)]
pub struct Given<'a> {
    pub unit: &'a SsaUnit,
    pub signatures: &'a SignatureTable,
    pub case: &'a Case,
    pub symbols: &'a SymbolTable,
}

impl Running {
    /// Runs an item of a block: its value and, where that is a call, the selects. Answers the end, where the run is
    /// over.
    pub(crate) fn run_item(
        &mut self,
        alloc: Global,
        given: &Given,
        block: &Block,
        item: &Item,
    ) -> Result<Option<End>, NoMemory>
        requires given { IsGiven given.now }
        requires runnable { IsRunnable (room_of self.old.words) block.now }
        requires item { IsItem block.now.values item.now }
        ensures ran { IfOk result (λ over. Ran
            (run_values (generic (sig_of given.now.unit.now)) (inputs_of given.now.case.now) block.now.values
            (item_values block.now.values item.now) (state_of given.now.case.now self.old))
            self.old.calls self.new.calls (next_of over) (state_of given.now.case.now self.new)) }
        ensures room { OnOk result (room_of self.new.words ≡ room_of self.old.words) }
    {
        let values = block.values.as_slice();
        self.run_value(alloc, given, values, &values[item.value], &item.selects)
    }

    /// Runs the values of a block in first order. Answers the end, where the run is over.
    pub(crate) fn run_items(
        &mut self,
        alloc: Global,
        given: &Given,
        block: &Block,
        items: &[Item],
    ) -> Result<Option<End>, NoMemory>
        requires given { IsGiven given.now }
        requires runnable { IsRunnable (room_of self.old.words) block.now }
        requires items { AreInFirstOrder block.now.values items.now }
        ensures ran { IfOk result (λ over. Ran
            (run_values (generic (sig_of given.now.unit.now)) (inputs_of given.now.case.now) block.now.values
            (first_order block.now.values) (state_of given.now.case.now self.old))
            self.old.calls self.new.calls (next_of over) (state_of given.now.case.now self.new)) }
        ensures room { OnOk result (room_of self.new.words ≡ room_of self.old.words) }
    {
        for item in items {
            if let Some(end) = self.run_item(alloc, given, block, item)? {
                return Ok(Some(end));
            }
        }
        Ok(None)
    }

    // Runs a value of a block, with the selects of a call. Answers the end, where the run is over.
    fn run_value(
        &mut self,
        alloc: Global,
        given: &Given,
        values: &[Value],
        value: &Value,
        selects: &[usize],
    ) -> Result<Option<End>, NoMemory>
        requires given { IsGiven given.now }
        requires apart { AreApart values.now }
        requires below { All (λ (v : IrValue). v.id.0 < room_of self.old.words) values.now }
        requires number { value.now.id.0 < room_of self.old.words }
        requires named { HasItsName value.now }
        requires selects { values_at values.now selects.now ≡ followers_of values.now value.now value.now.op }
        ensures ran { IfOk result (λ over. Ran
            (run_role (generic (sig_of given.now.unit.now)) (inputs_of given.now.case.now) values.now value.now
            (role value.now.op) (state_of given.now.case.now self.old))
            self.old.calls self.new.calls (next_of over) (state_of given.now.case.now self.new)) }
        ensures room { OnOk result (room_of self.new.words ≡ room_of self.old.words) }
    {
        match role_of(value.op) {
            Role::Computes | Role::Compares => {
                let word = self.computed(value);
                self.put(value, word);
                Ok(None)
            }
            Role::TakesParameter => {
                let word = kept(&value.ty, parameter_word(given.case, value.aux));
                self.put(value, word);
                Ok(None)
            }
            Role::TakesAddress => {
                let word = symbol_word(given, value);
                self.put(value, word);
                Ok(None)
            }
            Role::Loads => {
                let word = self.loaded(value);
                self.put(value, word);
                Ok(None)
            }
            Role::Stores => {
                self.store(value)?;
                Ok(None)
            }
            Role::ChecksNil => self.check_nil(alloc, value),
            Role::Calls => self.run_call(alloc, given, values, value, selects),
            Role::Rests => Ok(None),
        }
    }

    // Gives a value its word.
    fn put(&mut self, value: &Value, word: u64)
        requires { value.now.id.0 < room_of self.old.words }
        ensures state { (c : IrCase) → state_of c self.new ≡ with_word (state_of c self.old) value.now.id.0 word }
        ensures calls { self.new.calls ≡ self.old.calls }
        ensures room { room_of self.new.words ≡ room_of self.old.words }
    {
        self.words.put(value.id, word);
    }

    // The word of a load.
    fn loaded(&self, value: &Value) -> u64
        ensures { (c : IrCase) → result ≡ loaded_word value.now (state_of c self.now) }
    {
        let address = self.address(value);
        match facts_of(value.op).access {
            Access::NoBytes => 0,
            Access::OfType => self.memory.load(address, value.ty.bytes()),
            Access::Unsigned(width) => self.memory.load(address, width.bytes()),
            Access::Signed(width) => sext(width.bits(), self.memory.load(address, width.bytes())),
        }
    }

    // Makes a store.
    fn store(&mut self, value: &Value) -> Result<(), NoMemory>
        ensures state { OnOk result ((c : IrCase) → state_of c self.new
            ≡ record (state_of c self.old) { memory = stored_memory value.now (state_of c self.old) }) }
        ensures calls { OnOk result (self.new.calls ≡ self.old.calls) }
        ensures room { OnOk result (room_of self.new.words ≡ room_of self.old.words) }
    {
        let word = self.operand(value.args.as_slice(), 1);
        let address = self.address(value);
        self.memory.store(address, word, written(value))
    }

    // Traps where the pointer is 0, and gives it to the check else.
    fn check_nil(&mut self, alloc: Global, value: &Value) -> Result<Option<End>, NoMemory>
        requires { value.now.id.0 < room_of self.old.words }
        ensures ran { IfOk result (λ over. (form : Form) (inputs : Inputs) (values : List IrValue) (c : IrCase) → Ran
            (run_role form inputs values value.now ChecksNil (state_of c self.old))
            self.old.calls self.new.calls (next_of over) (state_of c self.new)) }
        ensures room { OnOk result (room_of self.new.words ≡ room_of self.old.words) }
    {
        let pointer = self.pointer(value);
        if pointer == 0 {
            return Ok(Some(End::Trapped(self.memory.changed(alloc)?)));
        }
        self.put(value, pointer);
        Ok(None)
    }
}

// How many bytes a store writes.
fn written(value: &Value) -> u32
    ensures { result ≡ access.written (facts value.now.op).access value.now.elem }
{
    match facts_of(value.op).access {
        Access::NoBytes => 0,
        Access::OfType => element_bytes(value.elem),
        Access::Unsigned(width) | Access::Signed(width) => width.bytes(),
    }
}

// The address of the symbol that a value names.
fn symbol_word(given: &Given, value: &Value) -> u64
    requires given { IsGiven given.now }
    requires named { IsSome value.now.sym }
    ensures { result ≡ word_of_symbol (inputs_of given.now.case.now) (unwrap_or value.now.sym []) }
{
    match &value.sym {
        Some(name) => given.symbols.word(name),
        None => 0,
    }
}
