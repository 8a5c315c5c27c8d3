// How a block ends: the block that comes next, or the end of the run.

ghost use Rattle.std.specs.Prelude.{◌≡◌, ℕ, None, IfOk, option_copied, if◌then◌else◌, slice_index_or};
ghost use Rattle.gossa_base.specs.Memory.{changed};
ghost use Rattle.ssa_ir.specs.declared.case.Case.{Case as IrCase};
ghost use Rattle.ssa_ir.specs.declared.case.End.TheVariants.{Returned};
ghost use Rattle.ssa_ir.specs.Calls.{words_before_memory};
ghost use Rattle.ssa_ir.specs.Conditions.{holds as condition_holds};
ghost use Rattle.ssa_ir.specs.Lookups.{value_named};
ghost use Rattle.ssa_ir.specs.Run.{Callees, flags_of, generic, is_set, control_word, controlling, result_words};
ghost use Rattle.ssa_ir.specs.Run.{run_control};
ghost use Rattle.ssa_ir.specs.Showing.{words_at};
ghost use Rattle.ssa_meaning.specs.tables.MemoryChanges.{memory_of, since_of};
ghost use Rattle.ssa_meaning.specs.tables.Onward as onward;
ghost use Rattle.ssa_meaning.specs.tables.Ready.{IsReadyBlock};
ghost use Rattle.ssa_meaning.specs.tables.Running.{state_of, words_of};

use crate::operands::flags_of;
use crate::ready::{ReadyBlock, Way};
use crate::running::Running;
use arm64_ops::holds;
use gossa_base::{NoMemory, ValueId};
use ssa_ir::{Block, CondCode, End, Func, Kind, Value};
use std::alloc::Global;

/// Behind a block: the way to the block that comes next, or the end of the run.
#[derive(Drop)]
pub enum Onward {
    Enters(Way),
    Ended(End),
}

impl Running {
    /// How a block ends, behind its values.
    pub(crate) fn leave(
        &self,
        alloc: Global,
        func: &Func,
        block: &Block,
        ready: &ReadyBlock,
    ) -> Result<Onward, NoMemory>
        requires { IsReadyBlock func.now block.now ready.now }
        ensures left { IfOk result (λ o. (callees : Callees) (c : IrCase) (go : onward.Further)
            → run_control (generic callees) func.now go block.now block.now.kind (state_of c self.now)
            ≡ onward.onward_shown func.now o go (state_of c self.now)) }
        ensures within { IfOk result (λ o. onward.IsWithin func.now o) }
    {
        match block.kind {
            Kind::Plain => Ok(along(ready, 0)),
            Kind::If | Kind::Bit => Ok(along(ready, self.successor(block.control))),
            Kind::Ret => Ok(Onward::Ended(self.returned(alloc, func, block)?)),
            Kind::Exit => Ok(Onward::Ended(End::Exited(self.memory.changed(alloc)?))),
            Kind::Cond(condition) => Ok(along(ready, self.branch(condition, block.control))),
        }
    }

    // The word of a block's control.
    fn control_word(&self, control: Option<ValueId>) -> u64
        ensures { result ≡ control_word (words_of self.now.words) control }
    {
        match control {
            Some(id) => self.words.word(id),
            None => 0,
        }
    }

    // Which successor a block of two takes: the first where bit 0 of its control is 1, else the second.
    fn successor(&self, control: Option<ValueId>) -> usize
        ensures { result ≡ (if is_set (control_word (words_of self.now.words) control) then 0 else 1) }
    {
        if self.control_word(control) % 2 == 1 {
            0
        } else {
            1
        }
    }

    // The same where a condition on the control's flags decides.
    fn branch(&self, condition: CondCode, control: Option<ValueId>) -> usize
        ensures { result ≡ (if condition_holds condition
            (flags_of (control_word (words_of self.now.words) control)) then 0 else 1) }
    {
        if holds(condition, flags_of(self.control_word(control))) {
            0
        } else {
            1
        }
    }

    // The end of a run that returns.
    fn returned(&self, alloc: Global, func: &Func, block: &Block) -> Result<End, NoMemory>
        ensures { IfOk result (λ end. end ≡ Returned
            (words_at func.now.sig.results (result_words (words_of self.now.words)
            (controlling block.now.values block.now.control)))
            (changed (since_of self.now.memory) (memory_of self.now.memory))) }
    {
        let args = arguments_of(block.values.as_slice(), block.control);
        let words = self.words_shown(alloc, func.sig.results.as_slice(), args)?;
        Ok(End::Returned(words, self.memory.changed(alloc)?))
    }
}

// The way of the edge to a successor.
fn along(ready: &ReadyBlock, successor: usize) -> Onward
    ensures { result ≡ onward.along (slice_index_or ready.now.ways.items successor None) }
{
    match ready.ways.get(successor) {
        Some(Some(way)) => Onward::Enters(*way),
        _ => Onward::Ended(End::Stuck),
    }
}

// The arguments of the control among these values; where there is none, there are none.
fn arguments_of(values: &[Value], control: Option<ValueId>) -> &[ValueId]
    ensures { (words : ℕ → ℕ) → words_before_memory words result.now
        ≡ result_words words (controlling values.now control) }
{
    let Some(id) = control else {
        return &[];
    };
    match value_in(values, id) {
        Some(value) => value.args.as_slice(),
        None => &[],
    }
}

// The value of this number among these values.
fn value_in(values: &[Value], id: ValueId) -> Option<&Value>
    ensures { option_copied result ≡ value_named values.now id }
{
    for value in values {
        if value.id == id {
            return Some(value);
        }
    }
    None
}
