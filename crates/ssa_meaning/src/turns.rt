// Turns: a block entered, its values, its control, and the block that comes next.

ghost use Rattle.std.specs.Prelude.{◌≡◌, ◌<◌, [], length, Some, slice_get, IfOk, OnOk};
ghost use Rattle.std.specs.List.{All};
ghost use Rattle.ssa_ir.specs.declared.case.Case.{Case as IrCase};
ghost use Rattle.ssa_ir.specs.declared.func.Block.{Block as IrBlock};
ghost use Rattle.ssa_ir.specs.declared.func.Value.{Value as IrValue};
ghost use Rattle.ssa_ir.specs.Inputs.{inputs_of};
ghost use Rattle.ssa_ir.specs.Lookups.{sig_of, values_of};
ghost use Rattle.ssa_ir.specs.Phis.{entered};
ghost use Rattle.ssa_ir.specs.Run.{generic, run, run_block, begun};
ghost use Rattle.ssa_ir.specs.WellFormed.{WellFormedFunc};
ghost use Rattle.ssa_meaning.specs.tables.Given.{IsGiven};
ghost use Rattle.ssa_meaning.specs.tables.Onward.{IsWithin, Turned};
ghost use Rattle.ssa_meaning.specs.tables.Ready.{IsReady, IsReadyBlock};
ghost use Rattle.ssa_meaning.specs.tables.Runnable.{IsRunnable};
ghost use Rattle.ssa_meaning.specs.tables.Running.{room_of, state_of, words_of};

use crate::control::Onward;
use crate::ready::{ReadyBlock, ReadyFunc};
use crate::running::Running;
use crate::step::Given;
use gossa_base::NoMemory;
use ssa_ir::{Block, End, Func};
use std::alloc::Global;

impl Running {
    /// Runs a function from its entry, for at most as many turns as the bound of the case.
    pub(crate) fn run_turns(
        &mut self,
        alloc: Global,
        given: &Given,
        func: &Func,
        ready: &ReadyFunc,
    ) -> Result<End, NoMemory>
        requires given { IsGiven given.now }
        requires well_formed { WellFormedFunc func.now }
        requires ready { IsReady func.now ready.now }
        requires room { All (λ (v : IrValue). v.id.0 < room_of self.old.words) (values_of func.now) }
        requires begun { state_of given.now.case.now self.old ≡ begun (inputs_of given.now.case.now) }
        requires quiet { self.old.calls ≡ [] }
        ensures { IfOk result (λ end. (record { calls = self.new.calls; end = end })
            ≡ run (generic (sig_of given.now.unit.now)) (inputs_of given.now.case.now) func.now
            given.now.case.now.bound) }
    {
        if func.blocks.is_empty() {
            return Ok(End::Stuck);
        }
        let mut block = 0;
        let mut edge = None;
        for _turn in 0..given.case.bound {
            match self.run_turn(alloc, given, func, ready, block, edge)? {
                Onward::Enters(way) => {
                    block = way.block;
                    edge = Some(way.edge);
                }
                Onward::Ended(end) => return Ok(end),
            }
        }
        Ok(End::Going)
    }

    // Takes a turn in the block of this index.
    fn run_turn(
        &mut self,
        alloc: Global,
        given: &Given,
        func: &Func,
        ready: &ReadyFunc,
        index: usize,
        edge: Option<usize>,
    ) -> Result<Onward, NoMemory>
        requires given { IsGiven given.now }
        requires well_formed { WellFormedFunc func.now }
        requires ready { IsReady func.now ready.now }
        requires room { All (λ (v : IrValue). v.id.0 < room_of self.old.words) (values_of func.now) }
        requires within { index < length func.now.blocks }
        ensures turned { IfOk result (λ onward. (b : IrBlock) → slice_get func.now.blocks index ≡ Some b
            → Turned func.now
            (λ go. run_block (generic (sig_of given.now.unit.now)) (inputs_of given.now.case.now) func.now go b edge
            (state_of given.now.case.now self.old))
            self.old.calls self.new.calls onward (state_of given.now.case.now self.new)) }
        ensures within { IfOk result (λ onward. IsWithin func.now onward) }
        ensures room { OnOk result (room_of self.new.words ≡ room_of self.old.words) }
    {
        let block = &func.blocks.as_slice()[index];
        self.run_block(alloc, given, func, block, &ready.blocks[index], edge)
    }

    // Takes a turn in a block, entered by an edge or from outside.
    fn run_block(
        &mut self,
        alloc: Global,
        given: &Given,
        func: &Func,
        block: &Block,
        ready: &ReadyBlock,
        edge: Option<usize>,
    ) -> Result<Onward, NoMemory>
        requires given { IsGiven given.now }
        requires runnable { IsRunnable (room_of self.old.words) block.now }
        requires ready { IsReadyBlock func.now block.now ready.now }
        ensures turned { IfOk result (λ onward. Turned func.now
            (λ go. run_block (generic (sig_of given.now.unit.now)) (inputs_of given.now.case.now) func.now go block.now
            edge (state_of given.now.case.now self.old))
            self.old.calls self.new.calls onward (state_of given.now.case.now self.new)) }
        ensures within { IfOk result (λ onward. IsWithin func.now onward) }
        ensures room { OnOk result (room_of self.new.words ≡ room_of self.old.words) }
    {
        self.enter(block, edge)?;
        if let Some(end) = self.run_items(alloc, given, block, &ready.items)? {
            return Ok(Onward::Ended(end));
        }
        self.leave(alloc, func, block, ready)
    }

    // Enters a block: its phis take their words. From outside no phi is entered.
    fn enter(&mut self, block: &Block, edge: Option<usize>) -> Result<(), NoMemory>
        requires { IsRunnable (room_of self.old.words) block.now }
        ensures state { OnOk result ((c : IrCase) → state_of c self.new
            ≡ record (state_of c self.old) { words = entered block.now.values edge (words_of self.old.words) }) }
        ensures calls { OnOk result (self.new.calls ≡ self.old.calls) }
        ensures room { OnOk result (room_of self.new.words ≡ room_of self.old.words) }
    {
        match edge {
            Some(edge) => self.words.enter(block.values.as_slice(), edge),
            None => Ok(()),
        }
    }
}
