// A run at one moment.

ghost use Rattle.std.specs.Prelude.{◌≡◌, ◌<◌, [], IfOk};
ghost use Rattle.std.specs.List.{All};
ghost use Rattle.ssa_ir.specs.declared.func.Value.{Value as IrValue};
ghost use Rattle.ssa_ir.specs.Inputs.{inputs_of};
ghost use Rattle.ssa_ir.specs.Lookups.{values_of};
ghost use Rattle.ssa_ir.specs.Run.{begun as begun_with};
ghost use Rattle.ssa_meaning.specs.tables.Running.{room_of, state_of};

use crate::memory::RunMemory;
use crate::words::WordTable;
use gossa_base::{NoMemory, Sequence};
use ssa_ir::{CallsShown, Case, Func};
use std::alloc::Global;

/// The words of values, the memory, the calls that were shown, and how many replies were taken.
#[derive(Drop)]
pub struct Running {
    pub words: WordTable,
    pub memory: RunMemory,
    pub calls: CallsShown,
    pub taken: usize,
}

impl Running {
    /// Before the first turn of a function in a case.
    pub(crate) fn begun(alloc: Global, func: &Func, case: &Case) -> Result<Running, NoMemory>
        ensures room { IfOk result (λ r. All (λ (v : IrValue). v.id.0 < room_of r.words) (values_of func.now)) }
        ensures begun { IfOk result (λ r. state_of case.now r ≡ begun_with (inputs_of case.now)) }
        ensures quiet { IfOk result (λ r. r.calls ≡ []) }
    {
        let words = WordTable::of_func(alloc, func)?;
        let memory = RunMemory::of_pieces(alloc, case.mem.as_slice())?;
        Ok(Running {
            words,
            memory,
            calls: Sequence::new(alloc),
            taken: 0,
        })
    }
}
