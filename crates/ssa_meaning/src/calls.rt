// Calls: what one shows, and the reply that it takes.

ghost use Rattle.std.specs.Prelude.{◌≡◌, ◌<◌, filter, IfOk, OnOk, IsSome};
ghost use Rattle.std.specs.List.{All};
ghost use Rattle.ssa_ir.specs.declared.func.Value.{Value as IrValue};
ghost use Rattle.ssa_ir.specs.declared.role.Role.TheVariants.{Calls};
ghost use Rattle.ssa_ir.specs.Calls as calls;
ghost use Rattle.ssa_ir.specs.FirstOrder.{by_number, selects as is_select};
ghost use Rattle.ssa_ir.specs.Inputs.{inputs_of};
ghost use Rattle.ssa_ir.specs.Lookups.{sig_of};
ghost use Rattle.ssa_ir.specs.Run.{generic, run_role, shown_of};
ghost use Rattle.ssa_meaning.specs.tables.Given.{IsGiven};
ghost use Rattle.block_order.specs.Items.{values_at};
ghost use Rattle.ssa_meaning.specs.tables.Ran.{Ran, next_of};
ghost use Rattle.block_order.specs.Apart.{AreApart};
ghost use Rattle.ssa_meaning.specs.tables.Running.{room_of, state_of};

use crate::running::Running;
use crate::step::Given;
use gossa_base::{Name, NoMemory};
use ssa_ir::{CallShown, End, Scalar, Value};
use std::alloc::Global;

impl Running {
    /// Runs a call: it is shown, and takes the next reply, where there is one; its selects have their words of it.
    pub(crate) fn run_call(
        &mut self,
        alloc: Global,
        given: &Given,
        values: &[Value],
        call: &Value,
        selects: &[usize],
    ) -> Result<Option<End>, NoMemory>
        requires given { IsGiven given.now }
        requires apart { AreApart values.now }
        requires below { All (λ (v : IrValue). v.id.0 < room_of self.old.words) values.now }
        requires named { IsSome call.now.sym }
        requires selects { values_at values.now selects.now ≡ by_number (filter (is_select call.now.id) values.now) }
        ensures ran { IfOk result (λ over. Ran
            (run_role (generic (sig_of given.now.unit.now)) (inputs_of given.now.case.now) values.now call.now Calls
            (state_of given.now.case.now self.old))
            self.old.calls self.new.calls (next_of over) (state_of given.now.case.now self.new)) }
        ensures room { OnOk result (room_of self.new.words ≡ room_of self.old.words) }
    {
        let shown = self.call_shown(alloc, given, call)?;
        self.calls.push(shown)?;
        let Some(reply) = given.case.replies.as_slice().get(self.taken) else {
            return Ok(Some(End::NoReply));
        };
        self.words.answer(call.id, values, selects, reply);
        self.memory.answer(reply.writes.as_slice())?;
        self.taken += 1;
        Ok(None)
    }

    // What a call shows.
    fn call_shown(&self, alloc: Global, given: &Given, call: &Value) -> Result<CallShown, NoMemory>
        requires given { IsGiven given.now }
        requires named { IsSome call.now.sym }
        ensures { IfOk result (λ shown.
            shown ≡ shown_of (generic (sig_of given.now.unit.now)) call.now (state_of given.now.case.now self.now)) }
    {
        let name = call.sym.as_ref().unwrap();
        let args = self.words_shown(alloc, parameter_types(given, name), call.args.as_slice())?;
        let changed = self.memory.changed(alloc)?;
        Ok(CallShown {
            callee: name.clone()?,
            args,
            changed,
        })
    }
}

// The types of the parameters of a callee; of one that has no signature there are none.
fn parameter_types<'a>(given: &Given<'a>, name: &Name) -> &'a [Scalar]
    requires { IsGiven given.now }
    ensures { result.now ≡ calls.parameter_types (sig_of given.now.unit.now name.now) }
{
    match given.signatures.sig(given.unit, name) {
        Some(sig) => sig.params.as_slice(),
        None => &[],
    }
}
