// The arguments of values.

ghost use Rattle.std.specs.Prelude.{◌≡◌, [], ◌∷◌, ◌++◌, ◌<◌, ◌≤◌, length, OnOk, OnErr, IfOk, IsOk};

use gossa_base::{NoMemory, ValueId};
use smallvec::SmallVec;
use std::alloc::Global;
use std::marker::Model;

/// The values that a value uses, in order. Up to four stand in the value itself.
#[derive(Clone, Drop)]
pub struct Args {
    ids: SmallVec<ValueId, 4>,
}

impl Model for Args {
    ghost use Rattle.std.specs.Prelude.{List, ◌≤◌};
    ghost use Rattle.gossa_base.specs.declared.ids.ValueId.{ValueId};

    ghost Value = { List ValueId };

    ghost view = { λ a. a.ids.items };

    ghost invariant = { λ a. 4 ≤ a.ids.capacity };
}

impl Args {
    /// No arguments, which takes no memory.
    pub fn new(alloc: Global) -> Args
        ensures { result ≡ [] }
    {
        Args {
            ids: SmallVec::new(alloc),
        }
    }

    /// These arguments. Up to four take no memory.
    pub fn from_slice(alloc: Global, ids: &[ValueId]) -> Result<Args, NoMemory>
        ensures ok { IfOk result (λ args. args ≡ ids.now) }
        ensures inline { length ids.now ≤ 4 → IsOk result }
    {
        Ok(Args {
            ids: SmallVec::from_slice(alloc, ids)?,
        })
    }

    /// One more argument, the last. Up to four take no memory. An error changes nothing.
    pub fn push(&mut self, id: ValueId) -> Result<(), NoMemory>
        ensures ok { OnOk result (self.new ≡ self.old ++ id ∷ []) }
        ensures err { OnErr result (self.new ≡ self.old) }
        ensures inline { length self.old < 4 → IsOk result }
    {
        self.ids.push(id)?;
        Ok(())
    }

    /// The arguments, in order.
    pub fn as_slice(&self) -> &[ValueId]
        ensures { result.now ≡ self.now }
    {
        self.ids.as_slice()
    }
}
