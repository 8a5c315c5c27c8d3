// The names of functions and symbols.

ghost use Rattle.std.specs.Prelude.{◌≡◌, ◌≤◌, ◌↔◌, length, IfOk, IsTrue, IsSome, IfSome, IsOk, nat_eq};
ghost use Rattle.std.specs.Cmp.Lexicographic.{pointwise};
ghost use Rattle.std.specs.Cmp.{partial_equiv_from_equiv};
ghost use Rattle.std.specs.Cmp.Rules.{hashing};
ghost use Rattle.std.specs.Hash as fed;
ghost use Rattle.std.proofs.Common.{rules};
ghost use Rattle.std.proofs.lemmas.Cmp.{nat_list_eq_equiv};

use crate::memory::NoMemory;
use crate::sequence::Sequence;
use std::alloc::Global;
use std::hash::{Hash, Hasher};
use std::marker::Model;

/// The most bytes that a name may have.
pub const MAX_NAME_BYTES: usize = 100;

/// A name of 1 to 100 bytes. A contract sees its bytes.
#[derive(Clone, Drop)]
pub struct Name {
    bytes: Sequence<u8>,
}

impl Model for Name {
    ghost use Rattle.std.specs.Prelude.{ℕ, List, ◌≤◌, length};

    ghost Value = { List ℕ };

    ghost view = { λ n. n.bytes };

    ghost invariant = { λ n. (1 ≤ length n.bytes) × (length n.bytes ≤ 100) };
}

impl Name {
    /// The name of these bytes, of which there are 1 to 100.
    pub fn from_slice(alloc: Global, bytes: &[u8]) -> Result<Name, NoMemory>
        requires some { 1 ≤ length bytes.now }
        requires few { length bytes.now ≤ 100 }
        ensures { IfOk result (λ name. name ≡ bytes.now) }
    {
        let bytes = Sequence::from_vec(Vec::from_slice(alloc, bytes)?);
        Ok(Name { bytes })
    }

    /// Its bytes, 1 to 100.
    pub fn as_slice(&self) -> &[u8]
        ensures value { result.now ≡ self.now }
        ensures some { 1 ≤ length self.now }
        ensures few { length self.now ≤ 100 }
    {
        self.bytes.as_slice()
    }
}

impl PartialEq for Name {
    ghost eq = { pointwise nat_eq };

    ghost laws = { partial_equiv_from_equiv nat_list_eq_equiv };

    fn eq(&self, other: &Name) -> bool {
        self.as_slice() == other.as_slice()
    }
}

impl Eq for Name {
    ghost laws = { nat_list_eq_equiv };
}

/// A name is hashed as its bytes, so equal names hash alike.
impl Hash for Name {
    ghost hash_input = { fed.slice fed.u8 };

    ghost respects_eq = { Prim.search (hashing, rules) };

    fn hash<H: Hasher>(&self, state: &mut H) {
        self.as_slice().hash(state);
    }
}
