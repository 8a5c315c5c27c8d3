// Look-ups in units and functions, by one scan each: a pass that looks up many makes a table.

ghost use Rattle.std.specs.Prelude.{◌≡◌, ◌<◌, ◌^◌, length, find, option_copied};
ghost use Rattle.ssa_ir.specs.Edges.{block_named};
ghost use Rattle.ssa_ir.specs.Lookups as spec;
ghost use Rattle.ssa_ir.specs.Lookups.{is_of, is_numbered, func_sigs};

use crate::func::{Block, Func, SsaUnit, Value};
use crate::types::Sig;
use gossa_base::{BlockId, Name, ValueId};

impl SsaUnit {
    /// The signature of the `sig` line or the `func` line of this name; none exactly where there is none.
    pub fn sig_of(&self, name: &Name) -> Option<&Sig>
        ensures { option_copied result ≡ spec.sig_of self.now name.now }
    {
        match sig_in(self.sigs.as_slice(), name) {
            Some(sig) => Some(sig),
            None => func_sig_in(self.funcs.as_slice(), name),
        }
    }

    /// The number of the function of this name, from 0, in a unit of fewer than 2 to the 32 functions; none exactly
    /// where there is none.
    pub fn func_named(&self, name: &Name) -> Option<u32>
        requires { length self.now.funcs < 2 ^ 32 }
        ensures { result ≡ spec.func_named self.now name.now }
    {
        for (number, func) in self.funcs.as_slice().iter().enumerate() {
            if func.sig.name == *name {
                return Some(number as u32);
            }
        }
        None
    }
}

impl Func {
    /// The value of this number; none exactly where there is none.
    pub fn value(&self, id: ValueId) -> Option<&Value>
        ensures { option_copied result ≡ spec.value_of self.now id }
    {
        for block in self.blocks.as_slice() {
            if let Some(value) = value_in(block.values.as_slice(), id) {
                return Some(value);
            }
        }
        None
    }

    /// The block of this number; none exactly where there is none.
    pub fn block(&self, id: BlockId) -> Option<&Block>
        ensures { option_copied result ≡ spec.block_of self.now id }
    {
        for block in self.blocks.as_slice() {
            if block.id == id {
                return Some(block);
            }
        }
        None
    }
}

// The signature of this name among `sig` lines.
fn sig_in<'a>(sigs: &'a [Sig], name: &Name) -> Option<&'a Sig>
    ensures { option_copied result ≡ find (is_of name.now) sigs.now }
{
    for sig in sigs {
        if sig.name == *name {
            return Some(sig);
        }
    }
    None
}

// The signature of this name among functions.
fn func_sig_in<'a>(funcs: &'a [Func], name: &Name) -> Option<&'a Sig>
    ensures { option_copied result ≡ find (is_of name.now) (func_sigs funcs.now) }
{
    for func in funcs {
        if func.sig.name == *name {
            return Some(&func.sig);
        }
    }
    None
}

// The value of this number among the values of a block.
fn value_in(values: &[Value], id: ValueId) -> Option<&Value>
    ensures { option_copied result ≡ find (is_numbered id) values.now }
{
    for value in values {
        if value.id == id {
            return Some(value);
        }
    }
    None
}
