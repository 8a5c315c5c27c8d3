// The words that a value reads, from the table, the case and the memory.

ghost use Rattle.std.specs.Prelude.{◌≡◌, IsSome, IfOk};
ghost use Rattle.ssa_ir.specs.Access as access;
ghost use Rattle.ssa_ir.specs.Calls.{words_before_memory};
ghost use Rattle.ssa_ir.specs.Inputs.{inputs_of};
ghost use Rattle.ssa_ir.specs.Inputs as inputs;
ghost use Rattle.ssa_ir.specs.Run as run;
ghost use Rattle.ssa_ir.specs.Showing.{words_at};
ghost use Rattle.ssa_meaning.specs.tables.Running.{words_of};

use crate::running::Running;
use crate::widths::at_width;
use arm64_ops::eval;
use gossa_base::{NoMemory, ValueId};
use ssa_ir::{Case, Scalar, Takes, Value, Words, facts_of};
use std::alloc::Global;

impl Running {
    /// The word of argument i; an absent one is 0.
    pub(crate) fn operand(&self, args: &[ValueId], i: usize) -> u64
        ensures { result ≡ run.operand (words_of self.now.words) args.now i }
    {
        match args.get(i) {
            Some(id) => self.words.word(*id),
            None => 0,
        }
    }

    /// The word that a value computes of its arguments.
    pub(crate) fn computed(&self, value: &Value) -> u64
        ensures { result ≡ run.computed value.now (words_of self.now.words) }
    {
        let args = value.args.as_slice();
        let a = self.operand(args, 0);
        let b = self.operand(args, 1);
        let c = self.operand(args, 2);
        eval(value.op, value.aux, a, b, c, self.flags_read(value))
    }

    // The flags that a value reads: those of its last argument, where its op reads any.
    fn flags_read(&self, value: &Value) -> u8
        ensures { result ≡ run.flags_word value.now.op (words_of self.now.words) value.now.args }
    {
        match facts_of(value.op).takes {
            Takes::WordsAndFlags(words) => {
                flags_of(self.operand(value.args.as_slice(), usize::from(words)))
            }
            _ => 0,
        }
    }

    /// The word of a value's first argument: the pointer of what loads, stores or checks.
    pub(crate) fn pointer(&self, value: &Value) -> u64
        ensures { result ≡ run.pointer value.now (words_of self.now.words) }
    {
        self.operand(value.args.as_slice(), 0)
    }

    /// The address of what loads or stores.
    pub(crate) fn address(&self, value: &Value) -> u64
        ensures { result ≡ access.address value.now.aux (run.pointer value.now (words_of self.now.words)) }
    {
        address(value.aux, self.pointer(value))
    }

    /// The words of arguments but the last, which is the memory, at the widths of these types.
    pub(crate) fn words_shown(
        &self,
        alloc: Global,
        types: &[Scalar],
        args: &[ValueId],
    ) -> Result<Words, NoMemory>
        ensures { IfOk result (λ words. words ≡ words_at types.now
            (words_before_memory (words_of self.now.words) args.now)) }
    {
        let shown = &args[..args.len().saturating_sub(1)];
        let mut words = Words::new(alloc);
        for (i, scalar) in types.iter().enumerate() {
            let Some(id) = shown.get(i) else {
                return Ok(words);
            };
            words.push(at_width(*scalar, self.words.word(*id)))?;
        }
        Ok(words)
    }
}

/// The flags in a word: its low four bits.
pub(crate) fn flags_of(word: u64) -> u8
    ensures { result ≡ run.flags_of word }
{
    (word % 16) as u8
}

// A pointer and a number, modulo 2 to the 64.
fn address(number: i64, pointer: u64) -> u64
    ensures { result ≡ access.address number pointer }
{
    pointer.wrapping_add(number.cast_unsigned())
}

/// The word of the parameter of a number; one that the case doesn't give is 0.
pub(crate) fn parameter_word(case: &Case, number: i64) -> u64
    ensures { result ≡ inputs.parameter_word (inputs_of case.now) number }
{
    let Ok(index) = usize::try_from(number) else {
        return 0;
    };
    match case.args.as_slice().get(index) {
        Some(word) => *word,
        None => 0,
    }
}
