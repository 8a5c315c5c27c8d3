// The lowest number of what fails: loops over the values and the blocks of a function.

ghost use Rattle.std.specs.Prelude.{◌≡◌, Bool};
ghost use Rattle.std.specs.List.{All};
ghost use Rattle.ssa_ir.specs.declared.func.Block.{Block as IrBlock};
ghost use Rattle.ssa_ir.specs.declared.func.Value.{Value as IrValue};
ghost use Rattle.ssa_check.specs.tables.Lowest as spec;
ghost use Rattle.ssa_check.specs.Failing.{at_value, at_block};
ghost use Rattle.ssa_check.specs.tables.LeastPlaces as places;

use crate::refusal::At;
use gossa_base::{BlockId, ValueId};
use ssa_ir::{Block, Func, Value};

/// A test of a value in its block: whether it fails.
pub(crate) trait ValueTest {
    // what must hold of the test, the block and the value
    ghost takes: { Self → IrBlock → IrValue → Type 0 };

    ghost fails: { Self → IrBlock → IrValue → Bool };

    fn fails_at(&self, block: &Block, value: &Value) -> bool
        requires { takes self.now block.now value.now }
        ensures { result ≡ fails self.now block.now value.now };
}

/// A test of a block: whether it fails.
pub(crate) trait BlockTest {
    ghost takes: { Self → IrBlock → Type 0 };

    ghost fails: { Self → IrBlock → Bool };

    fn fails_at(&self, block: &Block) -> bool
        requires { takes self.now block.now }
        ensures { result ≡ fails self.now block.now };
}

/// The lower of a number and what is there.
pub(crate) fn lower(before: Option<u32>, number: u32) -> Option<u32>
    ensures { result ≡ spec.lower before number }
{
    match before {
        Some(lowest) if lowest <= number => Some(lowest),
        _ => Some(number),
    }
}

fn lowest_in<T: ValueTest>(before: Option<u32>, block: &Block, test: &T) -> Option<u32>
    requires { All (T.takes test.now block.now) block.now.values }
    ensures { result ≡ spec.lowest_in (T.fails test.now) before block.now }
{
    let mut lowest = before;
    for value in block.values.as_slice() {
        if test.fails_at(block, value) {
            lowest = lower(lowest, value.id.0);
        }
    }
    lowest
}

/// The lowest number of the values that fail a test.
pub(crate) fn lowest_value<T: ValueTest>(func: &Func, test: &T) -> Option<u32>
    requires { All (λ b. All (T.takes test.now b) b.values) func.now.blocks }
    ensures { result ≡ spec.lowest_value (T.fails test.now) func.now }
{
    let mut lowest = None;
    for block in func.blocks.as_slice() {
        lowest = lowest_in(lowest, block, test);
    }
    lowest
}

/// The lowest number of the blocks that fail a test.
pub(crate) fn lowest_block<T: BlockTest>(func: &Func, test: &T) -> Option<u32>
    requires { All (T.takes test.now) func.now.blocks }
    ensures { result ≡ spec.lowest_block (T.fails test.now) func.now }
{
    let mut lowest = None;
    for block in func.blocks.as_slice() {
        if test.fails_at(block) {
            lowest = lower(lowest, block.id.n);
        }
    }
    lowest
}

/// The place of a value, by its number.
pub(crate) fn value_place(number: Option<u32>) -> Option<At>
    ensures { result ≡ at_value number }
{
    Some(At::Value(ValueId(number?)))
}

/// The place of an unsplit block, by its number.
pub(crate) fn place_of_block(number: Option<u32>) -> Option<At>
    ensures { result ≡ at_block number }
{
    Some(At::Block(BlockId {
        split: false,
        n: number?,
    }))
}

/// The least place of what fails: a value, and a block only where no value fails.
pub(crate) fn least_place<T: ValueTest + BlockTest>(func: &Func, test: &T) -> Option<At>
    requires values { All (λ b. All (T.ValueTest.takes test.now b) b.values) func.now.blocks }
    requires blocks { All (T.BlockTest.takes test.now) func.now.blocks }
    ensures { result ≡ places.least_place (T.ValueTest.fails test.now) (T.BlockTest.fails test.now) func.now }
{
    match value_place(lowest_value(func, test)) {
        Some(place) => Some(place),
        None => place_of_block(lowest_block(func, test)),
    }
}
