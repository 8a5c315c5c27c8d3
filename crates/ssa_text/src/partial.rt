// What a reader has of a function whose lines go on.

ghost use Rattle.std.specs.Prelude.{◌≡◌, IfOk, OnOk};
ghost use Rattle.ssa_text.specs.Reading.{change, begin_block, add_value, value_behind, end_block, whole_block};
ghost use Rattle.ssa_text.specs.Reading.{with_whole};

use gossa_base::{BlockId, NoMemory, Sequence, ValueId};
use ssa_ir::{Block, BlockIds, Blocks, Func, Funcs, Sig, Value, Values};
use ssa_lines::{BlockLine, ControlLine};
use std::alloc::Global;

/// A block without its end.
#[derive(Drop)]
pub struct OpenBlock {
    pub id: BlockId,
    pub preds: BlockIds,
    pub values: Values,
}

/// A function whose lines go on: its whole blocks, and one without its end, if any.
#[derive(Drop)]
pub struct OpenFunc {
    pub sig: Sig,
    pub blocks: Blocks,
    pub block: Option<OpenBlock>,
}

/// What a line names in its function.
#[derive(Clone, Copy, Debug, PartialEq, Eq)]
pub enum Named {
    OfValue(ValueId),
    OfBlock(BlockId),
}

/// What a line names, with the line's number, from 1.
#[derive(Clone, Copy, Debug, PartialEq, Eq)]
pub struct Mention {
    pub line: u32,
    pub named: Named,
}

/// A list of what lines name.
pub type Mentions = Sequence<Mention>;

// The function with a block that begins.
pub(crate) fn with_block(alloc: Global, func: Option<OpenFunc>, line: BlockLine) -> Option<OpenFunc>
    ensures { result ≡ change (begin_block line) func }
{
    let func = func?;
    Some(OpenFunc {
        sig: func.sig,
        blocks: func.blocks,
        block: Some(OpenBlock {
            id: BlockId {
                split: false,
                n: line.n,
            },
            preds: line.preds,
            values: Sequence::new(alloc),
        }),
    })
}

// The function with one more value in the block that goes on.
pub(crate) fn with_value(func: Option<OpenFunc>, value: Value) -> Result<Option<OpenFunc>, NoMemory>
    ensures { IfOk result (λ f. f ≡ change (value_behind value) func) }
{
    let Some(func) = func else {
        return Ok(None);
    };
    Ok(Some(OpenFunc {
        sig: func.sig,
        blocks: func.blocks,
        block: block_with_value(func.block, value)?,
    }))
}

// The block with one more value.
fn block_with_value(block: Option<OpenBlock>, value: Value) -> Result<Option<OpenBlock>, NoMemory>
    ensures { IfOk result (λ b. b ≡ add_value value block) }
{
    let Some(
        OpenBlock {
            id,
            preds,
            mut values,
        },
    ) = block
    else {
        return Ok(None);
    };
    values.push(value)?;
    Ok(Some(OpenBlock { id, preds, values }))
}

// The function with the end of the block that goes on.
pub(crate) fn with_end(
    func: Option<OpenFunc>,
    line: ControlLine,
) -> Result<Option<OpenFunc>, NoMemory>
    ensures { IfOk result (λ f. f ≡ change (end_block line) func) }
{
    let Some(
        OpenFunc {
            sig,
            mut blocks,
            block,
        },
    ) = func
    else {
        return Ok(None);
    };
    if let Some(block) = block {
        blocks.push(ended(block, line))?;
    }
    Ok(Some(OpenFunc {
        sig,
        blocks,
        block: None,
    }))
}

// The block with its end.
fn ended(block: OpenBlock, line: ControlLine) -> Block
    ensures { result ≡ whole_block line block }
{
    Block {
        id: block.id,
        preds: block.preds,
        values: block.values,
        kind: line.kind,
        control: line.control,
        succs: line.succs,
    }
}

// One more function behind the others, which ends, if any.
pub(crate) fn put_whole(funcs: &mut Funcs, func: Option<OpenFunc>) -> Result<(), NoMemory>
    ensures { OnOk result (funcs.new ≡ with_whole funcs.old func) }
{
    if let Some(func) = func {
        funcs.push(Func {
            sig: func.sig,
            blocks: func.blocks,
        })?;
    }
    Ok(())
}
