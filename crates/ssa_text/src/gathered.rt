// What is gathered of a text, line by line.

ghost use Rattle.std.specs.Prelude.{◌≡◌, ◌==◌, ◌++◌, ◌∷◌, [], map, OnOk, IfOk, true, false};
ghost use Rattle.std.specs.List.{list_any};
ghost use Rattle.ssa_lines.specs.Words.{is_same};
ghost use Rattle.ssa_lines.specs.declared.forms.Form.TheVariants.{Sig as SigForm, Func as FuncForm, Block as BlockForm};
ghost use Rattle.ssa_lines.specs.declared.forms.Form.TheVariants.{Value as ValueForm, Control as ControlForm};
ghost use Rattle.ssa_lines.specs.declared.forms.Spelled.TheVariants.{Fits};
ghost use Rattle.ssa_lines.specs.declared.forms.ValueLine.TheVariants.{Known};
ghost use Rattle.ssa_text.specs.declared.partial.Named.TheVariants.{OfValue, OfBlock};
ghost use Rattle.ssa_text.specs.Reading as spec;
ghost use Rattle.ssa_text.specs.Reading.{mention};
ghost use Rattle.ssa_text.specs.tables.Gathering.{read_so_far, IsGathered, Gathers};

use crate::partial::{
    Mention, Mentions, Named, OpenFunc, put_whole, with_block, with_end, with_value,
};
use gossa_base::{BlockId, Name, NoMemory, Sequence, ValueId};
use ssa_ir::{Funcs, Sig, Sigs, Value};
use ssa_lines::{BlockLine, ControlLine, Form, NameSet, NumberSet, Spelled, ValueLine};
use std::alloc::Global;

/// What was read of a text so far, with tables of the names and the numbers that it gives.
#[derive(Drop)]
pub struct Gathered {
    pub sigs: Sigs,
    pub funcs: Funcs,
    pub func: Option<OpenFunc>,
    pub mentions: Mentions,
    pub unknown: Option<u32>,
    pub names: NameSet,
    pub blocks: NumberSet,
    pub values: NumberSet,
}

impl Gathered {
    // One more line of this form, which has no fault.
    pub(crate) fn take(&mut self, alloc: Global, line: u32, form: Form) -> Result<(), NoMemory>
        requires tables { IsGathered self.old }
        requires place { spec.in_place (read_so_far self.old) form ≡ true }
        requires once { spec.is_twice (read_so_far self.old) form ≡ false }
        ensures { OnOk result (Gathers line form self.old self.new) }
    {
        match form {
            Form::Sig(sig) => self.take_sig(sig),
            Form::Func(sig) => self.take_func(alloc, sig),
            Form::Block(Spelled::Fits(block)) => self.take_block(alloc, line, block),
            Form::Value(ValueLine::Known(value)) => self.take_value(line, value),
            Form::Control(Spelled::Fits(control)) => self.take_control(line, control),
            _ => Ok(()),
        }
    }

    fn take_sig(&mut self, sig: Sig) -> Result<(), NoMemory>
        requires tables { IsGathered self.old }
        requires place { spec.in_place (read_so_far self.old) (SigForm sig) ≡ true }
        requires once { spec.is_twice (read_so_far self.old) (SigForm sig) ≡ false }
        ensures { OnOk result (Gathers 0 (SigForm sig) self.old self.new) }
    {
        put_name(&mut self.names, &sig.name)?;
        self.sigs.push(sig)?;
        Ok(())
    }

    fn take_func(&mut self, alloc: Global, sig: Sig) -> Result<(), NoMemory>
        requires tables { IsGathered self.old }
        requires place { spec.in_place (read_so_far self.old) (FuncForm sig) ≡ true }
        requires once { spec.is_twice (read_so_far self.old) (FuncForm sig) ≡ false }
        ensures { OnOk result (Gathers 0 (FuncForm sig) self.old self.new) }
    {
        let unknown = self.unknown_line();
        put_name(&mut self.names, &sig.name)?;
        put_whole(&mut self.funcs, self.func.take())?;
        self.func = Some(OpenFunc {
            sig,
            blocks: Sequence::new(alloc),
            block: None,
        });
        self.mentions = Sequence::new(alloc);
        self.unknown = unknown;
        self.blocks.clear();
        self.values.clear();
        Ok(())
    }

    fn take_block(&mut self, alloc: Global, line: u32, block: BlockLine) -> Result<(), NoMemory>
        requires tables { IsGathered self.old }
        requires place { spec.in_place (read_so_far self.old) (BlockForm (Fits block)) ≡ true }
        requires once { spec.is_twice (read_so_far self.old) (BlockForm (Fits block)) ≡ false }
        ensures { OnOk result (Gathers line (BlockForm (Fits block)) self.old self.new) }
    {
        self.blocks.insert(block.n)?;
        mention_blocks(&mut self.mentions, line, block.preds.as_slice())?;
        self.func = with_block(alloc, self.func.take(), block);
        Ok(())
    }

    fn take_value(&mut self, line: u32, value: Value) -> Result<(), NoMemory>
        requires tables { IsGathered self.old }
        requires place { spec.in_place (read_so_far self.old) (ValueForm (Known value)) ≡ true }
        requires once { spec.is_twice (read_so_far self.old) (ValueForm (Known value)) ≡ false }
        ensures { OnOk result (Gathers line (ValueForm (Known value)) self.old self.new) }
    {
        self.values.insert(value.id.0)?;
        mention_values(&mut self.mentions, line, value.args.as_slice())?;
        self.func = with_value(self.func.take(), value)?;
        Ok(())
    }

    fn take_control(&mut self, line: u32, control: ControlLine) -> Result<(), NoMemory>
        requires tables { IsGathered self.old }
        requires place { spec.in_place (read_so_far self.old) (ControlForm (Fits control)) ≡ true }
        ensures { OnOk result (Gathers line (ControlForm (Fits control)) self.old self.new) }
    {
        mention_end(&mut self.mentions, line, &control)?;
        self.func = with_end(self.func.take(), control)?;
        Ok(())
    }

    // Whether the function that goes on has a block of this number.
    pub(crate) fn has_block(&self, n: u32) -> bool
        requires tables { IsGathered self.now }
        ensures { result ≡ list_any (λ id. id.n == n) (spec.block_ids self.now.func) }
    {
        self.blocks.contains(n)
    }

    // Whether the function that goes on has a value of this number.
    pub(crate) fn has_value(&self, n: u32) -> bool
        requires tables { IsGathered self.now }
        ensures { result ≡ list_any (λ v. v.id.0 == n) (spec.values_so_far self.now.func) }
    {
        self.values.contains(n)
    }

    // The first line so far that names what its function, which ends here, doesn't have.
    pub(crate) fn unknown_line(&self) -> Option<u32>
        requires tables { IsGathered self.now }
        requires whole { spec.has_open_block self.now.func ≡ false }
        ensures { result ≡ spec.unknown_line (read_so_far self.now) }
    {
        match self.unknown {
            Some(line) => Some(line),
            None => self.unknown_here(),
        }
    }

    // The first line of the function that goes on that names what it doesn't have.
    fn unknown_here(&self) -> Option<u32>
        requires tables { IsGathered self.now }
        requires whole { spec.has_open_block self.now.func ≡ false }
        ensures { result ≡ spec.unknown_in self.now.func self.now.mentions }
    {
        for mention in self.mentions.as_slice() {
            if !self.has_named(&mention.named) {
                return Some(mention.line);
            }
        }
        None
    }

    // Whether the function that goes on has what a line of it names.
    fn has_named(&self, named: &Named) -> bool
        requires tables { IsGathered self.now }
        requires whole { spec.has_open_block self.now.func ≡ false }
        ensures { result ≡ spec.has_named self.now.func named.now }
    {
        match named {
            Named::OfValue(id) => self.has_value(id.0),
            Named::OfBlock(id) => self.has_whole_block(*id),
        }
    }

    // Whether the function that goes on has this block.
    fn has_whole_block(&self, id: BlockId) -> bool
        requires tables { IsGathered self.now }
        requires whole { spec.has_open_block self.now.func ≡ false }
        ensures { result ≡ spec.has_named self.now.func (OfBlock id) }
    {
        self.has_block(id.n)
    }
}

// A name behind the others, where it isn't among them.
fn put_name(names: &mut NameSet, name: &Name) -> Result<(), NoMemory>
    requires { list_any (λ n. is_same n name.now) names.old ≡ false }
    ensures { OnOk result (names.new ≡ names.old ++ name.now ∷ []) }
{
    names.insert(same_name(name)?)
}

// A name of its own that is the same.
pub(crate) fn same_name(name: &Name) -> Result<Name, NoMemory>
    ensures { IfOk result (λ copy. copy ≡ name.now) }
{
    Ok(name.clone()?)
}

// What a line names: these blocks.
fn mention_blocks(mentions: &mut Mentions, line: u32, blocks: &[BlockId]) -> Result<(), NoMemory>
    ensures { OnOk result (mentions.new ≡ mentions.old ++ map (mention line) (map OfBlock blocks.now)) }
{
    for block in blocks {
        mentions.push(Mention {
            line,
            named: Named::OfBlock(*block),
        })?;
    }
    Ok(())
}

// What a line names: these values.
fn mention_values(mentions: &mut Mentions, line: u32, values: &[ValueId]) -> Result<(), NoMemory>
    ensures { OnOk result (mentions.new ≡ mentions.old ++ map (mention line) (map OfValue values.now)) }
{
    for value in values {
        mentions.push(Mention {
            line,
            named: Named::OfValue(*value),
        })?;
    }
    Ok(())
}

// What a line names: the control and the successors of the block that ends.
fn mention_end(mentions: &mut Mentions, line: u32, end: &ControlLine) -> Result<(), NoMemory>
    ensures { OnOk result (mentions.new ≡ mentions.old
        ++ map (mention line) (spec.control_mention end.now.control ++ map OfBlock end.now.succs)) }
{
    mention_control(mentions, line, end.control)?;
    mention_blocks(mentions, line, end.succs.as_slice())
}

// What a line names: this control, if any.
fn mention_control(
    mentions: &mut Mentions,
    line: u32,
    control: Option<ValueId>,
) -> Result<(), NoMemory>
    ensures { OnOk result (mentions.new ≡ mentions.old ++ map (mention line) (spec.control_mention control)) }
{
    match control {
        Some(value) => Ok(mentions.push(Mention {
            line,
            named: Named::OfValue(value),
        })?),
        None => Ok(()),
    }
}
