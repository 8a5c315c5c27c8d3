// A word for each value number, changed in place.

ghost use Rattle.std.specs.Prelude.{◌≡◌, ◌<◌, ◌≤◌, ◌^◌, ℕ, Some, false, filter, map, slice_get, slice_index_or, IfOk};
ghost use Rattle.std.specs.Prelude.{OnOk};
ghost use Rattle.std.specs.List.{All};
ghost use Rattle.std.specs.Option.{option_to_list};
ghost use Rattle.gossa_base.specs.declared.ids.ValueId.{ValueId as IrValueId};
ghost use Rattle.ssa_ir.specs.declared.func.Value.{Value as IrValue};
ghost use Rattle.ssa_ir.specs.Calls.{answered};
ghost use Rattle.ssa_ir.specs.FirstOrder.{selects, by_number};
ghost use Rattle.ssa_ir.specs.OpKinds.{is_phi as is_phi_op};
ghost use Rattle.ssa_ir.specs.Inputs.{answer_of};
ghost use Rattle.ssa_ir.specs.Lookups.{values_of};
ghost use Rattle.ssa_ir.specs.Phis.{entered};
ghost use Rattle.ssa_ir.specs.Run.{put};
ghost use Rattle.block_order.specs.Items.{values_at};
ghost use Rattle.ssa_meaning.specs.tables.Puts.{puts, put_all, phi_pair, select_word_of};
ghost use Rattle.block_order.specs.Apart.{AreApart};
ghost use Rattle.ssa_meaning.specs.tables.Running.{words_of, room_of};

use crate::widths::kept;
use gossa_base::{NoMemory, ValueId};
use ssa_ir::{Block, Func, Op, Reply, Value};
use std::alloc::Global;

/// The word of each value number, and the words that phis take while a block is entered.
#[derive(Drop)]
pub struct WordTable {
    words: Vec<u64>,
    entering: Vec<(ValueId, u64)>,
}

// The argument of a phi by an edge.
fn source(phi: &Value, edge: usize) -> ValueId
    ensures { result ≡ slice_index_or phi.now.args edge phi.now.id }
{
    match phi.args.as_slice().get(edge) {
        Some(id) => *id,
        None => phi.id,
    }
}

// The word that a select of a call has of a reply.
fn select_word(select: &Value, reply: &Reply) -> u64
    ensures { result ≡ select_word_of (answer_of reply.now) select.now }
{
    if select.aux < 0 {
        return kept(&select.ty, 0);
    }
    match reply.words.as_slice().get(select.aux as usize) {
        Some(word) => kept(&select.ty, *word),
        None => kept(&select.ty, 0),
    }
}

// A number above those of all values of a block and above another one.
fn room_in(block: &Block, least: usize) -> usize
    requires { least ≤ 2 ^ 32 }
    ensures above { All (λ (v : IrValue). v.id.0 < result) block.now.values }
    ensures least { least ≤ result }
    ensures most { result ≤ 2 ^ 32 }
{
    let mut room = least;
    for value in block.values.as_slice() {
        room = room.max(value.id.0 as usize + 1);
    }
    room
}

// A number above those of all values of a function.
fn room_for(func: &Func) -> usize
    ensures { All (λ (v : IrValue). v.id.0 < result) (values_of func.now) }
{
    let mut room = 0;
    for block in func.blocks.as_slice() {
        room = room_in(block, room);
    }
    room
}

impl WordTable {
    /// A table with the word 0 for each value number of a function.
    pub(crate) fn of_func(alloc: Global, func: &Func) -> Result<WordTable, NoMemory>
        ensures words { IfOk result (λ table. (n : ℕ) → words_of table n ≡ 0) }
        ensures room { IfOk result (λ table. All (λ (v : IrValue). v.id.0 < room_of table) (values_of func.now)) }
    {
        Ok(WordTable {
            words: vec![in alloc; 0; room_for(func)]?,
            entering: Vec::new(alloc),
        })
    }

    /// The word of a value number.
    pub(crate) fn word(&self, id: ValueId) -> u64
        ensures { result ≡ words_of self.now id.0 }
    {
        match self.words.get(id.0 as usize) {
            Some(word) => *word,
            None => 0,
        }
    }

    /// Puts a word for a value number.
    pub(crate) fn put(&mut self, id: ValueId, word: u64)
        requires { id.0 < room_of self.old }
        ensures words { (n : ℕ) → words_of self.new n ≡ put (words_of self.old) id.0 word n }
        ensures room { room_of self.new ≡ room_of self.old }
        ensures entering { self.new.entering ≡ self.old.entering }
    {
        self.words[id.0 as usize] = word;
    }

    /// Enters a block by the edge of this number: all phis among its values at once take the words of their arguments.
    pub(crate) fn enter(&mut self, values: &[Value], edge: usize) -> Result<(), NoMemory>
        requires apart { AreApart values.now }
        requires below { All (λ (v : IrValue). v.id.0 < room_of self.old) values.now }
        ensures words { OnOk result ((n : ℕ) → words_of self.new n
            ≡ entered values.now (Some edge) (words_of self.old) n) }
        ensures room { OnOk result (room_of self.new ≡ room_of self.old) }
    {
        self.take_sources(values, edge)?;
        self.put_entering();
        Ok(())
    }

    // Notes the word that each phi among these values takes.
    fn take_sources(&mut self, values: &[Value], edge: usize) -> Result<(), NoMemory>
        ensures taken { OnOk result (self.new.entering.items ≡ map (phi_pair edge (words_of self.old))
            (filter (λ v. is_phi_op v.op) values.now)) }
        ensures words { OnOk result (self.new.words.items ≡ self.old.words.items) }
    {
        self.entering.clear();
        for value in values {
            if value.op.is_phi() {
                let word = self.word(source(value, edge));
                self.entering.push((value.id, word))?;
            }
        }
        Ok(())
    }

    // Puts the words that were noted.
    fn put_entering(&mut self)
        requires { All (λ (p : IrValueId × ℕ). p.0.0 < room_of self.old) self.old.entering.items }
        ensures words { (n : ℕ) → words_of self.new n ≡ put_all self.old.entering.items (words_of self.old) n }
        ensures room { room_of self.new ≡ room_of self.old }
    {
        for index in 0..self.entering.len() {
            let (id, word) = self.entering[index];
            self.put(id, word);
        }
    }

    // Gives the select at this index its word of a reply.
    fn answer_at(&mut self, values: &[Value], index: usize, reply: &Reply)
        requires { All (λ (v : IrValue). v.id.0 < room_of self.old) values.now }
        ensures words { (n : ℕ) → words_of self.new n
            ≡ puts (select_word_of (answer_of reply.now)) (option_to_list (slice_get values.now index))
            (words_of self.old) n }
        ensures room { room_of self.new ≡ room_of self.old }
    {
        if let Some(value) = values.get(index) {
            self.put(value.id, select_word(value, reply));
        }
    }

    /// Gives the selects of a call, which stand at these indexes, their words of a reply.
    pub(crate) fn answer(
        &mut self,
        call: ValueId,
        values: &[Value],
        indexes: &[usize],
        reply: &Reply,
    )
        requires apart { AreApart values.now }
        requires below { All (λ (v : IrValue). v.id.0 < room_of self.old) values.now }
        requires selects { values_at values.now indexes.now ≡ by_number (filter (selects call) values.now) }
        ensures words { (n : ℕ) → words_of self.new n
            ≡ answered false values.now call (answer_of reply.now) (words_of self.old) n }
        ensures room { room_of self.new ≡ room_of self.old }
    {
        for index in indexes {
            self.answer_at(values, *index, reply);
        }
    }
}
