// Where each value of a block stands, by its number.

ghost use Rattle.std.specs.Prelude.{◌≡◌, ◌<◌, ◌^◌, length, map, count_by, if◌then◌else◌, IfOk};
ghost use Rattle.sum_compile.specs.tables.Numbered.{NumberedFrom};
ghost use Rattle.sum_compile.specs.Plain.{has_home, place_by_op, place_of};
ghost use Rattle.sum_compile.specs.tables.Places.{place_in, PlaceTable};

use gossa_base::{NoMemory, ValueId};
use listing::Place;
use ssa_ir::{Op, Value};
use std::alloc::Global;
use std::marker::Model;

/// Where the values of a block stand that are numbered from 1 on, and how many words of the frame they take.
#[derive(Drop)]
pub struct Places {
    by_number: Vec<Place>,
    words: u32,
}

impl Model for Places {
    ghost Value = { PlaceTable };

    ghost view = { λ p. record { places = p.by_number.items; words = p.words } };
}

impl Places {
    /// The places of these values.
    pub fn of(alloc: Global, values: &[Value]) -> Result<Places, NoMemory>
        requires numbered { NumberedFrom 1 values.now }
        requires few { length values.now < 2 ^ 32 }
        ensures places { IfOk result (λ p. p.places ≡ map (λ v. place_of values.now v.id) values.now) }
        ensures words { IfOk result (λ p. p.words ≡ count_by (λ v. has_home v.op) values.now) }
    {
        let mut by_number = Vec::with_capacity(alloc, values.len())?;
        let mut words = 0;
        for value in values {
            by_number.push(place_by_op(value, words))?;
            words += home_words(value.op);
        }
        Ok(Places { by_number, words })
    }

    /// Where a value stands; one that isn't there has no word.
    pub fn place(&self, id: ValueId) -> Place
        ensures { result ≡ place_in self.now.places id }
    {
        let index = (id.0 as usize).checked_sub(1);
        let place = index.and_then(|index| self.by_number.get(index).copied());
        place.unwrap_or(Place::Home(id))
    }

    /// How many words of the frame the values take.
    pub fn words(&self) -> u32
        ensures { result ≡ self.now.words }
    {
        self.words
    }
}

// Where a value stands that has this word of the frame, if it has any.
fn place_by_op(value: &Value, word: u32) -> Place
    ensures { result ≡ place_by_op word value.now.id value.now.aux value.now.op }
{
    match value.op {
        Op::Const(_) => Place::Const(value.aux),
        Op::Arg | Op::Add(_) => Place::Frame(word),
        _ => Place::Home(value.id),
    }
}

// How many words of the frame a value of this op takes.
fn home_words(op: Op) -> u32
    ensures { result ≡ (if has_home op then 1 else 0) }
{
    match op {
        Op::Arg | Op::Add(_) => 1,
        _ => 0,
    }
}
