// The numbers and names that a text gave so far. Contracts see each table as the list of what was put in.

ghost use Rattle.std.specs.Prelude.{◌≡◌, ◌==◌, false, [], ◌∷◌, ◌++◌, length, nat_eq, OnOk, OnErr};
ghost use Rattle.std.specs.Cmp.Lexicographic.{pointwise};
ghost use Rattle.std.specs.List.{list_any};
ghost use Rattle.ssa_lines.specs.Tables.{with_number};

use gossa_base::{Name, NoMemory};
use indexmap::IndexSet;
use std::alloc::Global;
use std::marker::Model;

/// Numbers, each once, in the order in which they came. One is looked up by its hash, on average in constant time.
#[derive(Drop)]
pub struct NumberSet {
    numbers: IndexSet<u32>,
}

impl Model for NumberSet {
    ghost use Rattle.std.specs.Prelude.{ℕ, List};

    ghost Value = { List ℕ };

    ghost view = { λ s. s.numbers.keys };
}

impl NumberSet {
    /// No number, which takes no memory.
    pub fn new(alloc: Global) -> NumberSet
        ensures { result ≡ [] }
    {
        NumberSet {
            numbers: IndexSet::new(alloc),
        }
    }

    /// Whether the number is among them.
    pub fn contains(&self, number: u32) -> bool
        ensures { result ≡ list_any (λ m. m == number) self.now }
    {
        self.numbers.contains(&number)
    }

    /// A number behind the others, where it isn't among them. An error changes nothing.
    pub fn insert(&mut self, number: u32) -> Result<(), NoMemory>
        ensures ok { OnOk result (self.new ≡ with_number number self.old) }
        ensures err { OnErr result (self.new ≡ self.old) }
    {
        self.numbers.insert(number)?;
        Ok(())
    }

    /// Takes all numbers out, and keeps the room.
    pub fn clear(&mut self)
        ensures { self.new ≡ [] }
    {
        self.numbers.clear();
    }

    /// How many numbers there are.
    pub fn len(&self) -> usize
        ensures { result ≡ length self.now }
    {
        self.numbers.len()
    }
}

/// Names, each once, in the order in which they came. One is looked up by the hash of its bytes, as a number is.
#[derive(Drop)]
pub struct NameSet {
    names: IndexSet<Name>,
}

impl Model for NameSet {
    ghost use Rattle.std.specs.Prelude.{ℕ, List};

    ghost Value = { List (List ℕ) };

    ghost view = { λ s. s.names.keys };
}

impl NameSet {
    /// No name, which takes no memory.
    pub fn new(alloc: Global) -> NameSet
        ensures { result ≡ [] }
    {
        NameSet {
            names: IndexSet::new(alloc),
        }
    }

    /// Whether a name of the same bytes is among them.
    pub fn contains(&self, name: &Name) -> bool
        ensures { result ≡ list_any (λ n. pointwise nat_eq n name.now) self.now }
    {
        self.names.contains(name)
    }

    /// A name that isn't among them, behind the others. An error changes nothing.
    pub fn insert(&mut self, name: Name) -> Result<(), NoMemory>
        requires absent { list_any (λ n. pointwise nat_eq n name) self.old ≡ false }
        ensures ok { OnOk result (self.new ≡ self.old ++ name ∷ []) }
        ensures err { OnErr result (self.new ≡ self.old) }
    {
        self.names.insert(name)?;
        Ok(())
    }

    /// How many names there are.
    pub fn len(&self) -> usize
        ensures { result ≡ length self.now }
    {
        self.names.len()
    }
}
