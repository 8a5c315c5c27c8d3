// Who waits for whom in a block.

ghost use Rattle.std.specs.Prelude.{◌≡◌, ◌<◌, [], length, replicate, IfOk, OnOk};
ghost use Rattle.std.specs.List.{All};
ghost use Rattle.block_order.specs.tables.Waiting as spec;

use gossa_base::NoMemory;
use std::alloc::Global;
use std::marker::Model;

/// For each value of a block the indexes of those that wait for it, once for each time.
#[derive(Drop)]
pub(crate) struct Waiters {
    lists: Vec<Vec<usize>>,
}

impl Model for Waiters {
    ghost use Rattle.std.specs.Prelude.{ℕ, ◌<◌, List, length, map};
    ghost use Rattle.std.specs.List.{All};

    ghost Value = { List (List ℕ) };

    ghost view = { λ w. map (λ list. list.items) w.lists.items };

    ghost invariant = { λ w. All (λ list. All (λ k. k < length w.lists.items) list.items) w.lists.items };
}

impl Waiters {
    /// Lists for so many values: none waits yet.
    pub(crate) fn none(alloc: Global, count: usize) -> Result<Waiters, NoMemory>
        ensures { IfOk result (λ waiters. waiters ≡ replicate count []) }
    {
        let mut lists = Vec::new(alloc);
        for _ in 0..count {
            lists.push(Vec::new(alloc))?;
        }
        Ok(Waiters { lists })
    }

    /// Those that wait for the value at an index.
    pub(crate) fn of(&self, index: usize) -> &[usize]
        requires { index < length self.now }
        ensures value { result.now ≡ spec.waiters_of self.now index }
        ensures within { All (λ k. k < length self.now) result.now }
    {
        self.lists[index].as_slice()
    }

    // Notes that a value waits for another.
    fn put(&mut self, waiter: usize, awaited: usize) -> Result<(), NoMemory>
        requires waiter { waiter < length self.old }
        requires awaited { awaited < length self.old }
        ensures { OnOk result (self.new ≡ spec.with_waiter self.old waiter awaited) }
    {
        self.lists[awaited].push(waiter)?;
        Ok(())
    }

    /// Notes that a value waits for all of these.
    pub(crate) fn put_all(&mut self, waiter: usize, awaited: &[usize]) -> Result<(), NoMemory>
        requires waiter { waiter < length self.old }
        requires awaited { All (λ k. k < length self.old) awaited.now }
        ensures lists { OnOk result (self.new ≡ spec.with_waiters self.old awaited.now waiter) }
        ensures sized { OnOk result (length self.new ≡ length self.old) }
    {
        for index in awaited {
            self.put(waiter, *index)?;
        }
        Ok(())
    }
}
