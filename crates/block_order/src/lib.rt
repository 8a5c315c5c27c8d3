//! The order in which the values of a block are taken: the phis, and then each time the first in text order that waits
//! for none; and the values that wait for each other in a circle, so that none of them ever comes.
//!
//! Method. A value waits for its arguments in the block and, where it changes memory, for the readers of the memory
//! that it takes. Each has a count of those that it still waits for, and a list of those that wait for it; those whose
//! count is 0 stand in an ordered set. Its first is taken, with the selects of a call, and what waited for it is told.
//!
//! ```text
//! v5 = Add64 <int64> v6 v6      waits for v6, which stands behind it
//! v6 = Load <int64> v2 v1       waits for v2 and v1, which stand in another block: for none
//! v7 = Store <mem> v2 v5 v1     changes the memory that v6 reads: waits for v6 and v5
//! first order: v6 v5 v7
//! ```
//!
//! [`first_order_of`] gives exactly the order that `specs/FirstOrder.antt` of `ssa_ir` defines, as indexes into the
//! block. [`lowest_on_cycle`] gives the lowest number of the values that wait in a circle, those of
//! `specs/Cycles.antt`: what is taken together is a node, so is each memory, behind its readers and before what changes
//! it, and crate `graphs` finds the loops.
#![tactic(auto)]

mod block_values;
mod dependencies;
mod items;
mod kinds;
pub mod order;
mod selects;
mod waiters;
mod waiting;

pub use items::lowest_on_cycle;
pub use order::{Item, first_order_of};
