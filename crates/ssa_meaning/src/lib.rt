//! What an accepted unit shows in a case: the calls, the traps and the returns of its SSA run, exactly.
//!
//! Method. A function is made ready once: the first order of each block as indexes into its values, the selects of each
//! call beside it, and where each edge goes. A run then changes three things in place: a table with a word for each
//! value number, the memory, and the list of calls that were shown. A turn takes a block: its phis at once, its values
//! in order, its control; it takes time linear in the block's values, but for the bytes that it loads and stores.
//! Changed bytes are kept beside the memory with what stood there before, since the case began or the last reply was
//! taken; so neither a call nor the end copies the memory.
//!
//! ```text
//! b2: <- b1 b3
//! v7 = Phi <int64> v2 v8        entered from b3: v7 and v8 take each other's words
//! v8 = Phi <int64> v3 v7
//! v9 = Less64 <bool> v7 v8      word 9 of the table becomes 1 or 0
//! If v9 -> b3 b4                bit 0 of word 9 says where the next turn begins
//! ```
//!
//! [`run_case`] gives exactly the run that `specs/Run.antt` of `ssa_ir` defines. Known limits: the table of words is as
//! long as the greatest value number of the function.
#![tactic(auto)]

mod calls;
mod control;
mod entry;
pub mod laws;
mod memory;
mod operands;
mod ready;
mod running;
mod step;
mod symbols;
mod turns;
mod widths;
mod words;

pub use entry::run_case;
