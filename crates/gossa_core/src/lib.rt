//! The passes joined: from the words of a command and the bytes of a unit to the bytes of its listings, or of what its
//! cases show.
//!
//! [`gossa`] is the whole program but for its real streams. Each command reads a unit's text and asks the checks of
//! each function (`ssa_check`). `compile` then sees that each is one that is compiled so far
//! ([`sum_compile::all_narrow`]), places each value in a word of the frame ([`sum_compile::allocate_all`]), and writes
//! the listings, with the cases behind them. `run` runs each case (`ssa_meaning`), and writes what it shows
//! ([`print_shown`]).
//!
//! ```text
//! v4 = Add64 <int64> v2 v3      MOVD 8(RSP), R0 // load v2
//!                               MOVD 16(RSP), R1 // load v3
//!                               ADD R1, R0, R0 // v4
//!                               MOVD R0, 24(RSP) // spill v4
//! ```
//!
//! Known limits: the commands are `compile` and `run`. What is compiled are functions of one block that add parameters
//! and constants of type int64, with their values numbered in order; a text of another function that meets the checks
//! is refused by `compile` as not built, and run by `run`. A text of too many bytes is refused as too long; a text that
//! spells no unit, and a unit that fails a check, by its first fault.
#![tactic(auto)]

mod names;
mod run;
mod shown;
mod sig_table;
pub mod status;
mod telling;
pub mod top;
pub mod words;

pub use shown::print_shown;
pub use status::{CheckFault, Outcome, Status};
pub use telling::tell;
pub use top::gossa;
pub use words::{Command, read_words};
