//! Functions that add parameters and constants in one block, compiled by a plain allocation: each value has a word of
//! the frame.
//!
//! Method. [`is_narrow`] says which functions these are. [`allocate`] gives each value a word of its own, and writes
//! for each value the lines that load its arguments into registers, compute it, and store it in its word; so no
//! register is live from one value to the next. The listing shows exactly what the function shows, for every bound,
//! input and list of replies.
//!
//! ```text
//! v4 = Add64 <int64> v2 v3      MOVD 8(RSP), R0 // load v2
//!                               MOVD 16(RSP), R1 // load v3
//!                               ADD R1, R0, R0 // v4
//!                               MOVD R0, 24(RSP) // spill v4
//! ```
//!
//! Known limits: a function of one block, of type int64, whose values are numbered in order. The whole compiler takes
//! the place of this crate.
#![tactic(auto)]

pub mod laws;
pub mod narrow;
mod places;
pub mod plain;

pub use narrow::{all_narrow, is_narrow};
pub use plain::{allocate, allocate_all};
