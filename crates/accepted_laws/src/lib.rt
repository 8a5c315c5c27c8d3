//! What later passes may rely on in accepted units: laws over paths and over first orders, each the clause of a
//! function without parameters.
//!
//! Method. An accepted unit meets the checks of `ssa_check`, which are said of single places: a use that some path
//! doesn't define, a memory that some path doesn't pass. The laws say what that means for the whole function: on every
//! path to a use its definition was passed, a path passes one memory, and what takes a memory takes the last definer
//! before it.
//!
//! ```text
//! b1: v1 = InitMem    v2 = Store .. v1       the path b1 b2 passes v2
//! b2: <- b1           v3 = Load .. v2        reads the last definer that was passed
//! ```
//!
//! Known limits: the laws speak of accepted units, and of no function behind a pass.
#![tactic(auto)]

pub mod laws;
