//! The text of units, in the form of Go's SSA dumps.
//!
//! [`read_unit`] reads a text line by line: what a line spells by itself is `ssa_lines`' to say, and here it meets what
//! was read before it. A text is a unit, or is refused at its first line with a fault, for the first fault of that
//! line. [`print_unit`] gives the one canonical text of a unit, and [`print_cases`] that of its cases alone: no
//! indentation, one space between words, each line ended by LF. A unit that was read reads back from its canonical text
//! ([`laws::printed_units_read_back`]).
//!
//! ```text
//! func f(int64) (int64)
//! b1:
//! v1 = InitMem <mem>
//! v2 = Arg <int64> [0]
//! v3 = MakeResult <int64,mem> v2 v1
//! Ret v3
//! case f 1
//! args 0x7
//! ```
//!
//! The cases of a unit are read by `case_text`; [`split_cases`] says where they begin.
#![tactic(auto)]

pub mod gathered;
pub mod laws;
pub mod partial;
pub mod print;
pub mod read;
mod reader;
pub mod split;

pub use case_text::{print_cases, read_cases};
pub use print::{print_unit, print_unit_cases};
pub use read::read_unit;
pub use split::split_cases;
pub use ssa_lines::{LimitKind, TextFault, TextRefusal};
