//! The text of cases: the lines behind a unit's functions that say on what inputs they run.
//!
//! [`read_cases`] reads them line by line, each by its first word, and refuses the first line with a fault, for the
//! first fault of that line; [`print_cases`] gives the one canonical text, which reads back as the cases that were
//! printed.
//!
//! ```text
//! case main.sum 100
//! args 0x1000 0x2 0x2
//! mem 0x1000 03000000000000000400000000000000
//! reply 0x5
//! clobber 0xdead
//! ```
#![tactic(auto)]

pub mod forms;
pub mod partial;
pub mod print;
pub mod read;
pub mod read_forms;
mod reader;

pub use forms::{CaseForm, CaseHead, SymLine};
pub use print::{print_case, print_cases};
pub use read::{CasePart, read_case_part, read_cases};
pub use read_forms::read_case_form;
