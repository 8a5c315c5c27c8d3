//! The lines of a dump: words, numbers, types, and the form of each line by itself.
//!
//! A text is lines, a line is words, and spaces and tabs part words. [`read_form`] says what one line spells, whatever
//! stands around it: the signature of a function, the beginning or the end of a block, a value.
//!
//! ```text
//! v4 (+6) = Add64 <int> v2 v3 (s[int])      value 4, op Add of width 64, type int64, arguments v2 and v3
//! b2: ← b1 b4                               block 2, entered from blocks 1 and 4
//! If v9 → b3 b5 (likely)                    an end that decides by v9 between blocks 3 and 5
//! ```
//!
//! Known limits: the lines of cases have no form yet.
#![tactic(auto)]

pub mod forms;
pub mod headers;
pub mod lines;
pub mod numbers;
pub mod read_forms;
pub mod refusal;
pub mod tables;
pub mod types;
pub mod values;
pub mod words;

pub use forms::{Aux, BlockLine, Bracket, ControlLine, Form, Spelled, ValueLine};
pub use headers::{is_name, read_signature};
pub use lines::{TextLines, is_allowed};
pub use numbers::{Integer, Number, read_integer, read_number};
pub use read_forms::read_form;
pub use refusal::{LimitKind, TextFault, TextRefusal};
pub use tables::{NameSet, NumberSet};
pub use types::{read_scalar, read_type};
pub use values::read_value_line;
pub use words::{Words, is_marked, is_same, without_first, without_last};
