//! SSA functions as every pass sees them: types, signatures, ops, values and blocks.
//!
//! The form is that of Go's `cmd/compile/internal/ssa`: a value has an op, a type, at most one number, symbol
//! and element type, and the values that it uses; a block has predecessors, values and one control; memory is
//! a value; the Phi values of a block take their argument by predecessor.
//!
//! ```text
//! v4 = Add64 <int64> v2 v3      op Add of width 64, type int64, arguments v2 and v3
//! v3 = Arg <int64> [1]          op Arg, number 1
//! b1:  ...  Ret v5              block 1, kind Ret, control v5
//! ```
//!
//! [`facts_of`] is the table of ops: what each takes and gives, what its brackets or braces hold, what it is to a run
//! ([`role_of`]), and which bytes it moves. [`op_row`] and [`Op::is_machine`] follow from it. `specs/WellFormed.antt`
//! says what a well-formed unit is.
//!
//! What a function shows in a case is defined in `specs/Run.antt`, for generic ops and for the machine's. Flags are a
//! word there: that of their comparison, which what reads flags takes as its last argument.
#![tactic(auto)]

pub mod abi;
pub mod args;
pub mod case;
pub mod classes;
pub mod func;
pub mod laws;
pub mod limits;
pub mod lookups;
pub mod op;
pub mod op_facts;
pub mod op_kinds;
pub mod op_names;
mod op_places;
mod op_search;
pub mod role;
pub mod texts;
pub mod types;
pub mod widths;

pub use abi::AbiPlace;
pub use args::Args;
pub use case::{
    CallShown, CallsShown, Case, Cases, Changed, End, Junk, Piece, Pieces, Replies, Reply, Shown,
    SymWords, Words,
};
pub use classes::{Class, class_of, class_of_scalar, is_scalar, same_class};
pub use func::{Block, BlockIds, Blocks, Func, Funcs, Kind, SsaUnit, Value, Values};
pub use op::{Arity, AuxRule, CondCode, Op, OpRow, Width, WidthPair, op_row};
pub use op_facts::{Access, Gives, OpFacts, Takes, facts_of};
pub use op_kinds::same_memory;
pub use role::{Role, role_of};
pub use texts::print_sigs;
pub use types::{Scalar, Scalars, Sig, Sigs, Ty};
