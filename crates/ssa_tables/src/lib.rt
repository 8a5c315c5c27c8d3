//! Tables of a function and of a unit: values by number, blocks by name, predecessors by index, signatures by name.
//!
//! [`FuncTables`] is a function with all tables that it has; [`SignatureTable`] has the names of a unit's signatures;
//! [`PassedRows`] says for each block which blocks every path to it passes.
//!
//! Method. Each table is made once, in a time linear in what it is of, and looked up in constant time on average. What
//! it says is what the first that fits says (`specs/Lookups.antt` and `specs/Edges.antt` of `ssa_ir`).
//!
//! ```text
//! b1: v1 v2  If v2 -> b2 b3      values: v1 is value 0 of block 0, v2 is value 1 of block 0
//! b2: <- b1  ...                 blocks: b1 is block 0, b2 is block 1; e1 has a place of its own beside b1
//! ```
//!
//! Known limits: values and blocks are found by hashing their numbers, not by a table that is as long as the greatest.
#![tactic(auto)]

pub mod blocks;
pub mod flow;
pub mod func_tables;
pub mod passed;
pub mod signatures;
pub mod values;

pub use blocks::BlockTable;
pub use flow::Flow;
pub use func_tables::FuncTables;
pub use passed::PassedRows;
pub use signatures::SignatureTable;
pub use values::{Place, ValueTable};
