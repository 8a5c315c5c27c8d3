//! What each pure op computes, in machine arithmetic, and the conditions on flags.
//!
//! Method. The ops fall into families (sums, quotients, shifts, comparisons, ..), and each family is one function that
//! takes a width: a generic op is its family at the width of its class, an op of the machine the same family at 64 or
//! 32 bits. So there is one meaning of a quotient, and [`eval`] is one match. A family reads each operand at its width,
//! whatever the upper bits are, and its result is below 2 to the width; signed arithmetic is done on the signed value
//! of the width, as an `i64`. The count of a shift is a whole word. Flags are those of a difference by what they mean,
//! and [`holds`] reads them.
//!
//! ```text
//! Div8 0x80 0xff        0x80       the least number by -1
//! Lsh64x64 1 64         0          a generic shift by 64
//! SLL 1 64              1          a machine's shift by 64
//! CMPconst [64] 63      8          N alone: 63 is below 64
//! ```
//!
//! The definitions stand in `ssa_ir/specs/Evaluation.antt`, `Arithmetic.antt` and `Conditions.antt`; docs/OPS.md has
//! them as a table. The machine's ops are A64 instructions as the Arm Architecture Reference Manual has them, under the
//! names that Go's assembler gives them; the remainders are two instructions there.
//!
//! Known limits: loads, stores, calls and what takes a memory aren't pure, and the address of a symbol comes from the
//! case: of these [`eval`] answers 0.
#![tactic(auto)]

mod arithmetic;
mod bits;
mod comparisons;
pub mod conditions;
mod division;
pub mod evaluation;
pub mod laws;
mod shifts;

pub use conditions::{holds, inverse};
pub use evaluation::eval;
