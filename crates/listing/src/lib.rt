//! ARM64 listings: the lines of each function's code, its frame and its pointer bitmaps, and their text.
//!
//! A function's code is a list of [`Line`]s over registers, frame words and argument words. Before frame words
//! are shared a line names the home of a value; behind that it names a word of the frame. [`print_listing`]
//! gives the canonical text, one line each, with a note that says which value the line serves:
//!
//! ```text
//! TEXT f(int64) (int64), frame=16, out=0, ptr=0, scalar=1, regs=24
//! b1: R0=v2                      b1 begins with v2 in R0
//! MOVD R0, 8(RSP) // spill v2    v2 goes to the first word of the frame
//! MOVD 8(RSP), R0 // results     the result goes to its register
//! RET
//! ```
//!
//! Known limits: of the machine's ops only `ADD Rm, Rn, Rd` has a text; listings are not read yet.
#![tactic(auto)]

pub mod code;
pub mod laws;
pub mod line;
pub mod print;
mod print_line;
mod print_parts;

pub use code::{Bits, Code, Lines, Listing, ListingList, Listings, Map, Maps, Names};
pub use line::{Line, Note, Operands, Place, RegState};
pub use print::print_listing;
