//! Which units the back end takes: what every function must meet, and the first fault of a unit that has one.
//!
//! Method. Functions are taken in order; in one function the checks by number, and of one check the least place: the
//! function, then its values by number, then its blocks by number. Each check is a definition of its own (`specs/`),
//! which says what must hold; [`check`] gives back the unit as [`Checked`], or answers exactly the first function,
//! check and place at which one doesn't. Tables are made once: where each value stands, the signatures by name, the
//! selects of each call, the edges in order. Values that wait for each other in a circle are found by ranks that never
//! fall along an edge (crate `graphs`); a search from the lowest value whose rank stays the same confirms the cycle.
//!
//! Two checks speak of all paths from the entry. For definitions each block has a row of bits, the blocks that every
//! path to it passes; for memory it has the one memory that all paths through its end pass, if there is one. Both
//! tables are swept until nothing changes (compare `dom.go` in Go's compiler).
//!
//! ```text
//! b1:
//! v1 = InitMem <mem>
//! v2 = Add64 <int64> v3 v3      Cycle at v2: v2 takes v3, and v3 takes v2
//! v3 = Add64 <int64> v2 v2
//! ```
//!
//! Known limits: a sweep goes over the blocks in the order of the text, so a function whose blocks stand against the
//! flow takes as many sweeps as its longest way against the text.
#![tactic(auto)]

mod arity;
mod callees;
mod chains;
mod checked;
mod controls;
mod cycles;
mod edges;
mod entry;
mod faults;
mod lowest;
mod memories;
mod memory;
mod parameters;
pub mod refusal;
mod types;
mod undefined;

pub use checked::{Checked, check};
pub use refusal::{At, Check, CheckRefusal, Fault};
