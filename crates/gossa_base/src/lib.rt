//! What every crate of gossa stands on: the outside as two traits, whole reads and writes over them,
//! the ids of values and blocks, names, and lists that contracts see as lists.
//!
//! Method. A [`Source`] gives bytes in pieces and a [`Sink`] takes them; each may tell which bytes are left
//! or held, and counts its faults. [`read_all`] and [`write_all`] turn pieces into whole texts. The program
//! runs over [`StdSource`] and [`StdSink`], the tests over [`MemSource`] and [`MemSink`], whose failing
//! calls are known beforehand. A refusal that blames an object comes only where its count of faults rose, or
//! stands at the last number of its type.
//!
//! ```text
//! "ab" "c" end   --read_all-->    Ok("abc")
//! "abc"          --write_all-->   "ab" "c"
//! ```
//!
//! Known limits: nothing is said of the bytes of a real standard stream, and an adapter doesn't try again
//! where a call was interrupted.
#![tactic(auto)]

pub mod bit_row;
mod calls;
pub mod ids;
pub mod laws;
pub mod mem_sink;
pub mod mem_source;
pub mod memory;
pub mod name;
pub mod outside;
pub mod print;
pub mod sequence;
pub mod std_streams;
pub mod whole;
pub mod words;

pub use bit_row::BitRow;
pub use ids::{BlockId, ValueId};
pub use mem_sink::MemSink;
pub use mem_source::MemSource;
pub use memory::NoMemory;
pub use name::Name;
pub use outside::{Failed, Sink, Source};
pub use print::{
    Print, print_all, print_joined, print_led, put, put_hex, put_hex_bytes, put_number, put_signed,
};
pub use sequence::{Bytes, Sequence};
pub use std_streams::{StdSink, StdSource};
pub use whole::{ReadRefusal, read_all, write_all};
pub use words::{low, sext};
