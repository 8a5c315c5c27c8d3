//! The tests that are functions, of all crates.
//!
//! What goes into the program and what comes out is shown by rows of data (docs/ROWS.md), and a new test is a row
//! first: a row costs no proof. Here stands what rows can't say: each public call of a library at its types, once
//! where all goes well (a body that only gives up for want of memory is still proved); the adapters over standard
//! streams; generic functions at a concrete type; values that no text gives, and what they print as; texts cut at
//! every byte; drawn graphs; and that the judge of rows tells rows that don't hold.
//!
//! A test function is proved as any other, and a crate with tests is proved twice: so no other crate has any, and this
//! one has nothing else.
//!
//! To add one: put it into the module of its topic, under a name that says what it shows; take what it needs from
//! `made.rt`; get it right by `rt try gossa_tests --test`, which proves nothing, and then prove and run it by
//! `rt test`. What is expected is worked out by hand or by another program, never taken from a run.
#![tactic(auto)]

#[cfg(test)]
mod adapters;
#[cfg(test)]
mod base_values;
#[cfg(test)]
mod cases;
#[cfg(test)]
mod checks;
#[cfg(test)]
mod checksums;
#[cfg(test)]
mod commands;
#[cfg(test)]
mod drawn_graphs;
#[cfg(test)]
mod dumps;
#[cfg(test)]
mod functions;
#[cfg(test)]
mod generic_ops;
#[cfg(test)]
mod line_forms;
#[cfg(test)]
mod listing_texts;
#[cfg(test)]
mod machine_ops;
#[cfg(test)]
mod made;
#[cfg(test)]
mod narrow;
#[cfg(test)]
mod op_lines;
#[cfg(test)]
mod op_table;
#[cfg(test)]
mod printing;
#[cfg(test)]
mod row_reports;
#[cfg(test)]
mod row_texts;
#[cfg(test)]
mod small_texts;
#[cfg(test)]
mod streams;
#[cfg(test)]
mod telling;
#[cfg(test)]
mod units;
