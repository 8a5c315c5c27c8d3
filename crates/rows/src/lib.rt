//! Rows: what the program shows, as data, and the judge of it.
//!
//! Method. [`read_archive`] goes along the lines of an archive, and keeps what a row gives under each key, or as a
//! part. Where the next head ends the row, what stands there is read: words, numbers and texts, with their escapes and
//! repeated stretches. [`play`] makes the calls of a row over streams in memory, one after the other, and [`judge`]
//! says whether what came is what is wanted, or else the first part, and the first line of it, that differ.
//! [`judge_archives`] does that with all rows of all files, and tells of those that don't hold.
//!
//! ```text
//! === no words          a row    --play-->    status 2, output "", errors "usage: gossa ..\n"
//! words: gossa                   --judge-->   holds
//! status: 0                      --judge-->   FILE: no words: status
//! output:                                       wanted: 0
//! errors: *                                     came:   2
//! input: func
//! ```
//!
//! Known limits: the judge is proved to its result, both ways. How archives are read, how a row is played and what is
//! told of it is proved to be safe and to end, and is shown by tests alone. A program that a row calls is `gossa`.
#![tactic(auto)]

mod archive;
mod draft;
mod fault;
mod judging;
mod lines;
mod numbers;
mod playing;
mod report;
mod row;
mod settings;
mod spelling;
mod texts;
mod top;
mod words;

pub use archive::read_archive;
pub use fault::{ArchiveFault, ArchiveRefusal};
pub use judging::{Came, Difference, Wanted, judge};
pub use playing::play;
pub use report::{put_difference, put_fault, put_tally};
pub use row::{Call, Program, Row, StreamPlan, Streams};
pub use top::{ArchiveFile, Verdict, judge_archives};
