// Why a text is no archive.

use gossa_base::NoMemory;
use std::alloc::{AllocError, AllocFailed};

/// What is wrong with a line of an archive.
#[derive(Clone, Copy, Debug, PartialEq, Eq)]
pub enum ArchiveFault {
    /// The archive has no row. It is told of line 1.
    NoRows,
    /// A row's head has no name.
    NoName,
    /// Two rows have one name. It is told of the second one's head.
    NameTwice,
    /// A line among the settings is none: it has no colon.
    NoSetting,
    /// No setting has this key.
    UnknownKey,
    /// No part has this name.
    UnknownPart,
    /// A key or a part is given twice, or both as a key and as a part. It is told of the second one.
    GivenTwice,
    /// A key that has to be given isn't. It is told of the row's head.
    KeyMissing,
    /// A part that has to be given isn't. It is told of the row's head.
    PartMissing,
    /// A number is none, or out of its range.
    BadNumber,
    /// A backslash stands before what is no escape.
    BadEscape,
    /// A line `\repeat` has no line `\end`.
    EndMissing,
    /// A call names no program.
    NoProgram,
    /// No program has this name.
    UnknownProgram,
    /// A word isn't UTF-8.
    BadWord,
}

impl ArchiveFault {
    /// The words for this fault.
    pub fn text(self) -> &'static str {
        match self {
            ArchiveFault::NoRows => "no rows",
            ArchiveFault::NoName => "no name",
            ArchiveFault::NameTwice => "name twice",
            ArchiveFault::NoSetting => "no setting",
            ArchiveFault::UnknownKey => "unknown key",
            ArchiveFault::UnknownPart => "unknown part",
            ArchiveFault::GivenTwice => "given twice",
            ArchiveFault::KeyMissing => "a key is missing",
            ArchiveFault::PartMissing => "a part is missing",
            ArchiveFault::BadNumber => "bad number",
            ArchiveFault::BadEscape => "bad escape",
            ArchiveFault::EndMissing => "end missing",
            ArchiveFault::NoProgram => "no program",
            ArchiveFault::UnknownProgram => "unknown program",
            ArchiveFault::BadWord => "bad word",
        }
    }
}

/// Why no rows were read.
#[derive(Clone, Copy, Debug, PartialEq, Eq)]
pub enum ArchiveRefusal {
    /// The line of this number, from 1, has this fault.
    At { line: u64, fault: ArchiveFault },
    /// There was no memory for the rows.
    NoMemory,
}

impl From<NoMemory> for ArchiveRefusal {
    fn from(_error: NoMemory) -> ArchiveRefusal {
        ArchiveRefusal::NoMemory
    }
}

impl From<AllocError> for ArchiveRefusal {
    fn from(_error: AllocError) -> ArchiveRefusal {
        ArchiveRefusal::NoMemory
    }
}

impl<T: Drop> From<AllocFailed<T>> for ArchiveRefusal {
    fn from(_error: AllocFailed<T>) -> ArchiveRefusal {
        ArchiveRefusal::NoMemory
    }
}
