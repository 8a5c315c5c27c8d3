// How the program ends.

ghost use Rattle.std.specs.Prelude.{◌≡◌};
ghost use Rattle.gossa_core.specs.Status.{number_of};
ghost use Rattle.gossa_core.specs.Answer.{status_of};
ghost use Rattle.gossa_core.specs.Refused.{outcome_of_read, outcome_of_text, outcome_of_fault};

use gossa_base::{Name, NoMemory, ReadRefusal};
use ssa_check::{At, Check, Fault};
use ssa_text::{TextFault, TextRefusal};

/// How the program ends, by the number that its process ends with.
#[derive(Clone, Copy, Debug, PartialEq, Eq)]
pub enum Status {
    /// 0: all output was written.
    Done,
    /// 1: the input was refused.
    Refused,
    /// 2: the words are no command.
    Usage,
    /// 3: the input could not be read.
    ReadFault,
    /// 4: the output could not be written.
    WriteFault,
    /// 5: there was no memory.
    NoMemory,
}

impl Status {
    /// The number that the process ends with.
    pub fn number(self) -> u8
        ensures { result ≡ number_of self }
    {
        match self {
            Status::Done => 0,
            Status::Refused => 1,
            Status::Usage => 2,
            Status::ReadFault => 3,
            Status::WriteFault => 4,
            Status::NoMemory => 5,
        }
    }
}

/// The first fault of a unit that was read: the function's name, the check that it fails, and the place.
#[derive(Clone, Drop, PartialEq, Eq)]
pub struct CheckFault {
    pub func: Name,
    pub check: Check,
    pub at: At,
}

/// Why the program ends: a status, and the reason for it.
#[derive(Clone, Drop, PartialEq, Eq)]
pub enum Outcome {
    /// All output was written.
    Done,
    /// The input has a function that isn't compiled so far.
    NotBuilt,
    /// The input has more bytes than are read.
    TooLong,
    /// The input is no text of a unit, and this is its first fault.
    Text(TextFault),
    /// The input is a unit that fails a check, and this is its first fault.
    Check(CheckFault),
    /// The words are no command.
    Usage,
    /// The input could not be read.
    ReadFault,
    /// The output could not be written.
    WriteFault,
    /// There was no memory.
    NoMemory,
}

impl Outcome {
    /// The status of this outcome.
    pub fn status(&self) -> Status
        ensures { result ≡ status_of self.now }
    {
        match self {
            Outcome::Done => Status::Done,
            Outcome::NotBuilt | Outcome::TooLong | Outcome::Text(_) | Outcome::Check(_) => {
                Status::Refused
            }
            Outcome::Usage => Status::Usage,
            Outcome::ReadFault => Status::ReadFault,
            Outcome::WriteFault => Status::WriteFault,
            Outcome::NoMemory => Status::NoMemory,
        }
    }
}

impl From<ReadRefusal> for Outcome {
    ghost from_gives = { λ refusal outcome. outcome ≡ outcome_of_read refusal };

    fn from(refusal: ReadRefusal) -> Outcome {
        match refusal {
            ReadRefusal::ReadFault => Outcome::ReadFault,
            ReadRefusal::TooLong => Outcome::TooLong,
            ReadRefusal::NoMemory => Outcome::NoMemory,
        }
    }
}

impl From<TextRefusal> for Outcome {
    ghost from_gives = { λ refusal outcome. outcome ≡ outcome_of_text refusal };

    fn from(refusal: TextRefusal) -> Outcome {
        match refusal {
            TextRefusal::Fault(fault) => Outcome::Text(fault),
            TextRefusal::NoMemory => Outcome::NoMemory,
        }
    }
}

impl Outcome {
    // The outcome of a unit's first fault, whose function has this name, where there was memory for the name.
    pub(crate) fn of_fault(fault: Fault, name: Result<Name, NoMemory>) -> Outcome
        ensures { result ≡ outcome_of_fault fault name }
    {
        match name {
            Ok(func) => Outcome::Check(CheckFault {
                func,
                check: fault.check,
                at: fault.at,
            }),
            Err(NoMemory) => Outcome::NoMemory,
        }
    }
}
