// The words of a row: programs and what each is called with.

use crate::draft::Setting;
use crate::fault::{ArchiveFault, ArchiveRefusal};
use crate::lines::Line;
use crate::row::{Call, Program};
use crate::texts::put_spelled;
use std::alloc::Global;

// The calls read so far, and the one that words are added to.
#[derive(Drop)]
struct Calls {
    alloc: Global,
    done: Vec<Call>,
    open: Option<Call>,
}

/// The calls that this setting spells, at least one.
pub(crate) fn read_calls(
    alloc: Global,
    setting: &Setting<'_>,
) -> Result<Vec<Call>, ArchiveRefusal> {
    let mut calls = Calls {
        alloc,
        done: Vec::new(alloc),
        open: None,
    };
    let number = setting.head.number;
    for text in setting.value().split(|byte| *byte == b' ') {
        calls.take(Line { number, text })?;
    }
    calls.close(setting.head)?;
    let Calls { done, .. } = calls;
    Ok(done)
}

impl Calls {
    // One more word as it is spelled, or none between two spaces.
    fn take(&mut self, word: Line<'_>) -> Result<(), ArchiveRefusal> {
        match word.text {
            [] => Ok(()),
            [b'|'] => self.close(word),
            _ => self.add(word),
        }
    }

    // One more word of the call that is open, or the name of the program of a new one.
    fn add(&mut self, word: Line<'_>) -> Result<(), ArchiveRefusal> {
        match &mut self.open {
            Some(call) => {
                call.words.push(read_word(self.alloc, word)?)?;
            }
            None => {
                let program = program_named(word)?;
                self.open = Some(Call {
                    program,
                    words: Vec::new(self.alloc),
                });
            }
        }
        Ok(())
    }

    // The end of the call that is open.
    fn close(&mut self, line: Line<'_>) -> Result<(), ArchiveRefusal> {
        match self.open.take() {
            Some(call) => {
                self.done.push(call)?;
                Ok(())
            }
            None => Err(line.refusal(ArchiveFault::NoProgram)),
        }
    }
}

// The program of this name.
fn program_named(word: Line<'_>) -> Result<Program, ArchiveRefusal> {
    match word.text {
        b"gossa" => Ok(Program::Gossa),
        _ => Err(word.refusal(ArchiveFault::UnknownProgram)),
    }
}

// The word that is spelled so.
fn read_word(alloc: Global, word: Line<'_>) -> Result<String, ArchiveRefusal> {
    let mut bytes = Vec::new(alloc);
    if word.text != b"\"\"".as_slice() {
        put_spelled(&mut bytes, word)?;
    }
    match String::from_utf8(bytes) {
        Ok(text) => Ok(text),
        Err(_) => Err(word.refusal(ArchiveFault::BadWord)),
    }
}
