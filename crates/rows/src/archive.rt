// An archive, line by line.

use crate::draft::Draft;
use crate::fault::{ArchiveFault, ArchiveRefusal};
use crate::lines::{Line, Lines};
use crate::row::Row;
use crate::settings::read_row;
use std::alloc::Global;

// The rows read so far, and the one whose lines are read.
#[derive(Drop)]
struct Reader<'a> {
    alloc: Global,
    rows: Vec<Row>,
    open: Option<Draft<'a>>,
}

/// The rows of an archive, at least one, in order. No two have one name.
pub fn read_archive(alloc: Global, text: &[u8]) -> Result<Vec<Row>, ArchiveRefusal> {
    let mut reader = Reader {
        alloc,
        rows: Vec::new(alloc),
        open: None,
    };
    for line in Lines::of(text) {
        reader.take(line)?;
    }
    reader.close()?;
    let Reader { rows, .. } = reader;
    if rows.is_empty() {
        return Err(ArchiveRefusal::At {
            line: 1,
            fault: ArchiveFault::NoRows,
        });
    }
    Ok(rows)
}

impl<'a> Reader<'a> {
    // One more line.
    fn take(&mut self, line: Line<'a>) -> Result<(), ArchiveRefusal> {
        match line.row_name() {
            Some(name) => {
                self.close()?;
                self.begin(line, name)
            }
            None => match &mut self.open {
                Some(draft) => draft.take(line),
                None => Ok(()),
            },
        }
    }

    // The head of a row of this name.
    fn begin(&mut self, line: Line<'a>, name: &'a [u8]) -> Result<(), ArchiveRefusal> {
        if name.is_empty() {
            return Err(line.refusal(ArchiveFault::NoName));
        }
        if self.rows.iter().any(|row| row.name.as_slice() == name) {
            return Err(line.refusal(ArchiveFault::NameTwice));
        }
        self.open = Some(Draft::new(self.alloc, line, name));
        Ok(())
    }

    // The end of the row that is open, if there is one.
    fn close(&mut self) -> Result<(), ArchiveRefusal> {
        if let Some(draft) = self.open.take() {
            self.rows.push(read_row(self.alloc, &draft)?)?;
        }
        Ok(())
    }
}
