//! The program `gossa_rows`: reads the files that its words name, or one archive from standard input, and judges the
//! program `gossa` by their rows.
#![tactic(auto)]

use gossa_base::{NoMemory, Sequence, StdSink, StdSource, read_all, write_all};
use rows::{ArchiveFile, Verdict, judge_archives};
use std::io::ErrorKind;
use std::process::ExitCode;
use std::rt::Env;
use std::{env, fs};

fn main(rt: HostRuntime) -> ExitCode {
    let mut errs = StdSink::new(rt.stderr());
    let verdict = match files(&rt) {
        Ok(files) => {
            let mut sink = StdSink::new(rt.stdout());
            judge_archives(rt.alloc(), files.as_slice(), &mut sink, &mut errs)
        }
        Err(NoMemory) => {
            let _ = write_all(&mut errs, b"gossa_rows: no memory\n");
            Verdict::Unfit
        }
    };
    ExitCode::from(verdict.number())
}

// The files that the words name, each read whole, or standard input.
fn files(rt: &HostRuntime) -> Result<Vec<ArchiveFile>, NoMemory> {
    let mut files = Vec::new(rt.alloc());
    for word in words(rt)? {
        files.push(read_file(rt, word))?;
    }
    if files.is_empty() {
        files.push(standard_input(rt)?)?;
    }
    Ok(files)
}

// The words that the program is called with, behind its own name. Words that are no text name a file that isn't there.
fn words(rt: &(impl Env + AllocGlobal)) -> Result<Vec<String>, NoMemory> {
    match env::args(rt) {
        Ok(words) => Ok(words.skip(1).collect(rt.alloc())?),
        Err(error) if error.kind() == ErrorKind::OutOfMemory => Err(NoMemory),
        Err(_) => Ok(vec![in rt.alloc(); String::new(rt.alloc())]?),
    }
}

// A file, read whole.
fn read_file(rt: &HostRuntime, name: String) -> ArchiveFile {
    let text = match fs::read(rt, name.as_str()) {
        Ok(bytes) => Some(Sequence::from_vec(bytes)),
        Err(_) => None,
    };
    ArchiveFile { name, text }
}

// Standard input, read whole.
fn standard_input(rt: &HostRuntime) -> Result<ArchiveFile, NoMemory> {
    let mut source = StdSource::new(rt.stdin());
    Ok(ArchiveFile {
        name: String::from_str(rt.alloc(), "standard input")?,
        text: read_all(rt.alloc(), &mut source, usize::MAX).ok(),
    })
}
