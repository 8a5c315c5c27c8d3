//! The program `gossa`: its words, standard input and the two standard outputs are handed to [`gossa_core::gossa`],
//! and the process ends with the number of the status that it answers.
#![tactic(auto)]

ghost use Rattle.std.specs.Prelude.{◌≡◌, map, IfOk};
ghost use Rattle.std.specs.Process.{exit_status};
ghost use Rattle.std.specs.String.{string_bytes};
ghost use Rattle.gossa_core.specs.Status.{number_of};
ghost use Rattle.gossa_core.specs.Worlds.{world, errors};
ghost use Rattle.gossa_main.specs.Process.{words_given, Does, Ends};

use gossa_base::{NoMemory, Sink, Source, StdSink, StdSource};
use gossa_core::{Outcome, Status, gossa, tell};
use std::alloc::Global;
use std::env::Args;
use std::io::ErrorKind;
use std::process::ExitCode;
use std::{env, io};

fn main(rt: HostRuntime) -> ExitCode {
    let mut source = StdSource::new(rt.stdin());
    let mut sink = StdSink::new(rt.stdout());
    let mut errs = StdSink::new(rt.stderr());
    run(
        rt.alloc(),
        env::args(&rt),
        &mut source,
        &mut sink,
        &mut errs,
    )
}

// Does what the words say that the process is called with, and answers what it ends with.
fn run<S: Source, K: Sink, E: Sink>(
    alloc: Global,
    given: io::Result<Args>,
    source: &mut S,
    sink: &mut K,
    errs: &mut E,
) -> ExitCode
    ensures { Ends (map string_bytes (words_given given))
        (world (S.left source.old) (S.faults source.old) (K.held sink.old) (K.faults sink.old))
        (world (S.left source.new) (S.faults source.new) (K.held sink.new) (K.faults sink.new))
        (errors (E.held errs.old) (E.faults errs.old)) (errors (E.held errs.new) (E.faults errs.new))
        (exit_status result) }
{
    exit_code(obey(alloc, given, source, sink, errs))
}

// Does what the words say that the process is called with, and answers how it went.
fn obey<S: Source, K: Sink, E: Sink>(
    alloc: Global,
    given: io::Result<Args>,
    source: &mut S,
    sink: &mut K,
    errs: &mut E,
) -> Status
    ensures { Does (map string_bytes (words_given given))
        (world (S.left source.old) (S.faults source.old) (K.held sink.old) (K.faults sink.old))
        (world (S.left source.new) (S.faults source.new) (K.held sink.new) (K.faults sink.new))
        (errors (E.held errs.old) (E.faults errs.old)) (errors (E.held errs.new) (E.faults errs.new))
        result }
{
    match command_words(alloc, given) {
        Ok(words) => gossa(alloc, words.as_slice(), source, sink, errs),
        Err(NoMemory) => {
            tell(errs, &Outcome::NoMemory);
            Outcome::NoMemory.status()
        }
    }
}

// The words of the command: all words that the process is called with, but for its own name. A word that is no text is
// in no command, so then there are none.
fn command_words(alloc: Global, given: io::Result<Args>) -> Result<Vec<String>, NoMemory>
    ensures { IfOk result (λ words. words.items ≡ words_given given) }
{
    match given {
        Ok(words) => Ok(words.skip(1).collect(alloc)?),
        Err(error) if error.kind() == ErrorKind::OutOfMemory => Err(NoMemory),
        Err(_) => Ok(Vec::new(alloc)),
    }
}

// What the process ends with: the number of the status.
fn exit_code(status: Status) -> ExitCode
    ensures { exit_status result ≡ number_of status }
{
    ExitCode::from(status.number())
}
