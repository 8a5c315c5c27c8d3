// The program in memory: its words, its calls at the types of the tests, and texts cut at every byte.

ghost use Rattle.std.specs.Prelude.{◌≤◌};

use crate::made::{dump_with_cases, one, owned, unit_of_text};
use gossa_base::{MemSink, MemSource, NoMemory, Sequence};
use gossa_core::{Command, Status, gossa, read_words};
use listing::{ListingList, Listings, print_listing};
use ssa_ir::Func;
use ssa_text::TextRefusal;
use std::alloc::Global;
use sum_compile::{all_narrow, allocate, allocate_all, is_narrow};

// Words, and the command that they are.
const WORDS: [(&[&str], Option<Command>); 6] = [
    (&["compile"], Some(Command::Compile { regs: 24 })),
    (&["run"], Some(Command::Run)),
    (&["compiled"], None),
    (&[""], None),
    (&["run", "run"], None),
    (&[], None),
];

#[test]
fn knows_its_words(rt: HostRuntime) {
    for (words, want) in WORDS.iter() {
        assert!(rt; command_of(rt.alloc(), words) == Ok(*want));
    }
}

fn command_of(alloc: Global, words: &[&str]) -> Result<Option<Command>, NoMemory> {
    Ok(read_words(owned(alloc, words)?.as_slice()))
}

// A function that returns its parameter, and a case of it.
const SAME: &str = "func f(int64) (int64)\n\
b1:\n\
v1 = InitMem <mem>\n\
v2 = Arg <int64> [0]\n\
v3 = MakeResult <int64,mem> v2 v1\n\
Ret v3\n\
case f 1\n\
args 7\n";

const SAME_COMPILED: &str = "TEXT f(int64) (int64), frame=16, out=0, ptr=0, scalar=1, regs=24\n\
b1: R0=v2\n\
MOVD R0, 8(RSP) // spill v2\n\
MOVD 8(RSP), R0 // results\n\
RET\n\
case f 1\n\
args 0x7\n";

// The listing of its function.
const SAME_LISTING: &str = "TEXT f(int64) (int64), frame=16, out=0, ptr=0, scalar=1, regs=24\n\
b1: R0=v2\n\
MOVD R0, 8(RSP) // spill v2\n\
MOVD 8(RSP), R0 // results\n\
RET\n";

#[test]
fn does_each_command(rt: HostRuntime) {
    assert!(rt; writes(rt.alloc(), "compile", SAME, SAME_COMPILED) == Ok(true));
    assert!(rt; writes(rt.alloc(), "run", SAME, "case f 1\nreturned(7)\n") == Ok(true));
}

// Whether a command over a text is done, writes this, and tells nothing.
fn writes(alloc: Global, word: &str, text: &str, want: &str) -> Result<bool, NoMemory> {
    let came = played(alloc, word, text.as_bytes(), 16)?;
    Ok(
        came.status == Status::Done
            && came.sink.held() == want.as_bytes()
            && came.errs.held().is_empty(),
    )
}

// How a command ended, and what it wrote and told.
#[derive(Drop)]
struct Came {
    status: Status,
    sink: MemSink,
    errs: MemSink,
}

// What comes of a command over a text, where each call of a stream moves at most so many bytes.
fn played(alloc: Global, word: &str, text: &[u8], piece: usize) -> Result<Came, NoMemory>
    requires { 1 ≤ piece }
{
    let words = owned(alloc, &[word])?;
    let mut source = MemSource::new(alloc, text, piece, &[])?;
    played_over(alloc, words.as_slice(), &mut source, piece)
}

fn played_over(
    alloc: Global,
    words: &[String],
    source: &mut MemSource,
    piece: usize,
) -> Result<Came, NoMemory>
    requires { 1 ≤ piece }
{
    let mut sink = MemSink::new(alloc, 2000, piece, &[])?;
    let mut errs = MemSink::new(alloc, 100, piece, &[])?;
    let status = gossa(alloc, words, source, &mut sink, &mut errs);
    Ok(Came { status, sink, errs })
}

#[test]
fn allocates_functions(rt: HostRuntime) {
    assert!(rt; same_is_listed(rt.alloc()) == Ok(true));
}

// Whether the listing is made by the call for one function, and by that for all.
fn same_is_listed(alloc: Global) -> Result<bool, TextRefusal> {
    let unit = unit_of_text(alloc, SAME)?;
    match unit.funcs.as_slice() {
        [func] => Ok(one_is_listed(alloc, func)? && all_are_listed(alloc, unit.funcs.as_slice())?),
        _ => Ok(false),
    }
}

fn one_is_listed(alloc: Global, func: &Func) -> Result<bool, NoMemory> {
    if !is_narrow(func) {
        return Ok(false);
    }
    let listing = allocate(alloc, func, 24)?;
    are_listings(alloc, one(alloc, listing)?)
}

fn all_are_listed(alloc: Global, funcs: &[Func]) -> Result<bool, NoMemory> {
    if !all_narrow(funcs) {
        return Ok(false);
    }
    are_listings(alloc, allocate_all(alloc, funcs, 24)?)
}

// Whether this is the listing, without `sig` lines.
fn are_listings(alloc: Global, funcs: ListingList) -> Result<bool, NoMemory> {
    let sigs = Sequence::new(alloc);
    let text = print_listing(alloc, &Listings { sigs, funcs })?;
    Ok(text.as_slice() == SAME_LISTING.as_bytes())
}

#[test]
fn leaves_nothing_of_cut_texts(rt: HostRuntime) {
    assert!(rt; cut_that_leaves(rt.alloc()) == Ok(None));
}

// The first place at which the dump, cut there, leaves something of what isn't done.
fn cut_that_leaves(alloc: Global) -> Result<Option<usize>, NoMemory> {
    let text = dump_with_cases(alloc)?;
    first_cut_that_leaves(alloc, text.as_bytes())
}

fn first_cut_that_leaves(alloc: Global, text: &[u8]) -> Result<Option<usize>, NoMemory> {
    for end in 0..=text.len() {
        let cut = &text[..end];
        if !(is_clean(alloc, "compile", cut)? && is_clean(alloc, "run", cut)?) {
            return Ok(Some(end));
        }
    }
    Ok(None)
}

// Whether a command over a text is done, or refuses it and writes nothing.
fn is_clean(alloc: Global, word: &str, text: &[u8]) -> Result<bool, NoMemory> {
    let came = played(alloc, word, text, 4096)?;
    match came.status {
        Status::Done => Ok(came.errs.held().is_empty()),
        Status::Refused => Ok(came.sink.held().is_empty()),
        _ => Ok(false),
    }
}
