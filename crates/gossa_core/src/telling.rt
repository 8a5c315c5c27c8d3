// What the error stream is told: one line, in pieces that take no memory.

ghost use Rattle.std.specs.Prelude.{◌≡◌, ◌≤◌, OnOk, OnErr};
ghost use Rattle.std.specs.Io.KnownBytes.{Appends};
ghost use Rattle.gossa_base.specs.Faults.{Faulted};
ghost use Rattle.gossa_base.specs.Whole.{AppendsPrefix};
ghost use Rattle.gossa_core.specs.Answer.{line_of, Tells};
ghost use Rattle.gossa_core.specs.CheckText.{numbered, check_text, place_text, check_line};
ghost use Rattle.gossa_core.specs.RefusalText.{limit_text, fault_line, refusal_line};
ghost use Rattle.gossa_core.specs.Worlds.{errors};

use crate::status::{CheckFault, Outcome};
use gossa_base::{BlockId, Failed, Sink, write_all};
use itoa::Buffer;
use ssa_check::{At, Check};
use ssa_text::{LimitKind, TextFault};

/// The line of an outcome goes to the error stream, or a prefix of it where that stream fails. Nothing goes there where
/// all went well.
pub fn tell<E: Sink>(errs: &mut E, outcome: &Outcome)
    ensures { Tells (line_of outcome.now)
        (errors (E.held errs.old) (E.faults errs.old)) (errors (E.held errs.new) (E.faults errs.new)) }
{
    let _ = write_line(errs, outcome);
}

// Writes the line of an outcome. Where that fails, a prefix of it was written; so do all functions here.
fn write_line<E: Sink>(errs: &mut E, outcome: &Outcome) -> Result<(), Failed>
    ensures ok { OnOk result (Appends (E.held errs.old) (E.held errs.new) (line_of outcome.now)) }
    ensures fault { OnErr result (Faulted (E.faults errs.old) (E.faults errs.new)) }
    ensures prefix { OnErr result (AppendsPrefix (E.held errs.old) (E.held errs.new) (line_of outcome.now)) }
{
    match outcome {
        Outcome::Done => write_all(errs, b""),
        Outcome::NotBuilt => write_all(errs, b"gossa: not built\n"),
        Outcome::TooLong => write_all(errs, b"gossa: input too long\n"),
        Outcome::Text(fault) => write_refusal(errs, *fault),
        Outcome::Check(fault) => write_check(errs, fault),
        Outcome::Usage => write_all(
            errs,
            b"usage: gossa compile [-regs=N] | run | step | demo SEED SIZE\n",
        ),
        Outcome::ReadFault => write_all(errs, b"gossa: read failed\n"),
        Outcome::WriteFault => write_all(errs, b"gossa: write failed\n"),
        Outcome::NoMemory => write_all(errs, b"gossa: out of memory\n"),
    }
}

// Writes why a text is refused.
fn write_refusal<E: Sink>(errs: &mut E, fault: TextFault) -> Result<(), Failed>
    ensures ok { OnOk result (Appends (E.held errs.old) (E.held errs.new) (refusal_line fault)) }
    ensures fault { OnErr result (Faulted (E.faults errs.old) (E.faults errs.new)) }
    ensures prefix { OnErr result (AppendsPrefix (E.held errs.old) (E.held errs.new) (refusal_line fault)) }
{
    match fault {
        TextFault::BadByte(line) => write_fault(errs, line, b"bad byte"),
        TextFault::BadLine(line) => write_fault(errs, line, b"bad line"),
        TextFault::UnknownOp(line) => write_fault(errs, line, b"unknown op"),
        TextFault::NumberTooLarge(line) => write_fault(errs, line, b"number too large"),
        TextFault::Duplicate(line) => write_fault(errs, line, b"defined twice"),
        TextFault::UnknownRef(line) => write_fault(errs, line, b"unknown reference"),
        TextFault::Limit(kind, line) => write_fault(errs, line, limit_text(kind)),
    }
}

// What is wrong where a limit is passed.
fn limit_text(kind: LimitKind) -> &'static [u8]
    ensures { result.now ≡ limit_text kind }
{
    match kind {
        LimitKind::LineBytes => b"limit LineBytes",
        LimitKind::Functions => b"limit Functions",
        LimitKind::Sigs => b"limit Sigs",
        LimitKind::Values => b"limit Values",
        LimitKind::Blocks => b"limit Blocks",
        LimitKind::Params => b"limit Params",
        LimitKind::Results => b"limit Results",
        LimitKind::Args => b"limit Args",
        LimitKind::Cases => b"limit Cases",
        LimitKind::Bound => b"limit Bound",
        LimitKind::Replies => b"limit Replies",
        LimitKind::MemBytes => b"limit MemBytes",
        LimitKind::JunkWords => b"limit JunkWords",
    }
}

// Writes what is wrong with a line of the input, by the number of that line.
fn write_fault<E: Sink>(errs: &mut E, line: u32, fault: &[u8]) -> Result<(), Failed>
    ensures ok { OnOk result (Appends (E.held errs.old) (E.held errs.new) (fault_line line fault.now)) }
    ensures fault { OnErr result (Faulted (E.faults errs.old) (E.faults errs.new)) }
    ensures prefix { OnErr result (AppendsPrefix (E.held errs.old) (E.held errs.new) (fault_line line fault.now)) }
{
    write_all(errs, b"gossa: line ")?;
    write_all(errs, Buffer::new().format(line).as_bytes())?;
    write_all(errs, b": ")?;
    write_all(errs, fault)?;
    write_all(errs, b"\n")
}

// Writes the first check that a unit fails: by which function, and where.
fn write_check<E: Sink>(errs: &mut E, fault: &CheckFault) -> Result<(), Failed>
    ensures ok { OnOk result (Appends (E.held errs.old) (E.held errs.new) (check_line fault.now)) }
    ensures fault { OnErr result (Faulted (E.faults errs.old) (E.faults errs.new)) }
    ensures prefix { OnErr result (AppendsPrefix (E.held errs.old) (E.held errs.new) (check_line fault.now)) }
{
    write_all(errs, b"gossa: ")?;
    write_all(errs, fault.func.as_slice())?;
    write_check_name(errs, fault.check)?;
    write_place(errs, fault.at)?;
    write_all(errs, b"\n")
}

// Writes the number of a check and its name.
fn write_check_name<E: Sink>(errs: &mut E, check: Check) -> Result<(), Failed>
    ensures ok { OnOk result (Appends (E.held errs.old) (E.held errs.new) (check_text check)) }
    ensures fault { OnErr result (Faulted (E.faults errs.old) (E.faults errs.new)) }
    ensures prefix { OnErr result (AppendsPrefix (E.held errs.old) (E.held errs.new) (check_text check)) }
    ensures count { E.faults errs.old ≤ E.faults errs.new }
{
    write_numbered(errs, b": C", check.number())?;
    write_all(errs, b" ")?;
    write_all(errs, check.name())
}

// Writes where a check fails; of the function itself nothing more is said.
fn write_place<E: Sink>(errs: &mut E, at: At) -> Result<(), Failed>
    ensures ok { OnOk result (Appends (E.held errs.old) (E.held errs.new) (place_text at)) }
    ensures fault { OnErr result (Faulted (E.faults errs.old) (E.faults errs.new)) }
    ensures prefix { OnErr result (AppendsPrefix (E.held errs.old) (E.held errs.new) (place_text at)) }
    ensures count { E.faults errs.old ≤ E.faults errs.new }
{
    match at {
        At::Func => write_all(errs, b""),
        At::Value(id) => write_numbered(errs, b" at v", id.0),
        At::Block(BlockId { split: false, n }) => write_numbered(errs, b" at b", n),
        At::Block(BlockId { split: true, n }) => write_numbered(errs, b" at e", n),
    }
}

// Writes a number behind what it is the number of.
fn write_numbered<E: Sink>(errs: &mut E, front: &[u8], number: u32) -> Result<(), Failed>
    ensures ok { OnOk result (Appends (E.held errs.old) (E.held errs.new) (numbered front.now number)) }
    ensures fault { OnErr result (Faulted (E.faults errs.old) (E.faults errs.new)) }
    ensures prefix { OnErr result (AppendsPrefix (E.held errs.old) (E.held errs.new) (numbered front.now number)) }
    ensures count { E.faults errs.old ≤ E.faults errs.new }
{
    write_all(errs, front)?;
    write_all(errs, Buffer::new().format(number).as_bytes())
}
