// The text of what a run shows. Each call here fails only for want of memory.

ghost use Rattle.std.specs.Prelude.{◌≡◌, ◌≤◌, ◌==◌, ◌+◌, ◌++◌, map, option_copied, IfOk, OnOk};
ghost use Rattle.std.specs.Fmt.{signed_decimal};
ghost use Rattle.std.specs.List.{flat_map};
ghost use Rattle.gossa_base.specs.Words.{signed_at};
ghost use Rattle.ssa_ir.specs.declared.case.End.TheVariants.{Returned};
ghost use Rattle.gossa_core.specs.ShownText as spec;
ghost use Rattle.gossa_core.specs.tables.RunLengths as lengths;
ghost use Rattle.gossa_core.specs.tables.SigTables.{Finds};

use crate::sig_table::SigTable;
use gossa_base::{
    Bytes, Name, NoMemory, Sequence, low, put, put_hex, put_hex_bytes, put_number, put_signed, sext,
};
use ssa_ir::{CallShown, End, Scalar, Shown, Sig, Sigs};
use std::alloc::Global;

/// How many bytes stand on a line at the most.
const LINE_BYTES: usize = 16;

// A word as a signed value of so many bits.
fn put_signed_word(out: &mut Vec<u8>, bits: u32, word: u64) -> Result<(), NoMemory>
    requires at_least_one { 1 ≤ bits }
    requires at_most_all { bits ≤ 64 }
    ensures { OnOk result (out.new.items ≡ out.old.items ++ signed_decimal (signed_at bits word)) }
{
    put_signed(out, sext(bits, word).cast_signed())
}

// A word as a value of its type.
fn put_word(out: &mut Vec<u8>, scalar: Scalar, word: u64) -> Result<(), NoMemory>
    ensures { OnOk result (out.new.items ≡ out.old.items ++ spec.scalar_text scalar word) }
{
    match scalar {
        Scalar::I8 => put_signed_word(out, 8, word),
        Scalar::I16 => put_signed_word(out, 16, word),
        Scalar::I32 => put_signed_word(out, 32, word),
        Scalar::I64 => put_signed_word(out, 64, word),
        Scalar::U8 => put_number(out, low(8, word)),
        Scalar::U16 => put_number(out, low(16, word)),
        Scalar::U32 => put_number(out, low(32, word)),
        Scalar::U64 | Scalar::Uintptr => put_number(out, word),
        Scalar::Bool => put(out, if low(1, word) == 1 { b"true" } else { b"false" }),
        Scalar::Ptr => put_hex(out, word),
    }
}

// Words behind others.
fn put_more_words(out: &mut Vec<u8>, types: &[Scalar], words: &[u64]) -> Result<(), NoMemory>
    ensures { OnOk result (out.new.items ≡ out.old.items ++ spec.more_words types.now words.now) }
{
    for index in 0..types.len().min(words.len()) {
        put(out, b", ")?;
        put_word(out, types[index], words[index])?;
    }
    Ok(())
}

// Words in parentheses.
fn put_words(out: &mut Vec<u8>, types: &[Scalar], words: &[u64]) -> Result<(), NoMemory>
    ensures { OnOk result (out.new.items ≡ out.old.items ++ spec.words_group types.now words.now) }
{
    put(out, b"(")?;
    if let (Some((scalar, types)), Some((word, words))) = (
        types.split_first(),
        words.split_first(),
    ) {
        put_word(out, *scalar, *word)?;
        put_more_words(out, types, words)?;
    }
    put(out, b")")
}

// Whether an address is the one behind another.
fn follows(last: u64, next: u64) -> bool
    ensures { result ≡ (next == last + 1) }
{
    last.checked_add(1) == Some(next)
}

// How many bytes from the front on stand at consecutive addresses.
fn run_length(changes: &[(u64, u8)]) -> usize
    ensures { result ≡ lengths.run_length changes.now }
{
    let Some((first, others)) = changes.split_first() else {
        return 0;
    };
    let mut last = *first;
    for (place, next) in others.iter().enumerate() {
        if !follows(last.0, next.0) {
            return place + 1;
        }
        last = *next;
    }
    changes.len()
}

// The bytes of a piece, without their addresses.
fn piece_bytes(alloc: Global, piece: &[(u64, u8)]) -> Result<Vec<u8>, NoMemory>
    ensures { IfOk result (λ bytes. bytes.items ≡ map (λ q. q.1) piece.now) }
{
    let mut bytes = Vec::new(alloc);
    for (_, byte) in piece {
        bytes.push(*byte)?;
    }
    Ok(bytes)
}

// Bytes at consecutive addresses, on one line.
fn put_piece(out: &mut Vec<u8>, piece: &[(u64, u8)]) -> Result<(), NoMemory>
    ensures { OnOk result (out.new.items ≡ out.old.items ++ spec.mem_line piece.now) }
{
    let Some((first, _)) = piece.first() else {
        return Ok(());
    };
    let bytes = piece_bytes(out.allocator().clone()?, piece)?;
    put(out, b"mem ")?;
    put_hex(out, *first)?;
    put(out, b" ")?;
    put_hex_bytes(out, &bytes)?;
    put(out, b"\n")
}

// A run of bytes, a line for each piece.
fn put_run(out: &mut Vec<u8>, run: &[(u64, u8)]) -> Result<(), NoMemory>
    ensures { OnOk result (out.new.items ≡ out.old.items ++ spec.run_text run.now) }
{
    for piece in run.chunks(LINE_BYTES) {
        put_piece(out, piece)?;
    }
    Ok(())
}

// The bytes that changed, run by run.
fn put_changed(out: &mut Vec<u8>, changes: &[(u64, u8)]) -> Result<(), NoMemory>
    ensures { OnOk result (out.new.items ≡ out.old.items ++ spec.changed_text changes.now) }
{
    let mut rest = changes;
    while !rest.is_empty() {
        let (run, others) = rest.split_at(run_length(rest));
        put_run(out, run)?;
        rest = others;
    }
    Ok(())
}

// A call.
fn put_call(
    out: &mut Vec<u8>,
    sigs: &[Sig],
    table: &SigTable,
    call: &CallShown,
) -> Result<(), NoMemory>
    requires { Finds sigs.now table.now }
    ensures { OnOk result (out.new.items ≡ out.old.items ++ spec.call_text sigs.now call.now) }
{
    put(out, b"call ")?;
    put(out, call.callee.as_slice())?;
    put_words(
        out,
        params_of(table.sig(sigs, &call.callee)),
        call.args.as_slice(),
    )?;
    put(out, b"\n")?;
    put_changed(out, call.changed.as_slice())
}

// All calls, in order.
fn put_calls(
    out: &mut Vec<u8>,
    sigs: &[Sig],
    table: &SigTable,
    calls: &[CallShown],
) -> Result<(), NoMemory>
    requires { Finds sigs.now table.now }
    ensures { OnOk result (out.new.items ≡ out.old.items ++ flat_map (spec.call_text sigs.now) calls.now) }
{
    for call in calls {
        put_call(out, sigs, table, call)?;
    }
    Ok(())
}

// A return with these results.
fn put_returned(
    out: &mut Vec<u8>,
    results: &[Scalar],
    words: &[u64],
    changes: &[(u64, u8)],
) -> Result<(), NoMemory>
    ensures { OnOk result (out.new.items
        ≡ out.old.items ++ spec.end_text results.now (Returned words.now changes.now)) }
{
    put(out, b"returned")?;
    put_words(out, results, words)?;
    put(out, b"\n")?;
    put_changed(out, changes)
}

// A line, and the bytes that changed.
fn put_line_changed(out: &mut Vec<u8>, line: &[u8], changes: &[(u64, u8)]) -> Result<(), NoMemory>
    ensures { OnOk result (out.new.items ≡ out.old.items ++ (line.now ++ spec.changed_text changes.now)) }
{
    put(out, line)?;
    put_changed(out, changes)
}

// The end.
fn put_end(out: &mut Vec<u8>, results: &[Scalar], end: &End) -> Result<(), NoMemory>
    ensures { OnOk result (out.new.items ≡ out.old.items ++ spec.end_text results.now end.now) }
{
    match end {
        End::Returned(words, changes) => {
            put_returned(out, results, words.as_slice(), changes.as_slice())
        }
        End::Trapped(changes) => put_line_changed(out, b"trapped\n", changes.as_slice()),
        End::Exited(changes) => put_line_changed(out, b"exited\n", changes.as_slice()),
        End::NoReply => put(out, b"no reply\n"),
        End::Going => put(out, b"going\n"),
        End::Stuck => put(out, b"stuck\n"),
    }
}

// The line of a case.
fn put_case_line(out: &mut Vec<u8>, name: &Name, bound: u32) -> Result<(), NoMemory>
    ensures { OnOk result (out.new.items ≡ out.old.items ++ spec.case_line name.now bound) }
{
    put(out, b"case ")?;
    put(out, name.as_slice())?;
    put(out, b" ")?;
    put_number(out, u64::from(bound))?;
    put(out, b"\n")
}

// The types of a signature's parameters; none where there is no signature.
fn params_of(sig: Option<&Sig>) -> &[Scalar]
    ensures { result.now ≡ spec.params_of (option_copied sig.entry) }
{
    match sig {
        Some(sig) => sig.params.as_slice(),
        None => &[],
    }
}

// The types of a signature's results; none where there is no signature.
fn results_of(sig: Option<&Sig>) -> &[Scalar]
    ensures { result.now ≡ spec.results_of (option_copied sig.entry) }
{
    match sig {
        Some(sig) => sig.results.as_slice(),
        None => &[],
    }
}

/// Appends the text of what a function of this name showed with a bound, where the table finds these signatures.
pub(crate) fn put_shown(
    out: &mut Vec<u8>,
    name: &Name,
    bound: u32,
    sigs: &[Sig],
    table: &SigTable,
    shown: &Shown,
) -> Result<(), NoMemory>
    requires { Finds sigs.now table.now }
    ensures { OnOk result (out.new.items ≡ out.old.items ++ spec.shown_text name.now bound sigs.now shown.now) }
{
    put_case_line(out, name, bound)?;
    put_calls(out, sigs, table, shown.calls.as_slice())?;
    put_end(out, results_of(table.sig(sigs, name)), &shown.end)
}

/// The text of what a function of this name showed with a bound. A word prints as a value of its type, by the
/// signature of its callee or of the function among `sigs`: signed and unsigned numbers in decimal, pointers in
/// hexadecimal behind `0x`, bools by bit 0.
///
/// # Errors
///
/// Want of memory.
pub fn print_shown(
    alloc: Global,
    name: &Name,
    bound: u32,
    sigs: &Sigs,
    shown: &Shown,
) -> Result<Bytes, NoMemory>
    ensures { IfOk result (λ text. text ≡ spec.shown_text name.now bound sigs.now shown.now) }
{
    let table = SigTable::new(alloc, sigs.as_slice())?;
    let mut text = Vec::new(alloc);
    put_shown(&mut text, name, bound, sigs.as_slice(), &table, shown)?;
    Ok(Sequence::from_vec(text))
}
