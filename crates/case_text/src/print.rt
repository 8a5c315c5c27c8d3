// The canonical text of cases.

ghost use Rattle.std.specs.Prelude.{◌≡◌, List, ◌++◌, map, OnOk, IfOk};
ghost use Rattle.std.specs.List.{flat_map};
ghost use Rattle.case_text.specs.CaseText.{words_line, args_text, symbol_line, piece_line, rows_of, word_text};
ghost use Rattle.case_text.specs.CaseText.{junk_text, reply_text, inputs_text, case_head, case_text, cases_text};
ghost use Rattle.case_text.specs.CaseText.{name_at};

use gossa_base::{Bytes, Name, NoMemory, Print, Sequence, put, put_hex, put_hex_bytes, put_number};
use ssa_ir::{Case, Cases, Junk, Piece, Reply, Sig, Sigs};
use std::alloc::Global;

// How many junk words stand on a line at most.
const ROW_WORDS: usize = 16;

/// The canonical text of cases of the functions with these signatures, each line ended by LF.
///
/// A function's number that isn't there has no name, and a piece of memory without bytes no digits; the fixed words
/// around them stay.
///
/// # Errors
/// Only for want of memory.
pub fn print_cases(alloc: Global, cases: &Cases, funcs: &Sigs) -> Result<Bytes, NoMemory>
    ensures { IfOk result (λ text. text ≡ cases_text (map (λ s. s.name) funcs.now) cases.now) }
{
    let mut text = Vec::new(alloc);
    for case in cases.as_slice() {
        print_case(&mut text, sig_name(funcs.as_slice(), case), case)?;
    }
    Ok(Sequence::from_vec(text))
}

// The name of a case's function; one that isn't there has the empty name.
fn sig_name<'a>(funcs: &'a [Sig], case: &Case) -> &'a [u8]
    ensures { result.now ≡ name_at (map (λ s. s.name) funcs.now) case.now.func }
{
    match funcs.get(case.func as usize) {
        None => &[],
        Some(sig) => sig.name.as_slice(),
    }
}

/// A case of the function of this name.
pub fn print_case(text: &mut Vec<u8>, name: &[u8], case: &Case) -> Result<(), NoMemory>
    ensures { OnOk result (text.new.items ≡ text.old.items ++ case_text name.now case.now) }
{
    print_case_head(text, name, case)?;
    print_inputs(text, case)?;
    print_replies(text, case.replies.as_slice())
}

// The first line of a case: the function's name, and its bound.
fn print_case_head(text: &mut Vec<u8>, name: &[u8], case: &Case) -> Result<(), NoMemory>
    ensures { OnOk result (text.new.items ≡ text.old.items ++ case_head name.now case.now) }
{
    put(text, b"case ")?;
    put(text, name)?;
    put(text, b" ")?;
    put_number(text, u64::from(case.bound))?;
    put(text, b"\n")
}

// What a case gives beside replies.
fn print_inputs(text: &mut Vec<u8>, case: &Case) -> Result<(), NoMemory>
    ensures { OnOk result (text.new.items ≡ text.old.items ++ inputs_text case.now) }
{
    print_args(text, case.args.as_slice())?;
    print_symbols(text, case.syms.as_slice())?;
    print_pieces(text, b"mem", case.mem.as_slice())?;
    print_junk(text, b"junk", b"fill", &case.junk)
}

// The parameters' words, on a line that is absent where there are none.
fn print_args(text: &mut Vec<u8>, words: &[u64]) -> Result<(), NoMemory>
    ensures { OnOk result (text.new.items ≡ text.old.items ++ args_text words.now) }
{
    if words.is_empty() {
        return Ok(());
    }
    print_words(text, b"args", words)
}

// A line of words behind a keyword.
fn print_words(text: &mut Vec<u8>, keyword: &[u8], words: &[u64]) -> Result<(), NoMemory>
    ensures { OnOk result (text.new.items ≡ text.old.items ++ words_line keyword.now words.now) }
{
    put(text, keyword)?;
    for word in words {
        put(text, b" ")?;
        put_hex(text, *word)?;
    }
    put(text, b"\n")
}

// The addresses of symbols.
fn print_symbols(text: &mut Vec<u8>, symbols: &[(Name, u64)]) -> Result<(), NoMemory>
    ensures { OnOk result (text.new.items ≡ text.old.items ++ flat_map symbol_line symbols.now) }
{
    for (name, word) in symbols {
        put(text, b"sym ")?;
        name.print(text)?;
        put(text, b" ")?;
        put_hex(text, *word)?;
        put(text, b"\n")?;
    }
    Ok(())
}

// Pieces of memory, each behind a keyword.
fn print_pieces(text: &mut Vec<u8>, keyword: &[u8], pieces: &[Piece]) -> Result<(), NoMemory>
    ensures { OnOk result (text.new.items ≡ text.old.items ++ flat_map (piece_line keyword.now) pieces.now) }
{
    for piece in pieces {
        put(text, keyword)?;
        put(text, b" ")?;
        put_hex(text, piece.addr)?;
        put(text, b" ")?;
        put_hex_bytes(text, piece.bytes.as_slice())?;
        put(text, b"\n")?;
    }
    Ok(())
}

// A list of junk words behind one keyword, and its fill behind another.
fn print_junk(text: &mut Vec<u8>, keyword: &[u8], fill: &[u8], junk: &Junk) -> Result<(), NoMemory>
    ensures { OnOk result (text.new.items ≡ text.old.items ++ junk_text keyword.now fill.now junk.now) }
{
    print_rows(text, keyword, junk.words.as_slice())?;
    print_word(text, fill, junk.fill)
}

// Words in rows of 16, each behind the keyword.
fn print_rows(text: &mut Vec<u8>, keyword: &[u8], words: &[u64]) -> Result<(), NoMemory>
    ensures { OnOk result (text.new.items ≡ text.old.items ++ flat_map (words_line keyword.now) (rows_of words.now)) }
{
    for row in words.chunks(ROW_WORDS) {
        print_words(text, keyword, row)?;
    }
    Ok(())
}

// A word behind a keyword, on a line that is absent where the word is 0.
fn print_word(text: &mut Vec<u8>, keyword: &[u8], word: u64) -> Result<(), NoMemory>
    ensures { OnOk result (text.new.items ≡ text.old.items ++ word_text keyword.now word) }
{
    if word == 0 {
        return Ok(());
    }
    put(text, keyword)?;
    put(text, b" ")?;
    put_hex(text, word)?;
    put(text, b"\n")
}

// The replies to calls, in order.
fn print_replies(text: &mut Vec<u8>, replies: &[Reply]) -> Result<(), NoMemory>
    ensures { OnOk result (text.new.items ≡ text.old.items ++ flat_map reply_text replies.now) }
{
    for reply in replies {
        print_words(text, b"reply", reply.words.as_slice())?;
        print_pieces(text, b"write", reply.writes.as_slice())?;
        print_junk(text, b"rjunk", b"rfill", &reply.junk)?;
        print_word(text, b"clobber", reply.clobber)?;
    }
    Ok(())
}
