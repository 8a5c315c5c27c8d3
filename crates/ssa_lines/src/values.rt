// The lines of values.

ghost use Rattle.std.specs.Prelude.{◌≡◌, ◌∷◌, codes, IfOk, IfSome, MatchOption, if◌then◌else◌, None, Some};
ghost use Rattle.std.specs.Prelude.{option_copied};
ghost use Rattle.ssa_ir.specs.Names.{IsName};
ghost use Rattle.ssa_ir.specs.Ops.{row_of};
ghost use Rattle.ssa_lines.specs.ValueForms as spec;
ghost use Rattle.ssa_lines.specs.Words.{opens};
ghost use Rattle.ssa_lines.specs.ValueForms.{extras_of, is_end};

use crate::forms::{Aux, Bracket, Spelled, ValueLine};
use crate::headers::is_name;
use crate::numbers::{Integer, Number, read_integer, read_number};
use crate::types::{read_scalar, read_type};
use crate::words::{Words, is_marked, is_same, without_first, without_last};
use gossa_base::{Name, NoMemory, ValueId};
use ssa_ir::{Args, AuxRule, Op, Scalar, Ty, Value, op_row};
use std::alloc::Global;

// What stands between the type and the arguments.
#[derive(Clone, Copy)]
struct Extras<'a> {
    bracket: Option<Bracket>,
    brace: Option<&'a [u8]>,
}

/// The value that the words of a line spell; none where they don't have the form of one.
///
/// # Errors
/// Only for want of memory.
pub fn read_value_line(alloc: Global, words: &mut Words) -> Result<Option<ValueLine>, NoMemory>
    ensures { IfOk result (λ line. line ≡ spec.value_line words.old) }
{
    let Some(first) = words.next() else {
        return Ok(None);
    };
    let Some(id) = read_number(b'v', first) else {
        return Ok(None);
    };
    if !takes_equals(words) {
        return Ok(None);
    }
    let Some(name) = words.next() else {
        return Ok(None);
    };
    read_behind(alloc, id, generic_named(name), words)
}

// Takes the words up to the `=` behind a value's number, of which one in parentheses is skipped.
fn takes_equals(words: &mut Words) -> bool
    ensures { spec.past (codes "=") (spec.behind_mark words.old) ≡ (if result then Some words.new else None) }
{
    let Some(word) = words.next() else {
        return false;
    };
    if !is_marked(word) {
        return is_same(word, b"=");
    }
    match words.next() {
        None => false,
        Some(word) => is_same(word, b"="),
    }
}

// The generic op of a name.
fn generic_named(name: &[u8]) -> Option<Op>
    ensures { result ≡ spec.generic_named name.now }
{
    let op = Op::named(name)?;
    if op.is_machine() { None } else { Some(op) }
}

// A value behind its number and its op: its type, brackets and braces, and arguments.
fn read_behind(
    alloc: Global,
    id: Number,
    op: Option<Op>,
    words: &mut Words,
) -> Result<Option<ValueLine>, NoMemory>
    ensures { IfOk result (λ line. line ≡ spec.value_behind id op words.old) }
{
    let Some(written) = words.next() else {
        return Ok(None);
    };
    let Some(inside) = between(b'<', b'>', written) else {
        return Ok(None);
    };
    let Some(ty) = read_type(alloc, is_tuple_op(op), inside)? else {
        return Ok(None);
    };
    let Some(extras) = read_extras(words) else {
        return Ok(None);
    };
    let Some(args) = read_args(alloc, words)? else {
        return Ok(None);
    };
    line_by_op(alloc, op, id, ty, &extras, args)
}

// A value's line with this op, or with an unknown one.
fn line_by_op(
    alloc: Global,
    op: Option<Op>,
    id: Number,
    ty: Ty,
    extras: &Extras,
    args: Spelled<Args>,
) -> Result<Option<ValueLine>, NoMemory>
    ensures { IfOk result (λ line. line ≡ spec.line_by_op op id ty
        (extras_of extras.now.bracket (option_copied extras.now.brace)) args) }
{
    let Some(op) = op else {
        return Ok(Some(ValueLine::UnknownOp));
    };
    let Some(aux) = read_aux(alloc, op, extras)? else {
        return Ok(None);
    };
    Ok(Some(value_of(id, op, ty, aux, args)))
}

// The value of these parts, or that one of them is too large.
fn value_of(id: Number, op: Op, ty: Ty, aux: Aux, args: Spelled<Args>) -> ValueLine
    ensures { result ≡ spec.value_of id op ty aux args }
{
    let (Integer::Word(number), Number::Fits(id), Spelled::Fits(args)) = (aux.number, id, args)
    else {
        return ValueLine::TooLarge;
    };
    ValueLine::Known(Value {
        id: ValueId(id),
        op,
        ty,
        aux: number.cast_signed(),
        sym: aux.sym,
        elem: aux.elem,
        args,
    })
}

// Whether `<mem>` is a tuple on a value with this op.
fn is_tuple_op(op: Option<Op>) -> bool
    ensures { result ≡ spec.tuple_op op }
{
    matches!(op, Some(Op::StaticLECall | Op::MakeResult))
}

// A word without these bytes at its ends.
fn between(first: u8, last: u8, word: &[u8]) -> Option<&[u8]>
    ensures { option_copied result ≡ spec.between first last word.now }
{
    without_first(first, without_last(last, word)?)
}

// The brackets and braces at the front of the words, each at most once, in either order.
fn read_extras<'a>(words: &mut Words<'a>) -> Option<Extras<'a>>
    ensures { MatchOption result (spec.extras_ahead words.old ≡ None) (λ e. spec.extras_ahead words.old
        ≡ Some (extras_of e.bracket (option_copied e.brace), words.new)) }
{
    if words.opens(b'[') {
        let bracket = read_bracket(words.next()?)?;
        return then_brace(bracket, words);
    }
    if words.opens(b'{') {
        let brace = between(b'{', b'}', words.next()?)?;
        return then_bracket(brace, words);
    }
    Some(Extras {
        bracket: None,
        brace: None,
    })
}

// Braces behind brackets.
fn then_brace<'a>(bracket: Bracket, words: &mut Words<'a>) -> Option<Extras<'a>>
    ensures { MatchOption result (spec.then_brace bracket (opens 123 words.old) words.old
        ≡ None) (λ e. spec.then_brace bracket (opens 123 words.old) words.old
        ≡ Some (extras_of e.bracket (option_copied e.brace), words.new)) }
{
    if !words.opens(b'{') {
        return Some(Extras {
            bracket: Some(bracket),
            brace: None,
        });
    }
    let brace = between(b'{', b'}', words.next()?)?;
    Some(Extras {
        bracket: Some(bracket),
        brace: Some(brace),
    })
}

// Brackets behind braces.
fn then_bracket<'a>(brace: &'a [u8], words: &mut Words<'a>) -> Option<Extras<'a>>
    ensures { MatchOption result (spec.then_bracket brace.now (opens 91 words.old) words.old
        ≡ None) (λ e. spec.then_bracket brace.now (opens 91 words.old) words.old
        ≡ Some (extras_of e.bracket (option_copied e.brace), words.new)) }
{
    if !words.opens(b'[') {
        return Some(Extras {
            bracket: None,
            brace: Some(brace),
        });
    }
    let bracket = read_bracket(words.next()?)?;
    Some(Extras {
        bracket: Some(bracket),
        brace: Some(brace),
    })
}

// What a word in brackets holds: `true`, `false` or an integer.
fn read_bracket(word: &[u8]) -> Option<Bracket>
    ensures { result ≡ spec.bracket_of word.now }
{
    let inside = between(b'[', b']', word)?;
    if is_same(inside, b"true") {
        return Some(Bracket::Truth(true));
    }
    if is_same(inside, b"false") {
        return Some(Bracket::Truth(false));
    }
    Some(Bracket::Number(read_integer(inside)?))
}

// The values that the words name, where nothing stands behind them but what is skipped.
fn read_args(alloc: Global, words: &mut Words) -> Result<Option<Spelled<Args>>, NoMemory>
    ensures { IfOk result (λ args. args ≡ spec.all_args words.old) }
{
    let mut args = Spelled::Fits(Args::new(alloc));
    while let Some(word) = words.next() {
        let Some(number) = read_number(b'v', word) else {
            let skipped = is_skipped(word, words);
            return Ok(if skipped { Some(args) } else { None });
        };
        args = with_arg(args, number)?;
    }
    Ok(Some(args))
}

// One more argument, the last.
fn with_arg(args: Spelled<Args>, number: Number) -> Result<Spelled<Args>, NoMemory>
    ensures { IfOk result (λ more. more ≡ spec.with_arg args number) }
{
    let (Spelled::Fits(mut args), Number::Fits(n)) = (args, number) else {
        return Ok(Spelled::TooLarge);
    };
    args.push(ValueId(n))?;
    Ok(Spelled::Fits(args))
}

// Whether what begins with this word and goes on with the words left begins and ends with a parenthesis.
fn is_skipped(first: &[u8], words: &mut Words) -> bool
    ensures { result ≡ is_end (first.now ∷ words.old) }
{
    let mut last = first;
    while let Some(word) = words.next() {
        last = word;
    }
    without_first(b'(', first).is_some() && without_last(b')', last).is_some()
}

// What a value of this op has, where its brackets and braces are those of the op's row.
fn read_aux(alloc: Global, op: Op, extras: &Extras) -> Result<Option<Aux>, NoMemory>
    ensures { IfOk result (λ aux. aux ≡ spec.aux_by op (row_of op).aux
        (extras_of extras.now.bracket (option_copied extras.now.brace))) }
{
    match op_row(op).aux {
        AuxRule::Int => Ok(number_aux(op, extras)),
        AuxRule::Bool => Ok(truth_aux(extras)),
        AuxRule::Sym => name_aux(alloc, op, extras),
        AuxRule::Elem => Ok(elem_aux(extras)),
        AuxRule::Dropped => Ok(mark_aux(extras)),
        AuxRule::Nothing => Ok(no_aux(extras)),
    }
}

// What has a number alone.
fn only_number(number: Integer) -> Aux
    ensures { result ≡ spec.only_number number }
{
    Aux {
        number,
        sym: None,
        elem: None,
    }
}

// A number in brackets, and no braces but on an Arg, where they are dropped.
fn number_aux(op: Op, extras: &Extras) -> Option<Aux>
    ensures { result ≡ spec.aux_of_number op extras.now.bracket (option_copied extras.now.brace) }
{
    let Some(Bracket::Number(number)) = extras.bracket else {
        return None;
    };
    if extras.brace.is_none() || is_arg(op) {
        Some(only_number(number))
    } else {
        None
    }
}

fn is_arg(op: Op) -> bool
    ensures { result ≡ spec.is_arg op }
{
    matches!(op, Op::Arg)
}

fn is_static_call(op: Op) -> bool
    ensures { result ≡ spec.is_static_call op }
{
    matches!(op, Op::StaticLECall)
}

// `true` or `false` in brackets, and no braces.
fn truth_aux(extras: &Extras) -> Option<Aux>
    ensures { result ≡ spec.aux_of_truth extras.now.bracket (option_copied extras.now.brace) }
{
    match (extras.bracket, extras.brace) {
        (Some(Bracket::Truth(truth)), None) => Some(only_number(Integer::Word(u64::from(truth)))),
        _ => None,
    }
}

// A name in braces, and no brackets but those of a call.
fn name_aux(alloc: Global, op: Op, extras: &Extras) -> Result<Option<Aux>, NoMemory>
    ensures { IfOk result (λ aux. aux ≡ spec.aux_of_name op extras.now.bracket (option_copied extras.now.brace)) }
{
    let Some(inside) = extras.brace else {
        return Ok(None);
    };
    let Some(number) = call_number(op, extras.bracket) else {
        return Ok(None);
    };
    let Some(name) = name_inside(inside) else {
        return Ok(None);
    };
    Ok(Some(Aux {
        number,
        sym: Some(Name::from_slice(alloc, name)?),
        elem: None,
    }))
}

// The integer of a call, in brackets or absent, which is dropped; no other op has brackets beside a name.
fn call_number(op: Op, bracket: Option<Bracket>) -> Option<Integer>
    ensures { result ≡ spec.call_number op bracket }
{
    match bracket {
        None => Some(Integer::Word(0)),
        Some(Bracket::Number(number)) if is_static_call(op) => Some(dropped(number)),
        Some(_) => None,
    }
}

// An integer that is read and dropped, which counts only where it is too large.
fn dropped(number: Integer) -> Integer
    ensures { result ≡ spec.dropped number }
{
    match number {
        Integer::Word(_) => Integer::Word(0),
        Integer::TooLarge => Integer::TooLarge,
    }
}

// The name inside braces, as `NAME` or `AuxCall{NAME}`.
fn name_inside(inside: &[u8]) -> Option<&[u8]>
    ensures value { option_copied result ≡ spec.name_inside inside.now }
    ensures form { IfSome result (λ name. IsName name.now) }
{
    match inside.strip_prefix(b"AuxCall{") {
        None => checked_name(inside),
        Some(call) => checked_name(without_last(b'}', call)?),
    }
}

// A word that is a name.
fn checked_name(word: &[u8]) -> Option<&[u8]>
    ensures value { option_copied result ≡ spec.checked_name word.now }
    ensures form { IfSome result (λ name. IsName name.now) }
{
    if is_name(word) { Some(word) } else { None }
}

// A type in braces, and no brackets.
fn elem_aux(extras: &Extras) -> Option<Aux>
    ensures { result ≡ spec.aux_of_elem extras.now.bracket (option_copied extras.now.brace) }
{
    let (None, Some(inside)) = (extras.bracket, extras.brace) else {
        return None;
    };
    Some(Aux {
        number: Integer::Word(0),
        sym: None,
        elem: Some(read_scalar(inside)?),
    })
}

// `true` or `false` in brackets, which is dropped, or nothing.
fn mark_aux(extras: &Extras) -> Option<Aux>
    ensures { result ≡ spec.aux_of_mark extras.now.bracket (option_copied extras.now.brace) }
{
    match (extras.bracket, extras.brace) {
        (None | Some(Bracket::Truth(_)), None) => Some(only_number(Integer::Word(0))),
        _ => None,
    }
}

// Neither brackets nor braces.
fn no_aux(extras: &Extras) -> Option<Aux>
    ensures { result ≡ spec.aux_of_none extras.now.bracket (option_copied extras.now.brace) }
{
    match (extras.bracket, extras.brace) {
        (None, None) => Some(only_number(Integer::Word(0))),
        _ => None,
    }
}
