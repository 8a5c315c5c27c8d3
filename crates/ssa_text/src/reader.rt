// Reading a unit line by line.

ghost use Rattle.std.specs.Prelude.{◌≡◌, ◌++◌, map, IfOk, false, true};
ghost use Rattle.std.specs.Option.{option_or};
ghost use Rattle.ssa_text.specs.Reading as spec;
ghost use Rattle.ssa_text.specs.Reading.{nothing, fault_of_form, behind, unit_or_unknown};
ghost use Rattle.ssa_text.specs.UnitReading as unit;
ghost use Rattle.ssa_lines.specs.ReadsAs.{ReadsAs};

use crate::gathered::{Gathered, same_name};
use crate::partial::{OpenFunc, put_whole};
use case_text::CasePart;
use gossa_base::{Name, NoMemory, Sequence};
use ssa_ir::limits::{
    MAX_ARGS, MAX_BLOCKS, MAX_FUNCTIONS, MAX_PARAMS, MAX_RESULTS, MAX_SIGS, MAX_VALUES,
};
use ssa_ir::{Func, Sig, SsaUnit, Ty, Value};
use ssa_lines::{Form, LimitKind, NameSet, NumberSet, Spelled, TextFault, TextRefusal, ValueLine};
use std::alloc::Global;
use std::marker::Model;

/// What was read of a text so far.
#[derive(Drop)]
pub(crate) struct Reader {
    gathered: Gathered,
}

impl Model for Reader {
    ghost use Rattle.ssa_text.specs.Reading.{Read};
    ghost use Rattle.ssa_text.specs.tables.Gathering.{read_so_far, IsGathered};

    ghost Value = { Read };

    ghost view = { λ r. read_so_far r.gathered };

    ghost invariant = { λ r. IsGathered r.gathered };
}

impl Reader {
    /// Before the first line.
    pub(crate) fn new(alloc: Global) -> Reader
        ensures { result ≡ nothing }
    {
        Reader {
            gathered: Gathered {
                sigs: Sequence::new(alloc),
                funcs: Sequence::new(alloc),
                func: None,
                mentions: Sequence::new(alloc),
                unknown: None,
                names: NameSet::new(alloc),
                blocks: NumberSet::new(alloc),
                values: NumberSet::new(alloc),
            },
        }
    }

    /// What is wrong with a line of this form, the first of all that is.
    pub(crate) fn fault(&self, line: u32, last: bool, form: &Form) -> Option<TextFault>
        ensures { result ≡ fault_of_form self.now line last form.now }
    {
        if !self.is_in_place(form) || (last && self.leaves_open(form)) {
            return Some(TextFault::BadLine(line));
        }
        if is_unknown(form) {
            return Some(TextFault::UnknownOp(line));
        }
        if is_too_large(form) {
            return Some(TextFault::NumberTooLarge(line));
        }
        if self.is_twice(form) {
            return Some(TextFault::Duplicate(line));
        }
        let kind = self.limit_passed(form)?;
        Some(TextFault::Limit(kind, line))
    }

    // Whether a line of this form may stand here.
    fn is_in_place(&self, form: &Form) -> bool
        ensures { result ≡ spec.in_place self.now form.now }
    {
        match form {
            Form::Blank => true,
            Form::Sig(_) => self.gathered.func.is_none(),
            Form::Func(_) | Form::Case => !has_open_block(&self.gathered.func),
            Form::Block(_) => self.gathered.func.is_some() && !has_open_block(&self.gathered.func),
            Form::Value(_) | Form::Control(_) => has_open_block(&self.gathered.func),
            Form::Bad => false,
        }
    }

    // Whether a block goes on behind a line of this form.
    fn leaves_open(&self, form: &Form) -> bool
        ensures { result ≡ spec.leaves_open self.now form.now }
    {
        match form {
            Form::Block(_) => true,
            Form::Control(_) => false,
            Form::Blank | Form::Sig(_) | Form::Func(_) | Form::Value(_) | Form::Case | Form::Bad =>
                has_open_block(&self.gathered.func),
        }
    }

    // Whether a line gives a name or a number that is given already.
    fn is_twice(&self, form: &Form) -> bool
        ensures { result ≡ spec.is_twice self.now form.now }
    {
        match form {
            Form::Sig(sig) | Form::Func(sig) => self.gathered.names.contains(&sig.name),
            Form::Block(Spelled::Fits(block)) => self.gathered.has_block(block.n),
            Form::Value(ValueLine::Known(value)) => self.gathered.has_value(value.id.0),
            _ => false,
        }
    }

    // The first limit that a line of this form passes.
    fn limit_passed(&self, form: &Form) -> Option<LimitKind>
        ensures { result ≡ spec.limit_passed self.now form.now }
    {
        match form {
            Form::Sig(sig) => full(MAX_SIGS, self.gathered.sigs.len(), LimitKind::Sigs).or(
                sig_limit(sig),
            ),
            Form::Func(sig) => {
                full(MAX_FUNCTIONS, self.func_count(), LimitKind::Functions).or(sig_limit(sig))
            }
            Form::Block(Spelled::Fits(block)) => full(
                MAX_BLOCKS,
                self.gathered.blocks.len(),
                LimitKind::Blocks,
            ).or(over(MAX_ARGS, block.preds.len(), LimitKind::Args)),
            Form::Value(ValueLine::Known(value)) => {
                full(MAX_VALUES, self.gathered.values.len(), LimitKind::Values).or(value_limit(
                    value,
                ))
            }
            _ => None,
        }
    }

    // How many functions there are, with the one that goes on.
    fn func_count(&self) -> usize
        ensures { result ≡ spec.func_count self.now }
    {
        self.gathered.funcs.as_slice().len() + usize::from(self.gathered.func.is_some())
    }

    /// What is read behind a line of this form, which has no fault.
    pub(crate) fn take(self, alloc: Global, line: u32, form: Form) -> Result<Reader, NoMemory>
        requires place { spec.in_place self form ≡ true }
        requires once { spec.is_twice self form ≡ false }
        ensures { IfOk result (λ next. next ≡ behind self line form) }
    {
        let mut gathered = self.gathered;
        gathered.take(alloc, line, form)?;
        Ok(Reader { gathered })
    }

    /// The names of the functions that were read.
    pub(crate) fn function_names(&self, alloc: Global) -> Result<Sequence<Name>, NoMemory>
        ensures { IfOk result (λ names. names ≡ unit.function_names self.now) }
    {
        let names = whole_names(alloc, self.gathered.funcs.as_slice())?;
        with_open_name(names, &self.gathered.func)
    }

    /// The unit that was read, with these cases, where all that is named is there.
    pub(crate) fn finish(self, part: CasePart) -> Result<SsaUnit, TextRefusal>
        requires { spec.has_open_block self.func ≡ false }
        ensures { ReadsAs result (unit_or_unknown
            (record { sigs = self.sigs; funcs = spec.with_whole self.funcs self.func; cases = part.cases })
            (option_or (spec.unknown_line self) part.unknown)) }
    {
        let mut gathered = self.gathered;
        if let Some(line) = gathered.unknown_line().or(part.unknown) {
            return Err(TextRefusal::from(TextFault::UnknownRef(line)));
        }
        put_whole(&mut gathered.funcs, gathered.func.take())?;
        Ok(SsaUnit {
            sigs: gathered.sigs,
            funcs: gathered.funcs,
            cases: part.cases,
        })
    }
}

// The names of whole functions.
fn whole_names(alloc: Global, funcs: &[Func]) -> Result<Sequence<Name>, NoMemory>
    ensures { IfOk result (λ names. names ≡ map (λ f. f.sig.name) funcs.now) }
{
    let mut names = Sequence::new(alloc);
    for func in funcs {
        names.push(same_name(&func.sig.name)?)?;
    }
    Ok(names)
}

// The names with that of the function that goes on, if any.
fn with_open_name(
    names: Sequence<Name>,
    func: &Option<OpenFunc>,
) -> Result<Sequence<Name>, NoMemory>
    ensures { IfOk result (λ all. all ≡ names ++ spec.open_name func.now) }
{
    let mut names = names;
    if let Some(func) = func {
        names.push(same_name(&func.sig.name)?)?;
    }
    Ok(names)
}

fn has_open_block(func: &Option<OpenFunc>) -> bool
    ensures { result ≡ spec.has_open_block func.now }
{
    match func {
        None => false,
        Some(func) => func.block.is_some(),
    }
}

fn is_unknown(form: &Form) -> bool
    ensures { result ≡ spec.is_unknown form.now }
{
    matches!(form, Form::Value(ValueLine::UnknownOp))
}

// Whether a number of the line is too large.
fn is_too_large(form: &Form) -> bool
    ensures { result ≡ spec.is_too_large form.now }
{
    matches!(
        form,
        Form::Block(Spelled::TooLarge)
            | Form::Control(Spelled::TooLarge)
            | Form::Value(ValueLine::TooLarge)
    )
}

// A limit that is reached, so that one more passes it.
fn full(limit: usize, count: usize, kind: LimitKind) -> Option<LimitKind>
    ensures { result ≡ spec.full limit count kind }
{
    if limit <= count { Some(kind) } else { None }
}

// A limit that a count is above.
fn over(limit: usize, count: usize, kind: LimitKind) -> Option<LimitKind>
    ensures { result ≡ spec.over limit count kind }
{
    if limit < count { Some(kind) } else { None }
}

// The first limit that a signature passes.
fn sig_limit(sig: &Sig) -> Option<LimitKind>
    ensures { result ≡ spec.sig_limit sig.now }
{
    over(MAX_PARAMS, sig.params.len(), LimitKind::Params).or(over(
        MAX_RESULTS,
        sig.results.len(),
        LimitKind::Results,
    ))
}

// The first limit that a value passes by itself.
fn value_limit(value: &Value) -> Option<LimitKind>
    ensures { result ≡ spec.value_limit value.now }
{
    over(MAX_RESULTS, tuple_words(&value.ty), LimitKind::Results).or(over(
        MAX_ARGS,
        value.args.as_slice().len(),
        LimitKind::Args,
    ))
}

// How many types a tuple has before its memory.
fn tuple_words(ty: &Ty) -> usize
    ensures { result ≡ spec.tuple_length ty.now }
{
    match ty {
        Ty::Tuple(types) => types.len(),
        Ty::One(_) | Ty::Mem | Ty::Flags | Ty::Void => 0,
    }
}
