// Reading cases line by line.

ghost use Rattle.std.specs.Prelude.{◌≡◌, ◌<◌, ◌+◌, ◌^◌, true, false, length, [], ◌∷◌, ◌++◌, None, IfOk, OnOk};
ghost use Rattle.std.specs.List.{list_any};
ghost use Rattle.ssa_lines.specs.Limits as limits;
ghost use Rattle.ssa_lines.specs.Words.{is_same};
ghost use Rattle.ssa_lines.specs.declared.forms.Spelled.TheVariants.{Fits};
ghost use Rattle.ssa_lines.specs.declared.refusal.LimitKind.TheVariants.{JunkWords};
ghost use Rattle.case_text.specs.declared.forms.CaseForm.TheVariants.{Head as HeadForm, Sym as SymForm, Mem as MemForm};
ghost use Rattle.case_text.specs.declared.forms.CaseForm.TheVariants.{Write as WriteForm};
ghost use Rattle.case_text.specs.CaseReading as spec;
ghost use Rattle.case_text.specs.CaseReading.{no_cases, fault_of_form, behind, changed, in_reply, give_args, give_sym};
ghost use Rattle.case_text.specs.CaseReading.{give_mem, give_junk, give_fill, give_write, give_reply_junk};
ghost use Rattle.case_text.specs.CaseReading.{give_reply_fill, give_clobber};
ghost use Rattle.ssa_ir.specs.declared.limits.TheConstants.{MAX_JUNK_WORDS};

use crate::forms::{CaseForm, CaseHead, SymLine};
use crate::partial::{
    OpenCase, begin_case, with_args, with_case, with_clobber, with_fill, with_junk, with_mem,
    with_reply_begun, with_reply_fill, with_reply_junk, with_sym, with_write,
};
use crate::read::CasePart;
use gossa_base::{Name, NoMemory, Sequence};
use ssa_ir::limits::{
    MAX_BOUND, MAX_CASE_BYTES, MAX_CASES, MAX_JUNK_WORDS, MAX_PIECE_BYTES, MAX_REPLIES,
};
use ssa_ir::{Cases, Piece, Words};
use ssa_lines::{LimitKind, NameSet, Spelled, TextFault};
use std::alloc::Global;
use std::marker::Model;

/// What was read of cases so far, with a table of the symbols of the case that goes on, and how many bytes of memory
/// it gives.
#[derive(Drop)]
pub(crate) struct CaseReader {
    cases: Cases,
    current: Option<OpenCase>,
    unknown: Option<u32>,
    symbols: NameSet,
    bytes: usize,
}

impl Model for CaseReader {
    ghost use Rattle.std.specs.Prelude.{◌≡◌, ◌≤◌, map};
    ghost use Rattle.case_text.specs.CaseReading as reading;
    ghost use Rattle.case_text.specs.CaseReading.{CasesRead, cases_read, bytes_given};
    ghost use Rattle.ssa_ir.specs.declared.limits.TheConstants.{MAX_CASE_BYTES};

    ghost Value = { CasesRead };

    ghost view = { λ r. cases_read r.cases r.current r.unknown };

    ghost invariant = { λ r.
        (r.symbols ≡ map (λ s. s.0) (reading.symbols r.current))
        × (r.bytes ≡ bytes_given r.current)
        × (r.bytes ≤ MAX_CASE_BYTES) };
}

impl CaseReader {
    /// Before the first line.
    pub(crate) fn new(alloc: Global) -> CaseReader
        ensures { result ≡ no_cases }
    {
        CaseReader {
            cases: Sequence::new(alloc),
            current: None,
            unknown: None,
            symbols: NameSet::new(alloc),
            bytes: 0,
        }
    }

    /// What is wrong with a line of this form, the first of all that is.
    pub(crate) fn fault(&self, line: u32, form: &CaseForm) -> Option<TextFault>
        ensures { result ≡ fault_of_form self.now line form.now }
    {
        if !self.is_in_place(form) {
            return Some(TextFault::BadLine(line));
        }
        if is_too_large(form) {
            return Some(TextFault::NumberTooLarge(line));
        }
        if self.is_twice(form) {
            return Some(TextFault::Duplicate(line));
        }
        let kind = self.limit_passed(form)?;
        Some(TextFault::Limit(kind, line))
    }

    // Whether a line of this form may stand here.
    fn is_in_place(&self, form: &CaseForm) -> bool
        ensures { result ≡ spec.in_place self.now form.now }
    {
        match form {
            CaseForm::Blank | CaseForm::Head(_) => true,
            CaseForm::Args(_)
            | CaseForm::Sym(_)
            | CaseForm::Mem(_)
            | CaseForm::Junk(_)
            | CaseForm::Fill(_)
            | CaseForm::Reply(_) => self.current.is_some(),
            CaseForm::Write(_)
            | CaseForm::ReplyJunk(_)
            | CaseForm::ReplyFill(_)
            | CaseForm::Clobber(_) => has_reply(&self.current),
            CaseForm::Bad => false,
        }
    }

    // Whether a line is one that stands once, and stood already.
    fn is_twice(&self, form: &CaseForm) -> bool
        ensures { result ≡ spec.is_twice self.now form.now }
    {
        match form {
            CaseForm::Args(_) => has_args(&self.current),
            CaseForm::Sym(Spelled::Fits(sym)) => self.has_symbol(&sym.name),
            CaseForm::Fill(_) => has_fill(&self.current),
            CaseForm::ReplyFill(_) => has_reply_fill(&self.current),
            CaseForm::Clobber(_) => has_clobber(&self.current),
            _ => false,
        }
    }

    // Whether the case that goes on gives the address of a symbol of this name.
    fn has_symbol(&self, name: &Name) -> bool
        ensures { result ≡ list_any (λ t. is_same t.0 name.now) (spec.symbols self.now.current) }
    {
        self.symbols.contains(name)
    }

    // The first limit that a line of this form passes.
    fn limit_passed(&self, form: &CaseForm) -> Option<LimitKind>
        ensures { result ≡ spec.limit_passed self.now form.now }
    {
        match form {
            CaseForm::Head(Spelled::Fits(head)) => {
                full(MAX_CASES, self.case_count(), LimitKind::Cases).or(over(
                    MAX_BOUND,
                    head.bound,
                    LimitKind::Bound,
                ))
            }
            CaseForm::Reply(Spelled::Fits(_)) => {
                full(MAX_REPLIES, self.reply_count(), LimitKind::Replies)
            }
            CaseForm::Mem(Spelled::Fits(piece)) | CaseForm::Write(Spelled::Fits(piece)) => {
                self.memory_limit(piece)
            }
            CaseForm::Junk(Spelled::Fits(words)) => junk_limit(self.junk_words(), words.as_slice()),
            CaseForm::ReplyJunk(Spelled::Fits(words)) => {
                junk_limit(self.reply_junk_words(), words.as_slice())
            }
            _ => None,
        }
    }

    // How many cases there are, with the one that goes on.
    fn case_count(&self) -> usize
        ensures { result ≡ length (spec.with_case self.now.cases self.now.current) }
    {
        self.cases.as_slice().len() + usize::from(self.current.is_some())
    }

    // How many replies the case that goes on has, with the one that goes on.
    fn reply_count(&self) -> usize
        ensures { result ≡ length (spec.replies_of self.now.current) }
    {
        match &self.current {
            None => 0,
            Some(case) => case.replies.as_slice().len() + usize::from(case.reply.is_some()),
        }
    }

    // The first limit that a piece of memory passes.
    fn memory_limit(&self, piece: &Piece) -> Option<LimitKind>
        ensures { result ≡ spec.memory_limit self.now piece.now }
    {
        let count = piece.bytes.as_slice().len();
        over(MAX_PIECE_BYTES as u64, count as u64, LimitKind::MemBytes).or(over(
            MAX_CASE_BYTES as u64,
            (self.bytes + count) as u64,
            LimitKind::MemBytes,
        ))
    }

    // The junk words that the case that goes on gives so far.
    fn junk_words(&self) -> &[u64]
        ensures { result.now ≡ spec.junk_given self.now.current }
    {
        match &self.current {
            None => &[],
            Some(case) => case.junk.words.as_slice(),
        }
    }

    // The junk words that the last reply of the case that goes on gives so far.
    fn reply_junk_words(&self) -> &[u64]
        ensures { result.now ≡ spec.reply_junk_given (spec.reply_of self.now.current) }
    {
        match &self.current {
            None => &[],
            Some(case) => match &case.reply {
                None => &[],
                Some(reply) => reply.junk.words.as_slice(),
            },
        }
    }

    /// What is read behind a line of this form, which has no fault, among functions of these names.
    pub(crate) fn take(
        self,
        alloc: Global,
        names: &[Name],
        line: u32,
        form: CaseForm,
    ) -> Result<CaseReader, NoMemory>
        requires few { length names.now < 2 ^ 32 }
        requires place { spec.in_place self form ≡ true }
        requires once { spec.is_twice self form ≡ false }
        requires within { spec.limit_passed self form ≡ None }
        ensures { IfOk result (λ next. next ≡ behind names.now self line form) }
    {
        match form {
            CaseForm::Head(Spelled::Fits(head)) => self.take_head(alloc, names, line, head),
            CaseForm::Args(Spelled::Fits(words)) => Ok(self.take_args(words)),
            CaseForm::Sym(Spelled::Fits(sym)) => self.take_sym(sym),
            CaseForm::Mem(Spelled::Fits(piece)) => self.take_mem(piece),
            CaseForm::Junk(Spelled::Fits(words)) => self.take_junk(&words),
            CaseForm::Fill(Spelled::Fits(word)) => Ok(self.take_fill(word)),
            CaseForm::Reply(Spelled::Fits(words)) => self.take_reply(alloc, words),
            CaseForm::Write(Spelled::Fits(piece)) => self.take_write(piece),
            CaseForm::ReplyJunk(Spelled::Fits(words)) => self.take_reply_junk(&words),
            CaseForm::ReplyFill(Spelled::Fits(word)) => Ok(self.take_reply_fill(word)),
            CaseForm::Clobber(Spelled::Fits(word)) => Ok(self.take_clobber(word)),
            _ => Ok(self),
        }
    }

    // The beginning of a case.
    fn take_head(
        self,
        alloc: Global,
        names: &[Name],
        line: u32,
        head: CaseHead,
    ) -> Result<CaseReader, NoMemory>
        requires few { length names.now < 2 ^ 32 }
        requires within { spec.limit_passed self (HeadForm (Fits head)) ≡ None }
        ensures { IfOk result (λ next. next ≡ spec.head_behind names.now self line head) }
    {
        let func = function_of(names, &head.name);
        Ok(CaseReader {
            cases: with_case(self.cases, self.current)?,
            current: Some(begin_case(alloc, func, &head)),
            unknown: self.unknown.or(absent_at(line, func)),
            symbols: NameSet::new(alloc),
            bytes: 0,
        })
    }

    // The parameters' words.
    fn take_args(self, words: Words) -> CaseReader
        ensures { result ≡ changed self (give_args words) }
    {
        let mut reader = self;
        reader.current = with_args(reader.current, words);
        reader
    }

    // The address of a symbol.
    fn take_sym(self, sym: SymLine) -> Result<CaseReader, NoMemory>
        requires place { spec.in_place self (SymForm (Fits sym)) ≡ true }
        requires once { spec.is_twice self (SymForm (Fits sym)) ≡ false }
        ensures { IfOk result (λ next. next ≡ changed self (give_sym sym)) }
    {
        let mut reader = self;
        put_name(&mut reader.symbols, &sym.name)?;
        reader.current = with_sym(reader.current, sym)?;
        Ok(reader)
    }

    // Bytes of memory.
    fn take_mem(self, piece: Piece) -> Result<CaseReader, NoMemory>
        requires place { spec.in_place self (MemForm (Fits piece)) ≡ true }
        requires within { spec.limit_passed self (MemForm (Fits piece)) ≡ None }
        ensures { IfOk result (λ next. next ≡ changed self (give_mem piece)) }
    {
        let mut reader = self;
        reader.bytes += piece.bytes.as_slice().len();
        reader.current = with_mem(reader.current, piece)?;
        Ok(reader)
    }

    // Junk words.
    fn take_junk(self, words: &Words) -> Result<CaseReader, NoMemory>
        ensures { IfOk result (λ next. next ≡ changed self (give_junk words.now)) }
    {
        let mut reader = self;
        reader.current = with_junk(reader.current, words)?;
        Ok(reader)
    }

    // What the junk goes on with.
    fn take_fill(self, word: u64) -> CaseReader
        ensures { result ≡ changed self (give_fill word) }
    {
        let mut reader = self;
        reader.current = with_fill(reader.current, word);
        reader
    }

    // The beginning of a reply.
    fn take_reply(self, alloc: Global, words: Words) -> Result<CaseReader, NoMemory>
        ensures { IfOk result (λ next. next ≡ changed self (spec.begin_reply words)) }
    {
        let mut reader = self;
        reader.current = with_reply_begun(alloc, reader.current, words)?;
        Ok(reader)
    }

    // Bytes that a callee wrote.
    fn take_write(self, piece: Piece) -> Result<CaseReader, NoMemory>
        requires place { spec.in_place self (WriteForm (Fits piece)) ≡ true }
        requires within { spec.limit_passed self (WriteForm (Fits piece)) ≡ None }
        ensures { IfOk result (λ next. next ≡ changed self (in_reply (give_write piece))) }
    {
        let mut reader = self;
        reader.bytes += piece.bytes.as_slice().len();
        reader.current = with_write(reader.current, piece)?;
        Ok(reader)
    }

    // Junk words of a reply.
    fn take_reply_junk(self, words: &Words) -> Result<CaseReader, NoMemory>
        ensures { IfOk result (λ next. next ≡ changed self (in_reply (give_reply_junk words.now))) }
    {
        let mut reader = self;
        reader.current = with_reply_junk(reader.current, words)?;
        Ok(reader)
    }

    // What a reply's junk goes on with.
    fn take_reply_fill(self, word: u64) -> CaseReader
        ensures { result ≡ changed self (in_reply (give_reply_fill word)) }
    {
        let mut reader = self;
        reader.current = with_reply_fill(reader.current, word);
        reader
    }

    // The word in each pointer slot outside a call's map.
    fn take_clobber(self, word: u64) -> CaseReader
        ensures { result ≡ changed self (in_reply (give_clobber word)) }
    {
        let mut reader = self;
        reader.current = with_clobber(reader.current, word);
        reader
    }

    /// The cases that were read, and the first line that names a function that isn't there.
    pub(crate) fn finish(self) -> Result<CasePart, NoMemory>
        ensures { IfOk result (λ part. part ≡ spec.part_of self) }
    {
        Ok(CasePart {
            cases: with_case(self.cases, self.current)?,
            unknown: self.unknown,
        })
    }
}

// The number of the function of this name; none where there is none.
fn function_of(names: &[Name], name: &Name) -> Option<u32>
    requires { length names.now < 2 ^ 32 }
    ensures { result ≡ spec.function_of names.now name.now }
{
    for (number, other) in names.iter().enumerate() {
        if *other == *name {
            return Some(number as u32);
        }
    }
    None
}

// This line, where no function was found.
fn absent_at(line: u32, func: Option<u32>) -> Option<u32>
    ensures { result ≡ spec.absent_at line func }
{
    match func {
        None => Some(line),
        Some(_) => None,
    }
}

// A name behind the others, where it isn't among them.
fn put_name(names: &mut NameSet, name: &Name) -> Result<(), NoMemory>
    requires { list_any (λ n. is_same n name.now) names.old ≡ false }
    ensures { OnOk result (names.new ≡ names.old ++ name.now ∷ []) }
{
    names.insert(name.clone()?)
}

fn has_reply(case: &Option<OpenCase>) -> bool
    ensures { result ≡ spec.has_reply case.now }
{
    match case {
        None => false,
        Some(case) => case.reply.is_some(),
    }
}

fn has_args(case: &Option<OpenCase>) -> bool
    ensures { result ≡ spec.has_args case.now }
{
    match case {
        None => false,
        Some(case) => case.has_args,
    }
}

fn has_fill(case: &Option<OpenCase>) -> bool
    ensures { result ≡ spec.has_fill case.now }
{
    match case {
        None => false,
        Some(case) => case.is_filled,
    }
}

// Whether the last reply's `rfill` was given.
fn has_reply_fill(case: &Option<OpenCase>) -> bool
    ensures { result ≡ spec.has_reply_fill (spec.reply_of case.now) }
{
    match case {
        Some(
            OpenCase {
                reply: Some(reply),
                ..
            },
        ) => reply.is_filled,
        _ => false,
    }
}

// Whether the last reply's `clobber` was given.
fn has_clobber(case: &Option<OpenCase>) -> bool
    ensures { result ≡ spec.has_clobber (spec.reply_of case.now) }
{
    match case {
        Some(
            OpenCase {
                reply: Some(reply),
                ..
            },
        ) => reply.is_clobbered,
        _ => false,
    }
}

// Whether an integer of the line is too large.
fn is_too_large(form: &CaseForm) -> bool
    ensures { result ≡ spec.is_too_large form.now }
{
    matches!(
        form,
        CaseForm::Head(Spelled::TooLarge)
            | CaseForm::Args(Spelled::TooLarge)
            | CaseForm::Sym(Spelled::TooLarge)
            | CaseForm::Mem(Spelled::TooLarge)
            | CaseForm::Junk(Spelled::TooLarge)
            | CaseForm::Fill(Spelled::TooLarge)
            | CaseForm::Reply(Spelled::TooLarge)
            | CaseForm::Write(Spelled::TooLarge)
            | CaseForm::ReplyJunk(Spelled::TooLarge)
            | CaseForm::ReplyFill(Spelled::TooLarge)
            | CaseForm::Clobber(Spelled::TooLarge)
    )
}

// A limit that is reached, so that one more passes it.
fn full(limit: usize, count: usize, kind: LimitKind) -> Option<LimitKind>
    ensures { result ≡ limits.full limit count kind }
{
    if limit <= count { Some(kind) } else { None }
}

// A limit that a count is above.
fn over(limit: u64, count: u64, kind: LimitKind) -> Option<LimitKind>
    ensures { result ≡ limits.over limit count kind }
{
    if limit < count { Some(kind) } else { None }
}

// The limit that junk words pass behind others, if they do.
fn junk_limit(before: &[u64], words: &[u64]) -> Option<LimitKind>
    ensures { result ≡ limits.over MAX_JUNK_WORDS (length before.now + length words.now) JunkWords }
{
    over(
        MAX_JUNK_WORDS as u64,
        (before.len() + words.len()) as u64,
        LimitKind::JunkWords,
    )
}
