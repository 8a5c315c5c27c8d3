// What a reader has of a case whose lines go on.

ghost use Rattle.std.specs.Prelude.{◌≡◌, ◌<◌, ◌^◌, ◌++◌, OnOk, IfOk};
ghost use Rattle.case_text.specs.CaseReading as spec;
ghost use Rattle.case_text.specs.CaseReading.{change_case, change_reply, in_reply, give_args, give_sym, give_mem};
ghost use Rattle.case_text.specs.CaseReading.{give_junk, give_fill, give_write, give_reply_junk, give_reply_fill};
ghost use Rattle.case_text.specs.CaseReading.{give_clobber, more_junk};

use crate::forms::{CaseHead, SymLine};
use gossa_base::{NoMemory, Sequence};
use ssa_ir::{Case, Cases, Junk, Piece, Pieces, Replies, Reply, SymWords, Words};
use std::alloc::Global;

/// A reply whose lines go on, and which of the lines it has that it may have once.
#[derive(Drop)]
pub struct OpenReply {
    pub words: Words,
    pub writes: Pieces,
    pub junk: Junk,
    pub clobber: u64,
    /// Whether its `rfill` was given.
    pub is_filled: bool,
    /// Whether its `clobber` was given.
    pub is_clobbered: bool,
}

/// A case whose lines go on: what it gives so far, its whole replies, and the one that goes on, if any.
#[derive(Drop)]
pub struct OpenCase {
    pub func: u32,
    pub bound: u32,
    pub args: Words,
    pub syms: SymWords,
    pub mem: Pieces,
    pub junk: Junk,
    pub replies: Replies,
    pub reply: Option<OpenReply>,
    /// Whether its `args` were given, with or without words.
    pub has_args: bool,
    /// Whether its `fill` was given.
    pub is_filled: bool,
}

// A case that begins, of the function of this number; of the first one where there is none.
pub(crate) fn begin_case(alloc: Global, func: Option<u32>, head: &CaseHead) -> OpenCase
    requires { head.now.bound < 2 ^ 32 }
    ensures { result ≡ spec.begin_case func head.now }
{
    OpenCase {
        func: func.unwrap_or(0),
        bound: head.bound as u32,
        args: Sequence::new(alloc),
        syms: Sequence::new(alloc),
        mem: Sequence::new(alloc),
        junk: no_junk(alloc),
        replies: Sequence::new(alloc),
        reply: None,
        has_args: false,
        is_filled: false,
    }
}

// No junk words before 0.
fn no_junk(alloc: Global) -> Junk
    ensures { result ≡ spec.no_junk }
{
    Junk {
        words: Sequence::new(alloc),
        fill: 0,
    }
}

// The case with its parameters' words.
pub(crate) fn with_args(case: Option<OpenCase>, words: Words) -> Option<OpenCase>
    ensures { result ≡ change_case (give_args words) case }
{
    let mut case = case?;
    case.args = words;
    case.has_args = true;
    Some(case)
}

// The case with one more symbol.
pub(crate) fn with_sym(case: Option<OpenCase>, sym: SymLine) -> Result<Option<OpenCase>, NoMemory>
    ensures { IfOk result (λ c. c ≡ change_case (give_sym sym) case) }
{
    let Some(mut case) = case else {
        return Ok(None);
    };
    case.syms.push((sym.name, sym.address))?;
    Ok(Some(case))
}

// The case with one more piece of memory.
pub(crate) fn with_mem(case: Option<OpenCase>, piece: Piece) -> Result<Option<OpenCase>, NoMemory>
    ensures { IfOk result (λ c. c ≡ change_case (give_mem piece) case) }
{
    let Some(mut case) = case else {
        return Ok(None);
    };
    case.mem.push(piece)?;
    Ok(Some(case))
}

// The case with more junk words.
pub(crate) fn with_junk(case: Option<OpenCase>, words: &Words) -> Result<Option<OpenCase>, NoMemory>
    ensures { IfOk result (λ c. c ≡ change_case (give_junk words.now) case) }
{
    let Some(mut case) = case else {
        return Ok(None);
    };
    append(&mut case.junk.words, words.as_slice())?;
    Ok(Some(case))
}

// Words behind others.
fn append(words: &mut Words, more: &[u64]) -> Result<(), NoMemory>
    ensures { OnOk result (words.new ≡ words.old ++ more.now) }
{
    for word in more {
        words.push(*word)?;
    }
    Ok(())
}

// The case with the word that its junk goes on with.
pub(crate) fn with_fill(case: Option<OpenCase>, word: u64) -> Option<OpenCase>
    ensures { result ≡ change_case (give_fill word) case }
{
    let mut case = case?;
    case.junk.fill = word;
    case.is_filled = true;
    Some(case)
}

// The case with a reply that begins, behind the one that went on, if any.
pub(crate) fn with_reply_begun(
    alloc: Global,
    case: Option<OpenCase>,
    words: Words,
) -> Result<Option<OpenCase>, NoMemory>
    ensures { IfOk result (λ c. c ≡ change_case (spec.begin_reply words) case) }
{
    let Some(mut case) = case else {
        return Ok(None);
    };
    case.replies = with_reply(case.replies, case.reply)?;
    case.reply = Some(begun_reply(alloc, words));
    Ok(Some(case))
}

// A reply that begins with its result words.
fn begun_reply(alloc: Global, words: Words) -> OpenReply
    ensures { result ≡ spec.begun_reply words }
{
    OpenReply {
        words,
        writes: Sequence::new(alloc),
        junk: no_junk(alloc),
        clobber: 0,
        is_filled: false,
        is_clobbered: false,
    }
}

// The case with one more piece that the callee of its last reply wrote.
pub(crate) fn with_write(case: Option<OpenCase>, piece: Piece) -> Result<Option<OpenCase>, NoMemory>
    ensures { IfOk result (λ c. c ≡ change_case (in_reply (give_write piece)) case) }
{
    let Some(mut case) = case else {
        return Ok(None);
    };
    case.reply = reply_with_write(case.reply, piece)?;
    Ok(Some(case))
}

// The reply with one more piece that the callee wrote.
fn reply_with_write(reply: Option<OpenReply>, piece: Piece) -> Result<Option<OpenReply>, NoMemory>
    ensures { IfOk result (λ r. r ≡ change_reply (give_write piece) reply) }
{
    let Some(mut reply) = reply else {
        return Ok(None);
    };
    reply.writes.push(piece)?;
    Ok(Some(reply))
}

// The case with more junk words of its last reply.
pub(crate) fn with_reply_junk(
    case: Option<OpenCase>,
    words: &Words,
) -> Result<Option<OpenCase>, NoMemory>
    ensures { IfOk result (λ c. c ≡ change_case (in_reply (give_reply_junk words.now)) case) }
{
    let Some(mut case) = case else {
        return Ok(None);
    };
    case.reply = reply_with_junk(case.reply, words)?;
    Ok(Some(case))
}

// The reply with more junk words.
fn reply_with_junk(reply: Option<OpenReply>, words: &Words) -> Result<Option<OpenReply>, NoMemory>
    ensures { IfOk result (λ r. r ≡ change_reply (give_reply_junk words.now) reply) }
{
    let Some(mut reply) = reply else {
        return Ok(None);
    };
    append(&mut reply.junk.words, words.as_slice())?;
    Ok(Some(reply))
}

// The case with the word that its last reply's junk goes on with.
pub(crate) fn with_reply_fill(case: Option<OpenCase>, word: u64) -> Option<OpenCase>
    ensures { result ≡ change_case (in_reply (give_reply_fill word)) case }
{
    let mut case = case?;
    case.reply = reply_with_fill(case.reply, word);
    Some(case)
}

// The reply with the word that its junk goes on with.
fn reply_with_fill(reply: Option<OpenReply>, word: u64) -> Option<OpenReply>
    ensures { result ≡ change_reply (give_reply_fill word) reply }
{
    let mut reply = reply?;
    reply.junk.fill = word;
    reply.is_filled = true;
    Some(reply)
}

// The case with its last reply's word for pointer slots outside the map.
pub(crate) fn with_clobber(case: Option<OpenCase>, word: u64) -> Option<OpenCase>
    ensures { result ≡ change_case (in_reply (give_clobber word)) case }
{
    let mut case = case?;
    case.reply = reply_with_clobber(case.reply, word);
    Some(case)
}

// The reply with its word for pointer slots outside the map.
fn reply_with_clobber(reply: Option<OpenReply>, word: u64) -> Option<OpenReply>
    ensures { result ≡ change_reply (give_clobber word) reply }
{
    let mut reply = reply?;
    reply.clobber = word;
    reply.is_clobbered = true;
    Some(reply)
}

// The replies with the one that went on, if any, which ends here.
fn with_reply(replies: Replies, reply: Option<OpenReply>) -> Result<Replies, NoMemory>
    ensures { IfOk result (λ more. more ≡ spec.with_reply replies reply) }
{
    let mut replies = replies;
    if let Some(reply) = reply {
        replies.push(Reply {
            words: reply.words,
            writes: reply.writes,
            junk: reply.junk,
            clobber: reply.clobber,
        })?;
    }
    Ok(replies)
}

// The cases with the one that went on, if any, which ends here.
pub(crate) fn with_case(cases: Cases, case: Option<OpenCase>) -> Result<Cases, NoMemory>
    ensures { IfOk result (λ more. more ≡ spec.with_case cases case) }
{
    let mut cases = cases;
    if let Some(case) = case {
        cases.push(whole_case(case)?)?;
    }
    Ok(cases)
}

// A case that ends.
fn whole_case(case: OpenCase) -> Result<Case, NoMemory>
    ensures { IfOk result (λ c. c ≡ spec.whole_case case) }
{
    Ok(Case {
        func: case.func,
        bound: case.bound,
        args: case.args,
        syms: case.syms,
        mem: case.mem,
        junk: case.junk,
        replies: with_reply(case.replies, case.reply)?,
    })
}
