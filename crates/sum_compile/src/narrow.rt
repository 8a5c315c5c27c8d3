// The functions that are compiled so far, known by their blocks and values.
//
// Such a function has one block. Its first value is the memory at the entry and its last the result, and each value
// between them is a step: it is numbered by its place, and takes a parameter, makes a constant, or adds two values
// above it.

ghost use Rattle.std.specs.Prelude.{◌≡◌, ◌+◌, ◌↔◌, IsTrue};
ghost use Rattle.std.specs.List.{All, list_all};
ghost use Rattle.sum_compile.specs.Narrow.{Narrow};
ghost use Rattle.sum_compile.specs.NarrowTest.{is_int64, is_one_int64, is_word, is_memory, is_word_and_memory, is_bare};
ghost use Rattle.sum_compile.specs.NarrowTest.{is_init_mem, is_init, stands_above, are_summands, is_there, op_fits};
ghost use Rattle.sum_compile.specs.NarrowTest.{is_step, are_steps, has_flag, with_flag, take_new, no_flags};
ghost use Rattle.sum_compile.specs.NarrowTest.{is_make_result, are_results, is_result, are_body, are_narrow};
ghost use Rattle.sum_compile.specs.NarrowTest.{is_control, is_whole, is_narrow_block, has_narrow_block, is_narrow_sig};
ghost use Rattle.sum_compile.specs.NarrowTest.{is_narrow};

use crate::plain::parameter_number;
use gossa_base::ValueId;
use ssa_ir::{Block, Func, Kind, Op, Scalar, Sig, Ty, Value, Width};
use std::mem;

/// The most parameters that a function may have.
const MAX_PARAMS: usize = 16;

/// The most values that a function may have.
const MAX_VALUES: usize = 500;

/// Whether all of these functions are compiled so far.
pub fn all_narrow(funcs: &[Func]) -> bool
    ensures { IsTrue result ↔ All Narrow funcs.now }
{
    for func in funcs {
        if !is_narrow(func) {
            return false;
        }
    }
    true
}

/// Whether a function is one that is compiled so far.
pub fn is_narrow(func: &Func) -> bool
    ensures { IsTrue result ↔ Narrow func.now }
{
    passes(func)
}

// The same, as a test that computes.
fn passes(func: &Func) -> bool
    ensures { result ≡ is_narrow func.now }
{
    is_narrow_sig(&func.sig) && has_narrow_block(func.blocks.as_slice(), func.sig.params.len())
}

// Whether a signature takes few enough parameters and returns one result, all of type int64.
fn is_narrow_sig(sig: &Sig) -> bool
    ensures { result ≡ is_narrow_sig sig.now }
{
    sig.params.len() <= MAX_PARAMS
        && are_int64(sig.params.as_slice())
        && is_one_int64(sig.results.as_slice())
}

// Whether these types are all int64.
fn are_int64(types: &[Scalar]) -> bool
    ensures { result ≡ list_all is_int64 types.now }
{
    types.iter().all(|scalar| is_int64(*scalar))
}

// Whether this is one type, int64.
fn is_one_int64(types: &[Scalar]) -> bool
    ensures { result ≡ is_one_int64 types.now }
{
    match types {
        [only] => is_int64(*only),
        _ => false,
    }
}

fn is_int64(scalar: Scalar) -> bool
    ensures { result ≡ is_int64 scalar }
{
    matches!(scalar, Scalar::I64)
}

// Whether a function with so many parameters has one block, that of a narrow function.
fn has_narrow_block(blocks: &[Block], params: usize) -> bool
    ensures { result ≡ has_narrow_block params blocks.now }
{
    match blocks {
        [block] => is_narrow_block(block, params),
        _ => false,
    }
}

// Whether a block is the one block of a narrow function with so many parameters.
fn is_narrow_block(block: &Block, params: usize) -> bool
    ensures { result ≡ is_narrow_block params block.now }
{
    block.values.len() <= MAX_VALUES
        && is_whole(block)
        && are_narrow(block.values.as_slice(), params)
}

// Whether a block is b1, is entered from no other, and returns its last value.
fn is_whole(block: &Block) -> bool
    ensures { result ≡ is_whole block.now }
{
    !block.id.split
        && block.id.n == 1
        && block.preds.is_empty()
        && block.succs.is_empty()
        && matches!(block.kind, Kind::Ret)
        && is_control(block.control, block.values.len())
}

// Whether the control of a block is value n.
fn is_control(control: Option<ValueId>, n: usize) -> bool
    ensures { result ≡ is_control n control }
{
    match control {
        None => false,
        Some(id) => id.0 as usize == n,
    }
}

// Whether these are the values of a narrow function with so many parameters.
fn are_narrow(values: &[Value], params: usize) -> bool
    ensures { result ≡ are_narrow params values.now }
{
    match values {
        [first, body @ ..] => is_init(first) && are_body(body, params),
        _ => false,
    }
}

// Whether these values from v2 on are steps, none of which takes a parameter again, and then the result.
fn are_body(values: &[Value], params: usize) -> bool
    ensures { result ≡ are_body params values.now }
{
    match values {
        [steps @ .., last] => {
            is_result(last, values.len() + 1) && are_steps(steps, params) && takes_once(steps)
        }
        _ => false,
    }
}

// Whether a value is v1, the memory at the entry.
fn is_init(value: &Value) -> bool
    ensures { result ≡ is_init value.now }
{
    is_bare(value, 1)
        && is_init_mem(value.op)
        && is_memory(&value.ty)
        && value.aux == 0
        && value.args.as_slice().is_empty()
}

// Whether a value has this number, and neither a symbol nor an element type.
fn is_bare(value: &Value, n: usize) -> bool
    ensures { result ≡ is_bare n value.now }
{
    value.id.0 as usize == n && value.sym.is_none() && value.elem.is_none()
}

fn is_init_mem(op: Op) -> bool
    ensures { result ≡ is_init_mem op }
{
    matches!(op, Op::InitMem)
}

fn is_memory(ty: &Ty) -> bool
    ensures { result ≡ is_memory ty.now }
{
    matches!(ty, Ty::Mem)
}

// Whether the values from v2 on are steps of a function with so many parameters.
fn are_steps(steps: &[Value], params: usize) -> bool
    ensures { result ≡ are_steps params 2 steps.now }
{
    for (index, value) in steps.iter().enumerate() {
        if !is_step(value, index + 2, params) {
            return false;
        }
    }
    true
}

// Whether a value is step n of a function with so many parameters.
fn is_step(value: &Value, n: usize, params: usize) -> bool
    ensures { result ≡ is_step params n value.now }
{
    is_bare(value, n) && is_word(&value.ty) && op_fits(value, n, params)
}

// Whether a type is int64.
fn is_word(ty: &Ty) -> bool
    ensures { result ≡ is_word ty.now }
{
    match ty {
        Ty::One(scalar) => is_int64(*scalar),
        _ => false,
    }
}

// Whether value n takes a parameter that is there, makes a constant, or adds two values above it.
fn op_fits(value: &Value, n: usize, params: usize) -> bool
    ensures { result ≡ op_fits params n value.now.aux value.now.args value.now.op }
{
    let args = value.args.as_slice();
    match value.op {
        Op::Arg => is_there(parameter_number(value), params) && args.is_empty(),
        Op::Const(Width::W64) => args.is_empty(),
        Op::Add(Width::W64) => value.aux == 0 && are_summands(args, n),
        _ => false,
    }
}

// Whether a value takes a parameter, one of so many.
fn is_there(number: Option<usize>, params: usize) -> bool
    ensures { result ≡ is_there params number }
{
    match number {
        None => false,
        Some(number) => number < params,
    }
}

// Whether these are two values that value n may add.
fn are_summands(args: &[ValueId], n: usize) -> bool
    ensures { result ≡ are_summands n args.now }
{
    match args {
        [first, second] => stands_above(*first, n) && stands_above(*second, n),
        _ => false,
    }
}

// Whether a value stands above value n, and isn't v1.
fn stands_above(value: ValueId, n: usize) -> bool
    ensures { result ≡ stands_above n value }
{
    2 <= value.0 && (value.0 as usize) < n
}

// Whether no two of these values take the same parameter.
fn takes_once(steps: &[Value]) -> bool
    ensures { result ≡ take_new no_flags steps.now }
{
    let mut taken = [false; MAX_PARAMS];
    for value in steps {
        if set_flag(&mut taken, parameter_number(value)) {
            return false;
        }
    }
    true
}

// Sets the flag of a parameter. True where it was set before.
fn set_flag(flags: &mut [bool], number: Option<usize>) -> bool
    ensures before { result ≡ has_flag flags.old number }
    ensures after { flags.new ≡ with_flag flags.old number }
{
    match number {
        Some(number) if number < flags.len() => mem::replace(&mut flags[number], true),
        _ => false,
    }
}

// Whether a value is value n, the last: one result, and the memory.
fn is_result(value: &Value, n: usize) -> bool
    ensures { result ≡ is_result n value.now }
{
    is_bare(value, n)
        && is_make_result(value.op)
        && is_word_and_memory(&value.ty)
        && value.aux == 0
        && are_results(value.args.as_slice(), n)
}

fn is_make_result(op: Op) -> bool
    ensures { result ≡ is_make_result op }
{
    matches!(op, Op::MakeResult)
}

// Whether a type is int64,mem.
fn is_word_and_memory(ty: &Ty) -> bool
    ensures { result ≡ is_word_and_memory ty.now }
{
    match ty {
        Ty::Tuple(types) => is_one_int64(types.as_slice()),
        _ => false,
    }
}

// Whether these are a value above value n, and the memory at the entry.
fn are_results(args: &[ValueId], n: usize) -> bool
    ensures { result ≡ are_results n args.now }
{
    match args {
        [returned, memory] => stands_above(*returned, n) && memory.0 == 1,
        _ => false,
    }
}
