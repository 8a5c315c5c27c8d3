// What no text gives, and its text: a split block, ops of the machine, values and cases that lack a part, and a run
// that is stuck.

use crate::made::{has_text, one, sig};
use gossa_base::{BlockId, Name, NoMemory, Sequence, ValueId};
use gossa_core::print_shown;
use ssa_ir::{
    Args, Block, Blocks, Case, Cases, End, Func, Funcs, Junk, Kind, Op, Piece, Scalar, Shown, Sigs,
    SsaUnit, Ty, Value, Values,
};
use ssa_text::TextRefusal;
use std::alloc::Global;

const ODD: &str = "func f()\n\
e1:\n\
v1 = CMP <> v2 v3\n\
v2 = LoweredNilCheck <> v3 v1\n\
v3 = ConstBool <bool> [false]\n\
v4 = ConstBool <bool> []\n\
v5 = Addr <*byte> {} v6\n\
v6 = Store <mem> {} v5 v4 v1\n  \
-> \x20\n\
case  2\n\
mem 0x10 \n";

#[test]
fn prints_what_has_no_form(rt: HostRuntime) {
    assert!(rt; odd_unit_is_printed(rt.alloc()) == Ok(true));
}

fn odd_unit_is_printed(alloc: Global) -> Result<bool, TextRefusal> {
    let unit = odd_unit(alloc)?;
    has_text(alloc, &unit, ODD)
}

// Its only case is of a function that isn't there.
fn odd_unit(alloc: Global) -> Result<SsaUnit, NoMemory> {
    let funcs = odd_funcs(alloc)?;
    Ok(SsaUnit {
        sigs: Sequence::new(alloc),
        funcs,
        cases: stray_cases(alloc)?,
    })
}

fn odd_funcs(alloc: Global) -> Result<Funcs, NoMemory> {
    let blocks = odd_blocks(alloc)?;
    let sig = sig(alloc, b"f", &[])?;
    one(alloc, Func { sig, blocks })
}

// A block that splits an edge, with values that no text gives.
fn odd_blocks(alloc: Global) -> Result<Blocks, NoMemory> {
    let values = odd_values(alloc)?;
    let block = Block {
        id: BlockId { split: true, n: 1 },
        preds: Sequence::new(alloc),
        values,
        kind: Kind::Bit,
        control: None,
        succs: Sequence::new(alloc),
    };
    one(alloc, block)
}

// The arguments of values 1 to 6.
const ARGUMENTS: [&[ValueId]; 6] = [
    &[ValueId(2), ValueId(3)],
    &[ValueId(3), ValueId(1)],
    &[],
    &[],
    &[ValueId(6)],
    &[ValueId(5), ValueId(4), ValueId(1)],
];

fn odd_values(alloc: Global) -> Result<Values, NoMemory> {
    let mut values = Sequence::new(alloc);
    for (place, args) in ARGUMENTS.iter().enumerate() {
        values.push(odd_value(place as u32 + 1, Args::from_slice(alloc, args)?))?;
    }
    Ok(values)
}

fn odd_value(number: u32, args: Args) -> Value {
    let (op, ty, aux) = match number {
        1 => (Op::Arm64CMP, Ty::Flags, 0),
        2 => (Op::Arm64LoweredNilCheck, Ty::Void, 0),
        3 => (Op::ConstBool, Ty::One(Scalar::Bool), 0),
        4 => (Op::ConstBool, Ty::One(Scalar::Bool), -2),
        5 => (Op::Addr, Ty::One(Scalar::Ptr), 0),
        _ => (Op::Store, Ty::Mem, 0),
    };
    Value {
        id: ValueId(number),
        op,
        ty,
        aux,
        sym: None,
        elem: None,
        args,
    }
}

// A case of a second function, with a piece of memory that has no bytes.
fn stray_cases(alloc: Global) -> Result<Cases, NoMemory> {
    let piece = Piece {
        addr: 0x10,
        bytes: Sequence::new(alloc),
    };
    let mem = one(alloc, piece)?;
    let stray = Case {
        func: 1,
        bound: 2,
        args: Sequence::new(alloc),
        syms: Sequence::new(alloc),
        mem,
        junk: Junk {
            words: Sequence::new(alloc),
            fill: 0,
        },
        replies: Sequence::new(alloc),
    };
    one(alloc, stray)
}

#[test]
fn a_stuck_run_has_a_text(rt: HostRuntime) {
    assert!(rt; stuck_is_shown(rt.alloc(), b"case f 3\nstuck\n") == Ok(true));
}

fn stuck_is_shown(alloc: Global, want: &[u8]) -> Result<bool, NoMemory> {
    let name = Name::from_slice(alloc, b"f")?;
    let sigs = Sequence::new(alloc);
    let shown = Shown {
        calls: Sequence::new(alloc),
        end: End::Stuck,
    };
    is_shown(alloc, &name, &sigs, &shown, want)
}

// Whether a run with the bound 3 has this text.
fn is_shown(
    alloc: Global,
    name: &Name,
    sigs: &Sigs,
    shown: &Shown,
    want: &[u8],
) -> Result<bool, NoMemory> {
    Ok(print_shown(alloc, name, 3, sigs, shown)?.as_slice() == want)
}
