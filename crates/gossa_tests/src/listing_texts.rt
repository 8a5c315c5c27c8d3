// Listings that no text gives yet, and their texts: each form of line, each condition, and the sizes of frames.

ghost use Rattle.std.specs.Prelude.{◌≡◌, false, [], ◌∷◌, IfOk};

use crate::made::{one, prints, sig};
use gossa_base::{BlockId, Name, NoMemory, Sequence, ValueId};
use listing::{Code, Line, Listing, Map, Maps, Names, Note, Place};
use ssa_ir::{CondCode, Scalar};
use std::alloc::Global;

const OTHER_FORMS: &str =
    "TEXT k(int64, int64, int64, int64, int64, int64), frame=48, out=2, ptr=1, scalar=1, regs=4\n\
MAP 0 args=- locals=1\n\
MAP 1 args=10 locals=0\n\
e2:\n\
b2:\n\
MOVD R0, 8(RSP) // args\n\
MOVD R0, 24(RSP)\n\
MOVD R1, 32(RSP)\n\
MOVD 8(FP), R0 // results\n\
MOVD $-7, R2 // load v9\n\
MOVD $s(SB), R3 // load v8\n\
MOVD R0,  // edge\n\
NILCHECK R0 // v4\n\
TBNZ $0, R1, b2\n\
TBZ $0, R1, b2\n\
JMP b2\n\
CALL g(SB), map=1 // v3\n\
MOVD R27, R1 // edge\n\
EXIT\n";

#[test]
fn prints_each_other_form(rt: HostRuntime) {
    assert!(rt; other_forms_are_printed(rt.alloc()) == Ok(true));
}

fn other_forms_are_printed(alloc: Global) -> Result<bool, NoMemory> {
    let code = other_code(alloc)?;
    let maps = maps(alloc)?;
    let listing = Listing {
        code,
        ptr: 1,
        scalar: 1,
        maps,
    };
    prints(alloc, &listing, OTHER_FORMS)
}

const CONDITIONS: &str = "TEXT k(), frame=0, out=0, ptr=0, scalar=0, regs=24\n\
b3:\n\
BEQ b3\n\
BNE b3\n\
BLT b3\n\
BLE b3\n\
BGT b3\n\
BGE b3\n\
BLO b3\n\
BLS b3\n\
BHI b3\n\
BHS b3\n";

#[test]
fn prints_each_condition(rt: HostRuntime) {
    assert!(rt; conditions_are_printed(rt.alloc()) == Ok(true));
}

fn conditions_are_printed(alloc: Global) -> Result<bool, NoMemory> {
    let code = condition_code(alloc)?;
    prints(alloc, &bare(alloc, code, 0, 0), CONDITIONS)
}

// Whether a function calls, its outgoing words, its pointer words, its scalar words, and the size of its frame.
const FRAMES: [(bool, u32, u32, u32, u64); 6] = [
    (false, 0, 0, 0, 0),
    (true, 0, 0, 0, 16),
    (false, 0, 0, 1, 16),
    (true, 1, 1, 0, 32),
    (false, 0, 1, 2, 32),
    (true, 2, 1, 1, 48),
];

#[test]
fn frames_have_sizes(rt: HostRuntime) {
    for (calls, out, ptr, scalar, want) in FRAMES.iter() {
        let size = frame_of(rt.alloc(), *calls, *out, *ptr, *scalar);
        assert!(rt; size == Ok(*want), "{out}, {ptr}, {scalar}");
    }
}

fn frame_of(alloc: Global, calls: bool, out: u32, ptr: u32, scalar: u32) -> Result<u64, NoMemory> {
    let code = if calls {
        call_code(alloc, out)?
    } else {
        leaf_code(alloc, out)?
    };
    Ok(bare(alloc, code, ptr, scalar).frame_size())
}

// A function with a line of each form that no listing of a sum has.
fn other_code(alloc: Global) -> Result<Code, NoMemory> {
    let sig = sig(alloc, b"k", &[Scalar::I64; 6])?;
    let syms = syms(alloc)?;
    let split = BlockId { split: true, n: 2 };
    let lines = vec![in alloc;
        Line::Label(split, Sequence::new(alloc)),
        Line::Label(id(2), Sequence::new(alloc)),
        Line::Move(Place::Out(0), Place::Reg(0), Note::Args),
        Line::Move(Place::Frame(0), Place::Reg(0), Note::Bare),
        Line::Move(Place::Frame(1), Place::Reg(1), Note::Bare),
        Line::Move(Place::Reg(0), Place::Arg(1), Note::Results),
        Line::Move(Place::Reg(2), Place::Const(-7), Note::Load(ValueId(9))),
        Line::Move(Place::Reg(3), Place::Addr(0), Note::Load(ValueId(8))),
        Line::Move(Place::Home(ValueId(4)), Place::Reg(0), Note::Edge),
        Line::Nil(0, Note::Value(ValueId(4))),
        Line::BitBranch(true, 1, id(2)),
        Line::BitBranch(false, 1, id(2)),
        Line::Jump(id(2)),
        Line::Call(1, 1, Note::Value(ValueId(3))),
        Line::Move(Place::Reg(1), Place::Reg(27), Note::Edge),
        Line::Exit,
    ]?;
    Ok(Code {
        sig,
        regs: 4,
        syms,
        lines: Sequence::from_vec(lines),
        out: 2,
        arg_words: 2,
    })
}

// A function that branches on each condition.
fn condition_code(alloc: Global) -> Result<Code, NoMemory> {
    let sig = sig(alloc, b"k", &[])?;
    let lines = vec![in alloc;
        Line::Label(id(3), Sequence::new(alloc)),
        Line::Branch(CondCode::EQ, id(3)),
        Line::Branch(CondCode::NE, id(3)),
        Line::Branch(CondCode::LT, id(3)),
        Line::Branch(CondCode::LE, id(3)),
        Line::Branch(CondCode::GT, id(3)),
        Line::Branch(CondCode::GE, id(3)),
        Line::Branch(CondCode::LO, id(3)),
        Line::Branch(CondCode::LS, id(3)),
        Line::Branch(CondCode::HI, id(3)),
        Line::Branch(CondCode::HS, id(3)),
    ]?;
    Ok(Code {
        sig,
        regs: 24,
        syms: Sequence::new(alloc),
        lines: Sequence::from_vec(lines),
        out: 0,
        arg_words: 0,
    })
}

// A function that returns, with so many outgoing words.
fn leaf_code(alloc: Global, out: u32) -> Result<Code, NoMemory> {
    let lines = one(alloc, Line::Ret)?;
    Ok(Code {
        sig: sig(alloc, b"k", &[])?,
        regs: 24,
        syms: Sequence::new(alloc),
        lines,
        out,
        arg_words: 0,
    })
}

// A function that calls, with so many outgoing words.
fn call_code(alloc: Global, out: u32) -> Result<Code, NoMemory> {
    let syms = one(alloc, Name::from_slice(alloc, b"g")?)?;
    let lines = one(alloc, Line::Call(0, 0, Note::Bare))?;
    Ok(Code {
        sig: sig(alloc, b"k", &[])?,
        regs: 24,
        syms,
        lines,
        out,
        arg_words: 0,
    })
}

fn syms(alloc: Global) -> Result<Names, NoMemory>
    ensures { IfOk result (λ syms. syms ≡ (115 ∷ []) ∷ (103 ∷ []) ∷ []) }
{
    let mut syms = one(alloc, Name::from_slice(alloc, b"s")?)?;
    syms.push(Name::from_slice(alloc, b"g")?)?;
    Ok(syms)
}

fn maps(alloc: Global) -> Result<Maps, NoMemory> {
    let mut maps = one(alloc, map(alloc, &[], &[true])?)?;
    maps.push(map(alloc, &[true, false], &[false])?)?;
    Ok(maps)
}

fn map(alloc: Global, args: &[bool], locals: &[bool]) -> Result<Map, NoMemory> {
    let args = Sequence::from_vec(Vec::from_slice(alloc, args)?);
    Ok(Map {
        args,
        locals: Sequence::from_vec(Vec::from_slice(alloc, locals)?),
    })
}

fn id(n: u32) -> BlockId
    ensures { result ≡ record { split = false; n = n } }
{
    BlockId { split: false, n }
}

// A listing with no maps.
fn bare(alloc: Global, code: Code, ptr: u32, scalar: u32) -> Listing {
    Listing {
        code,
        ptr,
        scalar,
        maps: Sequence::new(alloc),
    }
}
