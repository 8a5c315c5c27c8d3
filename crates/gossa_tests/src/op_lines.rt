// Each op on a line of its own, as a unit prints it: its name, its brackets or braces, and its arguments.

use crate::made::{has_text, one, sig};
use gossa_base::{BlockId, Name, NoMemory, Sequence, ValueId};
use ssa_ir::{Args, Arity, Block, Func, Kind, Op, Scalar, SsaUnit, Ty, Value, Values, op_row};
use ssa_text::TextRefusal;
use std::alloc::Global;

// Each op's line, for a value of type int64 with the number 1, the symbol g and the element type uint8: what stands in
// brackets or braces, and as many arguments as it takes, four where it takes any number.
const OP_LINES: &str = "\
Add8 <int64> v1 v2\n\
Add16 <int64> v1 v2\n\
Add32 <int64> v1 v2\n\
Add64 <int64> v1 v2\n\
Sub8 <int64> v1 v2\n\
Sub16 <int64> v1 v2\n\
Sub32 <int64> v1 v2\n\
Sub64 <int64> v1 v2\n\
Mul8 <int64> v1 v2\n\
Mul16 <int64> v1 v2\n\
Mul32 <int64> v1 v2\n\
Mul64 <int64> v1 v2\n\
And8 <int64> v1 v2\n\
And16 <int64> v1 v2\n\
And32 <int64> v1 v2\n\
And64 <int64> v1 v2\n\
Or8 <int64> v1 v2\n\
Or16 <int64> v1 v2\n\
Or32 <int64> v1 v2\n\
Or64 <int64> v1 v2\n\
Xor8 <int64> v1 v2\n\
Xor16 <int64> v1 v2\n\
Xor32 <int64> v1 v2\n\
Xor64 <int64> v1 v2\n\
Neg8 <int64> v1\n\
Neg16 <int64> v1\n\
Neg32 <int64> v1\n\
Neg64 <int64> v1\n\
Com8 <int64> v1\n\
Com16 <int64> v1\n\
Com32 <int64> v1\n\
Com64 <int64> v1\n\
Div8 <int64> v1 v2\n\
Div16 <int64> v1 v2\n\
Div32 <int64> v1 v2\n\
Div64 <int64> v1 v2\n\
Div8u <int64> v1 v2\n\
Div16u <int64> v1 v2\n\
Div32u <int64> v1 v2\n\
Div64u <int64> v1 v2\n\
Mod8 <int64> v1 v2\n\
Mod16 <int64> v1 v2\n\
Mod32 <int64> v1 v2\n\
Mod64 <int64> v1 v2\n\
Mod8u <int64> v1 v2\n\
Mod16u <int64> v1 v2\n\
Mod32u <int64> v1 v2\n\
Mod64u <int64> v1 v2\n\
Lsh8x64 <int64> v1 v2\n\
Lsh16x64 <int64> v1 v2\n\
Lsh32x64 <int64> v1 v2\n\
Lsh64x64 <int64> v1 v2\n\
Rsh8x64 <int64> v1 v2\n\
Rsh16x64 <int64> v1 v2\n\
Rsh32x64 <int64> v1 v2\n\
Rsh64x64 <int64> v1 v2\n\
Rsh8Ux64 <int64> v1 v2\n\
Rsh16Ux64 <int64> v1 v2\n\
Rsh32Ux64 <int64> v1 v2\n\
Rsh64Ux64 <int64> v1 v2\n\
Eq8 <int64> v1 v2\n\
Eq16 <int64> v1 v2\n\
Eq32 <int64> v1 v2\n\
Eq64 <int64> v1 v2\n\
Neq8 <int64> v1 v2\n\
Neq16 <int64> v1 v2\n\
Neq32 <int64> v1 v2\n\
Neq64 <int64> v1 v2\n\
Less8 <int64> v1 v2\n\
Less16 <int64> v1 v2\n\
Less32 <int64> v1 v2\n\
Less64 <int64> v1 v2\n\
Leq8 <int64> v1 v2\n\
Leq16 <int64> v1 v2\n\
Leq32 <int64> v1 v2\n\
Leq64 <int64> v1 v2\n\
Less8U <int64> v1 v2\n\
Less16U <int64> v1 v2\n\
Less32U <int64> v1 v2\n\
Less64U <int64> v1 v2\n\
Leq8U <int64> v1 v2\n\
Leq16U <int64> v1 v2\n\
Leq32U <int64> v1 v2\n\
Leq64U <int64> v1 v2\n\
EqB <int64> v1 v2\n\
NeqB <int64> v1 v2\n\
AndB <int64> v1 v2\n\
OrB <int64> v1 v2\n\
Not <int64> v1\n\
EqPtr <int64> v1 v2\n\
NeqPtr <int64> v1 v2\n\
IsNonNil <int64> v1\n\
IsInBounds <int64> v1 v2\n\
IsSliceInBounds <int64> v1 v2\n\
SignExt8to16 <int64> v1\n\
SignExt8to32 <int64> v1\n\
SignExt8to64 <int64> v1\n\
SignExt16to32 <int64> v1\n\
SignExt16to64 <int64> v1\n\
SignExt32to64 <int64> v1\n\
ZeroExt8to16 <int64> v1\n\
ZeroExt8to32 <int64> v1\n\
ZeroExt8to64 <int64> v1\n\
ZeroExt16to32 <int64> v1\n\
ZeroExt16to64 <int64> v1\n\
ZeroExt32to64 <int64> v1\n\
Trunc16to8 <int64> v1\n\
Trunc32to8 <int64> v1\n\
Trunc64to8 <int64> v1\n\
Trunc32to16 <int64> v1\n\
Trunc64to16 <int64> v1\n\
Trunc64to32 <int64> v1\n\
AddPtr <int64> v1 v2\n\
OffPtr <int64> [1] v1\n\
Load <int64> v1 v2\n\
Store <int64> {uint8} v1 v2 v3\n\
NilCheck <int64> v1 v2\n\
CondSelect <int64> v1 v2 v3\n\
Const8 <int64> [1]\n\
Const16 <int64> [1]\n\
Const32 <int64> [1]\n\
Const64 <int64> [1]\n\
ConstBool <int64> [true]\n\
ConstNil <int64>\n\
SB <int64>\n\
Addr <int64> {g} v1\n\
Phi <int64> v1 v2 v3 v4\n\
Copy <int64> v1\n\
Arg <int64> [1]\n\
InitMem <int64>\n\
StaticLECall <int64> {g} v1 v2 v3 v4\n\
SelectN <int64> [1] v1\n\
MakeResult <int64> v1 v2 v3 v4\n\
MOVDconst <int64> [1]\n\
MOVDaddr <int64> {g}\n\
ADD <int64> v1 v2\n\
SUB <int64> v1 v2\n\
AND <int64> v1 v2\n\
OR <int64> v1 v2\n\
XOR <int64> v1 v2\n\
MUL <int64> v1 v2\n\
MULW <int64> v1 v2\n\
ADDconst <int64> [1] v1\n\
SUBconst <int64> [1] v1\n\
ANDconst <int64> [1] v1\n\
ORconst <int64> [1] v1\n\
XORconst <int64> [1] v1\n\
NEG <int64> v1\n\
MVN <int64> v1\n\
DIV <int64> v1 v2\n\
UDIV <int64> v1 v2\n\
DIVW <int64> v1 v2\n\
UDIVW <int64> v1 v2\n\
MOD <int64> v1 v2\n\
UMOD <int64> v1 v2\n\
MODW <int64> v1 v2\n\
UMODW <int64> v1 v2\n\
SLL <int64> v1 v2\n\
SRL <int64> v1 v2\n\
SRA <int64> v1 v2\n\
SLLconst <int64> [1] v1\n\
SRLconst <int64> [1] v1\n\
SRAconst <int64> [1] v1\n\
MOVBreg <int64> v1\n\
MOVHreg <int64> v1\n\
MOVWreg <int64> v1\n\
MOVBUreg <int64> v1\n\
MOVHUreg <int64> v1\n\
MOVWUreg <int64> v1\n\
CMP <int64> v1 v2\n\
CMPW <int64> v1 v2\n\
CMPconst <int64> [1] v1\n\
CMPWconst <int64> [1] v1\n\
TSTWconst <int64> [1] v1\n\
Equal <int64> v1\n\
NotEqual <int64> v1\n\
LessThan <int64> v1\n\
LessEqual <int64> v1\n\
GreaterThan <int64> v1\n\
GreaterEqual <int64> v1\n\
LessThanU <int64> v1\n\
LessEqualU <int64> v1\n\
GreaterThanU <int64> v1\n\
GreaterEqualU <int64> v1\n\
CSEL <int64> [1] v1 v2 v3\n\
MOVBload <int64> [1] v1 v2\n\
MOVHload <int64> [1] v1 v2\n\
MOVWload <int64> [1] v1 v2\n\
MOVBUload <int64> [1] v1 v2\n\
MOVHUload <int64> [1] v1 v2\n\
MOVWUload <int64> [1] v1 v2\n\
MOVDload <int64> [1] v1 v2\n\
MOVBstore <int64> [1] v1 v2 v3\n\
MOVHstore <int64> [1] v1 v2 v3\n\
MOVWstore <int64> [1] v1 v2 v3\n\
MOVDstore <int64> [1] v1 v2 v3\n\
LoweredNilCheck <int64> v1 v2\n\
CALLstatic <int64> {g} v1 v2 v3 v4";

#[test]
fn prints_every_op(rt: HostRuntime) {
    assert!(rt; OP_LINES.lines().count() == 198);
    assert!(rt; ops_are_printed(rt.alloc()) == Ok(true));
}

fn ops_are_printed(alloc: Global) -> Result<bool, TextRefusal> {
    let want = text_of_ops(alloc)?;
    let unit = unit_of_ops(alloc)?;
    has_text(alloc, &unit, want.as_str())
}

fn text_of_ops(alloc: Global) -> Result<String, NoMemory> {
    let lines = OP_LINES.replace(alloc, "\n", "\nv7 = ")?;
    Ok(format!(in alloc; "func f()\nb1:\nv7 = {lines}\nPlain -> b1\n")?)
}

// A unit of one function of one block, which goes back to itself.
fn unit_of_ops(alloc: Global) -> Result<SsaUnit, NoMemory> {
    let block = block_of_ops(alloc)?;
    let func = func_of(alloc, block)?;
    Ok(SsaUnit {
        sigs: Sequence::new(alloc),
        funcs: one(alloc, func)?,
        cases: Sequence::new(alloc),
    })
}

fn func_of(alloc: Global, block: Block) -> Result<Func, NoMemory> {
    let blocks = one(alloc, block)?;
    Ok(Func {
        sig: sig(alloc, b"f", &[])?,
        blocks,
    })
}

fn block_of_ops(alloc: Global) -> Result<Block, NoMemory> {
    let id = BlockId { split: false, n: 1 };
    let succs = one(alloc, id)?;
    Ok(Block {
        id,
        preds: Sequence::new(alloc),
        values: values_of_ops(alloc)?,
        kind: Kind::Plain,
        control: None,
        succs,
    })
}

fn values_of_ops(alloc: Global) -> Result<Values, NoMemory> {
    let mut values = Sequence::new(alloc);
    for line in OP_LINES.lines() {
        push_op(alloc, &mut values, line)?;
    }
    Ok(values)
}

// A value of the op that this line names.
fn push_op(alloc: Global, values: &mut Values, line: &str) -> Result<(), NoMemory> {
    let name = line.split(' ').next().unwrap_or("");
    match Op::named(name.as_bytes()) {
        Some(op) => values.push(full_value(alloc, op)?),
        None => Ok(()),
    }
}

const IDS: [ValueId; 4] = [ValueId(1), ValueId(2), ValueId(3), ValueId(4)];

// A value with all that a value may have, and as many arguments as its op takes, four where it takes any number.
fn full_value(alloc: Global, op: Op) -> Result<Value, NoMemory> {
    let count = match op_row(op).arity {
        Arity::Exact(count) => count.min(4) as usize,
        Arity::Any => 4,
    };
    let args = Args::from_slice(alloc, &IDS[..count])?;
    Ok(Value {
        id: ValueId(7),
        op,
        ty: Ty::One(Scalar::I64),
        aux: 1,
        sym: Some(Name::from_slice(alloc, b"g")?),
        elem: Some(Scalar::U8),
        args,
    })
}
