// What a value computes, and what its row says of its arguments and its memory.

ghost use Rattle.std.specs.Prelude.{◌≡◌};
ghost use Rattle.ssa_ir.specs.Ops as spec;

use crate::op_facts::facts_of;

/// The width of an integer op, in bits.
#[derive(Clone, Copy, Debug, PartialEq, Eq)]
pub enum Width {
    W8,
    W16,
    W32,
    W64,
}

/// Two widths of an op that changes the width, in bits, the smaller one first.
#[derive(Clone, Copy, Debug, PartialEq, Eq)]
pub enum WidthPair {
    W8W16,
    W8W32,
    W8W64,
    W16W32,
    W16W64,
    W32W64,
}

/// What a value computes.
///
/// A generic op has the name that Go's `genericOps` gives it, without its width. An op of the machine
/// has Go's `OpARM64` name, behind `Arm64`. A word that is wider than an op counts by its low bits.
#[derive(Clone, Copy)]
pub enum Op {
    /// The sum modulo 2 to the width, as `Add64`.
    Add(Width),
    /// The difference modulo 2 to the width.
    Sub(Width),
    /// The product modulo 2 to the width.
    Mul(Width),
    /// Each bit that both have.
    And(Width),
    /// Each bit that either has.
    Or(Width),
    /// Each bit that exactly one of the two has.
    Xor(Width),
    /// 0 less the argument, modulo 2 to the width.
    Neg(Width),
    /// All bits inverted.
    Com(Width),
    /// The signed quotient toward 0, as `Div64`; by 0 it is 0, and the least number by -1 is the least number.
    Div(Width),
    /// The unsigned quotient, as `Div64u`; by 0 it is 0.
    DivU(Width),
    /// The remainder x - (x / y) y of the signed quotient, as `Mod64`; by 0 it is the first argument.
    Mod(Width),
    /// The remainder x - (x / y) y of the unsigned quotient, as `Mod64u`; by 0 it is the first argument.
    ModU(Width),
    /// A shift to the left by an unsigned 64-bit count, as `Lsh32x64`; by 64 or more it is 0.
    Lsh(Width),
    /// A shift to the right that copies the sign, as `Rsh32x64`; by 64 or more it is the sign's bits.
    Rsh(Width),
    /// A shift to the right that brings in 0, as `Rsh32Ux64`; by 64 or more it is 0.
    RshU(Width),
    /// Whether both are equal.
    Eq(Width),
    /// Whether they differ.
    Neq(Width),
    /// Whether the first is below the second, signed.
    Less(Width),
    /// Whether the first is at most the second, signed.
    Leq(Width),
    /// Whether the first is below the second, unsigned, as `Less64U`.
    LessU(Width),
    /// Whether the first is at most the second, unsigned.
    LeqU(Width),
    /// Bit 0 is 1 where bit 0 of both bools is the same: on bytes, x xor y xor 1.
    EqB,
    /// Bit 0 is 1 where bit 0 of the bools differs: on bytes, x xor y.
    NeqB,
    /// Bit 0 is 1 where it is in both bools: on bytes, x and y.
    AndB,
    /// Bit 0 is 1 where it is in either bool: on bytes, x or y.
    OrB,
    /// Bit 0 is 1 where it is 0 in the bool: on a byte, x xor 1.
    Not,
    /// Whether two pointers are equal.
    EqPtr,
    /// Whether two pointers differ.
    NeqPtr,
    /// Whether a pointer is not 0.
    IsNonNil,
    /// Whether an index is below a length, unsigned.
    IsInBounds,
    /// Whether an index is at most a length, unsigned.
    IsSliceInBounds,
    /// The signed value at a greater width, as `SignExt8to64`.
    SignExt(WidthPair),
    /// The unsigned value at a greater width, as `ZeroExt8to64`.
    ZeroExt(WidthPair),
    /// The low bits, at a smaller width, as `Trunc64to8`.
    Trunc(WidthPair),
    /// A pointer and a number of bytes.
    AddPtr,
    /// A pointer and the number of bytes in brackets.
    OffPtr,
    /// The bytes at a pointer, the lowest first, in a memory, by the type of the value.
    Load,
    /// The memory in which the low bytes of a value stand at a pointer, the lowest first, by the type in braces.
    Store,
    /// The pointer, in a memory; it traps where it is 0.
    NilCheck,
    /// The first argument where bit 0 of the third is 1, else the second.
    CondSelect,
    /// The low bits of the number in brackets, as `Const64`.
    Const(Width),
    /// The `true` or `false` in brackets.
    ConstBool,
    /// The pointer 0.
    ConstNil,
    /// The base of symbols.
    SB,
    /// The address of the symbol in braces, over an SB.
    Addr,
    /// The argument of the predecessor from which the block was entered.
    Phi,
    /// Its argument.
    Copy,
    /// The parameter of the number in brackets, from 0.
    Arg,
    /// The memory at the function's entry.
    InitMem,
    /// A call of the function in braces with these arguments and, last, a memory.
    StaticLECall,
    /// The result of a call by the number in brackets, from 0; the memory comes after the last.
    SelectN,
    /// A function's results and, last, its memory.
    MakeResult,
    /// The number in brackets.
    Arm64MOVDconst,
    /// The address of the symbol in braces.
    Arm64MOVDaddr,
    /// The 64-bit sum.
    Arm64ADD,
    /// The 64-bit difference.
    Arm64SUB,
    /// Each bit that both have.
    Arm64AND,
    /// Each bit that either has.
    Arm64OR,
    /// Each bit that exactly one of the two has.
    Arm64XOR,
    /// The 64-bit product.
    Arm64MUL,
    /// The 32-bit product.
    Arm64MULW,
    /// The sum with the number.
    Arm64ADDconst,
    /// The argument less the number.
    Arm64SUBconst,
    /// Each bit that the argument and the number have.
    Arm64ANDconst,
    /// Each bit that the argument or the number has.
    Arm64ORconst,
    /// Each bit that exactly one of the argument and the number has.
    Arm64XORconst,
    /// 0 less the argument.
    Arm64NEG,
    /// All bits inverted.
    Arm64MVN,
    /// The signed 64-bit quotient; by 0 it is 0.
    Arm64DIV,
    /// The unsigned 64-bit quotient; by 0 it is 0.
    Arm64UDIV,
    /// The signed 32-bit quotient; by 0 it is 0.
    Arm64DIVW,
    /// The unsigned 32-bit quotient; by 0 it is 0.
    Arm64UDIVW,
    /// The signed 64-bit remainder; by 0 it is the first argument.
    Arm64MOD,
    /// The unsigned 64-bit remainder; by 0 it is the first argument.
    Arm64UMOD,
    /// The signed 32-bit remainder; by 0 it is the first argument.
    Arm64MODW,
    /// The unsigned 32-bit remainder; by 0 it is the first argument.
    Arm64UMODW,
    /// A shift to the left, by the count modulo 64.
    Arm64SLL,
    /// A shift to the right that brings in 0, by the count modulo 64.
    Arm64SRL,
    /// A shift to the right that copies the sign, by the count modulo 64.
    Arm64SRA,
    /// A shift to the left by the number, 0 to 63.
    Arm64SLLconst,
    /// A shift to the right that brings in 0, by the number, 0 to 63.
    Arm64SRLconst,
    /// A shift to the right that copies the sign, by the number, 0 to 63.
    Arm64SRAconst,
    /// The signed low 8 bits.
    Arm64MOVBreg,
    /// The signed low 16 bits.
    Arm64MOVHreg,
    /// The signed low 32 bits.
    Arm64MOVWreg,
    /// The low 8 bits.
    Arm64MOVBUreg,
    /// The low 16 bits.
    Arm64MOVHUreg,
    /// The low 32 bits.
    Arm64MOVWUreg,
    /// The flags of the 64-bit difference.
    Arm64CMP,
    /// The flags of the 32-bit difference.
    Arm64CMPW,
    /// The flags of the argument less the number, at 64 bits.
    Arm64CMPconst,
    /// The flags of the argument less the number, at 32 bits.
    Arm64CMPWconst,
    /// The flags of the low 32 bits that the argument and the number have.
    Arm64TSTWconst,
    /// 1 where the flags say equal (EQ), else 0.
    Arm64Equal,
    /// 1 where the flags say not equal (NE), else 0.
    Arm64NotEqual,
    /// 1 where the flags say below, signed (LT), else 0.
    Arm64LessThan,
    /// 1 where the flags say at most, signed (LE), else 0.
    Arm64LessEqual,
    /// 1 where the flags say above, signed (GT), else 0.
    Arm64GreaterThan,
    /// 1 where the flags say at least, signed (GE), else 0.
    Arm64GreaterEqual,
    /// 1 where the flags say below, unsigned (LO), else 0.
    Arm64LessThanU,
    /// 1 where the flags say at most, unsigned (LS), else 0.
    Arm64LessEqualU,
    /// 1 where the flags say above, unsigned (HI), else 0.
    Arm64GreaterThanU,
    /// 1 where the flags say at least, unsigned (HS), else 0.
    Arm64GreaterEqualU,
    /// The first argument where the condition of the number holds of the flags, the third argument, else the
    /// second. The number is the condition's place in [`CondCode`], from 0.
    Arm64CSEL,
    /// The signed byte at a pointer and the number, in a memory.
    Arm64MOVBload,
    /// The signed 2 bytes at a pointer and the number, in a memory.
    Arm64MOVHload,
    /// The signed 4 bytes at a pointer and the number, in a memory.
    Arm64MOVWload,
    /// The byte at a pointer and the number, in a memory.
    Arm64MOVBUload,
    /// The 2 bytes at a pointer and the number, in a memory.
    Arm64MOVHUload,
    /// The 4 bytes at a pointer and the number, in a memory.
    Arm64MOVWUload,
    /// The 8 bytes at a pointer and the number, in a memory.
    Arm64MOVDload,
    /// The memory in which the low byte of a word stands at a pointer and the number.
    Arm64MOVBstore,
    /// The memory in which the low 2 bytes of a word stand at a pointer and the number.
    Arm64MOVHstore,
    /// The memory in which the low 4 bytes of a word stand at a pointer and the number.
    Arm64MOVWstore,
    /// The memory in which the low 8 bytes of a word stand at a pointer and the number.
    Arm64MOVDstore,
    /// Traps where the pointer is 0, in a memory; it has no result.
    Arm64LoweredNilCheck,
    /// A call of the function in braces with these arguments and, last, a memory.
    Arm64CALLstatic,
}

impl Op {
    /// Whether it is the machine's, and no generic op.
    pub fn is_machine(self) -> bool
        ensures { result ≡ spec.is_machine self }
    {
        facts_of(self).machine
    }
}

/// A condition on the flags N, Z, C and V, by the name that the A64 manual and Go's assembler give it.
#[derive(Clone, Copy, Debug, PartialEq, Eq)]
pub enum CondCode {
    EQ,
    NE,
    LT,
    LE,
    GT,
    GE,
    LO,
    LS,
    HI,
    HS,
}

/// How many arguments an op takes, memory and flags included.
#[derive(Clone, Copy, Debug, PartialEq, Eq)]
pub enum Arity {
    Exact(u32),
    /// As many as the predecessors of a block, the parameters of a callee or the results of a function ask for.
    Any,
}

/// What stands in a value's line between its type and its arguments, in brackets or in braces.
#[derive(Clone, Copy, Debug, PartialEq, Eq)]
pub enum AuxRule {
    /// Nothing.
    Nothing,
    /// A number in brackets, which of a CSEL is the place of its condition in [`CondCode`].
    Int,
    /// `true` or `false` in brackets.
    Bool,
    /// A name in braces.
    Sym,
    /// A type in braces.
    Elem,
    /// `true` or `false` in brackets, which is read and dropped: Go marks there what it knows of an operand.
    Dropped,
}

/// The row of an op.
#[derive(Clone, Copy, Debug, PartialEq, Eq)]
pub struct OpRow {
    pub arity: Arity,
    pub aux: AuxRule,
    /// Whether it reads a memory that it takes, and makes none.
    pub reads_mem: bool,
    /// Whether it makes a memory, as the function's entry and stores do. A Phi or a SelectN of memory names one, and
    /// makes none.
    pub makes_mem: bool,
}

/// The row of an op: how many arguments it takes, what its brackets or braces hold, and whether it reads or makes a
/// memory.
pub fn op_row(op: Op) -> OpRow
    ensures { result ≡ spec.row_of op }
{
    let facts = facts_of(op);
    OpRow {
        arity: facts.takes.arity(),
        aux: facts.aux,
        reads_mem: facts.reads_memory(),
        makes_mem: facts.gives.is_memory(),
    }
}
