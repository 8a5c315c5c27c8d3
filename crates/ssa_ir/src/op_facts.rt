// The table of ops: one row an op.

ghost use Rattle.std.specs.Prelude.{◌≡◌, ◌&&◌, not};
ghost use Rattle.ssa_ir.specs.OpFacts as spec;

use crate::op::{Arity, AuxRule, Op, Width};
use crate::role::Role;

/// What an op takes as arguments, in order.
#[derive(Clone, Copy, Debug, PartialEq, Eq)]
pub enum Takes {
    /// So many words.
    Words(u8),
    /// So many words, and then a memory.
    WordsAndMemory(u8),
    /// So many words, and then the flags of a comparison.
    WordsAndFlags(u8),
    /// Any number of words, and then a memory: the arguments of a call, the results of a function.
    AnyWordsAndMemory,
    /// For each predecessor of its block a word or a memory, as the value itself is.
    OneAnEdge,
    /// A call.
    ItsCall,
}

/// What a value of an op is.
#[derive(Clone, Copy, Debug, PartialEq, Eq)]
pub enum Gives {
    Word,
    Memory,
    /// By its type.
    WordOrMemory,
    /// Words and a memory, of which each is selected: what a call or a MakeResult gives.
    Tuple,
    Flags,
    /// Nothing that another value can take.
    Void,
}

/// Which bytes an op moves between a word and the memory.
#[derive(Clone, Copy, Debug, PartialEq, Eq)]
pub enum Access {
    NoBytes,
    /// As many as the type has: a load's own, or that in a store's braces. The upper bits of a loaded word are clear.
    OfType,
    /// As many as the width has. The upper bits of a loaded word are clear.
    Unsigned(Width),
    /// As many as the width has. The upper bits of a loaded word are its sign.
    Signed(Width),
}

/// What is known of an op, whatever value it stands on.
#[derive(Clone, Copy, Debug, PartialEq, Eq)]
pub struct OpFacts {
    pub takes: Takes,
    pub gives: Gives,
    /// What stands in brackets or in braces.
    pub aux: AuxRule,
    /// What it is to a run.
    pub role: Role,
    /// Which bytes it moves.
    pub access: Access,
    /// Whether it is the machine's, and no generic op.
    pub machine: bool,
}

impl Takes {
    /// How many arguments that are, memory and flags included.
    pub fn arity(self) -> Arity
        ensures { result ≡ spec.arity_of self }
    {
        match self {
            Takes::Words(count) => Arity::Exact(u32::from(count)),
            Takes::WordsAndMemory(count) | Takes::WordsAndFlags(count) => Arity::Exact(
                u32::from(count) + 1,
            ),
            Takes::AnyWordsAndMemory | Takes::OneAnEdge => Arity::Any,
            Takes::ItsCall => Arity::Exact(1),
        }
    }

    /// How many operands the op's line reads from registers: the words among the arguments. A call's arguments and a
    /// function's results stand at their places, and what takes an edge or a call has no operands.
    pub fn operands(self) -> u8
        ensures { result ≡ spec.operands_of self }
    {
        match self {
            Takes::Words(count) | Takes::WordsAndMemory(count) | Takes::WordsAndFlags(count) =>
                count,
            Takes::AnyWordsAndMemory | Takes::OneAnEdge | Takes::ItsCall => 0,
        }
    }

    /// Whether the last of them are flags.
    pub fn has_flags(self) -> bool
        ensures { result ≡ spec.takes_flags self }
    {
        matches!(self, Takes::WordsAndFlags(_))
    }

    /// Whether the last of them is a memory, behind as many words as the row says.
    pub fn has_memory(self) -> bool
        ensures { result ≡ spec.takes_memory self }
    {
        matches!(self, Takes::WordsAndMemory(_))
    }
}

impl Gives {
    /// Whether it is always a memory.
    pub fn is_memory(self) -> bool
        ensures { result ≡ spec.is_memory self }
    {
        matches!(self, Gives::Memory)
    }
}

impl OpFacts {
    /// Whether it reads a memory that it takes, and makes none: a load or a nil check.
    pub fn reads_memory(self) -> bool
        ensures { result ≡ (spec.takes_memory self.takes && not (spec.is_memory self.gives)) }
    {
        self.takes.has_memory() && !self.gives.is_memory()
    }
}

/// The facts of an op: its row in the table of ops, from which all else that is said of an op follows.
pub fn facts_of(op: Op) -> OpFacts
    ensures { result ≡ spec.facts op }
{
    match op {
        Op::Add(_) | Op::Sub(_) | Op::Mul(_) | Op::And(_) | Op::Or(_) | Op::Xor(_) => computes(
            2,
            AuxRule::Nothing,
        ),
        Op::Neg(_) | Op::Com(_) => computes(1, AuxRule::Nothing),
        Op::Div(_)
        | Op::DivU(_)
        | Op::Mod(_)
        | Op::ModU(_)
        | Op::Lsh(_)
        | Op::Rsh(_)
        | Op::RshU(_) => computes(2, AuxRule::Dropped),
        Op::Eq(_)
        | Op::Neq(_)
        | Op::Less(_)
        | Op::Leq(_)
        | Op::LessU(_)
        | Op::LeqU(_)
        | Op::EqB
        | Op::NeqB
        | Op::AndB
        | Op::OrB => computes(2, AuxRule::Nothing),
        Op::Not => computes(1, AuxRule::Nothing),
        Op::EqPtr | Op::NeqPtr => computes(2, AuxRule::Nothing),
        Op::IsNonNil => computes(1, AuxRule::Nothing),
        Op::IsInBounds | Op::IsSliceInBounds => computes(2, AuxRule::Nothing),
        Op::SignExt(_) | Op::ZeroExt(_) | Op::Trunc(_) => computes(1, AuxRule::Nothing),
        Op::AddPtr => computes(2, AuxRule::Nothing),
        Op::OffPtr => computes(1, AuxRule::Int),
        Op::Load => generic(
            Takes::WordsAndMemory(1),
            Gives::Word,
            AuxRule::Nothing,
            Role::Loads,
            Access::OfType,
        ),
        Op::Store => generic(
            Takes::WordsAndMemory(2),
            Gives::Memory,
            AuxRule::Elem,
            Role::Stores,
            Access::OfType,
        ),
        Op::NilCheck => generic(
            Takes::WordsAndMemory(1),
            Gives::Word,
            AuxRule::Nothing,
            Role::ChecksNil,
            Access::NoBytes,
        ),
        Op::CondSelect => computes(3, AuxRule::Nothing),
        Op::Const(_) => computes(0, AuxRule::Int),
        Op::ConstBool => computes(0, AuxRule::Bool),
        Op::ConstNil | Op::SB => computes(0, AuxRule::Nothing),
        Op::Addr => generic(
            Takes::Words(1),
            Gives::Word,
            AuxRule::Sym,
            Role::TakesAddress,
            Access::NoBytes,
        ),
        Op::Phi => generic(
            Takes::OneAnEdge,
            Gives::WordOrMemory,
            AuxRule::Nothing,
            Role::Rests,
            Access::NoBytes,
        ),
        Op::Copy => computes(1, AuxRule::Nothing),
        Op::Arg => generic(
            Takes::Words(0),
            Gives::Word,
            AuxRule::Int,
            Role::TakesParameter,
            Access::NoBytes,
        ),
        Op::InitMem => generic(
            Takes::Words(0),
            Gives::Memory,
            AuxRule::Nothing,
            Role::Rests,
            Access::NoBytes,
        ),
        Op::StaticLECall => generic(
            Takes::AnyWordsAndMemory,
            Gives::Tuple,
            AuxRule::Sym,
            Role::Calls,
            Access::NoBytes,
        ),
        Op::SelectN => generic(
            Takes::ItsCall,
            Gives::WordOrMemory,
            AuxRule::Int,
            Role::Rests,
            Access::NoBytes,
        ),
        Op::MakeResult => generic(
            Takes::AnyWordsAndMemory,
            Gives::Tuple,
            AuxRule::Nothing,
            Role::Rests,
            Access::NoBytes,
        ),
        Op::Arm64MOVDconst => machine_computes(0, AuxRule::Int),
        Op::Arm64MOVDaddr => machine(
            Takes::Words(0),
            Gives::Word,
            AuxRule::Sym,
            Role::TakesAddress,
            Access::NoBytes,
        ),
        Op::Arm64ADD
        | Op::Arm64SUB
        | Op::Arm64AND
        | Op::Arm64OR
        | Op::Arm64XOR
        | Op::Arm64MUL
        | Op::Arm64MULW => machine_computes(2, AuxRule::Nothing),
        Op::Arm64ADDconst
        | Op::Arm64SUBconst
        | Op::Arm64ANDconst
        | Op::Arm64ORconst
        | Op::Arm64XORconst => machine_computes(1, AuxRule::Int),
        Op::Arm64NEG | Op::Arm64MVN => machine_computes(1, AuxRule::Nothing),
        Op::Arm64DIV
        | Op::Arm64UDIV
        | Op::Arm64DIVW
        | Op::Arm64UDIVW
        | Op::Arm64MOD
        | Op::Arm64UMOD
        | Op::Arm64MODW
        | Op::Arm64UMODW
        | Op::Arm64SLL
        | Op::Arm64SRL
        | Op::Arm64SRA => machine_computes(2, AuxRule::Nothing),
        Op::Arm64SLLconst | Op::Arm64SRLconst | Op::Arm64SRAconst => machine_computes(
            1,
            AuxRule::Int,
        ),
        Op::Arm64MOVBreg
        | Op::Arm64MOVHreg
        | Op::Arm64MOVWreg
        | Op::Arm64MOVBUreg
        | Op::Arm64MOVHUreg
        | Op::Arm64MOVWUreg => machine_computes(1, AuxRule::Nothing),
        Op::Arm64CMP | Op::Arm64CMPW => compares(2, AuxRule::Nothing),
        Op::Arm64CMPconst | Op::Arm64CMPWconst | Op::Arm64TSTWconst => compares(1, AuxRule::Int),
        Op::Arm64Equal
        | Op::Arm64NotEqual
        | Op::Arm64LessThan
        | Op::Arm64LessEqual
        | Op::Arm64GreaterThan
        | Op::Arm64GreaterEqual
        | Op::Arm64LessThanU
        | Op::Arm64LessEqualU
        | Op::Arm64GreaterThanU
        | Op::Arm64GreaterEqualU => reads_flags(0, AuxRule::Nothing),
        Op::Arm64CSEL => reads_flags(2, AuxRule::Int),
        Op::Arm64MOVBload => loads(Access::Signed(Width::W8)),
        Op::Arm64MOVHload => loads(Access::Signed(Width::W16)),
        Op::Arm64MOVWload => loads(Access::Signed(Width::W32)),
        Op::Arm64MOVBUload => loads(Access::Unsigned(Width::W8)),
        Op::Arm64MOVHUload => loads(Access::Unsigned(Width::W16)),
        Op::Arm64MOVWUload => loads(Access::Unsigned(Width::W32)),
        Op::Arm64MOVDload => loads(Access::Unsigned(Width::W64)),
        Op::Arm64MOVBstore => stores(Width::W8),
        Op::Arm64MOVHstore => stores(Width::W16),
        Op::Arm64MOVWstore => stores(Width::W32),
        Op::Arm64MOVDstore => stores(Width::W64),
        Op::Arm64LoweredNilCheck => machine(
            Takes::WordsAndMemory(1),
            Gives::Void,
            AuxRule::Nothing,
            Role::ChecksNil,
            Access::NoBytes,
        ),
        Op::Arm64CALLstatic => machine(
            Takes::AnyWordsAndMemory,
            Gives::Tuple,
            AuxRule::Sym,
            Role::Calls,
            Access::NoBytes,
        ),
    }
}

// A row of a generic op.
fn generic(takes: Takes, gives: Gives, aux: AuxRule, role: Role, access: Access) -> OpFacts
    ensures { result ≡ spec.generic takes gives aux role access }
{
    OpFacts {
        takes,
        gives,
        aux,
        role,
        access,
        machine: false,
    }
}

// A row of an op of the machine.
fn machine(takes: Takes, gives: Gives, aux: AuxRule, role: Role, access: Access) -> OpFacts
    ensures { result ≡ spec.machine takes gives aux role access }
{
    OpFacts {
        takes,
        gives,
        aux,
        role,
        access,
        machine: true,
    }
}

// A generic op that computes a word of so many words.
fn computes(words: u8, aux: AuxRule) -> OpFacts
    ensures { result ≡ spec.computes words aux }
{
    generic(
        Takes::Words(words),
        Gives::Word,
        aux,
        Role::Computes,
        Access::NoBytes,
    )
}

// An op of the machine that computes a word of so many words.
fn machine_computes(words: u8, aux: AuxRule) -> OpFacts
    ensures { result ≡ spec.machine_computes words aux }
{
    machine(
        Takes::Words(words),
        Gives::Word,
        aux,
        Role::Computes,
        Access::NoBytes,
    )
}

// One that computes flags of so many words.
fn compares(words: u8, aux: AuxRule) -> OpFacts
    ensures { result ≡ spec.compares words aux }
{
    machine(
        Takes::Words(words),
        Gives::Flags,
        aux,
        Role::Compares,
        Access::NoBytes,
    )
}

// One that computes a word of so many words and of flags.
fn reads_flags(words: u8, aux: AuxRule) -> OpFacts
    ensures { result ≡ spec.reads_flags words aux }
{
    machine(
        Takes::WordsAndFlags(words),
        Gives::Word,
        aux,
        Role::Computes,
        Access::NoBytes,
    )
}

// One that takes bytes from the memory at a pointer and its number.
fn loads(access: Access) -> OpFacts
    ensures { result ≡ spec.loads access }
{
    machine(
        Takes::WordsAndMemory(1),
        Gives::Word,
        AuxRule::Int,
        Role::Loads,
        access,
    )
}

// One that writes the low bytes of a word at a pointer and its number.
fn stores(width: Width) -> OpFacts
    ensures { result ≡ spec.stores width }
{
    machine(
        Takes::WordsAndMemory(2),
        Gives::Memory,
        AuxRule::Int,
        Role::Stores,
        Access::Unsigned(width),
    )
}
