// The place of each op among all.

ghost use Rattle.std.specs.Prelude.{◌≡◌, ◌+◌, ◌<◌};
ghost use Rattle.ssa_ir.specs.OpNames as spec;
ghost use Rattle.ssa_ir.specs.OpPlaces.{op_place};

use crate::op::{Op, Width, WidthPair};

impl Op {
    // Its place among all ops in the order in which they are declared, the widths of one in rising order.
    pub(crate) fn place(self) -> usize
        ensures { result ≡ op_place self }
    {
        match self {
            Op::Add(width) => by_width(0, width),
            Op::Sub(width) => by_width(4, width),
            Op::Mul(width) => by_width(8, width),
            Op::And(width) => by_width(12, width),
            Op::Or(width) => by_width(16, width),
            Op::Xor(width) => by_width(20, width),
            Op::Neg(width) => by_width(24, width),
            Op::Com(width) => by_width(28, width),
            Op::Div(width) => by_width(32, width),
            Op::DivU(width) => by_width(36, width),
            Op::Mod(width) => by_width(40, width),
            Op::ModU(width) => by_width(44, width),
            Op::Lsh(width) => by_width(48, width),
            Op::Rsh(width) => by_width(52, width),
            Op::RshU(width) => by_width(56, width),
            Op::Eq(width) => by_width(60, width),
            Op::Neq(width) => by_width(64, width),
            Op::Less(width) => by_width(68, width),
            Op::Leq(width) => by_width(72, width),
            Op::LessU(width) => by_width(76, width),
            Op::LeqU(width) => by_width(80, width),
            Op::EqB => 84,
            Op::NeqB => 85,
            Op::AndB => 86,
            Op::OrB => 87,
            Op::Not => 88,
            Op::EqPtr => 89,
            Op::NeqPtr => 90,
            Op::IsNonNil => 91,
            Op::IsInBounds => 92,
            Op::IsSliceInBounds => 93,
            Op::SignExt(widths) => by_widths(94, widths),
            Op::ZeroExt(widths) => by_widths(100, widths),
            Op::Trunc(widths) => by_widths(106, widths),
            Op::AddPtr => 112,
            Op::OffPtr => 113,
            Op::Load => 114,
            Op::Store => 115,
            Op::NilCheck => 116,
            Op::CondSelect => 117,
            Op::Const(width) => by_width(118, width),
            Op::ConstBool => 122,
            Op::ConstNil => 123,
            Op::SB => 124,
            Op::Addr => 125,
            Op::Phi => 126,
            Op::Copy => 127,
            Op::Arg => 128,
            Op::InitMem => 129,
            Op::StaticLECall => 130,
            Op::SelectN => 131,
            Op::MakeResult => 132,
            Op::Arm64MOVDconst => 133,
            Op::Arm64MOVDaddr => 134,
            Op::Arm64ADD => 135,
            Op::Arm64SUB => 136,
            Op::Arm64AND => 137,
            Op::Arm64OR => 138,
            Op::Arm64XOR => 139,
            Op::Arm64MUL => 140,
            Op::Arm64MULW => 141,
            Op::Arm64ADDconst => 142,
            Op::Arm64SUBconst => 143,
            Op::Arm64ANDconst => 144,
            Op::Arm64ORconst => 145,
            Op::Arm64XORconst => 146,
            Op::Arm64NEG => 147,
            Op::Arm64MVN => 148,
            Op::Arm64DIV => 149,
            Op::Arm64UDIV => 150,
            Op::Arm64DIVW => 151,
            Op::Arm64UDIVW => 152,
            Op::Arm64MOD => 153,
            Op::Arm64UMOD => 154,
            Op::Arm64MODW => 155,
            Op::Arm64UMODW => 156,
            Op::Arm64SLL => 157,
            Op::Arm64SRL => 158,
            Op::Arm64SRA => 159,
            Op::Arm64SLLconst => 160,
            Op::Arm64SRLconst => 161,
            Op::Arm64SRAconst => 162,
            Op::Arm64MOVBreg => 163,
            Op::Arm64MOVHreg => 164,
            Op::Arm64MOVWreg => 165,
            Op::Arm64MOVBUreg => 166,
            Op::Arm64MOVHUreg => 167,
            Op::Arm64MOVWUreg => 168,
            Op::Arm64CMP => 169,
            Op::Arm64CMPW => 170,
            Op::Arm64CMPconst => 171,
            Op::Arm64CMPWconst => 172,
            Op::Arm64TSTWconst => 173,
            Op::Arm64Equal => 174,
            Op::Arm64NotEqual => 175,
            Op::Arm64LessThan => 176,
            Op::Arm64LessEqual => 177,
            Op::Arm64GreaterThan => 178,
            Op::Arm64GreaterEqual => 179,
            Op::Arm64LessThanU => 180,
            Op::Arm64LessEqualU => 181,
            Op::Arm64GreaterThanU => 182,
            Op::Arm64GreaterEqualU => 183,
            Op::Arm64CSEL => 184,
            Op::Arm64MOVBload => 185,
            Op::Arm64MOVHload => 186,
            Op::Arm64MOVWload => 187,
            Op::Arm64MOVBUload => 188,
            Op::Arm64MOVHUload => 189,
            Op::Arm64MOVWUload => 190,
            Op::Arm64MOVDload => 191,
            Op::Arm64MOVBstore => 192,
            Op::Arm64MOVHstore => 193,
            Op::Arm64MOVWstore => 194,
            Op::Arm64MOVDstore => 195,
            Op::Arm64LoweredNilCheck => 196,
            Op::Arm64CALLstatic => 197,
        }
    }
}

// The place of the op of this width, where the one of the least width has the first.
fn by_width(first: usize, width: Width) -> usize
    requires { first < 198 }
    ensures { result ≡ spec.by_width width first (first + 1) (first + 2) (first + 3) }
{
    match width {
        Width::W8 => first,
        Width::W16 => first + 1,
        Width::W32 => first + 2,
        Width::W64 => first + 3,
    }
}

// The place of the op of these widths, where the one of the least widths has the first.
fn by_widths(first: usize, widths: WidthPair) -> usize
    requires { first < 198 }
    ensures { result ≡ spec.by_widths widths first (first + 1) (first + 2) (first + 3) (first + 4) (first + 5) }
{
    match widths {
        WidthPair::W8W16 => first,
        WidthPair::W8W32 => first + 1,
        WidthPair::W8W64 => first + 2,
        WidthPair::W16W32 => first + 3,
        WidthPair::W16W64 => first + 4,
        WidthPair::W32W64 => first + 5,
    }
}
