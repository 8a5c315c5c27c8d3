// Why a text is refused.

ghost use Rattle.std.specs.Prelude.{◌≡◌};
ghost use Rattle.ssa_lines.specs.declared.refusal.TextRefusal.TheVariants.{Fault, NoMemory as Wanting};

/// A limit that a text passes.
#[derive(Clone, Copy, Debug, PartialEq, Eq)]
pub enum LimitKind {
    /// The bytes of a line: 4,096.
    LineBytes,
    /// The functions of a unit: 256.
    Functions,
    /// The `sig` lines of a unit: 1,024.
    Sigs,
    /// The values of a function: 8,192.
    Values,
    /// The blocks of a function: 1,024.
    Blocks,
    /// The parameters of a signature: 64.
    Params,
    /// The results of a signature, or the words of a tuple: 64.
    Results,
    /// The arguments of a value, or the predecessors of a block: 380.
    Args,
    /// The cases of a unit: 64.
    Cases,
    /// The turns that a case's run may take: 1,000,000.
    Bound,
    /// The replies of a case: 4,096.
    Replies,
    /// The bytes of memory on one line of a case: 1,024; on all lines of a case: 65,536.
    MemBytes,
    /// The words of one list of junk: 8,192.
    JunkWords,
}

/// The first fault of a text, with the number of its line, from 1.
#[derive(Clone, Copy, Debug, PartialEq, Eq)]
pub enum TextFault {
    /// A byte that no line may have.
    BadByte(u32),
    /// A line of no form, or out of place.
    BadLine(u32),
    /// A value whose op is no generic one.
    UnknownOp(u32),
    /// An integer, or the number of a value or block, outside its range.
    NumberTooLarge(u32),
    /// A number or a name that is given twice.
    Duplicate(u32),
    /// A value or a block that isn't there, or the function of a case.
    UnknownRef(u32),
    /// A limit that is passed.
    Limit(LimitKind, u32),
}

/// Why nothing was read of a text.
#[derive(Clone, Copy, Debug, PartialEq, Eq)]
pub enum TextRefusal {
    /// The text has a fault, and this is the first.
    Fault(TextFault),
    /// There was no memory for what the text spells.
    NoMemory,
}

impl From<TextFault> for TextRefusal {
    ghost from_gives = { λ fault refusal. refusal ≡ Fault fault };

    fn from(fault: TextFault) -> TextRefusal {
        TextRefusal::Fault(fault)
    }
}

impl From<gossa_base::NoMemory> for TextRefusal {
    ghost from_gives = { λ error refusal. refusal ≡ Wanting };

    fn from(_error: gossa_base::NoMemory) -> TextRefusal {
        TextRefusal::NoMemory
    }
}
