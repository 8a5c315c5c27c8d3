// Where the arguments and results of a call stand.

/// The place of an argument or a result, by the manner of Go's ABIInternal: a register, or a word of the stack.
#[derive(Clone, Copy, Debug, PartialEq, Eq)]
pub enum AbiPlace {
    /// A register, from R0 on.
    Reg(u32),
    /// An argument word, from 0: in the caller's frame an outgoing word of the same number.
    Word(u32),
}
