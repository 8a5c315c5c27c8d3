// The numbers by which values and blocks are named.

/// A value's number, as in `v7`: 1 to 1,000,000 in a text, larger for values that a pass made.
#[derive(Clone, Copy, Debug, Default, PartialEq, Eq, PartialOrd, Ord, Hash)]
pub struct ValueId(pub u32);

/// A block's number, as in `b7`, or in `e7` where the block was put on a split critical edge.
#[derive(Clone, Copy, Debug, Default, PartialEq, Eq, PartialOrd, Ord, Hash)]
pub struct BlockId {
    pub split: bool,
    pub n: u32,
}
