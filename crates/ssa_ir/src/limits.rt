// How much a text, a unit, a function, a case and a listing may have. Each limit is written here and nowhere else:
// definitions, contracts and code cite these numbers.

// ---- texts

/// The bytes of a text of units.
pub const MAX_INPUT_BYTES: usize = 8_388_608;

/// The bytes of a text of a listing.
pub const MAX_LISTING_BYTES: usize = 1_073_741_824;

/// The bytes of a line of a unit's text, without its LF.
pub const MAX_LINE_BYTES: usize = 4_096;

/// The bytes of a line of a listing, without its LF.
pub const MAX_LISTING_LINE_BYTES: usize = 16_384;

// ---- units

/// The functions of a unit.
pub const MAX_FUNCTIONS: usize = 256;

/// The `sig` lines of a unit.
pub const MAX_SIGS: usize = 1_024;

/// The cases of a unit.
pub const MAX_CASES: usize = 64;

/// The parameters of a signature.
pub const MAX_PARAMS: usize = 64;

/// The results of a signature, and the words of a tuple before its memory.
pub const MAX_RESULTS: usize = 64;

// ---- functions

/// The values of a function in a text.
pub const MAX_VALUES: usize = 16_384;

/// The blocks of a function in a text.
pub const MAX_BLOCKS: usize = 1_024;

/// The arguments of a value, and the predecessors of a block.
pub const MAX_ARGS: usize = 380;

/// The greatest number of a value or block in a text.
pub const MAX_NUMBER: u64 = 1_000_000;

/// The blocks of a function behind placing: its own, and one on each critical edge.
pub const MAX_PLACED_BLOCKS: usize = 3 * MAX_BLOCKS;

/// The values of a function behind lowering.
pub const MAX_LOWERED_VALUES: usize = 5 * MAX_VALUES;

/// The bytes of a frame.
pub const MAX_FRAME_BYTES: usize = 65_520;

// ---- cases

/// The turns of a case.
pub const MAX_BOUND: u64 = 1_000_000;

/// The replies of a case.
pub const MAX_REPLIES: usize = 4_096;

/// The words of an `args` or a `reply` line that are kept: no signature has more parameters or results.
pub const MAX_WORDS: usize = 64;

/// The words of one list of junk.
pub const MAX_JUNK_WORDS: usize = 8_192;

/// The bytes of memory on one line of a case.
pub const MAX_PIECE_BYTES: usize = 1_024;

/// The bytes of memory on all lines of a case.
pub const MAX_CASE_BYTES: usize = 65_536;
