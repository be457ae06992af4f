// The limits of a table, the sizes that follow from them, and the codes of its items.

// How many routines a table has at most.
pub const MOST_ROUTINES: usize = 64;

// How many parameters a routine has at most.
pub const MOST_PARAMS: u8 = 7;

// How many bytes the body section has at most.
pub const MOST_BYTES: usize = 4096;

// How many blocks are open at one time at most, the body not counted.
pub const MOST_OPEN: u64 = 16;

// How many levels a body has: itself, and the blocks that may be open at one time.
pub const LEVELS: usize = MOST_OPEN as usize + 1;

// How many NEW and MIRROR stand in a routine at most.
pub const MOST_LOCALS: u64 = 8;

// How many FORK stand in a routine at most.
pub const MOST_FORKS: u64 = 8;

// How many names a routine has at most: name 0, its parameters and its locals.
pub const MOST_NAMES: usize = 1 + MOST_PARAMS as usize + MOST_LOCALS as usize;

// How many names a row of the model has cells for: name 0 and the parameters.
pub const ROW_NAMES: usize = 1 + MOST_PARAMS as usize;

// How many cells a row has.
pub const ROW_CELLS: usize = ROW_NAMES * ROW_NAMES;

// How many bytes a row has: its cells and the ring's byte.
pub const ROW_BYTES: usize = ROW_CELLS + 1;

// The codes are the bytes of the format: a reader matches on the byte itself, and any other byte is refused.
pub const END: u8 = 0x00;

pub const NEW: u8 = 0x01;

pub const LOCK: u8 = 0x02;

pub const FORK: u8 = 0x03;

pub const CHOICE: u8 = 0x04;

pub const OTHER: u8 = 0x05;

pub const CALL: u8 = 0x06;

pub const MIRROR: u8 = 0x07;
