// The limits of the runner, the byte that parts the alternatives, and the sizes and marks that follow from the limits.
use table::limits::MOST_NAMES;

// How many threads a run has at most.
pub const MOST_THREADS: usize = 16;

// How many locks a run makes at most.
pub const MOST_LOCKS: usize = 64;

// How many blocks and calls a thread has open at most.
pub const MOST_FRAMES: usize = 64;

// The lowest byte that takes the second alternative of a CHOICE.
pub const SECOND_SIDE: u8 = 128;

// How many entries the names of a record have: a level for the body and one for each open block or call.
pub const ALL_NAMES: usize = (MOST_FRAMES + 1) * MOST_NAMES;

// What is open, where it is no lock: an alternative, or the body of a CALL.
pub const ALTERNATIVE: u8 = MOST_LOCKS as u8;

pub const CALLED: u8 = MOST_LOCKS as u8 + 1;
