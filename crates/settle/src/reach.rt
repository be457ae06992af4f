// The routines that calls reach, as bits. `calls` has for each routine the routines that its body calls, as bits.
ghost use Rattle.grid.specs.Rows.{Bits};
ghost use Rattle.settle.specs.Reach.{CanReach, Reachable};

use crate::due::highest;

// The routines that calls reach from routine `from`: the calls of each are followed once, from a mask that grows while it
// is worked through. With callers for calls, these are `from` and the routines that reach it.
pub fn reached(calls: &[u64], from: usize) -> u64
    requires { CanReach calls.now from }
    ensures { Bits result (Reachable calls.now from) }
{
    let first = 1u64 << from;
    let mut mask = calls[from] | first;
    let mut left = mask ^ first;
    while left != 0 {
        let r = highest(left);
        let next = calls[r] | mask;
        left = (left - (1 << r)) | (next ^ mask);
        mask = next;
    }
    mask
}
