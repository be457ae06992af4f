// The routines whose rows are due, as bits.
ghost use Rattle.std.specs.Prelude.{◌≤◌, ◌<◌, length};
ghost use Rattle.std.specs.Iterator.{at_most};
ghost use Rattle.table.specs.Constants.{most_routines};
ghost use Rattle.grid.specs.Rows.{Has};
ghost use Rattle.settle.specs.Due.{Highest, All, Below, CallerAdded, Callers, Takes};

use table::limits::MOST_ROUTINES;

// The highest routine of a mask.
#[inline]
pub fn highest(mask: u64) -> usize
    requires { 0 < mask }
    ensures { Highest mask result }
{
    (63 - mask.leading_zeros()) as usize
}

// The routines of a mask, the highest first.
#[derive(Clone, Copy)]
pub struct Routines(pub u64);

impl Iterator for Routines {
    type Item = usize;

    ghost next_gives = { λ s r t. Takes s.0 r t.0 };

    ghost remaining = { λ s. at_most s.0 };

    #[inline]
    fn next(&mut self) -> Option<usize> {
        if self.0 == 0 {
            return None;
        }
        let r = highest(self.0);
        self.0 -= 1 << r;
        Some(r)
    }
}

// The routine of a mask that is next in a sweep downwards past `last`: routine 0 is left for when no other is due.
pub fn next_due(left: u64, last: usize) -> usize
    requires { (0 < left) × (last < most_routines) }
    ensures { Has left result }
{
    let below = left % (1 << last);
    if 1 < below {
        highest(below)
    } else {
        highest(left)
    }
}

// All routines below n.
pub fn all(n: usize) -> u64
    requires { n ≤ most_routines }
    ensures { All n result }
{
    let mut mask = 0;
    for r in 0..n {
        mask += 1 << r;
    }
    mask
}

// Adds routine r to the callers of each routine of the mask.
fn add_caller(callers: &mut [u64; MOST_ROUTINES], mask: u64, r: usize)
    requires { (r < most_routines) × Below callers.old r }
    ensures { CallerAdded callers.old mask r callers.new }
{
    for q in Routines(mask) {
        callers[q] |= 1 << r;
    }
}

// Leaves, for each routine, the routines that call it, where no caller is known.
pub fn add_callers(calls: &[u64], callers: &mut [u64; MOST_ROUTINES])
    requires { (length calls.now ≤ most_routines) × Below callers.old 0 }
    ensures { Callers calls.now callers.new }
{
    for (r, mask) in calls.iter().enumerate() {
        add_caller(callers, *mask, r);
    }
}
