// Labels as numbers, since a cell of a grid is a mask of them, and how they combine: 0 is the running thread, then come
// the forks, and then two more.
#![tactic(auto)]

ghost use Rattle.std.specs.Prelude.{◌≡◌, ◌<◌};
ghost use Rattle.rules.specs.Label as label;
ghost use Rattle.rules.specs.Number.{number, label_of, labels};

use table::limits::MOST_FORKS;

// one unnamed thread
pub const UNKNOWN: usize = MOST_FORKS as usize + 1;
// two or more threads
pub const SEVERAL: usize = MOST_FORKS as usize + 2;
// how many labels there are
pub const LABELS: usize = MOST_FORKS as usize + 3;

// the place of unknown in a mask of labels
pub const UNKNOWN_BIT: u16 = UNKNOWN as u16;
// the place of several
pub const SEVERAL_BIT: u16 = SEVERAL as u16;

// the label of a pair that follows from pairs labelled a and b
pub fn combine(a: usize, b: usize) -> u8
    requires { (a < labels) × (b < labels) }
    ensures { result ≡ number (label.combine (label_of a) (label_of b)) }
{
    if a == b && a < UNKNOWN {
        a as u8
    } else {
        SEVERAL as u8
    }
}
