// The two sections of a table that is accepted, as the calls above the check take them.
ghost use Rattle.std.specs.Prelude.{◌≡◌};
ghost use Rattle.table.specs.Laws.Passing.{past_item, Passable};
ghost use Rattle.table.specs.Laws.Splits.{Splits};

use crate::check;
use crate::limits::{CALL, LOCK, MIRROR};
use crate::refusal::Refusal;

// The parameter counts of the routines, and the bytes of their bodies.
#[derive(Clone, Copy)]
pub struct Sections<'a> {
    pub counts: &'a [u8],
    pub bodies: &'a [u8],
}

impl<'a> Sections<'a> {
    // Checks a whole table and takes it apart.
    pub fn of(table: &'a [u8]) -> Result<Sections<'a>, Refusal>
        ensures { Splits table.now result }
    {
        let accepted = check(table)?;
        let n = accepted.routines as usize;
        Ok(Sections {
            counts: &table[1..n + 1],
            bodies: &table[n + 3..],
        })
    }

    // The offset past the item at `at`.
    pub fn past(&self, at: usize) -> usize
        requires { Passable self.now.counts.now self.now.bodies.now at }
        ensures { result ≡ past_item self.now.counts.now self.now.bodies.now at }
    {
        let s = self.bodies;
        match s[at] {
            LOCK | MIRROR => at + 2,
            CALL => {
                let r = usize::from(s[at + 1]);
                at + 2 + usize::from(self.counts[r])
            }
            _ => at + 1,
        }
    }
}
