// The body reader, in the form that is asked for: the lent body section's slice beside an offset, and thin functions over
// it. No byte is copied.
use crate::bodies::{Cursor, Reading};
use crate::limits::MOST_OPEN;
use crate::refusal::Refusal;

// A reader of bodies: the body section, and the offset at which the next body starts.
#[derive(Clone, Copy)]
pub struct Body<'a> {
    pub section: &'a [u8],
    pub at: usize,
}

impl<'a> Body<'a> {
    ghost use Rattle.std.specs.Prelude.{◌≡◌};
    ghost use Rattle.table.specs.Laws.Readers.{body_answer, AtBody};

    // The reader of a section at an offset.
    pub fn new(section: &'a [u8], at: usize) -> Self
        ensures { (result.section ≡ section.entry) × (result.at ≡ at) }
    {
        Body { section, at }
    }

    // Reads the body at the reader's offset, of a routine with `own` parameters, to the cursor after it; ks has the parameter
    // counts of all routines, and `items` items stand before the body.
    pub fn read(self, ks: &[u8], own: u64, items: u64) -> Result<Cursor, Refusal>
        requires { AtBody self.at own items }
        ensures { result ≡ body_answer ks.now self.entry.section.now self.entry.at own items }
    {
        let body = Reading {
            counts: ks,
            section: self.section,
            own,
        };
        let start = Cursor {
            at: self.at,
            scope: (1 << (own + 1)) - 2,
            locals: 0,
            forks: 0,
            items,
        };
        body.read_block(start, MOST_OPEN, false)
    }
}
