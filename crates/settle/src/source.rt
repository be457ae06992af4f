// What rows are worked out from, beside other rows, and how.
ghost use Rattle.std.specs.Prelude.{List, ℕ};
ghost use Rattle.settle.specs.Source.{BodyReadyIn, WorksIn, RowReadyIn, ImprovesIn, StartedIn, SettlesIn};

use crate::due;
use grid::Grid;
use rows::{Change, with_row};
use table::limits::MOST_ROUTINES;
use table::sections::Sections;

// A program that was surveyed: its two sections, where the body of each routine starts in the second, and the routines
// that call each, as bits.
#[derive(Clone, Copy)]
pub struct Source<'a> {
    pub sections: Sections<'a>,
    pub starts: &'a [usize],
    pub callers: &'a [u64; MOST_ROUTINES],
}

impl Source<'_> {
    // The pairs worked out in the body of routine r from the rows, as a grid.
    pub fn worked_out(&self, r: usize, rows: &[u8]) -> Grid
        requires { BodyReadyIn self.now r rows.now }
        ensures { WorksIn self.now r rows.now result }
    {
        let ks = self.sections.counts;
        let g = pairs::recorded(grid::empty(), &self.sections, ks[r], self.starts[r], rows);
        grid::close(g)
    }

    // Adds the pairs of a grid, worked out in the body of routine r, to its row.
    #[inline]
    pub fn improve(&self, r: usize, g: Grid, model: &mut [u8]) -> Change
        requires { RowReadyIn self.now r model.old }
        ensures { (rows : List ℕ) → WorksIn self.now r rows g → ImprovesIn self.now r rows model.old model.new
            result.cells result.last result.name }
    {
        let k = usize::from(self.sections.counts[r]);
        with_row(model, r, k, g)
    }

    // Works out the rows of the mask, and those of the callers of each row with a cell that changes, until none is
    // due. Gives the lowest name with a ring in each body of the mask, if it has one.
    pub fn settle_due(&self, mask: u64, model: &mut [u8]) -> [Option<u8>; MOST_ROUTINES]
        requires { StartedIn self.now mask model.old }
        ensures { SettlesIn self.now mask model.old model.new result }
    {
        let mut names = [None; MOST_ROUTINES];
        let mut left = mask;
        let mut last = 0;
        // The mask grows while it is worked through.
        while left != 0 {
            let r = due::next_due(left, last);
            last = r;
            left -= 1 << r;
            let g = self.worked_out(r, model);
            let w = self.improve(r, g, model);
            names[r] = w.name;
            if w.cells {
                left |= self.callers[r];
            }
        }
        names
    }
}
