// The pairs that one LOCK or CALL records.
ghost use Rattle.std.specs.Prelude.{◌≡◌, ◌+◌, ◌^◌, ◌≤◌, ◌<◌, length};
ghost use Rattle.table.specs.Constants.{most_forks, row_names, row_cells};
ghost use Rattle.rules.specs.Number.{label_of, labels};
ghost use Rattle.rules.specs.Model as model;
ghost use Rattle.grid.specs.Grid.{Small, Square};
ghost use Rattle.pairs.specs.Walks.{held_by, walk_of, LowHolder};
ghost use Rattle.pairs.specs.Gains.{Gains, HoldersGive, CallPairs, MaskGives, Placed, roots_of};
ghost use Rattle.pairs.specs.Gains.{CallReady, RowReady, LineGives, RowGives};

use crate::walk::{Level, Levels, Place};
use grid::{Grid, put_labels};
use rules::{SEVERAL_BIT, UNKNOWN_BIT};
use table::limits::{ROW_BYTES, ROW_NAMES};
use table::sections::Sections;

// A CALL whose pairs are recorded: the levels and what holds at the innermost, the names that it passes, the rows, and
// where that of its routine starts.
#[derive(Clone, Copy)]
pub struct Call<'a> {
    levels: &'a Levels,
    here: Level,
    names: &'a [u8],
    rows: &'a [u8],
    first: usize,
}

// The labels of a cell of a called row, placed in the thread: own is the thread's.
fn placed(cell: u8, thread: u8) -> u16
    requires { thread ≤ most_forks }
    ensures { Placed cell thread result }
{
    let m = u16::from(cell);
    let own = (m % 2) << u16::from(thread);
    let unknown = ((m >> 1) % 2) << UNKNOWN_BIT;
    let several = ((m >> 2) % 2) << SEVERAL_BIT;
    own | unknown | several
}

// Adds the pair (a, b) to the grid in place, for each label of m with which it is kept, unless an end is nothing.
fn put_cell(g: &mut Grid, a: Option<u8>, b: Option<u8>, m: u16)
    requires { LowHolder a × LowHolder b × (m < 2 ^ labels) × Small g.old × Square g.old }
    ensures gains { Gains g.old (MaskGives (held_by a) (held_by b) m) g.new }
    ensures square { Square g.new }
{
    if let Some(a) = a {
        if let Some(b) = b {
            put_labels(g, usize::from(a), usize::from(b), m);
        }
    }
}

// Adds the pair of a LOCK to the grid in place: from the holder outside it to the one inside; t is the thread. Where
// they are the same, as where the root of the name is in the nest already, or where one is nothing, there is no pair.
pub fn locked(g: &mut Grid, h: Option<u8>, inside: Option<u8>, t: u8)
    requires { LowHolder h × LowHolder inside × (t ≤ most_forks) × Small g.old × Square g.old }
    ensures gains { Gains g.old (HoldersGive (held_by h) (held_by inside) (label_of t))
        g.new }
    ensures square { Square g.new }
{
    put_cell(g, h, inside, 1u16 << u16::from(t));
}

impl Call<'_> {
    // The caller's name for name i of the routine that is called: the holder for name 0, else the root of a name.
    fn renamed(&self, i: usize) -> Option<u8>
        requires { RowReady self.now 0 0 × (i ≤ length self.now.names.now) }
        ensures name { held_by result ≡ model.renamed (held_by self.now.here.holder) (roots_of self.now) i }
        ensures low { LowHolder result }
    {
        if i == 0 {
            return self.here.holder;
        }
        let x = self.names[i - 1];
        let name = self.levels.root_of(x);
        Some(name)
    }

    // Adds the pairs of a line of the row, whose cells start at `first` and whose first end is a.
    fn put_line(&self, g: &mut Grid, first: usize, a: Option<u8>)
        requires { RowReady self.now first row_names × LowHolder a × Small g.old × Square g.old }
        ensures gains { Gains g.old (LineGives self.now.rows.now first (roots_of self.now) (label_of self.now.here.thread)
            (held_by self.now.here.holder) (held_by a) (length self.now.names.now + 1)) g.new }
        ensures square { Square g.new }
    {
        let n = self.names.len() + 1;
        for (j, cell) in self.rows[first..first + n].iter().enumerate() {
            if *cell != 0 {
                let b = self.renamed(j);
                put_cell(g, a, b, placed(*cell, self.here.thread));
            }
        }
    }

    // Adds the pairs of the row: a line for each name of the routine that is something here.
    fn put_row(&self, g: &mut Grid)
        requires { RowReady self.now self.now.first row_cells × Small g.old × Square g.old }
        ensures gains { Gains g.old (RowGives self.now.rows.now self.now.first (roots_of self.now)
            (label_of self.now.here.thread) (held_by self.now.here.holder) (length self.now.names.now + 1)
            (length self.now.names.now + 1)) g.new }
        ensures square { Square g.new }
    {
        for i in 0..self.names.len() + 1 {
            let a = self.renamed(i);
            if a.is_some() {
                self.put_line(g, self.first + ROW_NAMES * i, a);
            }
        }
    }
}

// Adds the pairs that the CALL at the place takes from the row of its routine.
pub fn called(g: &mut Grid, t: &Sections<'_>, p: &Place, v: &Levels, rows: &[u8])
    requires { CallReady t.now.counts.now t.now.bodies.now rows.now (walk_of p.now v.now)
        × Small g.old × Square g.old }
    ensures gains { Gains g.old (CallPairs t.now.counts.now t.now.bodies.now rows.now (walk_of p.now v.now)) g.new }
    ensures square { Square g.new }
{
    let s = t.bodies;
    let r = usize::from(s[p.at + 1]);
    let k = usize::from(t.counts[r]);
    let from = p.at + 2;
    let call = Call {
        levels: v,
        here: v.at(p.top),
        names: &s[from..from + k],
        rows,
        first: ROW_BYTES * r,
    };
    call.put_row(g);
}
