// Grids of labelled pairs: recording, closing, and the lowest ring name.
#![tactic(auto)]

ghost use Rattle.std.specs.Prelude.{◌^◌, ◌<◌};
ghost use Rattle.table.specs.Constants.{most_names};
ghost use Rattle.rules.specs.Number.{labels};
ghost use Rattle.grid.specs.Rows.{Bits};
ghost use Rattle.grid.specs.Grid.{In, Small, AllKept, KeptIn, Empty, Added, Closure, RingName, Square};

mod closing;
mod masks;
mod planes;
mod rows;

use masks::{has, one};
use rules::SEVERAL;
use table::limits::MOST_NAMES;

// Row a, column b: the labels of the pair (a, b), as a mask of label numbers.
// It is the plain array that callers hold and pass by value, so what is known of a grid or a label's number stands in clauses.
pub type Grid = [[u16; MOST_NAMES]; MOST_NAMES];

// The grid with no pair.
pub fn empty() -> Grid
    ensures { Empty result }
{
    [[0; MOST_NAMES]; MOST_NAMES]
}

// The labels of m that a pair (a, b) is kept with: several alone, where its ends are equal.
fn kept(a: usize, b: usize, m: u16) -> u16
    ensures { Bits result (KeptIn a b m) }
{
    if a == b { m & one(SEVERAL) } else { m }
}

// Adds the pair (a, b) to the grid in place, for each label of m with which it is kept.
pub fn put_labels(g: &mut Grid, a: usize, b: usize, m: u16)
    requires { (a < most_names) × (b < most_names) × (m < 2 ^ labels) × Small g.old × Square g.old }
    ensures added { Added g.old a b (In m) g.new }
    ensures square { Square g.new }
{
    g[a][b] |= kept(a, b, m);
}

// The grid with each pair that follows.
pub fn close(mut g: Grid) -> Grid
    requires { Small g × AllKept g }
    ensures { Closure g result }
{
    closing::close_in(&mut g);
    g
}

// The lowest name with a ring, if there is one.
pub fn ring_name(g: &Grid) -> Option<usize>
    ensures { RingName g.now result }
{
    for (x, row) in g.iter().enumerate() {
        if has(row[x], SEVERAL) {
            return Some(x);
        }
    }
    None
}
