// A grid as one relation a label, from the second name of a pair to the first: the planes, and their mixes.
ghost use Rattle.std.specs.Prelude.{◌≡◌, ◌<◌};
ghost use Rattle.rules.specs.Number.{labels};
ghost use Rattle.grid.specs.Rows.{Has, Edge, SomeRow, Same, Bits};
ghost use Rattle.grid.specs.Grid.{Square};
ghost use Rattle.grid.specs.Planes.{Labelled, RowLabels, Sole, Listed, PlanesOf, Within, Chosen, Clashing, MixOf, SeveralOf};

use crate::masks::{has, one};
use crate::rows::Rows;
use crate::{Grid, rows};
use rules::{LABELS, SEVERAL, UNKNOWN};
use table::limits::MOST_NAMES;

// The labels of the pairs from each name.
fn row_labels(g: &Grid) -> Rows
    requires { Square g.now }
    ensures { Same (Edge result) (RowLabels g.now) }
{
    let mut next = [0; MOST_NAMES];
    for (i, row) in g.iter().enumerate() {
        let m = rows::any(row);
        if m != 0 {
            next[i] = m;
        }
    }
    next
}

// A grid beside the labels of its pairs: those of the pairs from each name, and those of all.
#[derive(Clone, Copy)]
pub struct Labels<'a> {
    pub grid: &'a Grid,
    pub rows: Rows,
    pub some: u16,
    pub ghost listed: { Listed grid.now rows some },
}

impl<'a> Labels<'a> {
    // The labels of a grid.
    pub fn of(grid: &'a Grid) -> Labels<'a>
        requires { Square grid.now }
        ensures same_grid { result.grid.now ≡ grid.now }
        ensures rows { Same (Edge result.rows) (RowLabels grid.now) }
        ensures some { Bits result.some (SomeRow result.rows) }
    {
        let rows = row_labels(grid);
        let some = rows::any(&rows);
        Labels { grid, rows, some }
    }

    // The pairs that label l has.
    pub fn plane(&self, l: usize) -> Rows
        requires { l < labels }
        ensures { Same (Edge result) (Labelled self.now.grid.now l) }
    {
        let mut next = [0; MOST_NAMES];
        for (i, row) in self.grid.iter().enumerate() {
            if has(self.rows[i], l) {
                let t = rows::spread(next, *row, l, one(i));
                next = t;
            }
        }
        next
    }

    // The pairs of each label.
    pub fn planes(&self) -> Planes
        ensures { PlanesOf self.now.grid.now result.planes }
    {
        let mut next = Planes {
            planes: [[0; MOST_NAMES]; LABELS],
            some: self.some,
        };
        for (l, pairs) in next.planes.iter_mut().enumerate() {
            if has(self.some, l) {
                *pairs = self.plane(l);
            }
        }
        next
    }
}

// The one label of a mask, if it is own or a fork.
pub fn sole(c: u16) -> Option<usize>
    ensures { Sole c result }
{
    let l = c.trailing_zeros() as usize;
    if l < UNKNOWN && c == one(l) {
        Some(l)
    } else {
        None
    }
}

// The labels of c that combine to several with l after them: all, but for l itself where that combines to l.
pub fn clashing(l: usize, c: u16) -> u16
    requires { l < labels }
    ensures { Bits result (λ m. Has c m × Clashing l m) }
{
    if rules::combine(l, l) == SEVERAL as u8 {
        c
    } else {
        c & !one(l)
    }
}

// Plane l: the pairs with label l, each from its second name to its first; some has the planes that are not empty.
#[derive(Clone, Copy)]
pub struct Planes {
    pub planes: [Rows; LABELS],
    pub some: u16,
    pub ghost within: { Within planes some },
}

impl Planes {
    // The pairs of the labels in the mask c.
    fn chosen(&self, c: u16) -> Rows
        ensures { Same (Edge result) (Chosen self.now.planes c) }
    {
        let mut next = [0; MOST_NAMES];
        for (l, pairs) in self.planes.iter().enumerate() {
            if has(c, l) {
                rows::join(&mut next, pairs);
            }
        }
        next
    }

    // The pairs labelled several, and those that follow from two with that label.
    fn mixed(&self) -> Rows
        ensures { Same (Edge result) (MixOf self.now.planes) }
    {
        let mut next = self.planes[SEVERAL];
        for (l, pairs) in self.planes.iter().enumerate() {
            if has(self.some, l) {
                let t = rows::product(next, *pairs, self.chosen(clashing(l, self.some)));
                next = t;
            }
        }
        next
    }

    // The mixes, with walks of any labels before and after them.
    pub fn several(&self) -> Rows
        ensures { Same (Edge result) (SeveralOf self.now.planes) }
    {
        let m = self.mixed();
        if rows::any(&m) == 0 {
            return m;
        }
        let walks = rows::close_rows(self.chosen(self.some));
        let before = rows::product(m, walks, m);
        rows::product(before, before, walks)
    }
}
