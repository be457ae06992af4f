// Rows of the model buffer: adding the row of a closed grid, and clearing rows.
#![tactic(auto)]

ghost use Rattle.std.specs.Prelude.{◌+◌, ◌*◌, ◌<◌, ◌≤◌, length};
ghost use Rattle.table.specs.Constants.{most_params, row_cells, row_bytes};
ghost use Rattle.grid.specs.Rows.{Bits};
ghost use Rattle.rows.specs.Model.{ShapedRow, RowAdded, Cleared};
ghost use Rattle.rows.specs.Added.{CellBit, AtByte, AtCell, AtName, InRow, InGrid, Added};

use grid::Grid;
use rules::{SEVERAL_BIT, UNKNOWN_BIT};
use table::limits::{MOST_NAMES, ROW_BYTES, ROW_CELLS, ROW_NAMES};

// The byte of a cell for a mask of label numbers: 1 own, 2 unknown or a fork, 4 several.
fn cell_byte(m: u16) -> u8
    ensures { Bits result (CellBit m) }
{
    let ends = m % 2 + 4 * ((m >> SEVERAL_BIT) % 2);
    if (m >> 1) % (1 << UNKNOWN_BIT) == 0 {
        ends as u8
    } else {
        (ends + 2) as u8
    }
}

// Adds the bits of v to byte i, and says whether that changed it.
fn with_byte(model: &mut [u8], i: usize, v: u8) -> bool
    requires { i < length model.old }
    ensures { Added (AtByte i v) model.old model.new result }
{
    let old = model[i];
    let new = old | v;
    if new == old {
        return false;
    }
    model[i] = new;
    true
}

// Adds the labels of m for the pair (a, b) to byte i, its cell, if the names differ.
fn with_cell(model: &mut [u8], i: usize, a: usize, b: usize, m: u16) -> bool
    requires { i < length model.old }
    ensures { Added (AtCell i a b m) model.old model.new result }
{
    if a == b || m == 0 {
        return false;
    }
    with_byte(model, i, cell_byte(m))
}

// Adds the pairs from a to the names 0 to k, with the masks of row, to the cells of the row that begins at start.
fn with_cells(model: &mut [u8], start: usize, a: usize, row: &[u16; MOST_NAMES], k: usize) -> bool
    requires { (a ≤ most_params) × (k ≤ most_params) × (start + row_cells ≤ length model.old) }
    ensures { Added (InRow start a row.now (k + 1)) model.old model.new result }
{
    let mut changed = false;
    for (b, m) in row[..k + 1].iter().enumerate() {
        changed |= with_cell(model, start + ROW_NAMES * a + b, a, b, *m);
    }
    changed
}

// Adds the pairs of the names 0 to k to the cells of the row that begins at start.
fn with_pairs(model: &mut [u8], start: usize, g: &Grid, k: usize) -> bool
    requires { (k ≤ most_params) × (start + row_cells ≤ length model.old) }
    ensures { Added (InGrid start g.now (k + 1) (k + 1)) model.old model.new result }
{
    let mut changed = false;
    for (a, row) in g[..k + 1].iter().enumerate() {
        changed |= with_cells(model, start, a, row, k);
    }
    changed
}

// Sets byte i if there is a ring.
fn with_ring(model: &mut [u8], i: usize, ring: Option<usize>) -> bool
    requires { i < length model.old }
    ensures { Added (AtName i ring) model.old model.new result }
{
    ring.is_some() && with_byte(model, i, 1)
}

// What adding a row gives: whether that changed its cells, and whether its last byte; and the lowest name with a ring, if
// there is one.
#[derive(Clone, Copy, Debug, PartialEq, Eq)]
pub struct Change {
    pub cells: bool,
    pub last: bool,
    pub name: Option<u8>,
}

// Adds the row that the closed grid g gives a routine of k parameters to row r.
pub fn with_row(model: &mut [u8], r: usize, k: usize, g: Grid) -> Change
    requires { (k ≤ most_params) × (row_bytes * r + row_bytes ≤ length model.old) × ShapedRow model.old r }
    ensures { RowAdded model.old model.new r k g result.cells result.last result.name }
{
    let start = ROW_BYTES * r;
    let ring = grid::ring_name(&g);
    let cells = with_pairs(model, start, &g, k);
    let last = with_ring(model, start + ROW_CELLS, ring);
    let name = ring.map(|x| x as u8);
    Change { cells, last, name }
}

// Sets the bytes from start to end to zero.
pub fn clear(model: &mut [u8], start: usize, end: usize)
    requires { (start ≤ end) × (end ≤ length model.old) }
    ensures { Cleared start end model.old model.new }
{
    model[start..end].fill(0);
}
