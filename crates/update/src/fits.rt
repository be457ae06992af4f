// Whether the rows in a buffer are of a well-formed model.
ghost use Rattle.std.specs.Prelude.{◌≡◌, ℕ, ◌+◌, ◌*◌, ◌≤◌, ◌<◌, length, get_or};
ghost use Rattle.table.specs.Constants.{most_params, row_names, row_bytes};
ghost use Rattle.update.specs.Parts.{Answers, needed_for, Needed, outside_of, RowFits, RowsFit};

use std::cmp::max;
use table::limits::{ROW_BYTES, ROW_CELLS, ROW_NAMES};

// More parameters than a routine can have: no row has the pair, and one comparison tells it, where an `Option` needs two.
const NEVER: u8 = ROW_NAMES as u8;

// All bits of a byte, and those above the three labels.
const ALL_BITS: u8 = 255;

const NO_LABEL_BITS: u8 = 248;

// How many parameters a routine must have for its row to have the pair (a, b), or NEVER.
fn needed_for(a: usize, b: usize) -> u8
    requires { (a < row_names) × (b < row_names) }
    ensures { result ≡ needed_for a b }
{
    if a == b {
        return NEVER;
    }
    if b == 0 {
        return NEVER;
    }
    max(a, b) as u8
}

// The same for all cells of a row: entry 8 * a + b is for the pair (a, b).
fn needed() -> [u8; ROW_CELLS]
    ensures { Needed result }
{
    let mut t = [NEVER; ROW_CELLS];
    for (i, n) in t.iter_mut().enumerate() {
        *n = needed_for(i / ROW_NAMES, i % ROW_NAMES);
    }
    t
}

// The bits that a cell may not have in a row for k parameters, where its pair needs n.
fn bits_outside(n: u8, k: u8) -> u8
    ensures { result ≡ outside_of n k }
{
    if k < n { ALL_BITS } else { NO_LABEL_BITS }
}

// Whether row r is one that a routine of k parameters may have.
fn row_fits(model: &[u8], r: usize, k: u8, needed: &[u8; ROW_CELLS]) -> bool
    requires { (row_bytes * r + row_bytes ≤ length model.now) × (k ≤ most_params) × Needed needed.now }
    ensures { Answers result (RowFits model.now r k) }
{
    let row = &model[ROW_BYTES * r..ROW_BYTES * r + ROW_BYTES];
    let mut bad = 0u8;
    for (cell, n) in row.iter().zip(needed) {
        bad |= *cell & bits_outside(*n, k);
    }
    bad == 0 && row[ROW_CELLS] <= 1
}

// Whether the rows are ones that the routines with these parameter counts may have.
pub fn rows_fit(ks: &[u8], model: &[u8]) -> bool
    requires { (row_bytes * length ks.now ≤ length model.now) × ((r : ℕ) → get_or ks.now r 0 ≤ most_params) }
    ensures { Answers result (RowsFit ks.now model.now) }
{
    let pairs = needed();
    for (r, k) in ks.iter().enumerate() {
        if !row_fits(model, r, *k, &pairs) {
            return false;
        }
    }
    true
}
