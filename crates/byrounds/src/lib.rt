// The rows of the least model, worked out in rounds, each from what the one before left; and how many these are.
#![tactic(auto)]

ghost use Rattle.std.specs.Prelude.{◌+◌, ◌*◌, ◌≤◌, length};
ghost use Rattle.table.specs.Constants.{row_cells, row_bytes};
ghost use Rattle.byrounds.specs.Round.{Copied, CanPass, PassedOn};
ghost use Rattle.byrounds.specs.Source.{RoundReadyIn, RoundedIn, AllZeroIn, CanBeginIn, RoundsDoneIn};

use rows::clear;
use settle::due::{Routines, all};
use settle::source::Source;
use table::limits::{MOST_ROUTINES, ROW_BYTES, ROW_CELLS};

// Up to so many routines the rows of the round before are kept in a short array, as a long one takes time to clear.
const FEW_ROUTINES: usize = 8;

// One round: works out the rows that are due from those of the round before, and leaves the lowest name with a ring
// in the body of each, if it has one. Gives the routines that have a cell which it changed, as bits, or None if it changed
// nothing.
fn round(
    t: &Source<'_>,
    due: u64,
    old: &[u8],
    model: &mut [u8],
    names: &mut [Option<u8>; MOST_ROUTINES],
) -> Option<u64>
    requires { RoundReadyIn t.now due old.now model.old names.old }
    ensures { RoundedIn t.now due old.now
        model.old model.new names.old names.new result }
{
    let mut changed = false;
    let mut moved = 0;
    for r in Routines(due) {
        let g = t.worked_out(r, old);
        let w = t.improve(r, g, model);
        names[r] = w.name;
        changed |= w.cells | w.last;
        if w.cells {
            moved |= 1 << r;
        }
    }
    if changed { Some(moved) } else { None }
}

// Copies the cells of row r.
fn copy_cells(model: &[u8], r: usize, old: &mut [u8])
    requires { (row_bytes * r + row_cells ≤ length model.now) × (row_bytes * r + row_cells ≤ length old.old) }
    ensures { Copied r model.now old.old old.new }
{
    let start = ROW_BYTES * r;
    let end = start + ROW_CELLS;
    old[start..end].copy_from_slice(&model[start..end]);
}

// Copies the cells of the routines of the mask, for the next round to read, and gives the routines that call one of
// them.
fn pass_on(callers: &[u64; MOST_ROUTINES], moved: u64, model: &[u8], old: &mut [u8]) -> u64
    requires { CanPass callers.now moved model.now old.old }
    ensures { PassedOn callers.now moved model.now old.old old.new result }
{
    let mut due = 0;
    for r in Routines(moved) {
        copy_cells(model, r, old);
        due |= callers[r];
    }
    due
}

// Rounds until one changes nothing, from rows that are all zero; `old` keeps the rows of the round before. Gives their
// number.
fn rounds(
    t: &Source<'_>,
    old: &mut [u8],
    model: &mut [u8],
    names: &mut [Option<u8>; MOST_ROUTINES],
) -> u64
    requires { AllZeroIn t.now old.old model.old names.old }
    ensures { RoundsDoneIn t.now model.old model.new names.new result }
{
    let mut due = all(t.sections.counts.len());
    let mut number = 1;
    while let Some(moved) = round(t, due, old, model, names) {
        due = pass_on(t.callers, moved, model, old);
        number += 1;
    }
    number
}

// Leaves the rows of the least model, and the lowest name with a ring in each body, if it has one. Gives the number of
// rounds.
pub fn in_rounds(t: &Source<'_>, model: &mut [u8], names: &mut [Option<u8>; MOST_ROUTINES]) -> u64
    requires { CanBeginIn t.now model.old names.old }
    ensures { RoundsDoneIn t.now model.old model.new names.new result }
{
    let n = t.sections.counts.len();
    clear(model, 0, ROW_BYTES * n);
    if n <= FEW_ROUTINES {
        let mut few = [0; ROW_BYTES * FEW_ROUTINES];
        return rounds(t, &mut few, model, names);
    }
    let mut old = [0; ROW_BYTES * MOST_ROUTINES];
    rounds(t, &mut old, model, names)
}
