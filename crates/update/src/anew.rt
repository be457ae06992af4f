// The rows of one routine and of those that reach it by calls, worked out anew with the other rows given.
ghost use Rattle.std.specs.Prelude.{◌+◌, ◌*◌, ◌≤◌, ℕ, length};
ghost use Rattle.table.specs.Constants.{row_bytes};
ghost use Rattle.grid.specs.Rows.{Has};
ghost use Rattle.update.specs.Parts.{MaskCleared, CanRework, Reworks};

use settle::due::Routines;
use settle::reach::reached;
use settle::source::Source;
use table::limits::ROW_BYTES;

// Sets the rows of the mask, which the buffer has, to zero.
fn clear_masked(model: &mut [u8], mask: u64)
    requires { (q : ℕ) → Has mask q → row_bytes * q + row_bytes ≤ length model.old }
    ensures { MaskCleared mask model.old model.new }
{
    for r in Routines(mask) {
        rows::clear(model, ROW_BYTES * r, ROW_BYTES * r + ROW_BYTES);
    }
}

// Works out anew the rows of routine r and of those that reach it by calls, with the others as they are.
pub fn rework(t: &Source<'_>, r: usize, model: &mut [u8])
    requires { CanRework t.now.sections.counts.now t.now.sections.bodies.now t.now.starts.now t.now.callers.now r model.old }
    ensures { Reworks t.now.sections.counts.now t.now.sections.bodies.now t.now.starts.now t.now.callers.now r
        model.old model.new }
{
    let callers = t.callers;
    let mask = reached(callers, r);
    clear_masked(model, mask);
    let _names = t.settle_due(mask, model);
}
