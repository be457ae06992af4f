// The walk over a body that was accepted: the routines that it calls, and the pairs that it records.
#![tactic(auto)]

ghost use Rattle.std.specs.Prelude.{◌≡◌, ◌⊎◌, ℕ, ◌*◌, ◌<◌, ◌≤◌, length};
ghost use Rattle.table.specs.Constants.{most_routines, row_bytes};
ghost use Rattle.grid.specs.Rows.{Has, Bits};
ghost use Rattle.grid.specs.Grid.{Small};
ghost use Rattle.table.specs.Laws.Fine.{IsBody};
ghost use Rattle.pairs.specs.Parts.{Scans, Records};

mod calls;
pub mod walk;

use calls::{called, locked};
use grid::Grid;
use table::limits::{CALL, END, LOCK};
use table::sections::Sections;
use walk::{Levels, Place, over, top_past};

// What scanning a body gives: the offset after it, and the routines that its calls name, as bits.
#[derive(Clone, Copy)]
pub struct Scanned {
    pub next: usize,
    pub calls: u64,
}

// The routines `calls`, and q.
fn with_call(calls: u64, q: u8) -> u64
    requires { q < most_routines }
    ensures { Bits result (λ j. Has calls j ⊎ (j ≡ q)) }
{
    calls | (1 << u64::from(q))
}

// Scans the body at `at`.
pub fn scan(t: &Sections<'_>, at: usize) -> Scanned
    requires { ((k : ℕ) × IsBody t.now.counts.now k t.now.bodies.now at) × (length t.now.counts.now ≤ most_routines) }
    ensures { Scans t.now.counts.now t.now.bodies.now at result.next result.calls }
{
    let s = t.bodies;
    let mut i = at;
    let mut top = 0;
    let mut calls = 0u64;
    loop {
        let b = s[i];
        if over(b, top) {
            return Scanned { next: i + 1, calls };
        }
        if b == CALL {
            calls = with_call(calls, s[i + 1]);
        }
        i = t.past(i);
        top = top_past(b, top);
    }
}

// The grid g with the pairs that the body at `at`, of a routine with k parameters, records, where `rows` has the rows
// of the routines.
pub fn recorded(mut g: Grid, t: &Sections<'_>, k: u8, at: usize, rows: &[u8]) -> Grid
    requires { IsBody t.now.counts.now k t.now.bodies.now at
        × (row_bytes * length t.now.counts.now ≤ length rows.now) × Small g }
    ensures { Records t.now.counts.now k t.now.bodies.now at rows.now g result }
{
    let s = t.bodies;
    let mut p = Place::new(at, k);
    let mut v = Levels::new();
    loop {
        let b = s[p.at];
        // END is the most frequent code, and needs nothing of the level: it is asked for first, for speed.
        if b == END {
            if p.top == 0 {
                return g;
            }
            p.at += 1;
            p.top -= 1;
        } else if b == CALL {
            called(&mut g, t, &p, &v, rows);
            p.at = t.past(p.at);
        } else {
            let here = v.at(p.top);
            v.step(&mut p, t, b);
            if b == LOCK {
                let inside = v.at(p.top);
                locked(&mut g, here.holder, inside.holder, here.thread);
            }
        }
    }
}
