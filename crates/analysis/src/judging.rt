// What is said of a program whose rows are those of its model: the verdict, the share, and the number of rounds.
ghost use Rattle.std.specs.Prelude.{◌≡◌, ◌*◌, ◌≤◌, ◌<◌, length};
ghost use Rattle.table.specs.Constants.{most_routines, row_bytes};
ghost use Rattle.analysis.specs.Laws.Judging.{Divided, RingRows, AllNamed, Tells};
ghost use Rattle.analysis.specs.Laws.Judges.{Finished, Pronounces};

use crate::{Judgement, RingPlace, Share, Verdict};
use settle::reach::reached;
use table::limits::{MOST_ROUTINES, ROW_BYTES, ROW_CELLS};

// The routines of the mask below n whose rows tell of a ring.
fn ring_rows(model: &[u8], n: usize, mask: u64) -> u64
    requires { (n ≤ most_routines) × (row_bytes * n ≤ length model.now) }
    ensures { RingRows model.now n mask result }
{
    let mut rings = 0u64;
    for r in 0..n {
        if (mask >> r) % 2 == 1 && model[ROW_BYTES * r + ROW_CELLS] == 1 {
            rings += 1 << r;
        }
    }
    rings
}

impl Verdict {
    // The verdict, where `rings` are the routines with a ring that calls reach, and `names` has their lowest ring names.
    fn of(rings: u64, names: &[Option<u8>; MOST_ROUTINES]) -> Verdict
        requires { AllNamed rings names.now }
        ensures { Tells rings names.now result }
    {
        if rings == 0 {
            return Verdict::Clear;
        }
        let routine = rings.trailing_zeros();
        let name = names[routine as usize].unwrap();
        Verdict::Ring(RingPlace {
            routine: u64::from(routine),
            name: u64::from(name),
        })
    }
}

impl Share {
    // The share of c in m: the whole percentage, what is left over of 100 × c, and m.
    fn of(c: u64, m: u64) -> Share
        requires { (c ≤ most_routines) × (0 < m) }
        ensures { Divided c m result }
    {
        Share {
            percent: 100 * c / m,
            remainder: 100 * c % m,
            reached: m,
        }
    }
}

impl Judgement {
    // What is said of a program whose rows are in the buffer after so many rounds, and whose ring names are `names`.
    pub(crate) fn of(
        calls: &[u64],
        model: &[u8],
        names: &[Option<u8>; MOST_ROUTINES],
        rounds: u64,
    ) -> Judgement
        requires { Finished calls.now model.now names.now }
        ensures pronounces { Pronounces calls.now model.now names.now result }
        ensures counts { result.rounds ≡ rounds }
    {
        let mask = reached(calls, 0);
        let rings = ring_rows(model, calls.len(), mask);
        let ringless = (mask | rings) ^ rings;
        let verdict = Verdict::of(rings, names);
        let share = Share::of(
            u64::from(ringless.count_ones()),
            u64::from(mask.count_ones()),
        );
        Judgement {
            verdict,
            share,
            rounds,
        }
    }
}
