// One routine replaced: a model brought up to date from the old table, the new one, the routine and the old model.
#![tactic(auto)]

ghost use Rattle.update.specs.Answer.{Replaced, ReplacedAs, Fits};
ghost use Rattle.update.specs.Parts.{CanBringKnown, BringsKnown, CanBring, Brings};

mod anew;
mod fits;
mod same;

use anew::rework;
use fits::rows_fit;
use same::same_elsewhere;
use settle::due::add_callers;
use settle::source::Source;
use settle::survey::Survey;
use table::limits::{MOST_ROUTINES, ROW_BYTES};
use table::refusal::Refusal;
use table::sections::Sections;

// Compares two programs with the same parameter counts, the second surveyed, looks at the model, and brings it up to
// date.
fn bring_surveyed(
    old: &Sections<'_>,
    new: &Sections<'_>,
    starts: &[usize],
    calls: &[u64],
    r: usize,
    model: &mut [u8],
) -> Result<(), Refusal>
    requires { CanBringKnown new.now.counts.now old.now.bodies.now new.now.bodies.now
        starts.now calls.now r model.old }
    ensures brings { BringsKnown new.now.counts.now old.now.bodies.now new.now.bodies.now
        starts.now calls.now r model.old model.new result }
    ensures fits { Fits result }
{
    if !same_elsewhere(old, new, starts[r]) {
        return Err(Refusal::OtherTable);
    }
    if !rows_fit(new.counts, model) {
        return Err(Refusal::BadModel);
    }
    let mut callers = [0u64; MOST_ROUTINES];
    add_callers(calls, &mut callers);
    let source = Source {
        sections: *new,
        starts,
        callers: &callers,
    };
    rework(&source, r, model);
    Ok(())
}

// Compares two programs with the same parameter counts, looks at the model, and brings it up to date.
fn bring(old: &Sections<'_>, new: &Sections<'_>, r: usize, model: &mut [u8]) -> Result<(), Refusal>
    requires { CanBring new.now.counts.now old.now.bodies.now new.now.bodies.now r model.old }
    ensures brings { Brings new.now.counts.now old.now.bodies.now new.now.bodies.now
        r model.old model.new result }
    ensures fits { Fits result }
{
    let n = new.counts.len();
    let mut survey = Survey {
        starts: [0; MOST_ROUTINES],
        calls: [0; MOST_ROUTINES],
    };
    survey.fill(new);
    bring_surveyed(old, new, &survey.starts[..n], &survey.calls[..n], r, model)
}

// Brings the model of the old table up to date for the new one, which differs from it in the body of the routine alone;
// or answers the refusal.
pub fn update(old: &[u8], new: &[u8], routine: u64, model: &mut [u8]) -> Result<(), Refusal>
    ensures replaced { Replaced old.now new.now routine model.old model.new result }
    ensures fits { Fits result }
{
    let old = Sections::of(old)?;
    let new = Sections::of(new)?;
    let n = old.counts.len();
    if model.len() < ROW_BYTES * n {
        return Err(Refusal::ShortModel);
    }
    if routine < n as u64 && old.counts == new.counts {
        bring(&old, &new, routine as usize, model)
    } else {
        Err(Refusal::OtherTable)
    }
}

// Brings a model up to date, for a caller in C: 0 for done, or the refusal's number.
#[unsafe(no_mangle)]
pub extern "C" fn vangpear_update(old: &[u8], new: &[u8], routine: u64, model: &mut [u8]) -> u32
    ensures { ReplacedAs old.now new.now routine model.old model.new result }
{
    match update(old, new, routine, model) {
        Ok(()) => 0,
        Err(r) => u32::from(r),
    }
}
