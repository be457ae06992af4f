// The analysis: the least model of a table in a lent buffer, the verdict, the share, and the number of rounds.
#![tactic(auto)]

ghost use Rattle.std.specs.Prelude.{◌≡◌, ◌<◌};
ghost use Rattle.table.specs.Check.{check_table};
ghost use Rattle.table.specs.Answer.{check_number, checked_of};
ghost use Rattle.analysis.specs.Answer.{Analysed, AnalysedAs, RoundsAs, Fits, Short};
ghost use Rattle.analysis.specs.Answer.{verdict_number};
ghost use Rattle.analysis.specs.Laws.Judges.{CanJudgeKnown, JudgesKnown, CanJudge, Judges};

mod judging;

use byrounds::in_rounds;
use settle::due::add_callers;
use settle::source::Source;
use settle::survey::Survey;
use table::check;
use table::limits::{MOST_ROUTINES, ROW_BYTES};
use table::refusal::Refusal;
use table::sections::Sections;

// A ring: the routine and the name.
#[derive(Clone, Copy, Debug, PartialEq, Eq)]
pub struct RingPlace {
    pub routine: u64,
    pub name: u64,
}

// What is said of a table that is accepted.
#[derive(Clone, Copy, Debug, PartialEq, Eq)]
pub enum Verdict {
    Clear,
    Ring(RingPlace),
}

impl Verdict {
    // The launcher's number of a verdict; no `From`, as only the numbers of a table fit one.
    fn number(self) -> u32
        requires { Short self }
        ensures { result ≡ verdict_number self }
    {
        match self {
            Verdict::Clear => 0,
            Verdict::Ring(ring) => (65536 + 1024 * ring.routine + 32 * ring.name) as u32,
        }
    }
}

// How many of the routines that calls reach are without a ring: the whole percentage, the remainder, and of how many.
#[derive(Clone, Copy, Debug, PartialEq, Eq)]
pub struct Share {
    pub percent: u64,
    pub remainder: u64,
    pub reached: u64,
}

// What is answered of a table: the verdict, the share and the number of rounds.
#[derive(Clone, Copy, Debug, PartialEq, Eq)]
pub struct Judgement {
    pub verdict: Verdict,
    pub share: Share,
    pub rounds: u64,
}

// Leaves the model of a program that was surveyed, and judges it.
fn judge_surveyed(t: &Sections<'_>, starts: &[usize], calls: &[u64], model: &mut [u8]) -> Judgement
    requires { CanJudgeKnown t.now.counts.now t.now.bodies.now starts.now calls.now model.old }
    ensures { JudgesKnown t.now.counts.now t.now.bodies.now starts.now calls.now
        model.old model.new result }
{
    let mut callers = [0u64; MOST_ROUTINES];
    add_callers(calls, &mut callers);
    let mut names = [None; MOST_ROUTINES];
    let source = Source {
        sections: *t,
        starts,
        callers: &callers,
    };
    let rounds = in_rounds(&source, model, &mut names);
    Judgement::of(calls, model, &names, rounds)
}

// Leaves the model of the program that the sections hold, and judges it.
fn judge(t: &Sections<'_>, model: &mut [u8]) -> Judgement
    requires { CanJudge t.now.counts.now t.now.bodies.now model.old }
    ensures { Judges t.now.counts.now t.now.bodies.now model.old model.new result }
{
    let mut survey = Survey {
        starts: [0; MOST_ROUTINES],
        calls: [0; MOST_ROUTINES],
    };
    survey.fill(t);
    let n = t.counts.len();
    judge_surveyed(t, &survey.starts[..n], &survey.calls[..n], model)
}

// Analyses a table: leaves its model in the buffer, and answers the verdict, the share and the number of rounds; or
// answers the refusal.
pub fn analyse(table: &[u8], model: &mut [u8]) -> Result<Judgement, Refusal>
    ensures analysed { Analysed table.now model.old model.new result }
    ensures fits { Fits result }
{
    let t = Sections::of(table)?;
    if model.len() < ROW_BYTES * t.counts.len() {
        return Err(Refusal::ShortModel);
    }
    Ok(judge(&t, model))
}

// Analyses a table, for a caller in C: 0 for clear, the refusal's number, or 65,536 + 1,024 × routine + 32 × name.
#[unsafe(no_mangle)]
pub extern "C" fn vangpear_analyse(table: &[u8], model: &mut [u8]) -> u32
    ensures { AnalysedAs table.now model.old model.new result }
{
    match analyse(table, model) {
        Ok(j) => j.verdict.number(),
        Err(r) => u32::from(r),
    }
}

// Analyses a table in the same way, for a caller in C: 65,536 + the number of rounds, or the refusal's number.
#[unsafe(no_mangle)]
pub extern "C" fn vangpear_rounds(table: &[u8], model: &mut [u8]) -> u32
    ensures { RoundsAs table.now model.old model.new result }
{
    match analyse(table, model) {
        Ok(j) => (65536 + j.rounds) as u32,
        Err(r) => u32::from(r),
    }
}

// Checks a whole table, for a caller in C: the refusal's number, or 65,536 × routines + items.
#[unsafe(no_mangle)]
pub extern "C" fn vangpear_check(table: &[u8]) -> u32
    ensures { result ≡ check_number (checked_of (check_table table.now)) }
{
    match check(table) {
        Ok(a) => (65536 * a.routines + a.items) as u32,
        Err(r) => u32::from(r),
    }
}
