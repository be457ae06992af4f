// The public calls, on whatever is lent: one that had a precondition, or that promised less, would be refused here.
#![tactic(auto)]

ghost use Rattle.std.specs.Prelude.{◌≡◌, ◌≤◌, false};
ghost use Rattle.table.specs.Check.{check_table};
ghost use Rattle.table.specs.Answer.{check_number, checked_of};
ghost use Rattle.analysis.specs.Answer.{Analysed, AnalysedAs, RoundsAs, Fits};
ghost use Rattle.dearest.specs.Written.{Written as ChainWritten};
ghost use Rattle.listing.specs.Text.{Listed};
ghost use Rattle.runner.specs.Answer.{Runs, Reports};
ghost use Rattle.runner.specs.Desk.{RunsFresh};
ghost use Rattle.update.specs.Answer.{Replaced, ReplacedAs};
ghost use Rattle.update.specs.Answer.{Fits as UpdateFits};
ghost use Rattle.writer.specs.Answer.{Writes, WritesAs};
ghost use Rattle.writer.specs.Answer.{Fits as WrittenFits};
ghost use Rattle.callers.specs.Calls.{clear?, stuck?};

use analysis::{Judgement, Verdict, analyse, vangpear_analyse, vangpear_check, vangpear_rounds};
use dearest::write_chain;
use listing::list;
use runner::{Desk, Ending, Report, Stop, run_fresh, run_schedule, vangpear_run};
use steps::thread::Thread;
use table::refusal::Refusal;
use table::{Accepted, check};
use update::{update, vangpear_update};
use writer::{canonical, vangpear_canonical};

// Calls `check`.
pub fn checked(table: &[u8]) -> Result<Accepted, Refusal>
    ensures { result ≡ checked_of (check_table table.now) }
{
    check(table)
}

// Calls `analyse`.
pub fn analysed(table: &[u8], model: &mut [u8]) -> Result<Judgement, Refusal>
    ensures analysed { Analysed table.now model.old model.new result }
    ensures fits { Fits result }
{
    analyse(table, model)
}

// Calls `list`; the longest listing is as the README gives it.
pub fn listed(table: &[u8], model: &mut [u8], out: &mut [u8]) -> usize
    ensures listed { Listed table.now model.old model.new out.old
        out.new result }
    ensures short { result ≤ 65574 }
{
    list(table, model, out)
}

// Calls `vangpear_check`.
pub fn checked_for_c(table: &[u8]) -> u32
    ensures { result ≡ check_number (checked_of (check_table table.now)) }
{
    vangpear_check(table)
}

// Calls `vangpear_analyse`.
pub fn analysed_for_c(table: &[u8], model: &mut [u8]) -> u32
    ensures { AnalysedAs table.now model.old model.new result }
{
    vangpear_analyse(table, model)
}

// Calls `vangpear_rounds`.
pub fn rounds_for_c(table: &[u8], model: &mut [u8]) -> u32
    ensures { RoundsAs table.now model.old model.new result }
{
    vangpear_rounds(table, model)
}

// Calls `run_fresh`, which lends records to `run_schedule`.
pub fn ran(table: &[u8], schedule: &[u8], n: usize) -> Desk
    ensures { RunsFresh (check_table table.now) schedule.now n result }
{
    run_fresh(table, schedule, n)
}

// Calls `run_schedule`.
pub fn ran_schedule(table: &[u8], schedule: &[u8], records: &mut [Thread]) -> Result<Stop, Refusal>
    ensures { Runs (check_table table.now) schedule.now records.old
        records.new result }
{
    run_schedule(table, schedule, records)
}

// Calls `vangpear_run`.
pub fn ran_for_c(table: &[u8], schedule: &[u8], records: &mut [Thread]) -> Report
    ensures { Reports (check_table table.now) schedule.now records.old
        records.new result }
{
    vangpear_run(table, schedule, records)
}

// Calls `update`.
pub fn brought(old: &[u8], new: &[u8], routine: u64, model: &mut [u8]) -> Result<(), Refusal>
    ensures replaced { Replaced old.now new.now routine model.old
        model.new result }
    ensures fits { UpdateFits result }
{
    update(old, new, routine, model)
}

// Calls `vangpear_update`.
pub fn brought_for_c(old: &[u8], new: &[u8], routine: u64, model: &mut [u8]) -> u32
    ensures { ReplacedAs old.now new.now routine model.old
        model.new result }
{
    vangpear_update(old, new, routine, model)
}

// Calls `canonical`.
pub fn written(table: &[u8], out: &mut [u8]) -> Result<usize, Refusal>
    ensures writes { Writes table.now out.old out.new result }
    ensures fits { WrittenFits result }
{
    canonical(table, out)
}

// Calls `vangpear_canonical`.
pub fn written_for_c(table: &[u8], out: &mut [u8]) -> u32
    ensures { WritesAs table.now out.old out.new result }
{
    vangpear_canonical(table, out)
}

// Calls `write_chain`.
pub fn chained(n: usize, out: &mut [u8]) -> usize
    ensures { ChainWritten n out.old out.new result }
{
    write_chain(n, out)
}

// Whether an answer is that the table is clear.
fn is_clear(a: Result<Judgement, Refusal>) -> bool
    ensures { result ≡ clear? a }
{
    matches!(
        a,
        Ok(Judgement {
            verdict: Verdict::Clear,
            ..
        })
    )
}

// Whether an answer is that the run is stuck.
fn is_stuck(r: Result<Stop, Refusal>) -> bool
    ensures { result ≡ stuck? r }
{
    match r {
        Ok(x) => x.ending == Ending::Stuck,
        Err(_) => false,
    }
}

// Whether a table that the analysis calls clear is answered stuck under some schedule: never.
pub fn clear_but_stuck(table: &[u8], model: &mut [u8], schedule: &[u8], n: usize) -> bool
    ensures { result ≡ false }
{
    let clear = is_clear(analyse(table, model));
    let d = run_fresh(table, schedule, n);
    let ran = d.ran;
    if clear { is_stuck(ran) } else { false }
}
