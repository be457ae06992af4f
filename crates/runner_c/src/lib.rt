// The schedule runner, for callers in C: the exported function, over that of the library.
#![tactic(auto)]

ghost use Rattle.table.specs.Check.{check_table};
ghost use Rattle.runner.specs.Answer.{Reports};

use runner::Report;
use steps::thread::Thread;

// Runs a table under a schedule, and reports how that came out.
#[unsafe(no_mangle)]
pub extern "C" fn vangpear_run(table: &[u8], schedule: &[u8], records: &mut [Thread]) -> Report
    ensures { Reports (check_table table.now) schedule.now records.old records.new result }
{
    runner::vangpear_run(table, schedule, records)
}
