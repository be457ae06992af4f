// The schedule runner: a table run under a schedule, its threads in a lent run of records.
#![tactic(auto)]

ghost use Rattle.std.specs.Prelude.{◌≡◌, Ok, Err};
ghost use Rattle.table.specs.Check.{check_table};
ghost use Rattle.steps.specs.Steps.{pair};
ghost use Rattle.runner.specs.Answer.{Runs, report_of, Reports};
ghost use Rattle.runner.specs.Desk.{fresh, lent_of, RunsFresh};
ghost use Rattle.runner.specs.Parts.{unbegun_as, first_machine, Stops};
ghost use Rattle.runner.specs.Ticks.{course_of, tick_as, looked, records_after, machine_after, Sized, CanStep, CanTick, Steady};

use links::link;
use steps::Course;
use steps::limits::{ALL_NAMES, MOST_FRAMES, MOST_LOCKS, MOST_THREADS};
pub use steps::machine::Ending;
use steps::machine::{Lock, Machine, Stage, Want};
use steps::thread::Thread;
use table::limits::{MOST_BYTES, MOST_NAMES, MOST_ROUTINES};
use table::refusal::Refusal;
use table::sections::Sections;

// How far a run came: the bytes read, the threads started and the locks made.
#[derive(Clone, Copy, Debug, PartialEq, Eq)]
pub struct Extent {
    pub read: usize,
    pub threads: usize,
    pub locks: usize,
}

// How a run of a table under a schedule ended, and how far it came.
#[derive(Clone, Copy, Debug, PartialEq, Eq)]
pub struct Stop {
    pub ending: Ending,
    pub extent: Extent,
}

// What a run reports to a caller in C: the number of the answer, and how far the run came.
#[repr(C)]
#[derive(Clone, Copy)]
pub struct Report {
    pub answer: u64,
    pub read: usize,
    pub threads: usize,
    pub locks: usize,
}

impl From<Refusal> for Report {
    ghost from_gives = { λ e r. r ≡ report_of (Err e) };

    // The report of a refusal: a table that is refused is not run.
    fn from(e: Refusal) -> Report {
        Report {
            answer: u64::from(u32::from(e)),
            read: 0,
            threads: 0,
            locks: 0,
        }
    }
}

impl From<Stop> for Report {
    ghost from_gives = { λ x r. r ≡ report_of (Ok x) };

    // The report of a run that stopped so, with the numbers of docs/FORMAT.md.
    fn from(x: Stop) -> Report {
        let answer = match x.ending {
            Ending::Ended => 0,
            Ending::Stuck => 65536,
            Ending::Open => 65537,
            Ending::Unstarted => 16,
            Ending::Beyond => 17,
        };
        Report {
            answer,
            read: x.extent.read,
            threads: x.extent.threads,
            locks: x.extent.locks,
        }
    }
}

// What a desk has after a run: the answer, and its records.
#[derive(Clone, Copy)]
pub struct Desk {
    pub ran: Result<Stop, Refusal>,
    pub records: [Thread; MOST_THREADS],
}

// The machine before anything is done, where so many records are lent.
fn unbegun(lent: usize) -> Machine
    ensures { result ≡ unbegun_as lent }
{
    Machine {
        stage: Stage::Over(Ending::Beyond),
        read: 0,
        pick: 0,
        lent,
        threads: 0,
        made: 0,
        head: 0,
        locks: [Lock { owner: 0, count: 0 }; MOST_LOCKS],
        wants: [Want::Free; MOST_THREADS],
        born: [0; MOST_NAMES],
    }
}

// The machine before the first byte: thread 0 is to be written, or there is no record for it. Routine 0 has no
// parameters, so that its first item is no LOCK, and thread 0 wants nothing.
fn begin(lent: usize) -> Machine
    ensures { result ≡ first_machine lent }
{
    let mut m = unbegun(lent);
    if lent != 0 {
        m.start(0, [0u8; MOST_NAMES], Want::Free);
    }
    m
}

// A copy of a record, stepped.
fn stepped(course: &Course<'_>, t: Thread, m: &mut Machine) -> Thread
    requires { CanStep (course_of course.now) t m.old }
    ensures { pair result m.new ≡ tick_as (course_of course.now) t m.old }
{
    let mut u = t;
    course.step(&mut u, m);
    u
}

// The record that the machine looks at is copied out, stepped and stored.
fn tick(course: &Course<'_>, records: &mut [Thread], m: &mut Machine)
    requires { CanTick (course_of course.now) records.old m.old }
    ensures stored { records.new ≡ records_after (course_of course.now) records.old m.old }
    ensures machine { m.new ≡ machine_after (course_of course.now) records.old m.old }
    ensures sized { Sized (tick_as (course_of course.now) (looked records.old m.old) m.old).thread }
{
    let i = m.pick;
    let t = records[i];
    let u = stepped(course, t, m);
    records[i] = u;
}

// Ticks until nothing more is to be done, and tells how the run stopped.
fn ticks(course: &Course<'_>, records: &mut [Thread], first: Machine) -> Stop
    requires { Steady (course_of course.now) records.old first }
    ensures { Stops (course_of course.now) records.old first records.new result }
{
    let mut m = first;
    loop {
        if let Stage::Over(ending) = m.stage {
            let extent = Extent {
                read: m.read,
                threads: m.threads,
                locks: m.made,
            };
            return Stop { ending, extent };
        }
        tick(course, records, &mut m);
    }
}

// Runs a table under a schedule: how the run stopped, or the refusal of the table's check.
pub fn run_schedule(table: &[u8], schedule: &[u8], records: &mut [Thread]) -> Result<Stop, Refusal>
    ensures { Runs (check_table table.now) schedule.now records.old
        records.new result }
{
    let sections = Sections::of(table)?;
    let mut heads = [0usize; MOST_ROUTINES];
    let mut links = [0usize; MOST_BYTES];
    link(&sections, &mut heads, &mut links);
    let course = Course {
        sections,
        heads: &heads,
        links: &links,
        schedule,
    };
    let first = begin(records.len());
    let stop = ticks(&course, records, first);
    Ok(stop)
}

// Runs a table under a schedule, for a caller in C.
#[unsafe(no_mangle)]
pub extern "C" fn vangpear_run(table: &[u8], schedule: &[u8], records: &mut [Thread]) -> Report
    ensures { Reports (check_table table.now) schedule.now records.old
        records.new result }
{
    match run_schedule(table, schedule, records) {
        Ok(x) => Report::from(x),
        Err(e) => Report::from(e),
    }
}

// A record that nothing was written to.
fn blank() -> Thread
    ensures { result ≡ fresh }
{
    Thread {
        at: 0,
        depth: 0,
        ended: false,
        kinds: [0; MOST_FRAMES],
        goes: [0; MOST_FRAMES],
        names: [0; ALL_NAMES],
    }
}

// Runs a table under a schedule with the first n of a desk's records.
pub fn run_fresh(table: &[u8], schedule: &[u8], n: usize) -> Desk
    ensures { RunsFresh (check_table table.now) schedule.now n result }
{
    let lent = n.min(MOST_THREADS);
    let mut records = [blank(); MOST_THREADS];
    let ran = run_schedule(table, schedule, &mut records[..lent]);
    Desk { ran, records }
}
