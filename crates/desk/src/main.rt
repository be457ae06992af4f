// Runs the table on standard input under the schedule behind it, and writes how the run came out and where each thread
// stands. The input is a byte, how many records are lent; two bytes, the table's length, the low one first; the table;
// and the schedule. A byte that is missing of the first three is 0.
#![tactic(auto)]

mod threads;

use input::answer_input;
use runner::{Desk, Ending, Extent, Report, Stop, run_fresh};
use std::io;
use steps::limits::MOST_THREADS;
use table::refusal::Refusal;
use table::sections::Sections;
use threads::write_threads;

// How many bytes stand before the table.
const HEAD: usize = 3;

// How many bytes a table has at most, by the two bytes of its length.
const MOST_TABLE: usize = 65535;

// How many bytes of a schedule are read at most.
const MOST_SCHEDULE: usize = 65536;

// How much of standard input is read at most.
const READ_LIMIT: usize = HEAD + MOST_TABLE + MOST_SCHEDULE;

// Writes the first line of an answer.
fn write_answer(rt: &impl Print, ran: Result<Stop, Refusal>) -> io::Result<()> {
    let stop = match ran {
        Ok(stop) => stop,
        Err(r) => return println!(rt; "refused {} 0", u32::from(r)),
    };
    let read = stop.extent.read;
    match stop.ending {
        Ending::Ended => println!(rt; "ended {read}"),
        Ending::Stuck => println!(rt; "stuck {read}"),
        Ending::Open => println!(rt; "open {read}"),
        Ending::Unstarted | Ending::Beyond => {
            println!(rt; "refused {} {read}", Report::from(stop).answer)
        }
    }
}

// Writes the locks made and the threads of a run in which a thread was started. The table is looked at once more, which a
// table that was refused, and a run without a thread, are spared.
fn write_state(rt: &impl Print, table: &[u8], d: &Desk, reached: Extent) -> io::Result<()> {
    println!(rt; "locks {}", reached.locks)?;
    let started = reached.threads.min(MOST_THREADS);
    match Sections::of(table) {
        Ok(sections) => write_threads(rt, &sections, &d.records[..started]),
        Err(_) => Ok(()),
    }
}

// Writes how a run of a table came out, and where a thread was started its state.
fn write_desk(rt: &impl Print, table: &[u8], d: &Desk) -> io::Result<()> {
    write_answer(rt, d.ran)?;
    match d.ran {
        Ok(stop) if stop.extent.threads != 0 => write_state(rt, table, d, stop.extent),
        _ => Ok(()),
    }
}

// Takes an input apart, runs its table under its schedule and writes the answer.
fn answer(rt: &impl Print, s: &[u8]) -> io::Result<()> {
    let byte = |i: usize| s.get(i).copied().unwrap_or(0);
    let lent = usize::from(byte(0));
    let length = usize::from(u16::from_le_bytes([byte(1), byte(2)]));
    let rest = s.get(HEAD..).unwrap_or(&[]);
    let (table, rest) = rest.split_at(length.min(rest.len()));
    let schedule = &rest[..rest.len().min(MOST_SCHEDULE)];
    let d = run_fresh(table, schedule, lent);
    write_desk(rt, table, &d)
}

// Answers standard input, or says what cannot be read or written; the exit status is 0 all the same.
fn main(rt: HostRuntime) {
    let mut buf = [0u8; READ_LIMIT];
    if let Err(e) = answer_input(rt.stdin(), &mut buf, |s| answer(&rt, s)) {
        let _ = eprintln!(rt; "desk: {e}");
    }
}
