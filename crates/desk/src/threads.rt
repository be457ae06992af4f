// What a run leaves of its threads: where each one stands, which locks it holds and which one it waits for.
ghost use Rattle.std.specs.Prelude.{◌≡◌};
ghost use Rattle.table.specs.Laws.Sections.{Held};
ghost use Rattle.desk.specs.Holds.{held_by};

use links::link;
use std::io;
use steps::limits::{MOST_FRAMES, MOST_LOCKS};
use steps::thread::Thread;
use table::limits::{LOCK, MOST_BYTES, MOST_NAMES, MOST_ROUTINES};
use table::sections::Sections;

// How many times a thread holds the lock l.
fn held(t: &Thread, l: u8) -> usize
    ensures { result ≡ held_by t.now l }
{
    let open = t.depth.min(MOST_FRAMES);
    t.kinds[..open].iter().filter(|k| **k == l).count()
}

// Writes the lines of the locks that thread i holds.
fn write_holds(rt: &impl Print, t: &Thread, i: usize) -> io::Result<()> {
    for l in 0..MOST_LOCKS as u8 {
        let times = held(t, l);
        if times != 0 {
            println!(rt; "holds {i} {l} {times}")?;
        }
    }
    Ok(())
}

// The threads of a run, the body section of their table, and where each body starts in it.
#[derive(Clone, Copy)]
struct Stand<'a> {
    threads: &'a [Thread],
    bodies: &'a [u8],
    heads: &'a [usize],
}

impl Stand<'_> {
    // The routine whose body the item at `at` stands in.
    fn routine_at(&self, at: usize) -> usize {
        self.heads.iter().rposition(|h| *h <= at).unwrap_or(0)
    }

    // The lock that a thread's next item takes, if that is a LOCK.
    fn wanted(&self, t: &Thread) -> Option<u8> {
        if t.ended || MOST_FRAMES < t.depth {
            return None;
        }
        match self.bodies.get(t.at..)? {
            [LOCK, x, ..] if usize::from(*x) < MOST_NAMES => Some(t.lock_of(usize::from(*x))),
            _ => None,
        }
    }

    // Whether one of the threads that has not ended, and not thread i, holds the lock l.
    fn held_elsewhere(&self, i: usize, l: u8) -> bool {
        self.threads
            .iter()
            .enumerate()
            .any(|(j, t)| j != i && !t.ended && held(t, l) != 0)
    }

    // Writes the lines of thread i: of one that has ended that alone.
    fn write_thread(&self, rt: &impl Print, i: usize, t: &Thread) -> io::Result<()> {
        if t.ended {
            return println!(rt; "thread {i} ended");
        }
        println!(rt; "thread {i} at {} {}", self.routine_at(t.at), t.at)?;
        write_holds(rt, t, i)?;
        match self.wanted(t) {
            Some(l) if usize::from(l) < MOST_LOCKS && self.held_elsewhere(i, l) => {
                println!(rt; "waits {i} {l}")
            }
            _ => Ok(()),
        }
    }
}

// Writes the lines of the threads.
pub fn write_threads(rt: &impl Print, t: &Sections<'_>, threads: &[Thread]) -> io::Result<()>
    requires { Held t.now.counts.now t.now.bodies.now }
{
    let mut heads = [0; MOST_ROUTINES];
    let mut links = [0; MOST_BYTES];
    link(t, &mut heads, &mut links);
    let stand = Stand {
        threads,
        bodies: t.bodies,
        heads: &heads[..t.counts.len()],
    };
    for (i, thread) in threads.iter().enumerate() {
        stand.write_thread(rt, i, thread)?;
    }
    Ok(())
}
