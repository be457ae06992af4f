// What is kept beside the records while a schedule is run: the locks, what each thread wants, and what is to be done
// next.
ghost use Rattle.std.specs.Prelude.{◌≡◌, ◌+◌, ◌-◌, ◌<◌, ◌≤◌, ◌^◌, get_or};
ghost use Rattle.schedule.specs.Limits.{most_threads, most_locks};
ghost use Rattle.steps.specs.Machines.{lock_at, LowWant, held_elsewhere, taken_by, given_back, over_as, join_by, view, next_byte};
ghost use Rattle.steps.specs.Machines.{settled_as, starting_as, full_at, crowded_at, Wanting};

use crate::limits::{MOST_FRAMES, MOST_LOCKS, MOST_THREADS};
use table::limits::MOST_NAMES;

// How a run ends: no thread is left, some are and all of them wait, the schedule is at its end, a byte names a thread
// that was not started, or a step is beyond a limit.
#[derive(Clone, Copy, Debug, PartialEq, Eq)]
pub enum Ending {
    Ended,
    Stuck,
    Open,
    Unstarted,
    Beyond,
}

// A new thread's record is to be written, a byte is to be taken, or nothing more is to be done.
#[derive(Clone, Copy, Debug, PartialEq, Eq)]
pub enum Stage {
    Born,
    Turn,
    Over(Ending),
}

// What a thread wants: nothing, nothing any more since it has ended, or the lock that its next item takes.
#[derive(Clone, Copy, Debug, PartialEq, Eq)]
pub enum Want {
    Free,
    Gone,
    Lock(u8),
}

// A lock: the thread that took it last, and how often that thread holds it.
#[derive(Clone, Copy, Debug, PartialEq, Eq)]
pub struct Lock {
    pub owner: u8,
    pub count: u8,
}

// `pick` is the record that is looked at next; `read` bytes of the schedule are taken. `made` locks are made and
// `threads` threads started; `wants[t]` is what thread t wants. `head` and `born` are the offset and the names of the
// thread whose record is to be written.
#[derive(Clone, Copy)]
pub struct Machine {
    pub stage: Stage,
    pub read: usize,
    pub pick: usize,
    pub lent: usize,
    pub threads: usize,
    pub made: usize,
    pub head: usize,
    pub locks: [Lock; MOST_LOCKS],
    pub wants: [Want; MOST_THREADS],
    pub born: [u8; MOST_NAMES],
}

impl Machine {
    // Nothing more is to be done.
    pub fn stop(&mut self, ending: Ending)
        ensures { self.new ≡ over_as self.old ending }
    {
        self.stage = Stage::Over(ending);
    }

    // Whether thread t waits for lock l, which another thread holds.
    pub fn waits(&self, t: usize, l: usize) -> bool
        requires { l < most_locks }
        ensures { result ≡ held_elsewhere self.now t l }
    {
        let lock = self.locks[l];
        lock.count != 0 && usize::from(lock.owner) != t
    }

    // Thread t takes lock l once more.
    pub fn take(&mut self, t: usize, l: usize)
        requires { (l < most_locks) × (t < most_threads) × ((lock_at self.old l).count + 1 < 2 ^ 8) }
        ensures { self.new ≡ taken_by self.old t l }
    {
        let lock = &mut self.locks[l];
        lock.owner = t as u8;
        lock.count += 1;
    }

    // One hold of lock l is given back.
    pub fn give(&mut self, l: usize)
        requires { (l < most_locks) × (1 ≤ (lock_at self.old l).count) }
        ensures { self.new ≡ given_back self.old l }
    {
        let lock = &mut self.locks[l];
        lock.count -= 1;
    }

    // How threads stand, thread t that wants w beside others that stand as `others` says.
    fn beside(&self, t: usize, w: Want, others: Ending) -> Ending
        requires { LowWant w }
        ensures { result ≡ join_by self.now t others w }
    {
        match w {
            Want::Free => Ending::Open,
            Want::Gone => others,
            Want::Lock(l) => {
                if !self.waits(t, usize::from(l)) {
                    return Ending::Open;
                }
                if others == Ending::Ended {
                    Ending::Stuck
                } else {
                    others
                }
            }
        }
    }

    // How the run ends if no byte is left: Ended if no thread is left, Stuck if some are and all of them wait, else Open.
    fn outlook(&self) -> Ending
        requires { Wanting self.now }
        ensures { result ≡ view self.now self.now.threads }
    {
        let mut answer = Ending::Ended;
        for (t, w) in self.wants[..self.threads].iter().enumerate() {
            answer = self.beside(t, *w, answer);
        }
        answer
    }

    // What is to be done next, where some thread can go on.
    fn next_byte(&mut self, schedule: &[u8])
        ensures { self.new ≡ next_byte self.old schedule.now }
    {
        let i = self.read;
        if schedule.len() <= i {
            self.stop(Ending::Open);
            return;
        }
        let t = usize::from(schedule[i]) % MOST_THREADS;
        if self.threads <= t {
            self.stop(Ending::Unstarted);
            return;
        }
        self.stage = Stage::Turn;
        self.pick = t;
    }

    // What is to be done next, once every record is as the machine has it.
    pub fn settle(&mut self, schedule: &[u8])
        requires { Wanting self.old }
        ensures { self.new ≡ settled_as self.old schedule.now }
    {
        match self.outlook() {
            Ending::Open => self.next_byte(schedule),
            ending => self.stop(ending),
        }
    }

    // Whether the thread that is looked at may open no further block or call.
    pub fn full(&self, depth: usize) -> bool
        requires { depth + 1 < 2 ^ 64 }
        ensures { result ≡ full_at self.now.pick depth }
    {
        if self.pick == 0 {
            return MOST_FRAMES <= depth;
        }
        MOST_FRAMES <= depth + 1
    }

    // Whether no further thread may start.
    pub fn crowded(&self) -> bool
        ensures { result ≡ crowded_at self.now }
    {
        self.lent <= self.threads || MOST_THREADS <= self.threads
    }

    // A thread starts at `at` with those names; it wants w next.
    pub fn start(&mut self, at: usize, names: [u8; MOST_NAMES], w: Want)
        requires { self.old.threads < most_threads }
        ensures { self.new ≡ starting_as self.old at names w }
    {
        let t = self.threads;
        self.stage = Stage::Born;
        self.pick = t;
        self.threads = t + 1;
        self.head = at;
        self.born = names;
        self.wants[t] = w;
    }
}
