// One step of one thread: its record and the machine are changed where they lie.
#![tactic(auto)]

ghost use Rattle.std.specs.Prelude.{◌≡◌, ◌+◌, ◌<◌, ◌≤◌};
ghost use Rattle.schedule.specs.Limits.{most_locks};
ghost use Rattle.steps.specs.Records.{Level};
ghost use Rattle.steps.specs.Machines.{settled_as, counted_as, want_at, Item};
ghost use Rattle.steps.specs.Steps.{pair, done_as, close_as, end_as, new_as, lock_as, fork_as, choice_as};
ghost use Rattle.steps.specs.Steps.{side_of, call_as, mirror_as, other_as, operand_of, item_as, step_as, Counts, Goes};
ghost use Rattle.steps.specs.Steps.{Closes};
ghost use Rattle.steps.specs.Steps.{Enters, News, Mirrors, Others, Operand, Locks, Forks, Calls, Items, Ready};

pub mod limits;
pub mod machine;
pub mod thread;

use limits::{ALTERNATIVE, CALLED, MOST_LOCKS, MOST_THREADS, SECOND_SIDE};
use machine::{Ending, Machine, Stage, Want};
use table::limits::{CALL, CHOICE, END, FORK, LOCK, MIRROR, MOST_BYTES, MOST_ROUTINES, NEW};
use table::sections::Sections;
use thread::Thread;

// What a run is of: the sections of a table, where its bodies start, what belongs to its items, and the schedule.
#[derive(Clone, Copy)]
pub struct Course<'a> {
    pub sections: Sections<'a>,
    pub heads: &'a [usize; MOST_ROUTINES],
    pub links: &'a [usize; MOST_BYTES],
    pub schedule: &'a [u8],
}

// The alternative that a byte takes.
fn side(b: u8, one: usize, other: usize) -> usize
    ensures { result ≡ side_of b one other }
{
    if b < SECOND_SIDE { one } else { other }
}

impl Course<'_> {
    // What a thread wants at offset `at`.
    fn want(&self, t: &Thread, at: usize) -> Want
        requires { Level t.now × Item self.now.sections.bodies.now at }
        ensures { result ≡ want_at self.now.sections.bodies.now t.now at }
    {
        let s = self.sections.bodies;
        if s[at] == LOCK {
            return Want::Lock(t.lock_of(usize::from(s[at + 1])));
        }
        Want::Free
    }

    // The byte does nothing, but is counted.
    fn idle(&self, m: &mut Machine)
        requires { Counts m.old }
        ensures { m.new ≡ settled_as (counted_as m.old) self.now.schedule.now }
    {
        m.read += 1;
        m.settle(self.schedule);
    }

    // The step was taken: the thread wants what stands at its offset.
    fn done(&self, t: &Thread, m: &mut Machine)
        requires { Goes self.now.sections.bodies.now t.now m.old }
        ensures { pair t.now m.new ≡ done_as self.now.sections.bodies.now self.now.schedule.now t.now m.old }
    {
        m.read += 1;
        m.wants[m.pick] = self.want(t, t.at);
        m.settle(self.schedule);
    }

    // END of what a frame opened: a call is returned from, or a hold given back.
    fn close(&self, t: &mut Thread, m: &mut Machine)
        requires { Closes self.now.sections.bodies.now t.old m.old }
        ensures { pair t.new m.new ≡ close_as self.now.sections.bodies.now self.now.schedule.now t.old m.old }
    {
        let d = t.depth - 1;
        let kind = t.kinds[d];
        if kind == CALLED {
            t.leave(t.goes[d]);
            return self.done(t, m);
        }
        t.leave(t.at + 1);
        if kind != ALTERNATIVE {
            m.give(usize::from(kind));
        }
        self.done(t, m);
    }

    // END: of the thread, or of its innermost frame.
    fn end(&self, t: &mut Thread, m: &mut Machine)
        requires { Counts m.old × (1 ≤ t.old.depth → Closes self.now.sections.bodies.now t.old m.old) }
        ensures { pair t.new m.new ≡ end_as self.now.sections.bodies.now self.now.schedule.now t.old m.old }
    {
        if t.depth == 0 {
            t.ended = true;
            m.wants[m.pick] = Want::Gone;
            return self.idle(m);
        }
        self.close(t, m);
    }

    // NEW, whose name is x.
    fn new(&self, x: usize, t: &mut Thread, m: &mut Machine)
        requires { News self.now.sections.bodies.now x t.old m.old }
        ensures { pair t.new m.new ≡ new_as self.now.sections.bodies.now self.now.schedule.now x t.old m.old }
    {
        let l = m.made;
        if MOST_LOCKS <= l {
            return m.stop(Ending::Beyond);
        }
        t.bind(x, l as u8, t.at + 1);
        m.made = l + 1;
        self.done(t, m);
    }

    // MIRROR, whose name is x and whose operand stands for the lock l.
    fn mirror(&self, x: usize, l: u8, t: &mut Thread, m: &mut Machine)
        requires { Mirrors self.now.sections.bodies.now x l t.old m.old }
        ensures { pair t.new m.new ≡ mirror_as self.now.sections.bodies.now self.now.schedule.now x l t.old m.old }
    {
        t.bind(x, l, t.at + 2);
        self.done(t, m);
    }

    // OTHER, after whose choice the thread goes on at `next`.
    fn other(&self, next: usize, t: &mut Thread, m: &mut Machine)
        requires { Others self.now.sections.bodies.now next t.old m.old }
        ensures { pair t.new m.new ≡ other_as self.now.sections.bodies.now self.now.schedule.now next t.old m.old }
    {
        t.leave(next);
        self.done(t, m);
    }

    // The lock that the name after the item's code stands for.
    fn operand(&self, t: &Thread) -> u8
        requires { Operand self.now.sections.bodies.now t.now }
        ensures { result ≡ operand_of self.now.sections.bodies.now t.now }
    {
        let s = self.sections.bodies;
        t.lock_of(usize::from(s[t.at + 1]))
    }

    // LOCK, of the lock l.
    fn lock(&self, l: u8, t: &mut Thread, m: &mut Machine)
        requires { Locks self.now.sections.bodies.now l t.old m.old }
        ensures { pair t.new m.new ≡ lock_as self.now.sections.bodies.now self.now.schedule.now l t.old m.old }
    {
        let i = usize::from(l);
        if m.waits(m.pick, i) {
            return self.idle(m);
        }
        if m.full(t.depth) {
            return m.stop(Ending::Beyond);
        }
        t.enter(l, t.at + 2);
        m.take(m.pick, i);
        self.done(t, m);
    }

    // FORK, after whose block the thread goes on at `next`.
    fn fork(&self, next: usize, t: &mut Thread, m: &mut Machine)
        requires { Forks self.now.sections.bodies.now next t.old m.old }
        ensures { pair t.new m.new ≡ fork_as self.now.sections.bodies.now next t.old m.old }
    {
        if m.crowded() {
            return m.stop(Ending::Beyond);
        }
        let block = t.at + 1;
        m.read += 1;
        m.wants[m.pick] = self.want(t, next);
        m.start(block, t.level(), self.want(t, block));
        t.at = next;
    }

    // CHOICE, of the alternative at `to`.
    fn choice(&self, to: usize, t: &mut Thread, m: &mut Machine)
        requires { Level t.old × Enters self.now.sections.bodies.now t.old m.old most_locks to m.old }
        ensures { pair t.new m.new ≡ choice_as self.now.sections.bodies.now self.now.schedule.now to t.old m.old }
    {
        if m.full(t.depth) {
            return m.stop(Ending::Beyond);
        }
        t.enter(ALTERNATIVE, to);
        self.done(t, m);
    }

    // CALL.
    fn call(&self, t: &mut Thread, m: &mut Machine)
        requires { Calls self.now.sections.counts.now self.now.sections.bodies.now self.now.heads.now t.old m.old }
        ensures { pair t.new m.new ≡ call_as self.now.sections.counts.now self.now.sections.bodies.now
            self.now.heads.now self.now.schedule.now t.old m.old }
    {
        if m.full(t.depth) {
            return m.stop(Ending::Beyond);
        }
        let s = self.sections.bodies;
        let at = t.at;
        let r = usize::from(s[at + 1]);
        let k = usize::from(self.sections.counts[r]);
        t.enter_call(s, at + 2, k, self.heads[r]);
        self.done(t, m);
    }

    // The next item of the thread.
    fn item(&self, t: &mut Thread, m: &mut Machine)
        requires { Items self.now.sections.counts.now self.now.sections.bodies.now self.now.heads.now
            self.now.links.now self.now.schedule.now t.old m.old }
        ensures { pair t.new m.new ≡ item_as self.now.sections.counts.now self.now.sections.bodies.now
            self.now.heads.now self.now.links.now self.now.schedule.now t.old m.old }
    {
        let at = t.at;
        let link = self.links[at];
        match self.sections.bodies[at] {
            END => self.end(t, m),
            NEW => self.new(link, t, m),
            LOCK => self.lock(self.operand(t), t, m),
            FORK => self.fork(link, t, m),
            CHOICE => {
                let to = side(self.schedule[m.read], at + 1, link);
                self.choice(to, t, m)
            }
            CALL => self.call(t, m),
            MIRROR => self.mirror(link, self.operand(t), t, m),
            _ => self.other(link, t, m),
        }
    }

    // What the machine asks for, done to the record that it looks at.
    pub fn step(&self, t: &mut Thread, m: &mut Machine)
        requires { Ready self.now.sections.counts.now self.now.sections.bodies.now self.now.heads.now
            self.now.links.now self.now.schedule.now t.old m.old }
        ensures { pair t.new m.new ≡ step_as self.now.sections.counts.now self.now.sections.bodies.now
            self.now.heads.now self.now.links.now self.now.schedule.now t.old m.old }
    {
        match m.stage {
            Stage::Born => {
                t.begin(m.head, &m.born);
                m.settle(self.schedule);
            }
            _ if t.ended => self.idle(m),
            _ => self.item(t, m),
        }
    }
}
