// The record of one thread, and the steps that change it where it lies.
ghost use Rattle.std.specs.Prelude.{◌≡◌, ◌+◌, ◌*◌, ◌-◌, ◌<◌, ◌≤◌, get_or, set};
ghost use Rattle.table.specs.Constants.{most_names};
ghost use Rattle.schedule.specs.Limits.{most_frames};
ghost use Rattle.steps.specs.Records.{name_at, passed, level, lock_of, bound_to};
ghost use Rattle.steps.specs.Records.{entered_as, called_as, left_to, born_at, Room, Level, Passes};

use crate::limits::{ALL_NAMES, CALLED, MOST_FRAMES};
use table::limits::MOST_NAMES;

// One thread: the offset in the body section of its next item, how many frames are open, and whether it has ended.
// Frame d is of the kind `kinds[d]`: the lock of a LOCK block, ALTERNATIVE, or CALLED, and then it goes on at
// `goes[d]`. Level 0 is the body or FORK block that it began with, level d + 1 is what frame d opened. The lock that
// name x stands for at level d is at MOST_NAMES * d + x of `names`. Callers in C lend the records: numbers and arrays.
#[repr(C)]
#[derive(Clone, Copy)]
pub struct Thread {
    pub at: usize,
    pub depth: usize,
    pub ended: bool,
    pub kinds: [u8; MOST_FRAMES],
    pub goes: [usize; MOST_FRAMES],
    pub names: [u8; ALL_NAMES],
}

// The name that parameter j + 1 has in a CALL whose k names stand from `from` on; past them it is name 0.
fn name_at(s: &[u8], from: usize, k: usize, j: usize) -> usize
    requires { Passes s.now from k }
    ensures { (result ≡ name_at s.now from k j) × (result < most_names) }
{
    if j < k { usize::from(s[from + j]) } else { 0 }
}

// The names of the routine called, at level d + 1.
fn pass_names(names: &mut [u8; ALL_NAMES], d: usize, s: &[u8], from: usize, k: usize)
    requires { (d < most_frames) × Passes s.now from k }
    ensures { names.new ≡ passed (set names.old (most_names * d + most_names) 0) d
        s.now from k (most_names - 1) }
{
    let here = MOST_NAMES * d;
    let to = here + MOST_NAMES;
    names[to] = 0;
    let first = to + 1;
    for j in 0..MOST_NAMES - 1 {
        let x = name_at(s, from, k, j);
        let l = names[here + x];
        names[first + j] = l;
    }
}

impl Thread {
    // The lock that name x stands for.
    pub fn lock_of(&self, x: usize) -> u8
        requires { Level self.now × (x < most_names) }
        ensures { result ≡ lock_of self.now x }
    {
        self.names[MOST_NAMES * self.depth + x]
    }

    // The names at the thread's level.
    pub fn level(&self) -> [u8; MOST_NAMES]
        requires { Level self.now }
        ensures { result ≡ level self.now.names self.now.depth most_names }
    {
        let from = MOST_NAMES * self.depth;
        let mut names = [0u8; MOST_NAMES];
        names.copy_from_slice(&self.names[from..from + MOST_NAMES]);
        names
    }

    // The thread goes on at `at`, where name x stands for the lock l.
    pub fn bind(&mut self, x: usize, l: u8, at: usize)
        requires { Level self.old × (x < most_names) }
        ensures { self.new ≡ bound_to self.old x l at }
    {
        self.names[MOST_NAMES * self.depth + x] = l;
        self.at = at;
    }

    // The thread goes on at `at`, in a block or an alternative: `kind` is the lock held, or ALTERNATIVE.
    pub fn enter(&mut self, kind: u8, at: usize)
        requires { Room self.old }
        ensures { self.new ≡ entered_as self.old kind at }
    {
        let d = self.depth;
        let from = MOST_NAMES * d;
        let to = from + MOST_NAMES;
        self.kinds[d] = kind;
        self.names.copy_within(from..to, to);
        self.depth = d + 1;
        self.at = at;
    }

    // The thread goes on at the head of a routine with k parameters; its names stand in the bytes from `from` on.
    pub fn enter_call(&mut self, s: &[u8], from: usize, k: usize, head: usize)
        requires { Room self.old × Passes s.now from k }
        ensures { self.new ≡ called_as self.old s.now from k head }
    {
        let d = self.depth;
        self.kinds[d] = CALLED;
        self.goes[d] = from + k;
        pass_names(&mut self.names, d, s, from, k);
        self.depth = d + 1;
        self.at = head;
    }

    // The thread goes on at `at`, with the innermost frame closed.
    pub fn leave(&mut self, at: usize)
        requires { 1 ≤ self.old.depth }
        ensures { self.new ≡ left_to self.old at }
    {
        self.depth -= 1;
        self.at = at;
    }

    // A new thread at the head of a block, with the names given; the rest of the record is as it was.
    pub fn begin(&mut self, at: usize, names: &[u8; MOST_NAMES])
        ensures { self.new ≡ born_at self.old at names.now }
    {
        self.at = at;
        self.depth = 0;
        self.ended = false;
        self.names[..MOST_NAMES].copy_from_slice(names);
    }
}
