// The walk over a body's bytes: a place, and what holds there at each open level.
ghost use Rattle.std.specs.Prelude.{◌≡◌, ◌+◌, ◌≤◌, ◌<◌};
ghost use Rattle.table.specs.Constants.{most_names, most_open};
ghost use Rattle.pairs.specs.Walks.{in_nest, with_root, top_by, IsOver, LevelReady};

use table::limits::{CHOICE, END, FORK, LEVELS, LOCK, MIRROR, MOST_NAMES, NEW};
use table::sections::Sections;

// Each name as its own root.
pub const SELVES: [u8; MOST_NAMES] = [0, 1, 2, 3, 4, 5, 6, 7, 8, 9, 10, 11, 12, 13, 14, 15];

// What holds at an open level: the holder, where there is one, the thread (a label number) and the nest (a mask of
// roots).
#[derive(Clone, Copy)]
pub struct Level {
    pub holder: Option<u8>,
    pub thread: u8,
    pub nest: u16,
}

impl Level {
    ghost use Rattle.pairs.specs.Walks.{thread_level};

    // What holds where a thread starts: there is no holder, and the nest is empty.
    fn of_thread(thread: u8) -> Self
        ensures { result ≡ thread_level thread }
    {
        Level {
            holder: None,
            thread,
            nest: 0,
        }
    }
}

// A place of a body: the offset, how many FORK stand before it, the last name that the routine has so far, and the
// innermost open level (the body is level 0). It stands apart from the arrays, for speed: so it stays in registers.
#[derive(Clone, Copy)]
pub struct Place {
    pub at: usize,
    pub forks: u8,
    pub last: u8,
    pub top: usize,
}

impl Place {
    ghost use Rattle.pairs.specs.Walks.{start_place};

    // The start of a body, of a routine with k parameters.
    pub fn new(at: usize, k: u8) -> Self
        ensures { result ≡ start_place at k }
    {
        Place {
            at,
            forks: 0,
            last: k,
            top: 0,
        }
    }
}

// What holds at each open level, and the root of each name.
#[derive(Clone, Copy)]
pub struct Levels {
    pub levels: [Level; LEVELS],
    pub roots: [u8; MOST_NAMES],
}

// Whether the item with code b is the END of the body, where `top` is the innermost open level.
pub fn over(b: u8, top: usize) -> bool
    ensures { IsOver b top result }
{
    b == END && top == 0
}

// The innermost open level past an item with code b.
pub fn top_past(b: u8, top: usize) -> usize
    requires { LevelReady b top }
    ensures { result ≡ top_by top b }
{
    match b {
        END => top - 1,
        LOCK | FORK | CHOICE => top + 1,
        _ => top,
    }
}

// Whether the root z is in the nest, a mask of roots.
fn in_nest(nest: u16, z: u8) -> bool
    requires { z < most_names }
    ensures { result ≡ in_nest nest z }
{
    (nest >> u16::from(z)) % 2 == 1
}

// The nest with the root z.
fn with_root(nest: u16, z: u8) -> u16
    requires { z < most_names }
    ensures { result ≡ with_root nest z }
{
    nest | (1u16 << u16::from(z))
}

impl Levels {
    ghost use Rattle.pairs.specs.Walks.{walk_of, start_levels, level_at, root_of, LowRoot, inside_lock, opened_walk};
    ghost use Rattle.pairs.specs.Walks.{byte_of, local_walk, next_walk, Ready};

    // What holds at the start of a body.
    pub fn new() -> Self
        ensures { result ≡ start_levels }
    {
        let none = Level::of_thread(0);
        let mut levels = [none; LEVELS];
        levels[0] = Level {
            holder: Some(0),
            ..none
        };
        Levels {
            levels,
            roots: SELVES,
        }
    }

    // What holds at the place, where `top` is the innermost open level.
    pub fn at(&self, top: usize) -> Level
        requires { top ≤ most_open }
        ensures { result ≡ level_at self.now.levels top }
    {
        self.levels[top]
    }

    // The root of the name x.
    pub fn root_of(&self, x: u8) -> u8
        requires { x < most_names }
        ensures { result ≡ root_of self.now.roots x }
    {
        self.roots[usize::from(x)]
    }

    // What holds inside LOCK x at the place. The holder there is the one outside, where the root of the name is in the nest
    // already, else that root.
    pub fn inside_lock(&self, top: usize, x: u8) -> Level
        requires { (top ≤ most_open) × LowRoot self.now.roots x }
        ensures { result ≡ inside_lock (level_at self.now.levels top) (root_of self.now.roots x) }
    {
        let here = self.at(top);
        let root = self.root_of(x);
        let holder = if in_nest(here.nest, root) {
            here.holder
        } else {
            Some(root)
        };
        let nest = with_root(here.nest, root);
        Level {
            holder,
            thread: here.thread,
            nest,
        }
    }

    // Opens a level, where `inside` holds.
    fn open(&mut self, p: &mut Place, inside: Level)
        requires { p.old.top < most_open }
        ensures { walk_of p.new self.new ≡ opened_walk (walk_of p.old self.old) inside }
    {
        let n = p.top + 1;
        p.top = n;
        self.levels[n] = inside;
    }

    // Adds a local with that root.
    fn add_local(&mut self, p: &mut Place, root: u8)
        requires { p.old.last + 1 < most_names }
        ensures { walk_of p.new self.new ≡ local_walk (walk_of p.old self.old) root }
    {
        let n = p.last + 1;
        p.last = n;
        self.roots[usize::from(n)] = root;
    }

    // Passes the item at the place, whose code is b: it is handed over, so that it is read once, for speed. Where the
    // item opens a level, what holds there is written; where it gives a name, the root of the name is, for a MIRROR that
    // of the name that it mirrors.
    pub fn step(&mut self, p: &mut Place, t: &Sections<'_>, b: u8)
        requires { Ready t.now.counts.now t.now.bodies.now (walk_of p.old self.old)
            × (byte_of t.now.bodies.now (walk_of p.old self.old) ≡ b) }
        ensures { walk_of p.new self.new ≡ next_walk t.now.counts.now t.now.bodies.now (walk_of p.old self.old) }
    {
        let s = t.bodies;
        let i = p.at;
        p.at = t.past(i);
        match b {
            END => {
                p.top -= 1;
            }
            NEW => {
                let x = p.last + 1;
                self.add_local(p, x);
            }
            LOCK => {
                let x = s[i + 1];
                let inside = self.inside_lock(p.top, x);
                self.open(p, inside);
            }
            FORK => {
                let n = p.forks + 1;
                p.forks = n;
                self.open(p, Level::of_thread(n));
            }
            CHOICE => {
                let here = self.at(p.top);
                self.open(p, here);
            }
            MIRROR => {
                let y = s[i + 1];
                let root = self.root_of(y);
                self.add_local(p, root);
            }
            _ => {}
        }
    }
}
