// One body, written as in the canonical table: mirrors resolved and left out, locals and calls renumbered.
#![tactic(auto)]

ghost use Rattle.std.specs.Prelude.{◌≡◌, ◌+◌, ◌<◌, ◌≤◌, length, get_or};
ghost use Rattle.table.specs.Constants.{most_names, most_bytes};
ghost use Rattle.append.specs.Puts.{Puts};
ghost use Rattle.order.specs.Items.{mark, making, locking};
ghost use Rattle.order.specs.Standing.{NameAt, CallAt, call_here, item_at, SomeItem};
ghost use Rattle.rewrite.specs.Writing.{NamesFit, new_names, itself16, Fits, Passed, PassedAs};
ghost use Rattle.rewrite.specs.Writing.{MirrorPassed, BodyReady, BodyWritten};

use append::Text;
use table::limits::{CALL, LOCK, MIRROR, MOST_NAMES, NEW};
use table::sections::Sections;

// A place of a body: the offset, `local`, the next name, `next`, the next new name, and the new name of each name so far.
// There is no heap: the new names lie in a fixed array, in use up to the next name.
#[derive(Clone, Copy)]
pub struct Spot {
    pub at: usize,
    pub local: usize,
    pub next: u8,
    pub names: [u8; MOST_NAMES],
}

impl Spot {
    // Appends the new names of the names xs.
    fn put_names(&self, xs: &[u8], out: &mut Text<'_>)
        requires { NamesFit xs.now self.now.names out.old.at }
        ensures { Puts (new_names self.now.names xs.now) out.old out.new }
    {
        for x in xs {
            out.put_byte(self.names[usize::from(*x)]);
        }
    }

    // Appends a NEW, and passes it.
    fn put_new(&mut self, out: &mut Text<'_>)
        requires { Fits self.old out.old.at × (self.old.local < most_names) }
        ensures { PassedAs making self.old self.new out.old out.new }
    {
        out.put_byte(NEW);
        self.names[self.local] = self.next;
        self.at += 1;
        self.local += 1;
        self.next += 1;
    }

    // Passes the MIRROR at the place.
    fn put_mirror(&mut self, s: &[u8])
        requires { NameAt s.now (self.old.at + 1) × (length self.old.names ≡ most_names) × (self.old.local < most_names) }
        ensures { MirrorPassed s.now self.old self.new }
    {
        let y = usize::from(s[self.at + 1]);
        let x = self.names[y];
        self.names[self.local] = x;
        self.at += 2;
        self.local += 1;
    }

    // Appends the LOCK at the place, and passes it.
    fn put_lock(&mut self, s: &[u8], out: &mut Text<'_>)
        requires { Fits self.old out.old.at × NameAt s.now (self.old.at + 1) }
        ensures { PassedAs (locking (get_or s.now (self.old.at + 1) 0)) self.old self.new out.old out.new }
    {
        let x = usize::from(s[self.at + 1]);
        out.put_byte(LOCK);
        out.put_byte(self.names[x]);
        self.at += 2;
    }

    // Appends the CALL at the place, and passes it. A routine that a met one calls is met, so that it has a place.
    fn put_call(&mut self, t: &Sections<'_>, places: &[Option<u8>], out: &mut Text<'_>)
        requires { Fits self.old out.old.at
            × CallAt t.now.counts.now t.now.bodies.now self.old.at places.now }
        ensures { Passed places.now (call_here t.now.counts.now t.now.bodies.now self.old.at)
            self.old self.new out.old out.new }
    {
        let s = t.bodies;
        let at = self.at;
        let r = usize::from(s[at + 1]);
        let end = at + 2 + usize::from(t.counts[r]);
        out.put_byte(CALL);
        out.put_byte(places[r].unwrap_or(0));
        self.put_names(&s[at + 2..end], out);
        self.at = end;
    }

    // Appends an item that is a code alone, and passes it.
    fn put_mark(&mut self, b: u8, out: &mut Text<'_>)
        requires { (self.old.at < most_bytes) × (out.old.at < 500000) }
        ensures { PassedAs (mark b) self.old self.new out.old out.new }
    {
        out.put_byte(b);
        self.at += 1;
    }

    // Appends the item at the place, and passes it.
    fn put_item(&mut self, t: &Sections<'_>, places: &[Option<u8>], out: &mut Text<'_>)
        requires { Fits self.old out.old.at
            × SomeItem t.now.counts.now t.now.bodies.now self.old.at self.old.local
            × (length t.now.counts.now ≤ length places.now) }
        ensures { Passed places.now (item_at t.now.counts.now t.now.bodies.now self.old.at)
            self.old self.new out.old out.new }
    {
        let s = t.bodies;
        let b = s[self.at];
        match b {
            NEW => self.put_new(out),
            MIRROR => self.put_mirror(s),
            LOCK => self.put_lock(s, out),
            CALL => self.put_call(t, places, out),
            _ => self.put_mark(b, out),
        }
    }
}

// Every name up to the limit for itself.
fn itself() -> [u8; MOST_NAMES]
    ensures { result ≡ itself16 }
{
    let mut names = [0; MOST_NAMES];
    for (x, name) in names.iter_mut().enumerate() {
        *name = x as u8;
    }
    names
}

// Appends the body from `at` to `end`, of a routine with `own` parameters.
pub fn put_body(
    t: &Sections<'_>,
    places: &[Option<u8>],
    at: usize,
    end: usize,
    own: u8,
    out: &mut Text<'_>,
)
    requires { BodyReady t.now.counts.now t.now.bodies.now places.now at end own out.old.at }
    ensures { BodyWritten t.now.counts.now t.now.bodies.now places.now at end own out.old out.new }
{
    let mut w = Spot {
        at,
        local: usize::from(own) + 1,
        next: own + 1,
        names: itself(),
    };
    while w.at < end {
        w.put_item(t, places, out);
    }
}
