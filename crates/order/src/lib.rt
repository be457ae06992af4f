// The order in which routines are first met, reading bodies in new-number order from routine 0, and how long the bodies
// of these routines are without their mirrors.
#![tactic(auto)]

ghost use Rattle.std.specs.Prelude.{◌≡◌, ◌<◌, ◌≤◌, length};
ghost use Rattle.table.specs.Constants.{most_routines};
ghost use Rattle.order.specs.Standing.{HeldAt, end_of};
ghost use Rattle.order.specs.Ordering.{list_of, Listed, unmet, Met, kept, CanMeet, AllMet, Ordered};

use table::limits::{CALL, MIRROR, MOST_ROUTINES};
use table::sections::Sections;

// The routines met, in order, the place of each of them in that order, how many they are, and how many bytes the bodies
// read so far have without their mirrors. There is no heap: the routines lie in a fixed array, of which `met` gives the
// part in use.
#[derive(Clone, Copy)]
pub struct Order {
    pub routines: [u8; MOST_ROUTINES],
    pub places: [Option<u8>; MOST_ROUTINES],
    pub count: usize,
    pub bytes: usize,
}

impl Order {
    // The order with no routine in it.
    pub fn new() -> Self
        ensures { result ≡ unmet }
    {
        Order {
            routines: [0; MOST_ROUTINES],
            places: [None; MOST_ROUTINES],
            count: 0,
            bytes: 0,
        }
    }

    // Puts r at the end of the routines met, where it is not among them.
    fn meet(&mut self, r: u8)
        requires { Listed self.old × (r < most_routines) }
        ensures { Met self.old self.new r }
    {
        let k = usize::from(r);
        if self.places[k].is_none() {
            self.places[k] = Some(self.count as u8);
            self.routines[self.count] = r;
            self.count += 1;
        }
    }

    // Meets the routines that the items from `at` to `end` call, and counts the bytes of these items.
    fn meet_all(&mut self, t: &Sections<'_>, at: usize, end: usize)
        requires { CanMeet t.now.counts.now t.now.bodies.now at end self.old }
        ensures { AllMet t.now.counts.now t.now.bodies.now at end self.old self.new }
    {
        let s = t.bodies;
        let mut i = at;
        while i < end {
            if s[i] == CALL {
                self.meet(s[i + 1]);
            }
            let next = t.past(i);
            self.bytes += kept_bytes(s[i], next - i);
            i = next;
        }
    }

    // Finds the order of the routines that calls reach, whatever it was before. The list of the routines met is what is
    // still to read: it grows while bodies are read. An order that is filled and then given back is copied by a call of
    // memcpy, which an archive would then need from outside.
    pub fn discover(&mut self, t: &Sections<'_>, starts: &[usize])
        requires { HeldAt t.now.counts.now t.now.bodies.now starts.now }
        ensures { Ordered t.now.counts.now t.now.bodies.now starts.now self.new }
    {
        self.routines = [0; MOST_ROUTINES];
        self.places = [None; MOST_ROUTINES];
        self.count = 0;
        self.bytes = 0;
        self.meet(0);
        let mut i = 0;
        while i < self.count {
            let r = usize::from(self.routines[i]);
            self.meet_all(t, starts[r], end_of(t.bodies, starts, r));
            i += 1;
        }
    }

    // The routines met, in order.
    pub fn met(&self) -> &[u8]
        requires { self.now.count ≤ most_routines }
        ensures { result.now ≡ list_of self.now }
    {
        &self.routines[..self.count]
    }
}

// How many of the n bytes of an item with code b are written: none of a MIRROR.
fn kept_bytes(b: u8, n: usize) -> usize
    ensures { result ≡ kept b n }
{
    if b == MIRROR { 0 } else { n }
}

// Where the body of routine r ends.
pub fn end_of(s: &[u8], starts: &[usize], r: usize) -> usize
    requires { r < length starts.now }
    ensures { result ≡ end_of s.now starts.now r }
{
    starts.get(r + 1).copied().unwrap_or(s.len())
}
