// The walk that links a body, item by item.
ghost use Rattle.std.specs.Prelude.{◌≡◌, ◌<◌, ◌+◌, ◌^◌, length};

use table::limits::{CALL, END, LEVELS, MIRROR, MOST_BYTES, NEW, OTHER};
use table::sections::Sections;

// A place of a body: the offset of the next item, the innermost open level, the name that is made next, and for each
// open level the offset of the item whose link is written when it is closed.
#[derive(Clone, Copy)]
pub struct Walk {
    pub at: usize,
    pub top: usize,
    pub name: usize,
    pub opened: [usize; LEVELS],
}

impl Walk {
    ghost use Rattle.links.specs.Walks.{begun, going, CanLink, walk_after, links_after};

    // The place at the start of a body, of a routine with `own` parameters.
    pub(crate) fn new(from: usize, own: usize) -> Self
        requires { own + 1 < 2 ^ 64 }
        ensures { result ≡ begun from own }
    {
        Walk {
            at: from,
            top: 0,
            name: own + 1,
            opened: [0; LEVELS],
        }
    }

    // Whether the item at the place is not the END of the body.
    pub(crate) fn inside(&self, s: &[u8]) -> bool
        requires { self.now.at < length s.now }
        ensures { result ≡ going s.now self.now }
    {
        s[self.at] != END || self.top != 0
    }

    // Links the item at the place and passes it. A NEW or MIRROR has its name for a link, an item that closes a block or
    // an alternative writes the offset after it at the item that opened that, and any other has the offset after it.
    pub(crate) fn link_item(&mut self, t: &Sections<'_>, links: &mut [usize; MOST_BYTES])
        requires { CanLink t.now.counts.now t.now.bodies.now self.old }
        ensures linked { links.new ≡ links_after t.now.counts.now t.now.bodies.now self.old links.old }
        ensures passed { self.new ≡ walk_after t.now.counts.now t.now.bodies.now self.old }
    {
        let at = self.at;
        let next = t.past(at);
        self.at = next;
        match t.bodies[at] {
            NEW | MIRROR => {
                links[at] = self.name;
                self.name += 1;
            }
            END => {
                let o = self.opened[self.top];
                links[o] = next;
                self.top -= 1;
            }
            OTHER => {
                let o = self.opened[self.top];
                links[o] = next;
                self.opened[self.top] = at;
            }
            CALL => {
                links[at] = next;
            }
            _ => {
                let n = self.top + 1;
                links[at] = next;
                self.top = n;
                self.opened[n] = at;
            }
        }
    }
}
