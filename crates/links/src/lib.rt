// What the steps need of the section, worked out once: where the bodies start, and what belongs to an item but does not
// stand at it.
#![tactic(auto)]

ghost use Rattle.std.specs.Prelude.{◌≡◌, length};
ghost use Rattle.table.specs.Constants.{most_routines, most_bytes};
ghost use Rattle.table.specs.Laws.Sections.{Held};
ghost use Rattle.links.specs.Holding.{Links};
ghost use Rattle.links.specs.Walks.{begun, Walks, Linked, Bounded};

pub mod walk;

use table::limits::{MOST_BYTES, MOST_ROUTINES};
use table::sections::Sections;
pub use walk::Walk;

// Links the body at `from`, of a routine with `own` parameters, and gives the offset after it: at a NEW or MIRROR
// stands its name, at a FORK the offset after its block, at a CHOICE that of its second alternative, at an OTHER that
// after the choice.
pub fn link_body(
    t: &Sections<'_>,
    links: &mut [usize; MOST_BYTES],
    from: usize,
    own: usize,
) -> usize
    requires { Bounded own × Walks t.now.counts.now t.now.bodies.now (begun from own) links.old }
    ensures { Linked t.now.counts.now t.now.bodies.now (begun from own) links.old
        links.new result }
{
    let mut w = Walk::new(from, own);
    while w.inside(t.bodies) {
        w.link_item(t, links);
    }
    w.at + 1
}

// Links every body, and leaves where each starts.
pub fn link(t: &Sections<'_>, heads: &mut [usize; MOST_ROUTINES], links: &mut [usize; MOST_BYTES])
    requires { Held t.now.counts.now t.now.bodies.now × (length heads.old ≡ most_routines)
        × (length links.old ≡ most_bytes) }
    ensures { Links t.now.counts.now t.now.bodies.now heads.new links.new }
{
    let mut at = 0;
    for (r, own) in t.counts.iter().enumerate() {
        let next = link_body(t, links, at, usize::from(*own));
        heads[r] = at;
        at = next;
    }
}
