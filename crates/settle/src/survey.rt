// A survey of the bodies: where each starts, and what it calls.
ghost use Rattle.std.specs.Prelude.{◌≡◌, length};
ghost use Rattle.table.specs.Constants.{most_routines};
ghost use Rattle.table.specs.Laws.Sections.{Held};
ghost use Rattle.settle.specs.Bodies.{Surveys};

use pairs::scan;
use table::limits::MOST_ROUTINES;
use table::sections::Sections;

// What a survey gives, for each routine: where its body starts in the section, and the routines that it calls, as bits.
// The masks are an array of their own, since `reached` walks masks of callers too.
#[derive(Clone, Copy)]
pub struct Survey {
    pub starts: [usize; MOST_ROUTINES],
    pub calls: [u64; MOST_ROUTINES],
}

impl Survey {
    // Surveys the bodies of a table. A survey that is given back would be copied, which small tables notice.
    pub fn fill(&mut self, t: &Sections<'_>)
        requires { Held t.now.counts.now t.now.bodies.now
            × (length self.old.starts ≡ most_routines) × (length self.old.calls ≡ most_routines) }
        ensures { Surveys t.now.counts.now t.now.bodies.now self.new.starts self.new.calls }
    {
        let mut at = 0;
        for r in 0..t.counts.len() {
            let b = scan(t, at);
            self.starts[r] = at;
            self.calls[r] = b.calls;
            at = b.next;
        }
    }
}
