// Whether two tables differ in one body alone.
ghost use Rattle.std.specs.Prelude.{◌≤◌, length};
ghost use Rattle.update.specs.Parts.{Answers, SameBefore, CanPass, SameAfter, CanCompare, Compares};

use pairs::scan;
use table::sections::Sections;

// Whether two sections are the same before an offset that the second one has.
fn same_before(s: &[u8], t: &[u8], at: usize) -> bool
    requires { at ≤ length t.now }
    ensures { Answers result (SameBefore s.now t.now at) }
{
    at <= s.len() && s[0..at] == t[0..at]
}

// Whether two sections are the same after the bodies at the offset.
fn same_after(ks: &[u8], s: &[u8], t: &[u8], at: usize) -> bool
    requires { CanPass ks.now s.now t.now at }
    ensures { SameAfter ks.now s.now t.now at result }
{
    let old = scan(
        &Sections {
            counts: ks,
            bodies: s,
        },
        at,
    );
    let new = scan(
        &Sections {
            counts: ks,
            bodies: t,
        },
        at,
    );
    s[old.next..] == t[new.next..]
}

// Whether two programs with the same parameter counts differ in the body at most that is at the offset in the second.
pub fn same_elsewhere(old: &Sections<'_>, new: &Sections<'_>, at: usize) -> bool
    requires { CanCompare new.now.counts.now old.now.bodies.now new.now.bodies.now at }
    ensures { Compares new.now.counts.now old.now.bodies.now new.now.bodies.now at result }
{
    same_before(old.bodies, new.bodies, at) && same_after(new.counts, old.bodies, new.bodies, at)
}
