// The writer of canonical tables: one way to write a table.
#![tactic(auto)]

ghost use Rattle.std.specs.Prelude.{◌≡◌, ◌<◌};
ghost use Rattle.table.specs.Laws.Sections.{Held};
ghost use Rattle.append.specs.Puts.{Puts};
ghost use Rattle.order.specs.Standing.{HeldAt};
ghost use Rattle.writer.specs.Answer.{Writes, WritesAs, Fits};
ghost use Rattle.writer.specs.Parts.{CanCount, counts_of, Ready, BodiesWritten, TableWritten, WritesAt, WritesHeld};

use append::Text;
use order::{Order, end_of};
use rewrite::put_body;
use settle::survey::Survey;
use table::limits::MOST_ROUTINES;
use table::refusal::Refusal;
use table::sections::Sections;

// What is added to a length in the number for a caller in C, since lengths begin among the refusals' numbers.
pub const LENGTH_BASE: u32 = 65536;

// Appends the parameter counts of the routines.
fn put_counts(ks: &[u8], routines: &[u8], out: &mut Text<'_>)
    requires { CanCount ks.now routines.now out.old.at }
    ensures { Puts (counts_of ks.now routines.now) out.old out.new }
{
    for r in routines {
        out.put_byte(ks[usize::from(*r)]);
    }
}

// Appends the bodies of the routines met, in their order.
fn put_bodies(t: &Sections<'_>, starts: &[usize], o: &Order, out: &mut Text<'_>)
    requires { Ready t.now.counts.now t.now.bodies.now starts.now o.now × (out.old.at < 1000) }
    ensures { BodiesWritten t.now.counts.now t.now.bodies.now starts.now o.now out.old out.new }
{
    let s = t.bodies;
    let routines = o.met();
    for x in routines {
        let r = usize::from(*x);
        put_body(
            t,
            &o.places,
            starts[r],
            end_of(s, starts, r),
            t.counts[r],
            out,
        );
    }
}

// Appends the canonical table.
fn put_table(t: &Sections<'_>, starts: &[usize], o: &Order, out: &mut Text<'_>)
    requires { Ready t.now.counts.now t.now.bodies.now starts.now o.now × (out.old.at ≡ 0) }
    ensures { TableWritten t.now.counts.now t.now.bodies.now starts.now out.old out.new }
{
    let routines = o.met();
    out.put_byte(routines.len() as u8);
    put_counts(t.counts, routines, out);
    let count = (o.bytes as u16).to_le_bytes();
    out.put(&count);
    put_bodies(t, starts, o, out);
}

// Finds the order and the length, and writes the canonical table of the program that the sections hold, whose bodies
// start at `starts`.
fn write_at(t: &Sections<'_>, starts: &[usize], out: &mut [u8]) -> Result<usize, Refusal>
    requires { HeldAt t.now.counts.now t.now.bodies.now starts.now }
    ensures writes { WritesAt t.now.counts.now t.now.bodies.now starts.now out.old out.new result }
    ensures fits { Fits result }
{
    let mut o = Order::new();
    o.discover(t, starts);
    let total = 3 + o.count + o.bytes;
    if out.len() < total {
        return Err(Refusal::ShortOutput);
    }
    let mut text = Text::new(out);
    put_table(t, starts, &o, &mut text);
    Ok(total)
}

// Writes the canonical table of the program that the sections hold.
fn write(t: &Sections<'_>, out: &mut [u8]) -> Result<usize, Refusal>
    requires { Held t.now.counts.now t.now.bodies.now }
    ensures writes { WritesHeld t.now.counts.now t.now.bodies.now out.old out.new result }
    ensures fits { Fits result }
{
    // There is no heap: both lists lie in fixed arrays, and are cut to the routines.
    let n = t.counts.len();
    let mut survey = Survey {
        starts: [0; MOST_ROUTINES],
        calls: [0; MOST_ROUTINES],
    };
    survey.fill(t);
    write_at(t, &survey.starts[..n], out)
}

// Writes the canonical table of a table, and answers its length; or answers the refusal.
pub fn canonical(table: &[u8], out: &mut [u8]) -> Result<usize, Refusal>
    ensures writes { Writes table.now out.old out.new result }
    ensures fits { Fits result }
{
    let t = Sections::of(table)?;
    write(&t, out)
}

// Writes the canonical table of a table, for a caller in C: the refusal's number, or 65,536 and the length.
#[unsafe(no_mangle)]
pub extern "C" fn vangpear_canonical(table: &[u8], out: &mut [u8]) -> u32
    ensures { WritesAs table.now out.old out.new result }
{
    match canonical(table, out) {
        Ok(n) => LENGTH_BASE + n as u32,
        Err(r) => u32::from(r),
    }
}
