// The dearest chain: the table of n routines that needs n + 1 rounds, written into a lent buffer.
#![tactic(auto)]

ghost use Rattle.std.specs.Prelude.{◌≡◌, ◌+◌, ◌≤◌, ◌<◌};
ghost use Rattle.table.specs.Constants.{most_routines, END as closed-by-END};
ghost use Rattle.table.specs.Program.{end, lock, body};
ghost use Rattle.table.specs.Encoding.{encode, encode_bodies, counts};
ghost use Rattle.append.specs.Puts.{Puts};
ghost use Rattle.rounds.specs.Chain.{params_of, passing, opposing, chain, chain_table};
ghost use Rattle.dearest.specs.Written.{Written};

use append::Text;
use table::limits::{CALL, END, FORK, LOCK, MOST_ROUTINES, NEW};

// How many bytes the body of a routine that calls the next one has.
const PASSING_BYTES: usize = 7;

// How many bytes the body of the last routine has.
const OPPOSING_BYTES: usize = 17;

// How many bytes the table of a chain has at most: three for its two counts, the parameter counts and the bodies.
pub const LONGEST: usize = 3 + MOST_ROUTINES + PASSING_BYTES * (MOST_ROUTINES - 1) + OPPOSING_BYTES;

// How many parameters routine r has.
fn params_of(r: usize) -> u8
    ensures { result ≡ params_of r }
{
    if r == 0 { 0 } else { 2 }
}

// Appends the parameter counts of n routines.
fn put_counts(text: &mut Text<'_>, n: usize)
    requires { (text.old.at ≤ 1) × (n ≤ most_routines) }
    ensures { Puts (counts (chain n)) text.old text.new }
{
    for r in 0..n {
        text.put_byte(params_of(r));
    }
}

// Appends the body of a routine that calls routine q.
fn put_passing(text: &mut Text<'_>, q: u8)
    requires { text.old.at < 2000 }
    ensures { Puts (encode closed-by-END (passing 0 q)) text.old text.new }
{
    text.put(&[NEW, NEW, CALL, q, 1, 2, END]);
}

// Appends a block or body that is a LOCK on x with a LOCK on y in its block.
fn put_locks(text: &mut Text<'_>, x: u8, y: u8)
    requires { text.old.at < 3000 }
    ensures { Puts (encode closed-by-END (lock x (lock y end end) end)) text.old text.new }
{
    text.put(&[LOCK, x, LOCK, y, END, END, END]);
}

// Appends the body of the last routine.
fn put_opposing(text: &mut Text<'_>)
    requires { text.old.at < 2000 }
    ensures { Puts (encode closed-by-END (opposing 0)) text.old text.new }
{
    text.put(&[NEW, NEW, FORK]);
    put_locks(text, 1, 2);
    put_locks(text, 2, 1);
}

// Appends the body of routine r of n.
fn put_body(text: &mut Text<'_>, r: usize, n: usize)
    requires { (text.old.at < 2000) × (r < n) × (n ≤ most_routines) }
    ensures appends { Puts (encode closed-by-END (body (chain n) r)) text.old text.new }
    ensures few { text.new.at ≤ text.old.at + 17 }
{
    if r + 1 < n {
        put_passing(text, (r + 1) as u8);
    } else {
        put_opposing(text);
    }
}

// Appends the bodies of n routines.
fn put_bodies(text: &mut Text<'_>, n: usize)
    requires { (text.old.at < 100) × (n ≤ most_routines) }
    ensures { Puts (encode_bodies (chain n)) text.old text.new }
{
    for r in 0..n {
        put_body(text, r, n);
    }
}

// Appends the table of the chain of n routines.
fn put_table(text: &mut Text<'_>, n: usize)
    requires { (text.old.at ≡ 0) × (1 ≤ n) × (n ≤ most_routines) }
    ensures { Puts (chain_table n) text.old text.new }
{
    let size = PASSING_BYTES * (n - 1) + OPPOSING_BYTES;
    text.put_byte(n as u8);
    put_counts(text, n);
    text.put(&(size as u16).to_le_bytes());
    put_bodies(text, n);
}

// Writes the table of the chain of n routines, and gives its length; where there is no such chain, nothing and 0. What
// has no room in the buffer is left out.
pub fn write_chain(n: usize, out: &mut [u8]) -> usize
    ensures { Written n out.old out.new result }
{
    if n == 0 {
        return 0;
    }
    if MOST_ROUTINES < n {
        return 0;
    }
    let mut text = Text::new(out);
    put_table(&mut text, n);
    text.at
}
