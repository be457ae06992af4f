// The handler table: whether its bytes are accepted, with how many routines and items, or which refusal comes first.
#![tactic(auto)]

ghost use Rattle.std.specs.Prelude.{◌≡◌, ◌<◌, length, true};
ghost use Rattle.table.specs.Check.{small?, bodies, sections, check_table};
ghost use Rattle.table.specs.Answer.{checked_of};

mod bodies;
pub mod limits;
mod reader;
pub mod refusal;
pub mod scope;
pub mod sections;

use limits::{MOST_BYTES, MOST_PARAMS, MOST_ROUTINES};
use reader::Body;
use refusal::Refusal;

// What is told of a table that is accepted: how many routines and items it has.
#[derive(Clone, Copy, Debug, PartialEq, Eq)]
pub struct Accepted {
    pub routines: u64,
    pub items: u64,
}

// Whether no parameter count is above the limit.
fn small_counts(ks: &[u8]) -> bool
    ensures { result ≡ small? ks.now }
{
    ks.iter().all(|k| *k <= MOST_PARAMS)
}

// Reads the bodies of the routines in order; ks has their parameter counts.
fn read_bodies(ks: &[u8], s: &[u8]) -> Result<Accepted, Refusal>
    requires { small? ks.now ≡ true }
    ensures { result ≡ checked_of (bodies ks.now ks.now s.now) }
{
    let mut at = 0;
    let mut items = 0;
    for own in ks {
        let end = Body::new(s, at).read(ks, u64::from(*own), items)?;
        at = end.at;
        items = end.items;
    }
    if at < s.len() {
        return Err(Refusal::LeftOver);
    }
    Ok(Accepted {
        routines: ks.len() as u64,
        items,
    })
}

// Checks what follows the number of routines: their parameter counts ks, and the body count with the bodies behind.
fn check_sections(ks: &[u8], behind: &[u8]) -> Result<Accepted, Refusal>
    requires { 0 < length ks.now }
    ensures { result ≡ checked_of (sections ks.now behind.now) }
{
    let [low, high, s @ ..] = behind else {
        return Err(Refusal::ShortHead);
    };
    if !small_counts(ks) || ks[0] != 0 {
        return Err(Refusal::ParamCount);
    }
    let bytes = usize::from(u16::from_le_bytes([*low, *high]));
    if MOST_BYTES < bytes {
        return Err(Refusal::LongBodies);
    }
    if s.len() != bytes {
        return Err(Refusal::BodiesLength);
    }
    read_bodies(ks, s)
}

// Checks a whole table.
pub fn check(table: &[u8]) -> Result<Accepted, Refusal>
    ensures { result ≡ checked_of (check_table table.now) }
{
    let Some((first, rest)) = table.split_first() else {
        return Err(Refusal::NoBytes);
    };
    let n = usize::from(*first);
    if n == 0 || MOST_ROUTINES < n {
        return Err(Refusal::RoutineCount);
    }
    if rest.len() < n {
        return Err(Refusal::ShortHead);
    }
    let (ks, behind) = rest.split_at(n);
    check_sections(ks, behind)
}
