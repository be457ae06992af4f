// Relations on sixteen names as bit rows: pairs joined, products, walks, pairs with two different ends, and pairs that
// another has not.
ghost use Rattle.std.specs.Prelude.{◌≡◌, ◌<◌, length};
ghost use Rattle.table.specs.Constants.{most_names};
ghost use Rattle.grid.specs.Rows.{Edge, Or, Then, Spread, Walk, Apart, Less, Same, Bits, SomeRow};

use crate::masks::one;
use table::limits::MOST_NAMES;

// Row i: the names that name i is related to, as a mask.
pub type Rows = [u16; MOST_NAMES];

// Rows r, with the mask m added at each row where s has bit k: by value and by index, since on rows that are lent, or by
// an iterator, closing a grid takes up to half as many instructions again.
pub fn spread(r: Rows, s: Rows, k: usize, m: u16) -> Rows
    requires { k < most_names }
    ensures { Same (Edge result) (Or (Edge r) (Spread s k m)) }
{
    let mut next = r;
    for i in 0..MOST_NAMES {
        next[i] |= (s[i] >> (k as u16)) % 2 * m;
    }
    next
}

// Rows r, with what a and then b relate added.
pub fn product(r: Rows, a: Rows, b: Rows) -> Rows
    ensures { Same (Edge result) (Or (Edge r) (Then (Edge a) (Edge b))) }
{
    let mut next = r;
    for (j, m) in b.iter().enumerate() {
        if *m != 0 {
            let t = spread(next, a, j, *m);
            next = t;
        }
    }
    next
}

// Walks of one or more steps, by one pass of pivots: a turn changes the rows that the next one reads.
pub fn close_rows(r: Rows) -> Rows
    ensures { Same (Edge result) (Walk (Edge r)) }
{
    let mut next = r;
    for k in 0..MOST_NAMES {
        let m = next[k];
        if m != 0 {
            let t = spread(next, next, k, m);
            next = t;
        }
    }
    next
}

// Adds the pairs of s to r.
pub fn join(r: &mut Rows, s: &Rows)
    ensures { Same (Edge r.new) (Or (Edge r.old) (Edge s.now)) }
{
    for (i, row) in r.iter_mut().enumerate() {
        *row |= s[i];
    }
}

// The bits that some row has.
pub fn any(r: &Rows) -> u16
    ensures { Bits result (SomeRow r.now) }
{
    r.iter().fold(0, |all, row| all | *row)
}

// The pairs of r with two different ends.
pub fn apart(r: &Rows) -> Rows
    ensures { Same (Edge result) (Apart (Edge r.now)) }
{
    let mut next = [0; MOST_NAMES];
    for (i, row) in r.iter().enumerate() {
        next[i] = *row & !one(i);
    }
    next
}

// The pairs of r that s has not.
pub fn less(r: &Rows, s: &Rows) -> Rows
    ensures { Same (Edge result) (Less (Edge r.now) (Edge s.now)) }
{
    let mut next = [0; MOST_NAMES];
    for (i, row) in r.iter().enumerate() {
        next[i] = *row & !s[i];
    }
    next
}
