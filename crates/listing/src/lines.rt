// The lines of a listing, appended to a text in a lent buffer.
ghost use Rattle.std.specs.Prelude.{◌≡◌, [], ◌∷◌, ◌*◌, ◌+◌, ◌<◌, ◌≤◌, length, get_or, All};
ghost use Rattle.table.specs.Constants.{most_routines, row_names};
ghost use Rattle.analysis.specs.Answer.{Short};
ghost use Rattle.listing.specs.Text.{cell_line, each, line, pair_lines, share_line, verdict_line};
ghost use Rattle.listing.specs.Laws.Digits.{FewDigits};
ghost use Rattle.append.specs.Puts.{Puts};

use crate::text::put_number;
use analysis::{Share, Verdict};
use append::Text;
use table::limits::{ROW_BYTES, ROW_NAMES};

// Appends the line of a word and its numbers.
pub fn put_line(text: &mut Text<'_>, word: &[u8], numbers: &[u64])
    requires room { text.old.at < 100000 }
    requires short { (length word.now < 100) × (length numbers.now < 10) }
    requires small { All (λ n. n < 1000) numbers.now }
    ensures { Puts (line word.now numbers.now) text.old text.new }
{
    text.put(word);
    for n in numbers {
        put_number(text, *n);
    }
    text.put_byte(b'\n');
}

// Appends the line of cell (a, b) of routine r's row, if the cell is not 0.
fn put_cell(text: &mut Text<'_>, model: &[u8], r: usize, a: usize, b: usize)
    requires { (text.old.at < 100000) × (r < most_routines) × (a < row_names) × (b < row_names) }
    ensures appends { Puts (cell_line model.now r a b) text.old text.new }
    ensures few { text.new.at ≤ text.old.at + 16 }
{
    let cell = ROW_BYTES * r + (ROW_NAMES * a + b);
    let v = u64::from(model.get(cell).copied().unwrap_or(0));
    if v == 0 {
        return;
    }
    put_line(text, b"pair", &[r as u64, a as u64, b as u64, v]);
}

// Appends the lines of the cells (a, b) of routine r's row, for each b. Here and below the loops go over the numbers and
// not over slices of the model: the numbers are what a line has, and one place alone reads the model.
fn put_cells(text: &mut Text<'_>, model: &[u8], r: usize, a: usize)
    requires { (text.old.at < 90000) × (r < most_routines) × (a < row_names) }
    ensures appends { Puts (each row_names (λ b. cell_line model.now r a b)) text.old text.new }
    ensures few { text.new.at ≤ text.old.at + 128 }
{
    for b in 0..ROW_NAMES {
        put_cell(text, model, r, a, b);
    }
}

// Appends the lines of routine r's row.
fn put_row(text: &mut Text<'_>, model: &[u8], r: usize)
    requires { (text.old.at < 80000) × (r < most_routines) }
    ensures appends { Puts (each row_names (λ a. each row_names (λ b. cell_line model.now r a b))) text.old text.new }
    ensures few { text.new.at ≤ text.old.at + 1024 }
{
    for a in 0..ROW_NAMES {
        put_cells(text, model, r, a);
    }
}

// Appends the lines of the rows of n routines.
pub fn put_rows(text: &mut Text<'_>, model: &[u8], n: usize)
    requires { (text.old.at < 100) × (n ≤ most_routines) }
    ensures appends { Puts (pair_lines n model.now) text.old text.new }
    ensures few { text.new.at ≤ text.old.at + 1024 * n }
{
    for r in 0..n {
        put_row(text, model, r);
    }
}

// Appends the line of a share.
pub fn put_share(text: &mut Text<'_>, share: Share)
    requires { (text.old.at < 70000) × FewDigits share }
    ensures appends { Puts (share_line share) text.old text.new }
    ensures few { text.new.at ≤ text.old.at + 15 }
{
    put_line(
        text,
        b"share",
        &[share.percent, share.remainder, share.reached],
    );
}

// Appends the line of a verdict.
pub fn put_verdict(text: &mut Text<'_>, verdict: Verdict)
    requires { (text.old.at < 70000) × Short verdict }
    ensures appends { Puts (verdict_line verdict) text.old text.new }
    ensures few { text.new.at ≤ text.old.at + 11 }
{
    match verdict {
        Verdict::Clear => put_line(text, b"clear", &[]),
        Verdict::Ring(ring) => put_line(text, b"ring", &[ring.routine, ring.name]),
    }
}
