// The listing of a table: its lines of words and decimal numbers, written into a lent buffer.
#![tactic(auto)]

ghost use Rattle.std.specs.Prelude.{◌≡◌, [], ◌∷◌, ◌<◌, ◌≤◌, get_or};
ghost use Rattle.table.specs.Constants.{most_routines};
ghost use Rattle.table.specs.Refusal.{refusal_number};
ghost use Rattle.analysis.specs.Answer.{Short};
ghost use Rattle.listing.specs.Text.{Listed, judged_listing, line, longest, refused_word};
ghost use Rattle.append.specs.Appends.{Appends};
ghost use Rattle.listing.specs.Laws.Digits.{FewDigits};

mod lines;
mod text;

use analysis::{Judgement, analyse};
use append::Text;
use lines::{put_line, put_rows, put_share, put_verdict};
use table::limits::{MOST_ROUTINES, ROW_CELLS};
use table::refusal::Refusal;

// How long a listing is at most: the first line, a line of 16 bytes for each cell of each routine, the share's line and
// the verdict's.
pub const LONGEST: usize = 12 + MOST_ROUTINES * ROW_CELLS * 16 + 15 + 11;

// The table's first byte, the number of its routines; 0 of an empty one.
fn routines(table: &[u8]) -> u8
    ensures { result ≡ get_or table.now 0 0 }
{
    table.first().copied().unwrap_or(0)
}

// Writes the listing of a table of n routines that was judged.
fn list_judged(out: &mut [u8], n: u8, model: &[u8], j: Judgement) -> usize
    requires { (n ≤ most_routines) × Short j.verdict × FewDigits j.share }
    ensures appends { Appends 0 (judged_listing n model.now j.verdict j.share) out.old out.new result }
    ensures few { result ≤ longest }
{
    let mut text = Text::new(out);
    put_line(&mut text, b"routines", &[u64::from(n)]);
    put_rows(&mut text, model, usize::from(n));
    put_share(&mut text, j.share);
    put_verdict(&mut text, j.verdict);
    text.at
}

// Writes the listing of a table that was refused.
fn list_refused(out: &mut [u8], r: Refusal) -> usize
    ensures appends { Appends 0 (line refused_word (refusal_number r ∷ [])) out.old out.new result }
    ensures few { result ≤ longest }
{
    let mut text = Text::new(out);
    put_line(&mut text, b"refused", &[u64::from(u32::from(r))]);
    text.at
}

// Analyses a table and writes its listing; answers how long the listing is. Where the buffer is shorter, it gets as much
// of the listing as there is room for.
pub fn list(table: &[u8], model: &mut [u8], out: &mut [u8]) -> usize
    ensures listed { Listed table.now model.old model.new out.old out.new result }
    ensures short { result ≤ longest }
{
    match analyse(table, model) {
        Ok(j) => list_judged(out, routines(table), model, j),
        Err(r) => list_refused(out, r),
    }
}
