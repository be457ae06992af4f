// Judges the handler table on standard input and writes its listing. Everything that matters is in the libraries.
#![tactic(auto)]

use input::{TABLE_LIMIT, answer_input};
use listing::LONGEST;
use std::io;
use table::limits::{MOST_ROUTINES, ROW_BYTES};

// The rows of as many routines as a table can have.
const MODEL_BYTES: usize = ROW_BYTES * MOST_ROUTINES;

// Writes the listing of a table.
fn judge(rt: &impl Print, table: &[u8]) -> io::Result<()> {
    let mut model = [0u8; MODEL_BYTES];
    let mut text = [0u8; LONGEST];
    let size = listing::list(table, &mut model, &mut text);
    rt.write_all(&text[..size])
}

// Answers standard input, or says what cannot be read or written; the exit status is 0 all the same.
fn main(rt: HostRuntime) {
    let mut table = [0u8; TABLE_LIMIT];
    if let Err(e) = answer_input(rt.stdin(), &mut table, |s| judge(&rt, s)) {
        let _ = eprintln!(rt; "vangpear: {e}");
    }
}
