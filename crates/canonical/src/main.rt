// Writes the canonical table of the table on standard input, behind a line with its length; or the line of the refusal.
// Everything that matters is in the libraries.
#![tactic(auto)]

use input::{LONGEST_TABLE, TABLE_LIMIT, answer_input};
use std::io;

// Writes a canonical table behind its line.
fn write_table(rt: &impl Print, table: &[u8]) -> io::Result<()> {
    println!(rt; "canonical {}", table.len())?;
    rt.write_all(table)
}

// Writes a table anew and writes out the answer.
fn answer(rt: &impl Print, table: &[u8]) -> io::Result<()> {
    // No canonical table is longer than the longest table.
    let mut out = [0u8; LONGEST_TABLE];
    match writer::canonical(table, &mut out) {
        Ok(n) => write_table(rt, &out[..n]),
        Err(r) => println!(rt; "refused {}", u32::from(r)),
    }
}

// Answers standard input, or says what cannot be read or written; the exit status is 0 all the same.
fn main(rt: HostRuntime) {
    let mut table = [0u8; TABLE_LIMIT];
    if let Err(e) = answer_input(rt.stdin(), &mut table, |s| answer(&rt, s)) {
        let _ = eprintln!(rt; "canonical: {e}");
    }
}
