// Reads a number n as the first byte of standard input and writes the table of the chain of n routines, which needs
// n + 1 rounds; nothing where there is no such chain or no byte. Everything that matters is in the libraries.
#![tactic(auto)]

use dearest::{LONGEST, write_chain};
use input::answer_input;
use std::io;

// Writes the table of the chain of n routines.
fn write_table(rt: &impl Print, n: usize) -> io::Result<()> {
    let mut table = [0u8; LONGEST];
    let length = write_chain(n, &mut table);
    rt.write_all(&table[..length])
}

// Writes the table of the chain that the first byte gives the number of; nothing where there is no byte.
fn answer(rt: &impl Print, s: &[u8]) -> io::Result<()> {
    match s.first() {
        Some(n) => write_table(rt, usize::from(*n)),
        None => Ok(()),
    }
}

// Answers standard input, or says what cannot be read or written; the exit status is 0 all the same.
fn main(rt: HostRuntime) {
    let mut first = [0u8; 1];
    if let Err(e) = answer_input(rt.stdin(), &mut first, |s| answer(&rt, s)) {
        let _ = eprintln!(rt; "chain: {e}");
    }
}
