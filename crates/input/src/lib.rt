// Standard input, read into a lent buffer and answered.
#![tactic(auto)]

ghost use Rattle.std.specs.Prelude.{MatchResult, Some};
ghost use Rattle.std.specs.Fn.{FnOnceReturnsAt};
ghost use Rattle.input.specs.Answers.{Answers, words};
ghost use Rattle.input.specs.Counts.{IsPrefixLen};

use std::io::{Read, Stdin};
use std::{fmt, io};
use table::limits::{MOST_BYTES, MOST_ROUTINES};

// How many bytes a table has at most: three for its two counts, the parameter counts and the bodies.
pub const LONGEST_TABLE: usize = 3 + MOST_ROUTINES + MOST_BYTES;

// How much is read of a table: one byte more than the longest has, as a table that fills it is refused for its length,
// whatever comes after.
pub const TABLE_LIMIT: usize = LONGEST_TABLE + 1;

// A read that failed: how many bytes were read before it.
#[derive(Clone, Copy, Debug, PartialEq, Eq)]
pub struct ReadFailed {
    pub size: usize,
}

// Why standard input has no answer: it cannot be read, or the answer cannot be written.
#[derive(Clone, Copy, Debug, PartialEq, Eq)]
pub enum Unanswered {
    Unread,
    Unwritten,
}

impl fmt::Display for Unanswered {
    ghost output = { λ u. Some (words u) };

    fn fmt<W: fmt::Write>(&self, f: &mut fmt::Formatter<W>) -> fmt::Result {
        match self {
            Unanswered::Unread => f.write_str("standard input cannot be read"),
            Unanswered::Unwritten => f.write_str("standard output cannot be written"),
        }
    }
}

// Reads standard input until the buffer is full, the input ends or a read fails; answers how many bytes were read.
pub fn read_input(mut stdin: Stdin, buf: &mut [u8]) -> Result<usize, ReadFailed>
    ensures { MatchResult result (λ n. IsPrefixLen n buf.new) (λ e. IsPrefixLen e.size buf.new) }
{
    let mut size: usize = 0;
    while size < buf.len() {
        match stdin.read(&mut buf[size..]) {
            Ok(0) => return Ok(size),
            Ok(more) => size += more,
            Err(_) => return Err(ReadFailed { size }),
        }
    }
    Ok(size)
}

// Reads standard input and has what was read answered.
pub fn answer_input<F: FnOnce(&[u8]) -> io::Result<()>>(
    stdin: Stdin,
    buf: &mut [u8],
    answer: F,
) -> Result<(), Unanswered>
    requires { F.IsAlwaysCallable answer }
    ensures { Answers (FnOnceReturnsAt F.FnOnce answer) buf.new result }
{
    let n = read_input(stdin, buf).map_err(|_| Unanswered::Unread)?;
    answer(&buf[..n]).map_err(|_| Unanswered::Unwritten)
}
