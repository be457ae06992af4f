// Writes the listing of each table on standard input, which has a frame for each: how many bytes of model buffer the
// analysis is lent and how long the table is, two bytes each, the low byte first, and then the table's bytes. A frame
// that is cut short ends the input.
#![tactic(auto)]

ghost use Rattle.std.specs.Prelude.{◌<◌};

use input::read_input;
use listing::LONGEST;

// How many bytes of model buffer are lent at most.
const MODEL_BYTES: usize = 65536;

// How much of standard input is read.
const READ_LIMIT: usize = 262144;

// Writes the listing of a table that is analysed with so many bytes of model buffer; a write that fails is passed over.
fn case(rt: &impl Print, table: &[u8], lent: u16) {
    let mut model = [0u8; MODEL_BYTES];
    let mut text = [0u8; LONGEST];
    let n = listing::list(table, &mut model[..usize::from(lent)], &mut text);
    let _ = rt.write_all(&text[..n]);
}

// Goes through the frames.
fn frames(rt: &impl Print, mut s: &[u8]) {
    while let [lent_low, lent_high, low, high, rest @ ..] = s {
        let length = usize::from(u16::from_le_bytes([*low, *high]));
        let Some((table, behind)) = rest.split_at_checked(length) else {
            return;
        };
        case(rt, table, u16::from_le_bytes([*lent_low, *lent_high]));
        s = behind;
    }
}

// Goes through what can be read.
fn main(rt: HostRuntime) {
    let mut input = [0u8; READ_LIMIT];
    let n = read_input(rt.stdin(), &mut input).unwrap_or_else(|e| e.size);
    frames(&rt, &input[..n]);
}
