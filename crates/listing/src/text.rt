// Decimal numbers, appended to a text in a lent buffer.
ghost use Rattle.std.specs.Prelude.{◌∷◌, ◌+◌, ◌≤◌, ◌<◌};
ghost use Rattle.append.specs.Puts.{Puts};
ghost use Rattle.listing.specs.Text.{decimal, space};

use append::Text;
use itoa::Buffer;

const ZERO: u8 = b'0';

// Appends n as a decimal number. Most numbers of a listing have one digit, which is written as it is, for speed.
fn put_decimal(text: &mut Text<'_>, n: u64)
    requires { (text.old.at < 900000) × (n < 1000) }
    ensures { Puts (decimal n) text.old text.new }
{
    if n < 10 {
        text.put_byte(ZERO + n as u8);
    } else {
        text.put(Buffer::new().format(n).as_bytes());
    }
}

// Appends a space and then n as a decimal number.
pub fn put_number(text: &mut Text<'_>, n: u64)
    requires { (text.old.at < 800000) × (n < 1000) }
    ensures appends { Puts (space ∷ decimal n) text.old text.new }
    ensures few { text.new.at ≤ text.old.at + 4 }
{
    text.put_byte(b' ');
    put_decimal(text, n);
}
