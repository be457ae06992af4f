// Masks: a bit for each label, or for each name.
ghost use Rattle.std.specs.Prelude.{◌≡◌, ◌<◌, ◌↔◌, IsTrue};
ghost use Rattle.grid.specs.Rows.{Has, Bits};

// The mask with bit k alone.
pub fn one(k: usize) -> u16
    requires { k < 16 }
    ensures { Bits result (λ j. j ≡ k) }
{
    1 << (k as u16)
}

// Whether the mask m has bit k.
pub fn has(m: u16, k: usize) -> bool
    requires { k < 16 }
    ensures { IsTrue result ↔ Has m k }
{
    (m >> (k as u16)) % 2 == 1
}
