// A text in a lent buffer: its bytes as far as there is room, and how long it is.
ghost use Rattle.std.specs.Prelude.{◌≡◌, [], ◌∷◌, ◌+◌, ◌<◌, length};

// The buffer, and the place after the text so far, which may lie past the buffer's end.
#[derive(Drop)]
pub struct Text<'a> {
    pub bytes: &'a mut [u8],
    pub at: usize,
}

impl<'a> Text<'a> {
    ghost use Rattle.append.specs.Puts.{Puts};

    // The text with nothing in it yet.
    pub fn new(bytes: &'a mut [u8]) -> Self
        ensures same { result.bytes.ghost_name ≡ bytes.entry.ghost_name }
        ensures bytes { result.bytes.now ≡ bytes.old }
        ensures at { result.at ≡ 0 }
    {
        Text { bytes, at: 0 }
    }

    // Appends a byte.
    pub fn put_byte(&mut self, b: u8)
        requires { self.old.at < 1000000 }
        ensures { Puts (b ∷ []) self.old self.new }
    {
        if self.at < self.bytes.len() {
            self.bytes[self.at] = b;
        }
        self.at += 1;
    }

    // Appends the bytes of w.
    pub fn put(&mut self, w: &[u8])
        requires { self.old.at + length w.now < 1000000 }
        ensures { Puts w.now self.old self.new }
    {
        for b in w {
            self.put_byte(*b);
        }
    }
}
