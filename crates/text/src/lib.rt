// Text, put into lent bytes. And input, read into lent bytes.
#![tactic(auto)]

pub mod input;

ghost use Rattle.std.specs.Prelude.{◌≡◌, [], ◌∷◌, ◌+◌, length};
ghost use Rattle.text.specs.Put.{Put};
ghost use Rattle.text.specs.Ascii.{space};
ghost use Rattle.text.specs.Decimal.{decimal, decimal_most};

// Lent bytes, and the place in them where the next text goes. Where the bytes end, the text is cut off, so that no call asks for room.
#[derive(Drop)]
pub struct Text<'a> {
    out: &'a mut [u8],
    at: usize,
}

impl<'a> Text<'a> {
    pub fn new(out: &'a mut [u8], at: usize) -> Text<'a>
        ensures same { result.out.ghost_name ≡ out.entry.ghost_name }
        ensures bytes { result.out.now ≡ out.old }
        ensures place { result.at ≡ at }
    {
        Text { out, at }
    }

    // The place behind the text.
    pub fn place(&self) -> usize
        ensures { result ≡ self.now.at }
    {
        self.at
    }

    pub fn byte(&mut self, b: u8)
        ensures { Put 1 self.old (b ∷ []) self.new }
    {
        if self.at < self.out.len() {
            self.out[self.at] = b;
            self.at += 1;
        }
    }

    pub fn word(&mut self, w: &[u8])
        ensures { Put (length w.now) self.old w.now self.new }
    {
        for &b in w {
            self.byte(b);
        }
    }

    // A number in decimal.
    pub fn number(&mut self, n: u64)
        ensures { Put decimal_most self.old (decimal n) self.new }
    {
        if n < 10 {
            self.byte(48 + n as u8);
        } else {
            self.number(n / 10);
            self.byte(48 + (n % 10) as u8);
        }
    }

    // A number as the next field of a line: behind a space.
    pub fn space_number(&mut self, n: u64)
        ensures { Put (1 + decimal_most) self.old (space ∷ decimal n) self.new }
    {
        self.byte(b' ');
        self.number(n);
    }
}
