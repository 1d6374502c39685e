// Text that is written one piece behind the other into a lent buffer.
ghost use Rattle.std.specs.Prelude.{◌≡◌, min};
ghost use Rattle.text.specs.Text.{decimal_text, bad_text, hex_text, right_text};

// A lent buffer, and the place in it where the next text goes.
#[derive(Drop)]
pub struct Writer<'a> {
    out: &'a mut [u8],
    at: usize,
}

impl<'a> Writer<'a> {
    ghost use Rattle.text.specs.Writer.{writer_over, place_of, with_text};
    ghost use Rattle.text.specs.Private.{advanced};

    // A writer at the start of a buffer.
    pub fn new(out: &'a mut [u8]) -> Writer<'a>
        ensures { result ≡ writer_over out.entry }
    {
        Writer { out, at: 0 }
    }

    // The place: how many bytes stand before it.
    pub fn place(&self) -> usize
        ensures { result ≡ place_of self.now }
    {
        self.at
    }

    // The place goes on by the bytes of a text that fit.
    fn advance(&mut self, length: usize)
        ensures { self.new ≡ advanced self.old length }
    {
        let Writer { out, at } = self;
        *at += crate::room(out.len(), *at, length);
    }

    // Writes a text at the place, as far as it fits.
    #[tactic(auto, unfolding(crate::specs::Writer::with_text))]
    pub fn write(&mut self, text: &[u8])
        ensures { self.new ≡ with_text self.old text.now }
    {
        let length = crate::write(self.out, self.at, text);
        self.advance(length);
    }

    // Writes a number in decimal.
    #[tactic(auto, unfolding(crate::specs::Writer::with_text))]
    pub fn write_decimal(&mut self, n: u32)
        ensures { self.new ≡ with_text self.old (decimal_text n) }
    {
        let length = crate::write_decimal(self.out, self.at, n);
        self.advance(length);
    }

    // Writes that the line of a number is bad.
    #[tactic(auto, using(crate::proofs::Written::in_turn), unfolding(crate::specs::Text::bad_text))]
    pub fn write_bad(&mut self, number: u32)
        ensures { self.new ≡ with_text self.old (bad_text number) }
    {
        self.write(b"bad\t");
        self.write_decimal(number);
        self.write(b"\n");
    }

    // Writes a number in decimal, right-aligned with spaces in so many characters, but at most ten.
    #[tactic(auto, unfolding(crate::specs::Writer::with_text))]
    pub fn write_decimal_right(&mut self, n: u32, width: usize)
        ensures { self.new ≡ with_text self.old (right_text (min width 10) (decimal_text n)) }
    {
        let length = crate::write_decimal_right(self.out, self.at, n, width);
        self.advance(length);
    }

    // Writes the last hexadecimal digits of a number, so many but at most 16.
    #[tactic(auto, unfolding(crate::specs::Writer::with_text))]
    pub fn write_hex(&mut self, n: u64, digits: usize)
        ensures { self.new ≡ with_text self.old (hex_text (min digits 16) n) }
    {
        let length = crate::write_hex(self.out, self.at, n, digits);
        self.advance(length);
    }
}
