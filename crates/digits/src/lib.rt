// Text in a lent buffer: bytes, and numbers as digits.
#![tactic(auto)]

ghost use Rattle.std.specs.Prelude.{◌≡◌, ◌∷◌, [], ◌<◌};
ghost use Rattle.digits.specs.Digits.{decimal_text, hex_digit, hex_text};
ghost use Rattle.digits.specs.Put.{Puts};

// A buffer, and where the text so far ends in it.
// Stays: a buffer with its end, since a String needs a heap.
#[derive(Drop)]
pub struct Text<'a> {
    pub bytes: &'a mut [u8],
    pub end: usize,
}

// Each of these puts text behind the text so far, as far as there is room.
// Stays: digits by hand, since std says nothing of a `write!` that fails, and these digits are promised without fail.
impl Text<'_> {
    #[tactic(auto, using(crate::proofs::PutLaws::overwrite_past), unfolding(crate::specs::Put::with_text, field::specs::Octets::overwrite_at))]
    pub fn byte(&mut self, b: u8)
        ensures { Puts self.old self.new (b ∷ []) }
    {
        if self.bytes.len() <= self.end {
            self.end = self.bytes.len();
            return;
        }
        self.bytes[self.end] = b;
        self.end += 1;
    }

    #[tactic(auto, using(crate::proofs::PutLaws::with_text_none, crate::proofs::PutLaws::with_text_more))]
    pub fn bytes(&mut self, s: &[u8])
        ensures { Puts self.old self.new s.now }
    {
        self.end = self.end.min(self.bytes.len());
        // Stays: byte by byte, as the text is cut where the room ends. A slice copied at once would say the same in more lines.
        for b in s {
            self.byte(*b);
        }
    }

    #[tactic(auto, using(crate::proofs::PutLaws::with_text_next, crate::proofs::DigitLaws::one_digit, crate::proofs::DigitLaws::more_digits))]
    pub fn decimal(&mut self, n: usize)
        ensures { Puts self.old self.new (decimal_text n) }
    {
        if n < 10 {
            return self.byte(b'0' + n as u8);
        }
        self.decimal(n / 10);
        self.byte(b'0' + (n % 10) as u8);
    }

    // Four digits.
    #[tactic(auto, unfolding(crate::specs::Digits::hex_text))]
    pub fn hex(&mut self, n: u16)
        ensures { Puts self.old self.new (hex_text n) }
    {
        self.bytes(&[
            hex_digit(n / 4096),
            hex_digit(n / 256 % 16),
            hex_digit(n / 16 % 16),
            hex_digit(n % 16),
        ]);
    }
}

#[tactic(auto, unfolding(crate::specs::Digits::hex_digit, field::specs::Choice::pick))]
pub fn hex_digit(d: u16) -> u8
    requires { d < 16 }
    ensures { result ≡ hex_digit d }
{
    if d < 10 {
        return b'0' + d as u8;
    }
    b'a' - 10 + d as u8
}
