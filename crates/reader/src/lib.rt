// A message with the place reached in it, and the fields at that place.
#![tactic(auto)]

ghost use Rattle.std.specs.Prelude.{◌≡◌, drop};
ghost use Rattle.field.specs.Field.{octet_at, number_at};
ghost use Rattle.reader.specs.Reader.{parse_text_at, parse_value_at};

use field::Fault;

#[derive(Clone, Copy)]
pub struct Reader<'a> {
    pub message: &'a [u8],
    pub at: usize,
}

// The bytes from a place on: none past the end.
pub fn rest<'a>(m: &'a [u8], at: usize) -> &'a [u8]
    ensures { result.now ≡ drop at m.now }
{
    &m[at.min(m.len())..]
}

impl<'a> Reader<'a> {
    pub fn new(message: &'a [u8]) -> Reader<'a>
        ensures { (result.message ≡ message.entry) × (result.at ≡ 0) }
    {
        Reader { message, at: 0 }
    }

    // The same message, at another place.
    pub fn at(self, place: usize) -> Reader<'a>
        ensures { (result.message ≡ self.entry.message) × (result.at ≡ place) }
    {
        Reader { at: place, ..self }
    }

    // The byte.
    pub fn octet(self) -> Result<u8, Fault>
        ensures { result ≡ octet_at self.entry.message.now self.entry.at }
    {
        field::read_u8(self.message, self.at)
    }

    // The number of two bytes.
    pub fn number(self) -> Result<u16, Fault>
        ensures { result ≡ number_at self.entry.message.now self.entry.at }
    {
        field::read_u16(self.message, self.at)
    }

    // The text, which may have `max_size` bytes with its length.
    #[tactic(auto, using(crate::proofs::ReaderLaws::text_fits), unfolding(crate::specs::Reader::parse_text_at))]
    pub fn text(self, max_size: u16) -> Result<usize, Fault>
        ensures { result ≡ parse_text_at max_size self.entry.at self.entry.message.now }
    {
        let text = text::read_text(rest(self.message, self.at), 0, max_size);
        field::moved(text, self.at)
    }

    // The value of a type.
    #[tactic(auto, using(crate::proofs::ReaderLaws::value_fits), unfolding(crate::specs::Reader::parse_value_at))]
    pub fn value(self, t: u8) -> Result<usize, Fault>
        ensures { result ≡ parse_value_at t self.entry.at self.entry.message.now }
    {
        let value = value::read_value(t, rest(self.message, self.at));
        field::moved(value, self.at)
    }
}
