// Fields of a fixed width, read from a lent message and written into a lent output.
#![tactic(auto)]

ghost use Rattle.std.specs.Prelude.{◌≡◌, ◌∷◌, [], ◌+◌, ◌^◌, ◌≤◌, ◌<◌, length, drop};
ghost use Rattle.field.specs.Octets.{decode16, encode16, overwrite_at, bytes_equal};
ghost use Rattle.field.specs.Refusal.{refusal_number};
ghost use Rattle.field.specs.Field.{fault_at, fault_of, octet_size, octet_at, number_size, number_at, moved_by};
ghost use Rattle.field.specs.Place.{reported_place};

use std::marker::Model;

// The numbers of a call that is done, and of one that is ignored. specs/Answer.antt has each number with its meaning.
// Stays: numbers, since C's answers have them as bytes.
pub const DONE: u8 = 0;

pub const IGNORED: u8 = 16;

// How many bytes a number has.
pub const NUMBER_SIZE: usize = 2;

// Why a call is refused, by the number that it answers.
#[derive(Clone, Copy, PartialEq, Eq)]
pub enum Refusal {
    Incomplete = 1,
    ConnectionTooHigh = 2,
    WrongState = 3,
    UnknownKind = 4,
    WrongId = 5,
    UnknownId = 6,
    UnknownType = 7,
    BadBoolean = 8,
    NotUtf8 = 9,
    TooLong = 10,
    TableFull = 11,
    OutputTooShort = 12,
    NameTaken = 13,
    Unsound = 14,
    BadFilling = 15,
}

impl From<Refusal> for u8 {
    ghost from_gives = { λ refusal number. number ≡ refusal_number refusal };

    fn from(refusal: Refusal) -> u8 {
        refusal as u8
    }
}

// A refusal, and the place of the first byte of the field that failed. Clauses see the refusal by its number.
#[derive(Drop)]
pub struct Fault {
    refusal: Refusal,
    place: usize,
}

impl Model for Fault {
    ghost use Rattle.field.specs.Refusal.{NumberAndPlace, refusal_number};

    ghost Value = { NumberAndPlace };

    ghost view = { λ fault. record { number = refusal_number fault.refusal; place = fault.place } };
}

impl Fault {
    pub fn new(refusal: Refusal, place: usize) -> Fault
        ensures { result ≡ fault_at (refusal_number refusal) place }
    {
        Fault { refusal, place }
    }

    pub fn refusal(&self) -> Refusal
        ensures { refusal_number result ≡ self.now.number }
    {
        self.refusal
    }

    pub fn place(&self) -> usize
        ensures { result ≡ self.now.place }
    {
        self.place
    }

    // The number that a call answers with.
    pub fn number(&self) -> u8
        ensures { result ≡ self.now.number }
    {
        u8::from(self.refusal)
    }

    // The place that an answer tells: with 7 to 10, and else 0.
    pub fn reported_place(&self) -> usize
        ensures { result ≡ reported_place self.now }
    {
        match self.refusal {
            Refusal::UnknownType | Refusal::BadBoolean | Refusal::NotUtf8 | Refusal::TooLong => {
                self.place
            }
            _ => 0,
        }
    }

    // The same refusal of bytes that begin at `from`, with its place counted from the start.
    pub fn moved(self, from: usize) -> Fault
        requires { from + self.place < 2 ^ 64 }
        ensures { result ≡ fault_at self.number (from + self.place) }
    {
        Fault {
            refusal: self.refusal,
            place: from + self.place,
        }
    }
}

// The byte at a place: a field that is not there ends the reading.
#[tactic(auto, unfolding(crate::specs::Field::octet_at, crate::specs::Choice::pick))]
pub fn read_u8(s: &[u8], at: usize) -> Result<u8, Fault>
    ensures { result ≡ octet_at s.now at }
{
    if s.len() <= at {
        return Err(Fault::new(Refusal::Incomplete, at));
    }
    Ok(s[at])
}

// The number of the two bytes at a place, the higher one first.
pub fn u16_at(s: &[u8], at: usize) -> u16
    requires { at + number_size ≤ length s.now }
    ensures { result ≡ decode16 (drop at s.now) }
{
    u16::from_be_bytes([s[at], s[at + 1]])
}

// The same, where it may not be there.
#[tactic(auto, unfolding(crate::specs::Field::number_at, crate::specs::Choice::pick))]
pub fn read_u16(s: &[u8], at: usize) -> Result<u16, Fault>
    ensures { result ≡ number_at s.now at }
{
    if s.len() < NUMBER_SIZE || s.len() - NUMBER_SIZE < at {
        return Err(Fault::new(Refusal::Incomplete, at));
    }
    Ok(u16_at(s, at))
}

// A reader's answer for bytes that begin at `from`, with a refusal's place counted from the start.
pub fn moved(parsed: Result<usize, Fault>, from: usize) -> Result<usize, Fault>
    requires { from + (fault_of parsed).place < 2 ^ 64 }
    ensures { result ≡ moved_by from parsed }
{
    parsed.map_err(|fault| fault.moved(from))
}

// Stores one byte at a place.
#[tactic(auto, unfolding(crate::specs::Octets::overwrite_at))]
pub fn put_u8(out: &mut [u8], at: usize, x: u8)
    requires { at + octet_size ≤ length out.old }
    ensures { out.new ≡ overwrite_at out.old at (x ∷ []) }
{
    out[at] = x;
}

// Stores two bytes at a place, the higher one first.
pub fn put_u16(out: &mut [u8], at: usize, x: u16)
    requires { at + number_size ≤ length out.old }
    ensures { out.new ≡ overwrite_at out.old at (encode16 x) }
{
    copy_into(out, at, &x.to_be_bytes());
}

// Stores all bytes of `src` from a place on.
pub fn copy_into(out: &mut [u8], at: usize, src: &[u8])
    requires { at + length src.now ≤ length out.old }
    ensures { out.new ≡ overwrite_at out.old at src.now }
{
    // Stays: by places, since `copy_from_slice` is a call of memmove, slower for a few bytes, and another name that C has to give.
    for k in 0..src.len() {
        out[at + k] = src[k];
    }
}

// Whether two runs of bytes are equal.
#[tactic(auto, using(crate::proofs::EqualLaws::pointwise_bytes))]
pub fn same_bytes(a: &[u8], b: &[u8]) -> bool
    ensures { result ≡ bytes_equal a.now b.now }
{
    a == b
}
