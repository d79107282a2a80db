// The sequence number of an entry: serial number arithmetic (RFC 1982) with 16 bits.
#![tactic(auto)]

ghost use Rattle.std.specs.Prelude.{◌≡◌};
ghost use Rattle.sequence.specs.SequenceNumber.{start, next_number, distance, passed_by};

// Equal or not, and no more: "greater than" is not transitive, so it is no order for `Ord` (`NoTotalOrder`).
#[derive(Clone, Copy, PartialEq, Eq)]
pub struct SequenceNumber(pub u16);

impl SequenceNumber {
    pub const START: u16 = 1;

    pub const HALF: u16 = 32768;

    // The number of a new entry.
    pub fn start() -> SequenceNumber
        ensures { result.0 ≡ start }
    {
        SequenceNumber(Self::START)
    }

    // The number of the next write: 65,535 is followed by 0.
    pub fn next(self) -> SequenceNumber
        ensures { result.0 ≡ next_number self.0 }
    {
        SequenceNumber(self.0.wrapping_add(1))
    }

    // Received minus stored, modulo 65,536.
    pub fn distance(self, received: SequenceNumber) -> u16
        ensures { result ≡ distance self.0 received.0 }
    {
        received.0.wrapping_sub(self.0)
    }

    // Whether the received number is strictly greater than this stored one, as RFC 1982, 3.2, has it. s1 is the received number and s2
    // the stored one, i1 and i2 are their values, SERIAL_BITS is 16 and HALF is 2^(SERIAL_BITS - 1):
    // "s1 is said to be greater than s2 if, and only if, s1 is not equal to s2, and
    //      (i1 < i2 and i2 - i1 > 2^(SERIAL_BITS - 1)) or
    //      (i1 > i2 and i1 - i2 < 2^(SERIAL_BITS - 1))"
    pub fn is_passed_by(self, received: SequenceNumber) -> bool
        ensures { result ≡ passed_by self.0 received.0 }
    {
        let i1 = received.0;
        let i2 = self.0;
        if i1 < i2 {
            return i2 - i1 > Self::HALF;
        }
        if i1 > i2 {
            return i1 - i2 < Self::HALF;
        }
        false
    }
}
