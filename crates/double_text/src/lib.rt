// A Double as text in a lent buffer.
#![tactic(auto)]

ghost use Rattle.std.specs.Prelude.{◌≡◌, ◌++◌, ◌+◌, ◌*◌, ◌/◌, ◌%◌, ◌^◌, ◌≤◌, ◌<◌, if◌then◌else◌, max, get_or, length};
ghost use Rattle.field.specs.Octets.{decode16};
ghost use Rattle.digits.specs.Digits.{decimal_text};
ghost use Rattle.digits.specs.Put.{Puts};
ghost use Rattle.double_text.specs.Double.{sign_of, exponent_of, fraction_of, fraction_bits, most_places, binary_digits};
ghost use Rattle.double_text.specs.Double.{decimal_over, significand, finite_text, special_text, sign_text, double_text};

use digits::Text;
use std::array;

// How many fractions there are: 2 to the power of their bits.
const FRACTIONS: usize = 1 << 52;

// The exponent of an infinity, and of every NaN.
const SPECIAL_EXPONENT: usize = 2047;

// The exponent with which a Double is its significand.
const WHOLE_EXPONENT: usize = 1075;

// The places behind the point of a Double in decimal, at most.
const MOST_PLACES: usize = 61;

// The lowest exponent of a Double in decimal.
const LOWEST_DECIMAL: usize = WHOLE_EXPONENT - MOST_PLACES;

// ---- bytes of a value, of which any may be missing

// The byte at a place, or 0 behind the end.
pub fn byte_at(s: &[u8], i: usize) -> u8
    ensures { result ≡ get_or s.now i 0 }
{
    s.get(i).copied().unwrap_or(0)
}

// The number of the first two bytes.
#[tactic(auto, unfolding(field::specs::Octets::decode16))]
pub fn number_of(s: &[u8]) -> u16
    ensures { result ≡ decode16 s.now }
{
    u16::from_be_bytes([byte_at(s, 0), byte_at(s, 1)])
}

// The 64 bits of the first eight bytes.
#[tactic(auto, using(crate::proofs::DoubleLaws::fraction_bytes), unfolding(field::specs::Octets::decode16))]
fn bits_of(s: &[u8]) -> u64
    ensures sign { result / 2 ^ 63 ≡ sign_of s.now }
    ensures exponent { result / 2 ^ 52 % 2048 ≡ exponent_of s.now }
    ensures fraction { result % 2 ^ 52 ≡ fraction_of s.now }
{
    u64::from_be_bytes(array::from_fn(|i| byte_at(s, i)))
}

// ---- digits

// Stays: `k ≤ most_places` is asked here and of two callers. A type of its own for k would be no plainer.
#[tactic(auto, using(crate::proofs::DoubleLaws::power_most))]
fn power_of_two(k: usize) -> usize
    requires { k ≤ most_places }
    ensures { result ≡ 2 ^ k }
{
    1 << k
}

// The digits of r / 2 ^ k, behind the point.
#[tactic(auto, using(crate::proofs::DoubleLaws::binary, digits::proofs::PutLaws::putting))]
fn put_binary(text: &mut Text, k: usize, r: usize)
    requires few { k ≤ most_places }
    requires below { r < 2 ^ k }
    requires within { text.old.end ≤ length text.old.bytes.now }
    ensures { Puts text.old text.new (binary_digits k r) }
{
    let mut places = k;
    let mut left = r;
    // Stays: no range over the places, since it ends at the last digit that is not 0.
    while left != 0 {
        places -= 1;
        let unit = power_of_two(places);
        let digit = left * 5 / unit;
        text.byte(b'0' + digit as u8);
        left = left * 5 % unit;
    }
}

// m / 2 ^ k in decimal, with all its digits.
#[tactic(auto, using(digits::proofs::PutLaws::putting), unfolding(crate::specs::Double::decimal_over, field::specs::Choice::pick))]
fn put_decimal_over(text: &mut Text, m: usize, k: usize)
    requires { k ≤ most_places }
    ensures { Puts text.old text.new (decimal_over m k) }
{
    let unit = power_of_two(k);
    let left = m % unit;
    text.decimal(m / unit);
    text.byte(b'.');
    if left == 0 {
        text.byte(b'0');
    } else {
        put_binary(text, k, left);
    }
}

// m by a power of 2.
#[tactic(auto, using(digits::proofs::PutLaws::putting))]
fn put_scaled(text: &mut Text, m: usize, by: &[u8], x: usize)
    ensures { Puts text.old text.new (decimal_text m ++ by.now ++ decimal_text x) }
{
    text.decimal(m);
    text.bytes(by);
    text.decimal(x);
}

#[tactic(auto, unfolding(crate::specs::Double::finite_text, field::specs::Choice::pick))]
fn put_finite(text: &mut Text, e: usize, m: usize)
    ensures { Puts text.old text.new (finite_text e m) }
{
    if m == 0 {
        return text.bytes(b"0.0");
    }
    if e < LOWEST_DECIMAL {
        return put_scaled(text, m, b"*2^-", WHOLE_EXPONENT - e.max(1));
    }
    if e <= WHOLE_EXPONENT {
        return put_decimal_over(text, m, WHOLE_EXPONENT - e);
    }
    put_scaled(text, m, b"*2^", e - WHOLE_EXPONENT);
}

#[tactic(auto, unfolding(crate::specs::Double::special_text, field::specs::Choice::pick))]
fn special_text(fraction: usize) -> &'static [u8]
    ensures { result.now ≡ special_text fraction }
{
    if fraction == 0 { b"inf" } else { b"NaN" }
}

#[tactic(auto, unfolding(crate::specs::Double::sign_text, field::specs::Choice::pick))]
fn sign_text(negative: bool, e: usize, fraction: usize) -> &'static [u8]
    ensures { result.now ≡ sign_text (if negative then 1 else 0) e fraction }
{
    if !negative || (e == SPECIAL_EXPONENT && fraction > 0) {
        b""
    } else {
        b"-"
    }
}

#[tactic(auto, unfolding(crate::specs::Double::significand, field::specs::Choice::pick))]
fn significand_of(e: usize, fraction: usize) -> usize
    requires { fraction < 2 ^ fraction_bits }
    ensures { result ≡ significand e fraction }
{
    if e == 0 {
        fraction
    } else {
        FRACTIONS + fraction
    }
}

#[tactic(auto, using(digits::proofs::PutLaws::putting), unfolding(crate::specs::Double::double_text, field::specs::Choice::pick))]
pub fn put_double(text: &mut Text, s: &[u8])
    ensures { Puts text.old text.new (double_text s.now) }
{
    let bits = bits_of(s) as usize;
    let negative = bits >> 63 == 1;
    let e = (bits >> 52) % 2048;
    let fraction = bits % FRACTIONS;
    text.bytes(sign_text(negative, e, fraction));
    if e == SPECIAL_EXPONENT {
        text.bytes(special_text(fraction));
    } else {
        put_finite(text, e, significand_of(e, fraction));
    }
}
