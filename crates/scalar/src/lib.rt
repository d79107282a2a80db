// The scalar that a value is, a Double as a number; and when two values are equal.
#![tactic(auto)]

ghost use Rattle.std.specs.Prelude.{◌≡◌, ℕ, ◌≤◌, length};
ghost use Rattle.std.specs.Float.{binary64};
ghost use Rattle.std.specs.Float.Ieee.{of_bits};
ghost use Rattle.value.specs.Value.{double_size, IsValue};
ghost use Rattle.scalar.specs.Scalar.{decode64, scalar_of, equal_values};

use std::array;
use value::{BOOLEAN, DOUBLE, TRUE};

// A Double's pattern: its sign, and the pattern of an infinity. A pattern that is above it beside its sign is a NaN's.
const SIGN: u64 = 1 << 63;

const INFINITY: u64 = f64::to_bits(f64::INFINITY);

// What a value is.
#[derive(Clone, Copy, PartialEq)]
pub enum Scalar {
    Boolean(bool),
    Double(f64),
    // Stays: no Option of the other two, since the definition has this case.
    Neither,
}

// The number of the first eight bytes, the highest one first.
#[tactic(auto, using(crate::proofs::ShapeLaws::eight_bytes))]
fn read_u64(s: &[u8]) -> u64
    requires { double_size ≤ length s.now }
    ensures { result ≡ decode64 s.now }
{
    u64::from_be_bytes(array::from_fn(|i| s[i]))
}

// The Double of a bit pattern, a NaN for each pattern of a NaN.
// Stays: a test by hand, since `from_bits` would keep a NaN's pattern, and one NaN is promised for all.
fn double_of(n: u64) -> f64
    ensures { result ≡ of_bits binary64 n }
{
    if INFINITY < n % SIGN {
        return f64::NAN;
    }
    f64::from_bits(n)
}

// The scalar of a value that fills its bytes.
// Stays: a table holds a type by its code, and two codes are looked at.
#[tactic(auto, using(crate::proofs::ShapeLaws::boolean_length, crate::proofs::ShapeLaws::double_length, crate::proofs::ShapeLaws::scalar_boolean, crate::proofs::ShapeLaws::scalar_double, crate::proofs::ShapeLaws::scalar_neither))]
pub fn scalar_of(type_code: u16, value: &[u8]) -> Scalar
    requires { IsValue type_code value.now }
    ensures { result ≡ scalar_of type_code value.now }
{
    if type_code == u16::from(BOOLEAN) {
        return Scalar::Boolean(value[0] == TRUE);
    }
    if type_code == u16::from(DOUBLE) {
        return Scalar::Double(double_of(read_u64(value)));
    }
    Scalar::Neither
}

// Whether two values of a type are equal, whichever it is.
#[tactic(auto, unfolding(crate::specs::Scalar::equal_values))]
pub fn same_value(v: &[u8], w: &[u8]) -> bool
    ensures { (type : ℕ) → result ≡ equal_values type v.now w.now }
{
    field::same_bytes(v, w)
}
