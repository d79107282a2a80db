// Values as their encoded bytes: all six types, as a field of a message and as a lone value.
#![tactic(auto)]

ghost use Rattle.std.specs.Prelude.{◌≡◌, ◌≤◌, length, drop};
ghost use Rattle.field.specs.Field.{moved_by};
ghost use Rattle.value.specs.Value.{known_type, parse_boolean, parse_double, parse_element};
ghost use Rattle.value.specs.Value.{count_size, count_fits, elements, parse_array, parse_value, parse_lone};
ghost use Rattle.value.specs.Types.{element_code, IsTypeOf};

use field::{Fault, Refusal};

// What a single value is, and what the elements of an array are.
#[derive(Clone, Copy, PartialEq, Eq)]
pub enum Element {
    Boolean,
    Double,
    String,
}

// The six types of values.
#[derive(Clone, Copy, PartialEq, Eq)]
pub enum ValueType {
    Single(Element),
    Array(Element),
}

impl TryFrom<u8> for ValueType {
    type Error = Refusal;

    ghost try_from_gives = { IsTypeOf };

    fn try_from(code: u8) -> Result<ValueType, Refusal> {
        match code {
            0x00 => Ok(ValueType::Single(Element::Boolean)),
            0x01 => Ok(ValueType::Single(Element::Double)),
            0x02 => Ok(ValueType::Single(Element::String)),
            0x10 => Ok(ValueType::Array(Element::Boolean)),
            0x11 => Ok(ValueType::Array(Element::Double)),
            0x12 => Ok(ValueType::Array(Element::String)),
            _ => Err(Refusal::UnknownType),
        }
    }
}

// The codes of a Boolean and a Double, and of an array of Booleans.
// Stays: numbers beside the enum. Crates scalar and table_text read a type by its code, and a table may hold any number there.
pub const BOOLEAN: u8 = 0x00;

pub const DOUBLE: u8 = 0x01;

pub const BOOLEAN_ARRAY: u8 = 0x10;

// A Boolean's byte is 0, or this.
pub const TRUE: u8 = 1;

// How many bytes an encoded value may have, its prefix or count included.
pub const MAX_VALUE_SIZE: u16 = 256;

// How many bytes a Boolean, a Double and an array's count have.
pub const BOOLEAN_SIZE: usize = 1;

pub const DOUBLE_SIZE: usize = 8;

pub const COUNT_SIZE: usize = 1;

#[tactic(auto, using(crate::proofs::TypeLaws::known_is_ok))]
pub fn known_type(t: u8) -> bool
    ensures { result ≡ known_type t }
{
    ValueType::try_from(t).is_ok()
}

#[tactic(auto, unfolding(crate::specs::Value::parse_boolean, field::specs::Field::octet_at, field::specs::Choice::pick))]
fn read_boolean(s: &[u8]) -> Result<usize, Fault>
    ensures { result ≡ parse_boolean s.now }
{
    let b = field::read_u8(s, 0)?;
    if TRUE < b {
        return Err(Fault::new(Refusal::BadBoolean, 0));
    }
    Ok(BOOLEAN_SIZE)
}

#[tactic(auto, unfolding(crate::specs::Value::parse_double, field::specs::Choice::pick))]
fn read_double(s: &[u8]) -> Result<usize, Fault>
    ensures { result ≡ parse_double s.now }
{
    if s.len() < DOUBLE_SIZE {
        return Err(Fault::new(Refusal::Incomplete, 0));
    }
    Ok(DOUBLE_SIZE)
}

// One value of an element type, where `size_so_far` bytes of its array came before it.
#[tactic(auto, unfolding(crate::specs::Value::parse_element, field::specs::Choice::pick))]
fn read_element(element: Element, size_so_far: u16, s: &[u8]) -> Result<usize, Fault>
    ensures { result ≡ parse_element (element_code element) size_so_far s.now }
{
    match element {
        Element::Boolean => read_boolean(s),
        Element::Double => read_double(s),
        Element::String => text::read_text(s, size_so_far, MAX_VALUE_SIZE),
    }
}

// Whether so many elements are within the limit. A String array's elements are looked at one by one.
#[tactic(auto, unfolding(crate::specs::Value::count_fits, field::specs::Choice::pick))]
fn count_fits(element: Element, count: u8) -> bool
    ensures { result ≡ count_fits (element_code element) count }
{
    match element {
        Element::Boolean | Element::String => true,
        Element::Double => {
            COUNT_SIZE + DOUBLE_SIZE * usize::from(count) <= usize::from(MAX_VALUE_SIZE)
        }
    }
}

// The same at a place of its array, where a refusal's place is counted from the array's start.
fn element_at(element: Element, s: &[u8], at: usize) -> Result<usize, Fault>
    requires { (at ≤ length s.now) × (at ≤ 65535) }
    ensures { result ≡ moved_by at (parse_element (element_code element) at (drop at s.now)) }
{
    field::moved(read_element(element, at as u16, &s[at..]), at)
}

// So many elements, behind an array's count.
fn read_elements(element: Element, count: u8, s: &[u8]) -> Result<usize, Fault>
    requires { count_size ≤ length s.now }
    ensures { result
        ≡ elements (parse_element (element_code element)) count count_size (drop count_size s.now) }
{
    let mut at = COUNT_SIZE;
    // Stays: the place is moved by hand, since texts have sizes of their own.
    for _ in 0..count {
        at += element_at(element, s, at)?;
    }
    Ok(at)
}

#[tactic(auto, using(field::proofs::FieldLaws::octet_there), unfolding(crate::specs::Value::parse_array, field::specs::Field::octet_at, field::specs::Choice::pick))]
fn read_array(element: Element, s: &[u8]) -> Result<usize, Fault>
    ensures { result ≡ parse_array (element_code element) s.now }
{
    let count = field::read_u8(s, 0)?;
    if !count_fits(element, count) {
        return Err(Fault::new(Refusal::TooLong, 0));
    }
    read_elements(element, count, s)
}

// The value of a type at the start of the bytes. They go on as a part of themselves (docs/DECISIONS.md, Speed).
pub fn read_value(t: u8, s: &[u8]) -> Result<usize, Fault>
    ensures { result ≡ parse_value t s.now }
{
    match ValueType::try_from(t) {
        Ok(ValueType::Single(element)) => read_element(element, 0, &s[0..]),
        Ok(ValueType::Array(element)) => read_array(element, &s[0..]),
        Err(refusal) => Err(Fault::new(refusal, 0)),
    }
}

// A lone value: it must fill its bytes.
#[tactic(auto, unfolding(crate::specs::Value::parse_lone, field::specs::Choice::pick))]
pub fn read_lone(t: u8, s: &[u8]) -> Result<usize, Fault>
    ensures { result ≡ parse_lone t s.now }
{
    let n = read_value(t, s)?;
    if n != s.len() {
        return Err(Fault::new(Refusal::TooLong, n));
    }
    Ok(n)
}
