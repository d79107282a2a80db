// The reader of a saved form's records, left to right.
#![tactic(auto)]

ghost use Rattle.std.specs.Prelude.{◌≡◌, ◌≤◌, length};
ghost use Rattle.value.specs.Value.{max_value_size};
ghost use Rattle.message.specs.Layout.{max_name_length};
ghost use Rattle.table.specs.Table.{max_entries};
ghost use Rattle.saved.specs.Kinds.{record_kind_byte};
ghost use Rattle.saved.specs.Reading.{parse_opening, name_length_in, type_in, value_length_in, all_zero, parse_filling, parse_name_in};
ghost use Rattle.saved.specs.Reading.{parse_up_to_type, parse_value_in, parse_from_type, parse_record, parse_count};

use field::{Fault, Refusal};
use reader::Reader;
use saved::{
    ENTRY_RECORD_SIZE, NAME_LENGTH_PLACE, NAME_PLACE, NUMBER_PLACE, RecordKind, TYPE_PLACE,
    VALUE_LENGTH_PLACE, VALUE_PLACE,
};

// How a record opens: its kind, and a byte that is at most so much.
#[tactic(auto, unfolding(saved::specs::Reading::parse_opening, field::specs::Field::octet_at, field::specs::Choice::pick))]
fn read_opening(s: &[u8], kind: RecordKind, most: usize) -> Result<usize, Fault>
    ensures { result ≡ parse_opening (record_kind_byte kind) most s.now }
{
    let record = Reader::new(s);
    if record.octet()? != u8::from(kind) {
        return Err(Fault::new(Refusal::UnknownKind, 0));
    }
    let amount = record.at(message::KIND_SIZE).octet()?;
    if usize::from(amount) > most {
        return Err(Fault::new(Refusal::TooLong, message::KIND_SIZE));
    }
    Ok(saved::OPENING_SIZE)
}

// Whether all bytes are zero.
// Stays: no `all`, since one pass with no way out is what the compiler does many bytes at a time, and is faster.
#[tactic(auto, using(crate::proofs::ZeroLaws::zero_step, crate::proofs::ZeroLaws::zero_end))]
fn is_zero(s: &[u8]) -> bool
    ensures { result ≡ all_zero s.now }
{
    let mut most: u8 = 0;
    for b in s {
        most = most.max(*b);
    }
    most == 0
}

// The filling from one place to another.
#[tactic(auto, unfolding(saved::specs::Reading::parse_filling, field::specs::Choice::pick))]
fn read_filling(s: &[u8], from: usize, to: usize) -> Result<usize, Fault>
    requires { from ≤ to }
    ensures { result ≡ parse_filling from to s.now }
{
    if s.len() < to {
        return Err(Fault::new(Refusal::Incomplete, from));
    }
    if !is_zero(&s[from..to]) {
        return Err(Fault::new(Refusal::BadFilling, from));
    }
    Ok(to)
}

// A name of so many bytes, and its filling.
#[tactic(auto, unfolding(saved::specs::Reading::parse_name_in, field::specs::Choice::pick))]
fn read_name(s: &[u8], name_length: usize) -> Result<usize, Fault>
    requires { (name_length ≡ name_length_in s.now) × (name_length ≤ max_name_length) }
    ensures { result ≡ parse_name_in s.now }
{
    let end = NAME_PLACE + name_length;
    if s.len() < end {
        return Err(Fault::new(Refusal::Incomplete, NAME_PLACE));
    }
    if !utf8::is_utf8(&s[NAME_PLACE..end]) {
        return Err(Fault::new(Refusal::NotUtf8, NAME_PLACE));
    }
    read_filling(s, end, TYPE_PLACE)
}

// Kind, name length, name and filling.
#[tactic(auto, using(saved::proofs::RecordLaws::opening_facts), unfolding(saved::specs::Reading::parse_up_to_type))]
fn read_up_to_type(s: &[u8]) -> Result<usize, Fault>
    ensures { result ≡ parse_up_to_type s.now }
{
    read_opening(s, RecordKind::Entry, table::NAME_SIZE)?;
    read_name(s, usize::from(s[NAME_LENGTH_PLACE]))
}

// A value of so many bytes, judged alone, and its filling.
#[tactic(auto, using(crate::proofs::ReadLaws::lone_fits), unfolding(saved::specs::Reading::parse_value_in, field::specs::Choice::pick))]
fn read_value(s: &[u8], type_code: u8, value_length: usize) -> Result<usize, Fault>
    requires length { (value_length ≡ value_length_in s.now) × (value_length ≤ max_value_size) }
    requires typed { type_code ≡ type_in s.now }
    ensures { result ≡ parse_value_in s.now }
{
    let end = VALUE_PLACE + value_length;
    if s.len() < end {
        return Err(Fault::new(Refusal::Incomplete, VALUE_PLACE));
    }
    let lone = value::read_lone(type_code, &s[VALUE_PLACE..end]);
    field::moved(lone, VALUE_PLACE)?;
    read_filling(s, end, ENTRY_RECORD_SIZE)
}

// Type, number, value length, value and filling.
#[tactic(auto, unfolding(saved::specs::Reading::parse_from_type, field::specs::Field::octet_at, field::specs::Field::number_at, field::specs::Choice::pick))]
fn read_from_type(s: &[u8]) -> Result<usize, Fault>
    ensures { result ≡ parse_from_type s.now }
{
    let record = Reader::new(s);
    let type_code = record.at(TYPE_PLACE).octet()?;
    if !value::known_type(type_code) {
        return Err(Fault::new(Refusal::UnknownType, TYPE_PLACE));
    }
    record.at(NUMBER_PLACE).number()?;
    let value_length = usize::from(record.at(VALUE_LENGTH_PLACE).number()?);
    if value_length > table::VALUE_SIZE {
        return Err(Fault::new(Refusal::TooLong, VALUE_LENGTH_PLACE));
    }
    read_value(s, type_code, value_length)
}

// An entry's record.
#[tactic(auto, unfolding(saved::specs::Reading::parse_record))]
pub fn read_record(s: &[u8]) -> Result<usize, Fault>
    ensures { result ≡ parse_record s.now }
{
    read_up_to_type(s)?;
    read_from_type(s)
}

// The first record.
#[tactic(auto, unfolding(saved::specs::Reading::parse_count))]
pub fn read_count(s: &[u8]) -> Result<usize, Fault>
    ensures { result ≡ parse_count max_entries s.now }
{
    read_opening(s, RecordKind::Count, table::MAX_ENTRIES)
}
