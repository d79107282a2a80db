// A table as lines of text in a lent buffer.
#![tactic(auto)]

ghost use Rattle.std.specs.Prelude.{◌≡◌, ◌∷◌, [], ◌+◌, ◌/◌, ◌%◌, ◌≤◌, ◌<◌, ℕ, List, length, min, take};
ghost use Rattle.value.specs.Value.{string};
ghost use Rattle.value.specs.Types.{element_code, type_code};
ghost use Rattle.message.specs.Lent.{entry_lent};
ghost use Rattle.table.specs.Table.{entries_of, Readable};
ghost use Rattle.table.specs.Memory.{memory_of};
ghost use Rattle.digits.specs.Digits.{hex_digit};
ghost use Rattle.digits.specs.Put.{Put, Puts};
ghost use Rattle.table_text.specs.Text.{quoted_byte, quoted, boolean_text};
ghost use Rattle.table_text.specs.Text.{element_text, element_size, element_texts, value_texts, element_word, type_word};
ghost use Rattle.table_text.specs.Text.{entry_text, refused_text, end_text};

use digits::Text;
use field::{DONE, NUMBER_SIZE};
use message::LentEntry;
use table::Table;
use value::{Element, ValueType};

// An array's code less this is the code of its elements.
// Stays: `as u16`, since no From may be called in a constant.
const ARRAY_OF: u16 = value::BOOLEAN_ARRAY as u16;

// The first n bytes of a value, or all.
fn front<'a>(s: &'a [u8], n: u16) -> &'a [u8]
    ensures { result.now ≡ take n s.now }
{
    &s[..s.len().min(usize::from(n))]
}

// ---- texts

// `\x` and two hex digits.
fn put_coded(text: &mut Text, b: u8)
    ensures { Puts text.old text.new (92 ∷ 120 ∷ hex_digit (b / 16) ∷ hex_digit (b % 16) ∷ []) }
{
    let n = u16::from(b);
    text.bytes(&[
        b'\\',
        b'x',
        digits::hex_digit(n / 16),
        digits::hex_digit(n % 16),
    ]);
}

#[tactic(auto, unfolding(crate::specs::Text::quoted_byte, field::specs::Choice::pick))]
fn put_quoted_byte(text: &mut Text, b: u8)
    ensures { Puts text.old text.new (quoted_byte b) }
{
    match b {
        b'"' | b'\\' => text.bytes(&[b'\\', b]),
        _ if b.is_ascii_control() => put_coded(text, b),
        _ => text.byte(b),
    }
}

#[tactic(auto, using(crate::proofs::TextLaws::quotes, digits::proofs::PutLaws::putting))]
fn put_quoted(text: &mut Text, s: &[u8])
    ensures { Puts text.old text.new (quoted s.now) }
{
    text.byte(b'"');
    for b in s {
        put_quoted_byte(text, *b);
    }
    text.byte(b'"');
}

// ---- types

// The elements that are shown for a code: those of a String, where it is no other's.
// Stays: codes, since a table may hold any number as a type, and a text is shown for each.
fn element_of(code: u16) -> Element
    ensures { element_code result ≡ min code string }
{
    match code {
        0x00 => Element::Boolean,
        0x01 => Element::Double,
        _ => Element::String,
    }
}

// The type that is shown for a code.
#[tactic(auto, using(crate::proofs::TypeLaws::shown))]
fn type_of(code: u16) -> ValueType
    ensures word { type_word (type_code result) ≡ type_word code }
    ensures texts { (s : List ℕ) → value_texts (type_code result) s ≡ value_texts code s }
{
    if code < ARRAY_OF {
        ValueType::Single(element_of(code))
    } else {
        ValueType::Array(element_of(code - ARRAY_OF))
    }
}

#[tactic(auto, unfolding(crate::specs::Text::element_word, field::specs::Choice::pick))]
fn element_word(element: Element) -> &'static [u8]
    ensures { result.now ≡ element_word (element_code element) }
{
    match element {
        Element::Boolean => b"boolean",
        Element::Double => b"double",
        Element::String => b"string",
    }
}

#[tactic(auto, using(crate::proofs::TypeLaws::words, digits::proofs::PutLaws::putting))]
fn put_type(text: &mut Text, value_type: ValueType)
    ensures { Puts text.old text.new (type_word (type_code value_type)) }
{
    match value_type {
        ValueType::Single(element) => text.bytes(element_word(element)),
        ValueType::Array(element) => {
            text.bytes(element_word(element));
            text.byte(b's');
        }
    }
}

// ---- values

#[tactic(auto, unfolding(crate::specs::Text::boolean_text, field::specs::Choice::pick))]
fn boolean_text(flag: u8) -> &'static [u8]
    ensures { result.now ≡ boolean_text flag }
{
    if flag == 0 { b"false" } else { b"true" }
}

#[tactic(auto, unfolding(crate::specs::Text::element_text, field::specs::Choice::pick))]
fn put_element(text: &mut Text, element: Element, s: &[u8])
    ensures { Puts text.old text.new (element_text (element_code element) s.now) }
{
    match element {
        Element::Boolean => text.bytes(boolean_text(double_text::byte_at(s, 0))),
        Element::Double => double_text::put_double(text, s),
        Element::String => put_quoted(
            text,
            front(reader::rest(s, NUMBER_SIZE), double_text::number_of(s)),
        ),
    }
}

#[tactic(auto, unfolding(crate::specs::Text::element_size, field::specs::Choice::pick))]
fn element_size(element: Element, s: &[u8]) -> usize
    ensures { result ≡ element_size (element_code element) s.now }
{
    match element {
        Element::Boolean => value::BOOLEAN_SIZE,
        Element::Double => value::DOUBLE_SIZE,
        Element::String => NUMBER_SIZE + usize::from(double_text::number_of(s)),
    }
}

#[tactic(auto, using(crate::proofs::TypeLaws::elements, digits::proofs::PutLaws::putting))]
fn put_elements(text: &mut Text, count: u8, element: Element, s: &[u8])
    requires { text.old.end ≤ length text.old.bytes.now }
    ensures { Puts text.old text.new (element_texts count (element_code element) s.now) }
{
    let mut left = s;
    // Stays: what is left is moved by hand, since elements have sizes of their own.
    for _ in 0..count {
        text.byte(b' ');
        put_element(text, element, left);
        left = reader::rest(left, element_size(element, left));
    }
}

#[tactic(auto, using(crate::proofs::TypeLaws::texts))]
fn put_value(text: &mut Text, value_type: ValueType, value: &[u8])
    requires { text.old.end ≤ length text.old.bytes.now }
    ensures { Puts text.old text.new (value_texts (type_code value_type) value.now) }
{
    match value_type {
        ValueType::Single(element) => put_elements(text, 1, element, value),
        ValueType::Array(element) => {
            let count = double_text::byte_at(value, 0);
            put_elements(text, count, element, reader::rest(value, value::COUNT_SIZE));
        }
    }
}

// ---- lines

#[tactic(auto, using(digits::proofs::PutLaws::putting), unfolding(crate::specs::Text::entry_text))]
fn put_entry(text: &mut Text, id: usize, entry: LentEntry)
    ensures { Puts text.old text.new (entry_text id (entry_lent entry.entry)) }
{
    let value_type = type_of(entry.type_code);
    text.decimal(id);
    text.byte(b' ');
    put_quoted(text, entry.name);
    text.byte(b' ');
    put_type(text, value_type);
    text.byte(b' ');
    text.decimal(usize::from(entry.number));
    put_value(text, value_type, entry.value);
    text.byte(b'\n');
}

// The number where a run was refused; nothing where it was not.
// Stays: no Result, since C's answers have the number as a byte, and the text shows that number.
#[tactic(auto, using(digits::proofs::PutLaws::putting), unfolding(crate::specs::Text::refused_text, field::specs::Choice::pick))]
fn put_refused(text: &mut Text, number: u8)
    requires { text.old.end ≤ length text.old.bytes.now }
    ensures { Puts text.old text.new (refused_text number) }
{
    if number != DONE {
        text.bytes(b"refused ");
        text.decimal(usize::from(number));
        text.byte(b'\n');
    }
}

// The lines of all entries, and what ended the run.
#[tactic(auto, using(crate::proofs::LineLaws::entries, digits::proofs::PutLaws::putting))]
fn put_lines(text: &mut Text, table: Table, number: u8)
    requires readable { Readable table.count table.heads.now table.bytes.now }
    requires within { text.old.end ≤ length text.old.bytes.now }
    ensures { Puts text.old text.new (end_text number (entries_of (memory_of table.entry))) }
{
    for id in 0..table.len() {
        put_entry(text, id, table.entry(id));
    }
    put_refused(text, number);
}

// Puts the table at the end of a run, and what ended it, at the start of a buffer.
#[tactic(auto, unfolding(digits::specs::Put::with_text))]
pub fn put_table(table: Table, number: u8, text: &mut [u8]) -> usize
    requires { Readable table.count table.heads.now table.bytes.now }
    ensures { Put text.old 0 (end_text number (entries_of (memory_of table.entry))) text.new result }
{
    let mut text = Text {
        bytes: text,
        end: 0,
    };
    put_lines(&mut text, table, number);
    text.end
}
