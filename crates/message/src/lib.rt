// The reader of one message of Protocol Revision 2.0.
#![tactic(auto)]

ghost use Rattle.std.specs.Prelude.{◌≡◌, ◌+◌, ◌^◌, ◌≤◌, ◌<◌, length};
ghost use Rattle.message.specs.Kinds.{kind_byte, IsKindOf};
ghost use Rattle.field.specs.Field.{number_at};
ghost use Rattle.message.specs.Layout.{kind_size, assignment_name_start, number_behind_name};
ghost use Rattle.message.specs.Reader.{id_allowed, parse_behind_id, parse_after_name, parse_assignment};
ghost use Rattle.message.specs.Reader.{parse_behind_update_id, parse_update, parse_by_kind};
ghost use Rattle.message.specs.Reader.{name_in, value_in, update_value_in, assignment_length, update_length};
ghost use Rattle.message.specs.Reader.{type_given, parse_message, number_of, taken_of, contents, ReadingIs};

use field::{Fault, Refusal};
use reader::Reader;
use text::PREFIX_SIZE;

// Kinds of messages.
#[derive(Clone, Copy, PartialEq, Eq)]
pub enum Kind {
    KeepAlive = 0x00,
    Hello = 0x01,
    Unsupported = 0x02,
    HelloComplete = 0x03,
    Assignment = 0x10,
    Update = 0x11,
}

impl From<Kind> for u8 {
    ghost from_gives = { λ kind byte. byte ≡ kind_byte kind };

    fn from(kind: Kind) -> u8 {
        kind as u8
    }
}

impl TryFrom<u8> for Kind {
    type Error = Refusal;

    ghost try_from_gives = { IsKindOf };

    fn try_from(byte: u8) -> Result<Kind, Refusal> {
        match byte {
            0x00 => Ok(Kind::KeepAlive),
            0x01 => Ok(Kind::Hello),
            0x02 => Ok(Kind::Unsupported),
            0x03 => Ok(Kind::HelloComplete),
            0x10 => Ok(Kind::Assignment),
            0x11 => Ok(Kind::Update),
            _ => Err(Refusal::UnknownKind),
        }
    }
}

pub const MAX_NAME_LENGTH: u16 = 64;

// How many bytes a kind has, and so where the first field behind it stands.
pub const KIND_SIZE: usize = 1;

// How many bytes a kind with a revision has.
pub const REVISION_LENGTH: usize = 3;

// Where an assignment's name starts, behind its kind and prefix.
pub const ASSIGNMENT_NAME_START: usize = 3;

// Where an assignment's ID, number and value start, counted from the end of its name: the type stands first.
pub const ID_BEHIND_NAME: usize = 1;

pub const NUMBER_BEHIND_NAME: usize = 3;

pub const VALUE_BEHIND_NAME: usize = 5;

// How many bytes an assignment has beside its name and value.
pub const ASSIGNMENT_FIXED: usize = 8;

// How many bytes an assignment has at most.
// Stays: `as usize`, since no From may be called in a constant.
pub const LONGEST_ASSIGNMENT: usize = ASSIGNMENT_FIXED
    + (MAX_NAME_LENGTH as usize)
    + (value::MAX_VALUE_SIZE as usize);

// Where an update's number and value start, behind its kind and ID.
pub const UPDATE_NUMBER_START: usize = 3;

pub const UPDATE_VALUE_START: usize = 5;

// Which IDs an assignment may carry.
// Stays: Option<u16> in other words. It would be no plainer: about thirty files of definitions say it by these names.
#[derive(Clone, Copy, PartialEq, Eq)]
pub enum AllowedId {
    Any,
    Only(u16),
}

// An assignment's fields. Its name starts at ASSIGNMENT_NAME_START, and its value ends with the message.
#[derive(Clone, Copy, PartialEq, Eq)]
pub struct Assignment {
    pub type_code: u8,
    pub id: u16,
    pub number: u16,
    pub name_length: usize,
    pub value_length: usize,
}

impl Assignment {
    // How many bytes the message has.
    pub fn size(&self) -> usize
        requires { assignment_length self.now.name_length self.now.value_length < 2 ^ 64 }
        ensures { result ≡ assignment_length self.now.name_length self.now.value_length }
    {
        ASSIGNMENT_FIXED + self.name_length + self.value_length
    }

    pub fn name<'a>(&self, m: &'a [u8]) -> &'a [u8]
        requires { assignment_length self.now.name_length self.now.value_length ≤ length m.now }
        ensures { result.now ≡ name_in self.now.name_length m.now }
    {
        &m[ASSIGNMENT_NAME_START..][..self.name_length]
    }

    pub fn value<'a>(&self, m: &'a [u8]) -> &'a [u8]
        requires { assignment_length self.now.name_length self.now.value_length ≤ length m.now }
        ensures { result.now ≡ value_in self.now.name_length self.now.value_length m.now }
    {
        &m[ASSIGNMENT_FIXED + self.name_length..][..self.value_length]
    }
}

// An update's fields. Its value ends with the message.
#[derive(Clone, Copy, PartialEq, Eq)]
pub struct Update {
    pub id: u16,
    pub number: u16,
    pub value_length: usize,
}

impl Update {
    // How many bytes the message has.
    pub fn size(&self) -> usize
        requires { update_length self.now.value_length < 2 ^ 64 }
        ensures { result ≡ update_length self.now.value_length }
    {
        UPDATE_VALUE_START + self.value_length
    }

    pub fn value<'a>(&self, m: &'a [u8]) -> &'a [u8]
        requires { update_length self.now.value_length ≤ length m.now }
        ensures { result.now ≡ update_value_in self.now.value_length m.now }
    {
        &m[UPDATE_VALUE_START..][..self.value_length]
    }
}

// An entry whose name and value are lent.
#[derive(Clone, Copy)]
pub struct LentEntry<'a> {
    pub name: &'a [u8],
    pub type_code: u16,
    pub number: u16,
    pub value: &'a [u8],
}

// A message's fields.
#[derive(Clone, Copy, PartialEq, Eq)]
pub enum Decoded {
    KeepAlive,
    Hello(u16),
    Unsupported(u16),
    HelloComplete,
    Assignment(Assignment),
    Update(Update),
}

#[tactic(auto, unfolding(crate::specs::Reader::id_allowed))]
fn id_allowed(allowed: AllowedId, id: u16) -> bool
    ensures { result ≡ id_allowed allowed id }
{
    match allowed {
        AllowedId::Any => true,
        AllowedId::Only(only) => id == only,
    }
}

// An assignment's number and value, behind its type and ID; its name ends at a place.
#[tactic(auto, unfolding(crate::specs::Reader::parse_behind_id, field::specs::Field::number_at, field::specs::Choice::pick))]
fn read_behind_id(m: &[u8], at: usize, type_code: u8, id: u16) -> Result<Assignment, Fault>
    requires { (assignment_name_start ≤ at) × (at + number_behind_name ≤ length m.now) }
    ensures { result ≡ parse_behind_id at type_code id m.now }
{
    let reader = Reader::new(m);
    let number = reader.at(at + NUMBER_BEHIND_NAME).number()?;
    let value_length = reader.at(at + VALUE_BEHIND_NAME).value(type_code)?;
    Ok(Assignment {
        type_code,
        id,
        number,
        name_length: at - ASSIGNMENT_NAME_START,
        value_length,
    })
}

// An assignment's fields past its name, which begin at a place.
#[tactic(auto, unfolding(crate::specs::Reader::parse_after_name, field::specs::Field::octet_at, field::specs::Field::number_at, field::specs::Choice::pick))]
fn read_after_name(m: &[u8], at: usize, allowed: AllowedId) -> Result<Assignment, Fault>
    requires { (assignment_name_start ≤ at) × (at ≤ length m.now) }
    ensures { result ≡ parse_after_name (id_allowed allowed) at m.now }
{
    let reader = Reader::new(m);
    let type_code = reader.at(at).octet()?;
    if !value::known_type(type_code) {
        return Err(Fault::new(Refusal::UnknownType, at));
    }
    let id_at = at + ID_BEHIND_NAME;
    let id = reader.at(id_at).number()?;
    if !id_allowed(allowed, id) {
        return Err(Fault::new(Refusal::WrongId, id_at));
    }
    read_behind_id(m, at, type_code, id)
}

// An assignment: its kind is the first byte.
#[tactic(auto, using(crate::proofs::ReaderLaws::name_taken_lem), unfolding(crate::specs::Reader::parse_assignment))]
pub fn read_assignment(m: &[u8], allowed: AllowedId) -> Result<Assignment, Fault>
    ensures { result ≡ parse_assignment (id_allowed allowed) m.now }
{
    let name = Reader::new(m).at(KIND_SIZE);
    let name_size = name.text((PREFIX_SIZE as u16) + MAX_NAME_LENGTH)?;
    read_after_name(m, KIND_SIZE + name_size, allowed)
}

// An update's number and value, behind its ID.
#[tactic(auto, unfolding(crate::specs::Reader::parse_behind_update_id, field::specs::Field::number_at, field::specs::Choice::pick))]
pub fn read_behind_update_id(m: &[u8], id: u16, type_code: u8) -> Result<Update, Fault>
    ensures { result ≡ parse_behind_update_id id type_code m.now }
{
    let reader = Reader::new(m);
    let number = reader.at(UPDATE_NUMBER_START).number()?;
    let value_length = reader.at(UPDATE_VALUE_START).value(type_code)?;
    Ok(Update {
        id,
        number,
        value_length,
    })
}

// An update of any ID, whose type is known: its kind is the first byte.
#[tactic(auto, unfolding(crate::specs::Reader::parse_update, field::specs::Field::number_at, field::specs::Choice::pick))]
pub fn read_update(m: &[u8], type_code: u8) -> Result<Update, Fault>
    ensures { result ≡ parse_update (id_allowed AllowedId.Any) (λ id. type_code) m.now }
{
    let id = Reader::new(m).at(KIND_SIZE).number()?;
    read_behind_update_id(m, id, type_code)
}

// A fault of an update whose type is given: a type that is not known is at no byte of the message.
#[tactic(auto, unfolding(crate::specs::Reader::type_given, field::specs::Choice::pick))]
fn type_given(fault: Fault) -> Fault
    ensures { result ≡ type_given fault }
{
    match fault.refusal() {
        Refusal::UnknownType => Fault::new(Refusal::UnknownType, 0),
        _ => fault,
    }
}

// The revision of a hello, or of the answer to one that is not supported.
fn read_revision(m: &[u8]) -> Result<u16, Fault>
    ensures { result ≡ number_at m.now kind_size }
{
    Reader::new(m).at(KIND_SIZE).number()
}

// A message of a kind.
#[tactic(auto, unfolding(crate::specs::Reader::parse_by_kind, crate::specs::Reader::parse_revision, field::specs::Field::number_at, field::specs::Choice::pick))]
fn read_of_kind(m: &[u8], kind: Kind, update_type: u8) -> Result<Decoded, Fault>
    ensures { result ≡ parse_by_kind (kind_byte kind) update_type m.now }
{
    match kind {
        Kind::KeepAlive => Ok(Decoded::KeepAlive),
        Kind::Hello => Ok(Decoded::Hello(read_revision(m)?)),
        Kind::Unsupported => Ok(Decoded::Unsupported(read_revision(m)?)),
        Kind::HelloComplete => Ok(Decoded::HelloComplete),
        Kind::Assignment => Ok(Decoded::Assignment(read_assignment(m, AllowedId::Any)?)),
        Kind::Update => match read_update(m, update_type) {
            Ok(update) => Ok(Decoded::Update(update)),
            Err(fault) => Err(type_given(fault)),
        },
    }
}

// One message, any kind and ID; an update's type is given.
#[tactic(auto, using(crate::proofs::KindLaws::unknown_read, crate::proofs::KindLaws::kind_read, crate::proofs::ReadingLaws::answer_is), unfolding(crate::specs::Reader::parse_message, field::specs::Field::octet_at, field::specs::Choice::pick))]
pub fn read_message(m: &[u8], update_type: u8) -> Result<Decoded, Fault>
    ensures fields { result ≡ parse_message update_type m.now }
    ensures answer { ReadingIs update_type m.now (number_of result) (taken_of result) (contents m.now result) }
{
    let byte = Reader::new(m).octet()?;
    match Kind::try_from(byte) {
        Ok(kind) => read_of_kind(m, kind, update_type),
        Err(refusal) => Err(Fault::new(refusal, 0)),
    }
}
