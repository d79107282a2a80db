// A message's fields as C's struct. No table is lent.
#![tactic(auto)]

ghost use Rattle.std.specs.Prelude.{◌≡◌, ◌≤◌, Ok, Err};
ghost use Rattle.field.specs.Answer.{done};
ghost use Rattle.message.specs.Kinds.{kind_byte};
ghost use Rattle.message.specs.Layout.{longest_assignment};
ghost use Rattle.message.specs.Reader.{parse_message, taken_of};
ghost use Rattle.fields.specs.Fields.{fields, fields_with_place, fields_in};

use field::{DONE, Fault};
use message::{Decoded, KIND_SIZE, Kind, REVISION_LENGTH};

// A message's fields, those that its kind lacks being 0; and the place of the field that failed.
// Stays: one struct for all kinds, its number and kind a byte each, since it is C's.
#[repr(C)]
#[derive(Drop)]
pub struct Fields {
    pub number: u8,
    pub kind: u8,
    pub type_code: u8,
    pub revision: u16,
    pub id: u16,
    pub entry_number: u16,
    pub taken: usize,
    pub name_length: usize,
    pub value_length: usize,
    pub place: usize,
}

// Done, with no field: all others are made of it.
const NONE: Fields = Fields {
    number: DONE,
    kind: 0,
    type_code: 0,
    revision: 0,
    id: 0,
    entry_number: 0,
    taken: 0,
    name_length: 0,
    value_length: 0,
    place: 0,
};

impl Fields {
    fn of_refusal(fault: Fault) -> Fields
        ensures { fields_in result ≡ fields_with_place (Err fault) }
    {
        Fields {
            number: fault.number(),
            place: fault.reported_place(),
            ..NONE
        }
    }

    // A message with no entry.
    fn lone(kind: Kind, revision: u16, taken: usize) -> Fields
        ensures { fields_in result
            ≡ record { result = fields done (kind_byte kind) 0 revision 0 0 taken 0 0; place = 0 } }
    {
        Fields {
            kind: u8::from(kind),
            revision,
            taken,
            ..NONE
        }
    }

    fn of_message(message: Decoded) -> Fields
        requires { taken_of (Ok message) ≤ longest_assignment }
        ensures { fields_in result ≡ fields_with_place (Ok message) }
    {
        match message {
            Decoded::KeepAlive => Fields::lone(Kind::KeepAlive, 0, KIND_SIZE),
            Decoded::Hello(revision) => Fields::lone(Kind::Hello, revision, REVISION_LENGTH),
            Decoded::Unsupported(revision) => Fields::lone(
                Kind::Unsupported,
                revision,
                REVISION_LENGTH,
            ),
            Decoded::HelloComplete => Fields::lone(Kind::HelloComplete, 0, KIND_SIZE),
            Decoded::Assignment(assignment) => Fields {
                kind: u8::from(Kind::Assignment),
                type_code: assignment.type_code,
                id: assignment.id,
                entry_number: assignment.number,
                taken: assignment.size(),
                name_length: assignment.name_length,
                value_length: assignment.value_length,
                ..NONE
            },
            Decoded::Update(update) => Fields {
                kind: u8::from(Kind::Update),
                id: update.id,
                entry_number: update.number,
                taken: update.size(),
                value_length: update.value_length,
                ..NONE
            },
        }
    }
}

// One message's fields, any kind and ID; an update's type is given.
#[tactic(auto, using(crate::proofs::TakenLaws::taken_small))]
pub fn decode(bytes: &[u8], update_type: u8) -> Fields
    ensures { fields_in result ≡ fields_with_place (parse_message update_type bytes.now) }
{
    match message::read_message(bytes, update_type) {
        Ok(message) => Fields::of_message(message),
        Err(fault) => Fields::of_refusal(fault),
    }
}
