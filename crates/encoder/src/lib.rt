// The bytes of each message of Protocol Revision 2.0, at the start of the output; each function answers how many they are.
#![tactic(auto)]

ghost use Rattle.std.specs.Prelude.{◌≡◌, ◌∷◌, [], ◌+◌, ◌≤◌, length};
ghost use Rattle.field.specs.Octets.{overwrite_at};
ghost use Rattle.message.specs.Layout.{assignment_bytes, update_bytes, revision_bytes};
ghost use Rattle.message.specs.Layout.{max_name_length, kind_size, revision_length, assignment_fixed, update_value_start};
ghost use Rattle.message.specs.Lent.{entry_lent};

use message::{
    ASSIGNMENT_NAME_START, ID_BEHIND_NAME, KIND_SIZE, Kind, LentEntry, NUMBER_BEHIND_NAME,
    REVISION_LENGTH, UPDATE_NUMBER_START, UPDATE_VALUE_START, VALUE_BEHIND_NAME,
};

// A message that is its kind alone.
// Stays, here and below: a byte, since every byte is written, those that no kind has too.
pub fn write_kind(out: &mut [u8], kind: u8) -> usize
    requires { kind_size ≤ length out.old }
    ensures sent { result ≡ kind_size }
    ensures output { out.new ≡ overwrite_at out.old 0 (kind ∷ []) }
{
    field::put_u8(out, 0, kind);
    KIND_SIZE
}

// A kind and a revision.
#[tactic(auto, using(field::proofs::OverwriteLaws::overwrite_append, field::proofs::OctetsLaws::length_encode16), unfolding(message::specs::Layout::revision_bytes, field::specs::Octets::encode16))]
pub fn write_revision(out: &mut [u8], kind: u8, revision: u16) -> usize
    requires { revision_length ≤ length out.old }
    ensures sent { result ≡ length (revision_bytes kind revision) }
    ensures output { out.new ≡ overwrite_at out.old 0 (revision_bytes kind revision) }
{
    write_kind(out, kind);
    field::put_u16(out, KIND_SIZE, revision);
    REVISION_LENGTH
}

// Stays, here and below: a line stores a field at its place, as the layout has it. A cursor that moves says no more.
#[tactic(auto, using(field::proofs::OverwriteLaws::overwrite_append, field::proofs::OctetsLaws::length_encode16), unfolding(message::specs::Layout::assignment_bytes, field::specs::Octets::encode16))]
pub fn write_assignment(out: &mut [u8], id: u16, entry: LentEntry) -> usize
    requires name_fits { length entry.name.now ≤ max_name_length }
    requires type_fits { entry.type_code ≤ 255 }
    requires room { length entry.name.now + length entry.value.now + assignment_fixed ≤ length out.old }
    ensures sent { result ≡ length (assignment_bytes id (entry_lent entry.entry)) }
    ensures output { out.new ≡ overwrite_at out.old 0 (assignment_bytes id (entry_lent entry.entry)) }
{
    let n = entry.name.len();
    let type_at = ASSIGNMENT_NAME_START + n;
    let value_at = type_at + VALUE_BEHIND_NAME;
    field::put_u8(out, 0, u8::from(Kind::Assignment));
    field::put_u16(out, KIND_SIZE, n as u16);
    field::copy_into(out, ASSIGNMENT_NAME_START, entry.name);
    field::put_u8(out, type_at, entry.type_code as u8);
    field::put_u16(out, type_at + ID_BEHIND_NAME, id);
    field::put_u16(out, type_at + NUMBER_BEHIND_NAME, entry.number);
    field::copy_into(out, value_at, entry.value);
    value_at + entry.value.len()
}

#[tactic(auto, using(field::proofs::OverwriteLaws::overwrite_append, field::proofs::OctetsLaws::length_encode16), unfolding(message::specs::Layout::update_bytes, field::specs::Octets::encode16))]
pub fn write_update(out: &mut [u8], id: u16, number: u16, value: &[u8]) -> usize
    requires { length value.now + update_value_start ≤ length out.old }
    ensures sent { result ≡ length (update_bytes id number value.now) }
    ensures output { out.new ≡ overwrite_at out.old 0 (update_bytes id number value.now) }
{
    field::put_u8(out, 0, u8::from(Kind::Update));
    field::put_u16(out, KIND_SIZE, id);
    field::put_u16(out, UPDATE_NUMBER_START, number);
    field::copy_into(out, UPDATE_VALUE_START, value);
    UPDATE_VALUE_START + value.len()
}
