// The message writer of Protocol Revision 2.0: fields are checked, and their message is written.
#![tactic(auto)]

ghost use Rattle.std.specs.Prelude.{◌≡◌, ◌≤◌, length};
ghost use Rattle.field.specs.Octets.{overwrite_at};
ghost use Rattle.message.specs.Kinds.{kind_byte};
ghost use Rattle.message.specs.Lent.{entry_lent};
ghost use Rattle.writer.specs.Writer.{given_entry, check_name, check_by_kind, check};
ghost use Rattle.writer.specs.Writer.{needed_for, bytes_of, Ready, write_with_place, written};
ghost use Rattle.writer.specs.Given.{given};

use answer::Answer;
use field::{Fault, Refusal};
use message::{
    ASSIGNMENT_FIXED, KIND_SIZE, Kind, LentEntry, MAX_NAME_LENGTH, REVISION_LENGTH,
    UPDATE_VALUE_START,
};

// The fields that a message is written from. Those that its kind lacks are not looked at; a name and a value are lent as for a
// local call.
// Stays: the kind and the type are the bytes that a caller gives, C's too. Which of them are known is for the checks to say.
#[derive(Clone, Copy)]
pub struct MessageFields<'a> {
    pub kind: u8,
    pub revision: u16,
    pub name: &'a [u8],
    pub type_code: u8,
    pub id: u16,
    pub number: u16,
    pub value: &'a [u8],
}

// A name that is lent without a prefix: the refusal, or how many bytes it has.
#[tactic(auto, unfolding(crate::specs::Writer::check_name, field::specs::Choice::pick))]
pub fn check_name(name: &[u8]) -> Result<usize, Fault>
    ensures { result ≡ check_name name.now }
{
    if usize::from(MAX_NAME_LENGTH) < name.len() {
        return Err(Fault::new(Refusal::TooLong, 0));
    }
    if !utf8::is_utf8(name) {
        return Err(Fault::new(Refusal::NotUtf8, 0));
    }
    Ok(name.len())
}

impl<'a> MessageFields<'a> {
    // An assignment's entry.
    fn lent_entry(self) -> LentEntry<'a>
        ensures entry { entry_lent result ≡ given_entry (given self.entry) }
        ensures type_fits { result.type_code ≤ 255 }
    {
        LentEntry {
            name: self.name,
            type_code: u16::from(self.type_code),
            number: self.number,
            value: self.value,
        }
    }

    // The fields that a kind has: the refusal, or how many bytes the message has.
    #[tactic(auto, using(crate::proofs::WriterLaws::lone_taken_is, crate::proofs::WriterLaws::name_taken_lem, message::proofs::ReadBack::length_assignment, message::proofs::ReadBack::length_update), unfolding(crate::specs::Writer::check_by_kind, crate::specs::Writer::check_assignment, crate::specs::Writer::check_update, field::specs::Choice::pick, message::specs::Layout::layout, message::specs::Layout::revision_bytes, field::specs::Octets::encode16))]
    fn check(self, kind: Kind) -> Result<usize, Fault>
        ensures { result ≡ needed_for (check_by_kind (kind_byte kind) (given self.entry)) }
    {
        match kind {
            Kind::KeepAlive | Kind::HelloComplete => Ok(KIND_SIZE),
            Kind::Hello | Kind::Unsupported => Ok(REVISION_LENGTH),
            Kind::Assignment => {
                let name_size = check_name(self.name)?;
                let value_size = value::read_lone(self.type_code, self.value)?;
                Ok(ASSIGNMENT_FIXED + name_size + value_size)
            }
            Kind::Update => {
                let value_size = value::read_lone(self.type_code, self.value)?;
                Ok(UPDATE_VALUE_START + value_size)
            }
        }
    }

    // The message of fields that were checked, where the output has room for it: how many bytes it has.
    #[tactic(auto, unfolding(crate::specs::Writer::check_by_kind, field::specs::Choice::pick, message::specs::Layout::layout, message::specs::Layout::revision_bytes, field::specs::Octets::encode16))]
    fn put(self, kind: Kind, out: &mut [u8]) -> usize
        requires { Ready (length out.old) (check_by_kind (kind_byte kind) (given self)) }
        ensures sent { result ≡ length (bytes_of (check_by_kind (kind_byte kind) (given self.entry))) }
        ensures output { out.new
            ≡ overwrite_at out.old 0 (bytes_of (check_by_kind (kind_byte kind) (given self.entry))) }
    {
        match kind {
            Kind::KeepAlive | Kind::HelloComplete => encoder::write_kind(out, u8::from(kind)),
            Kind::Hello | Kind::Unsupported => encoder::write_revision(
                out,
                u8::from(kind),
                self.revision,
            ),
            Kind::Assignment => encoder::write_assignment(out, self.id, self.lent_entry()),
            Kind::Update => encoder::write_update(out, self.id, self.number, self.value),
        }
    }

    // A message of a kind.
    #[tactic(auto, using(crate::proofs::WriterLaws::needs_refused))]
    fn write(self, kind: Kind, out: &mut [u8]) -> Answer
        ensures { written result out.new ≡ write_with_place (check_by_kind (kind_byte kind) (given self.entry)) out.old }
    {
        match self.check(kind) {
            Ok(size) => {
                if out.len() < size {
                    return answer::no_room();
                }
                let sent = self.put(kind, out);
                answer::done(0, 0, sent)
            }
            Err(fault) => answer::refused(fault),
        }
    }
}

// One message from its fields.
pub fn write_message(fields: MessageFields<'_>, out: &mut [u8]) -> Answer
    ensures { written result out.new ≡ write_with_place (check (given fields.entry)) out.old }
{
    match Kind::try_from(fields.kind) {
        Ok(kind) => fields.write(kind, out),
        Err(refusal) => answer::refused(Fault::new(refusal, 0)),
    }
}
