// Messages of the plant's own code in a line record: local calls.
#![tactic(auto)]

ghost use Rattle.std.specs.Prelude.{◌≡◌, true, List, ℕ, Ok};
ghost use Rattle.field.specs.Field.{octet_at};
ghost use Rattle.message.specs.Kinds.{kind_byte};
ghost use Rattle.field.specs.Refusal.{refusal_number};
ghost use Rattle.message.specs.Reader.{id_allowed, parse_assignment};
ghost use Rattle.table.specs.Table.{lent, entries_of, parse_held_update, max_entries};
ghost use Rattle.soundness.specs.Sound.{sound_table, sound_marks};
ghost use Rattle.protocol.specs.Judge.{new_id};
ghost use Rattle.protocol.specs.Lent.{beside_marks};
ghost use Rattle.line_record.specs.Plant.{plant_number, plant_create, plant_write, plant_message};
ghost use Rattle.line_record.specs.Held.{plant_effect};
ghost use Rattle.effect.specs.Lent.{effected};

use effect::{Outcome, Taken};
use field::Refusal;
use message::{AllowedId, Kind};
use reader::Reader;
use soundness::SoundTable;
use table::Table;

// An ID that asks for no new entry is no form of the plant's own code.
#[tactic(auto, using(crate::proofs::PlantLaws::refusal_stays), unfolding(field::specs::Choice::pick))]
fn plant_refusal(refusal: Refusal) -> Refusal
    ensures { refusal_number result ≡ plant_number (refusal_number refusal) }
{
    match refusal {
        Refusal::WrongId => Refusal::UnknownKind,
        _ => refusal,
    }
}

// An assignment is a local create.
// Stays: no plainer, here and below. No mark is looked at, so heads, bytes and count are lent, and no Memory.
fn create(heads: &mut [u16], bytes: &mut [u8], count: &mut u16, m: &[u8]) -> Result<Taken, Refusal>
    requires { sound_table max_entries (lent heads.old bytes.old count.old) ≡ true }
    ensures { (marks : List ℕ) → sound_marks marks ≡ true →
        effected result (beside_marks (lent heads.new bytes.new count.new) marks)
        ≡ plant_effect max_entries (beside_marks (lent heads.old bytes.old count.old) marks)
        (plant_create m.now (parse_assignment (id_allowed (AllowedId.Only new_id)) m.now)) }
{
    match message::read_assignment(m, AllowedId::Only(judge::NEW_ID)) {
        Ok(read) => {
            effect::create(
                heads,
                bytes,
                count,
                read.name(m),
                read.type_code,
                read.value(m),
            )?;
            Ok(Taken {
                outcome: Outcome::Done,
                size: read.size(),
            })
        }
        Err(fault) => Err(plant_refusal(fault.refusal())),
    }
}

// An update is a local write.
fn write(heads: &mut [u16], bytes: &mut [u8], count: u16, m: &[u8]) -> Result<Taken, Refusal>
    requires { sound_table max_entries (lent heads.old bytes.old count) ≡ true }
    ensures { (marks : List ℕ) → sound_marks marks ≡ true →
        effected result (beside_marks (lent heads.new bytes.new count) marks)
        ≡ plant_effect max_entries (beside_marks (lent heads.old bytes.old count) marks)
        (plant_write m.now (parse_held_update (entries_of (lent heads.old bytes.old count)) m.now)) }
{
    let table = SoundTable {
        table: Table {
            heads: &*heads,
            bytes: &*bytes,
            count,
        },
    };
    match table.read_held_update(m) {
        Ok(update) => {
            let outcome = effect::write(heads, bytes, count, update.id, update.value(m))?;
            Ok(Taken {
                outcome,
                size: update.size(),
            })
        }
        Err(fault) => Err(fault.refusal()),
    }
}

// The message that stands first, of a kind.
fn receive_kind(
    heads: &mut [u16],
    bytes: &mut [u8],
    count: &mut u16,
    kind: Kind,
    m: &[u8],
) -> Result<Taken, Refusal>
    requires kind { Ok (kind_byte kind) ≡ octet_at m.now 0 }
    requires sound { sound_table max_entries (lent heads.old bytes.old count.old) ≡ true }
    ensures { (marks : List ℕ) → sound_marks marks ≡ true →
        effected result (beside_marks (lent heads.new bytes.new count.new) marks)
        ≡ plant_effect max_entries (beside_marks (lent heads.old bytes.old count.old) marks)
        (plant_message (entries_of (lent heads.old bytes.old count.old)) m.now) }
{
    match kind {
        Kind::Assignment => create(heads, bytes, count, m),
        Kind::Update => write(heads, bytes, *count, m),
        Kind::KeepAlive | Kind::Hello | Kind::Unsupported | Kind::HelloComplete => {
            Err(Refusal::UnknownKind)
        }
    }
}

// The message that stands first.
pub fn receive_local(
    heads: &mut [u16],
    bytes: &mut [u8],
    count: &mut u16,
    m: &[u8],
) -> Result<Taken, Refusal>
    requires { sound_table max_entries (lent heads.old bytes.old count.old) ≡ true }
    ensures { (marks : List ℕ) → sound_marks marks ≡ true →
        effected result (beside_marks (lent heads.new bytes.new count.new) marks)
        ≡ plant_effect max_entries (beside_marks (lent heads.old bytes.old count.old) marks)
        (plant_message (entries_of (lent heads.old bytes.old count.old)) m.now) }
{
    match Reader::new(m).octet() {
        Ok(byte) => {
            let kind = Kind::try_from(byte)?;
            receive_kind(heads, bytes, count, kind, m)
        }
        Err(_) => Err(Refusal::Incomplete),
    }
}
