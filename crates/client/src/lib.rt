// The client half: a copy of the server's table, kept from the server's messages. A call judges soundness, judges, and performs.
#![tactic(auto)]

ghost use Rattle.std.specs.Prelude.{◌≡◌, true, eqb, Ok};
ghost use Rattle.field.specs.Answer.{done, unsound};
ghost use Rattle.message.specs.Kinds.{kind_byte};
ghost use Rattle.message.specs.Reader.{id_allowed, parse_assignment};
ghost use Rattle.table.specs.Memory.{memory_of};
ghost use Rattle.table.specs.Table.{lent, entries_of, max_entries};
ghost use Rattle.soundness.specs.Sound.{sound_table};
ghost use Rattle.protocol.specs.Copy.{judge_copy_assignment, judge_copy_kind, judge_copy};
ghost use Rattle.protocol.specs.Place.{execute_copy_with_place, copy_with_place};
ghost use Rattle.client.specs.Lent.{copied, bare_copied, refused_copied, ignored_copied, stored_copied};
ghost use Rattle.client.specs.Lent.{copy_verdict_of, Copyable, DecidesCopy};

use answer::Answered;
use field::{DONE, Fault, IGNORED, Refusal};
use message::{AllowedId, Assignment, KIND_SIZE, Kind, LentEntry, REVISION_LENGTH, Update};
use reader::Reader;
use soundness::SoundTable;
use table::Table;

// What reading a message into the copy answers: the number, the revision of 0x02, bytes taken, and the place of the field that failed.
#[repr(C)]
#[derive(Drop)]
pub struct Copied {
    // Stays: the number of a call that is done, of one that is ignored, or of a refusal; C's struct has it as a byte.
    pub number: u8,
    pub revision: u16,
    pub taken: usize,
    pub place: usize,
}

// The answer on memory that is unsound or too small: a number alone. All other answers are made of it.
// Stays: no plainer. `as u8`, since From is not for a const.
pub const ON_UNSOUND: Copied = Copied {
    number: Refusal::Unsound as u8,
    revision: 0,
    taken: 0,
    place: 0,
};

impl Answered for Copied {
    ghost on_unsound = { bare_copied unsound };

    ghost changes_heads = { λ a. eqb a.number done };

    fn on_unsound() -> Copied {
        ON_UNSOUND
    }

    fn changes_heads(&self) -> bool {
        self.number == DONE
    }
}

fn refused(fault: Fault) -> Copied
    ensures { result ≡ refused_copied fault }
{
    Copied {
        number: fault.number(),
        place: fault.reported_place(),
        ..ON_UNSOUND
    }
}

fn ignored(taken: usize, revision: u16) -> Copied
    ensures { result ≡ ignored_copied taken revision }
{
    Copied {
        number: IGNORED,
        revision,
        taken,
        ..ON_UNSOUND
    }
}

fn stored(taken: usize) -> Copied
    ensures { result ≡ stored_copied taken }
{
    Copied {
        number: DONE,
        taken,
        ..ON_UNSOUND
    }
}

// ---- what a message comes to

// What is done with a message that is not refused. Names and values stay in the message. Small fields stand before lengths
// (docs/DECISIONS.md, Speed).
#[derive(Clone, Copy)]
pub enum CopyDecision {
    Ignore { revision: u16, taken: usize },
    StoreNew(Assignment),
    StoreUpdate(Update),
}

// An assignment: a new entry with the ID that comes next, stored with its number.
#[tactic(auto, using(crate::proofs::DecideLaws::new_fits, crate::proofs::DecideLaws::new_cut, crate::proofs::DecideLaws::new_held, crate::proofs::DecideLaws::new_full, crate::proofs::DecideLaws::new_stored))]
fn judge_assignment(table: SoundTable, m: &[u8]) -> Result<CopyDecision, Fault>
    ensures { DecidesCopy table.entry.table.count m.now result
        (judge_copy_assignment max_entries (entries_of (memory_of table.entry.table)) m.now
        (parse_assignment (id_allowed (AllowedId.Only table.entry.table.count)) m.now)) }
{
    let new = message::read_assignment(m, AllowedId::Only(table.table.count))?;
    if table.find_name(new.name(m)).is_some() {
        return Err(Fault::new(Refusal::NameTaken, 0));
    }
    if table.len() >= table::MAX_ENTRIES {
        return Err(Fault::new(Refusal::TableFull, 0));
    }
    Ok(CopyDecision::StoreNew(new))
}

// A message of a kind. With 0x02 the server speaks another revision, which is reported; an update of a held ID is always stored.
#[tactic(auto, using(table::proofs::TabulateLaws::length_entries), unfolding(protocol::specs::Copy::judge_copy_kind, field::specs::Choice::pick))]
fn judge_kind(table: SoundTable, kind: Kind, m: &[u8]) -> Result<CopyDecision, Fault>
    ensures { DecidesCopy table.entry.table.count m.now result
        (judge_copy_kind max_entries (entries_of (memory_of table.entry.table)) (kind_byte kind) m.now) }
{
    match kind {
        Kind::KeepAlive | Kind::HelloComplete => Ok(CopyDecision::Ignore {
            revision: 0,
            taken: KIND_SIZE,
        }),
        Kind::Unsupported => Ok(CopyDecision::Ignore {
            revision: Reader::new(m).at(KIND_SIZE).number()?,
            taken: REVISION_LENGTH,
        }),
        Kind::Assignment => judge_assignment(table, m),
        Kind::Update => Ok(CopyDecision::StoreUpdate(table.read_held_update(m)?)),
        Kind::Hello => Err(Fault::new(Refusal::UnknownKind, 0)),
    }
}

// One message, in a sound copy.
#[tactic(auto, using(crate::proofs::DecideLaws::none_cut, crate::proofs::DecideLaws::kind_unknown, crate::proofs::DecideLaws::kind_decides))]
fn judge_copy(table: SoundTable, m: &[u8]) -> Result<CopyDecision, Fault>
    ensures { DecidesCopy table.entry.table.count m.now result
        (judge_copy max_entries (entries_of (memory_of table.entry.table)) m.now) }
{
    let byte = Reader::new(m).octet()?;
    match Kind::try_from(byte) {
        Ok(kind) => judge_kind(table, kind, m),
        Err(refusal) => Err(Fault::new(refusal, 0)),
    }
}

// ---- what a verdict does

// A decision on a message m: a new entry has the next ID.
// Stays: C interface. The copy's memory is three parameters, which C lends each by itself; a struct of them is taken apart again.
#[tactic(auto, using(crate::proofs::DecideLaws::next_there, crate::proofs::DecideLaws::held_there), unfolding(protocol::specs::Copy::execute_copy, table::specs::Table::store_value))]
fn perform(
    heads: &mut [u16],
    bytes: &mut [u8],
    count: &mut u16,
    m: &[u8],
    decision: CopyDecision,
) -> Copied
    requires sound { sound_table max_entries (lent heads.old bytes.old count.old) ≡ true }
    requires performable { Copyable count.old m.now (Ok decision) }
    ensures { copied result (lent heads.new bytes.new count.new)
        ≡ execute_copy_with_place (lent heads.old bytes.old count.old) (copy_verdict_of m.now (Ok decision)) }
{
    match decision {
        CopyDecision::Ignore { revision, taken } => ignored(taken, revision),
        CopyDecision::StoreNew(new) => {
            let entry = LentEntry {
                name: new.name(m),
                type_code: u16::from(new.type_code),
                number: new.number,
                value: new.value(m),
            };
            table::add_entry(heads, bytes, count, entry);
            stored(new.size())
        }
        CopyDecision::StoreUpdate(update) => {
            let id = usize::from(update.id);
            table::store_value(heads, bytes, id, update.number, update.value(m));
            stored(update.size())
        }
    }
}

// ---- the calls

// One message from the server.
#[tactic(auto, using(crate::proofs::DecideLaws::unsound_copy, crate::proofs::DecideLaws::refused_copy, crate::proofs::DecideLaws::sound_copy))]
pub fn copy_receive(heads: &mut [u16], bytes: &mut [u8], count: &mut u16, m: &[u8]) -> Copied
    ensures { copied result (lent heads.new bytes.new count.new)
        ≡ copy_with_place max_entries (lent heads.old bytes.old count.old) m.now }
{
    let lent = Table {
        heads: &*heads,
        bytes: &*bytes,
        count: *count,
    };
    let Some(table) = SoundTable::new(lent) else {
        return ON_UNSOUND;
    };
    match judge_copy(table, m) {
        Ok(decision) => perform(heads, bytes, count, m, decision),
        Err(fault) => refused(fault),
    }
}
