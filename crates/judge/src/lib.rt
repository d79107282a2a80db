// What a call comes to: read only, the output is not looked at.
#![tactic(auto)]

ghost use Rattle.std.specs.Prelude.{◌≡◌, ℕ, ◌≤◌, ◌<◌, List, length, eqb, Ok, Err};
ghost use Rattle.message.specs.Kinds.{kind_byte};
ghost use Rattle.message.specs.Layout.{Entry};
ghost use Rattle.message.specs.Reader.{id_allowed, parse_assignment};
ghost use Rattle.table.specs.Memory.{memory_of};
ghost use Rattle.table.specs.Table.{entries_of, parse_held_update, max_entries};
ghost use Rattle.field.specs.Answer.{wrong_state};
ghost use Rattle.field.specs.Choice.{demand};
ghost use Rattle.field.specs.Field.{fault_at};
ghost use Rattle.soundness.specs.Sound.{connections, greeted};
ghost use Rattle.protocol.specs.Judge.{client_message, local_create, local_write, new_id};
ghost use Rattle.protocol.specs.Judge.{judge_hello, judge_assignment, judge_update, judge_kind, judge_message, judge};
ghost use Rattle.judge.specs.Decision.{mark_call, mark_of, allows, Decides, DecidesMark, DecidesCreate, DecidesWrite};

use field::{Fault, Refusal};
use message::{AllowedId, Assignment, KIND_SIZE, Kind, Update};
use reader::Reader;
use sequence::SequenceNumber;
use soundness::SoundTable;

pub const REVISION: u16 = 0x0200;

// The ID in a client's assignment: a new one is asked for.
pub const NEW_ID: u16 = 0xFFFF;

// ---- a client's message

// A verdict on a client's message that is not refused. Names and values stay in the message, the connection with the caller.
#[derive(Clone, Copy, PartialEq, Eq)]
pub enum Decision {
    Ignore(usize),
    AcceptHello,
    UnsupportedRevision,
    StoreNew(Assignment),
    StoreUpdate(Update),
}

fn judge_hello(mark: u8, m: &[u8]) -> Result<Decision, Fault>
    ensures { (count c : ℕ) → c < connections →
        Decides count c m.now result (judge_hello c mark m.now) }
{
    if mark != soundness::OPEN {
        return Err(Fault::new(Refusal::WrongState, 0));
    }
    let revision = Reader::new(m).at(KIND_SIZE).number()?;
    if revision == REVISION {
        return Ok(Decision::AcceptHello);
    }
    Ok(Decision::UnsupportedRevision)
}

fn judge_assignment(table: SoundTable, m: &[u8]) -> Result<Decision, Fault>
    ensures { (c : ℕ) → Decides table.entry.table.count c m.now result
        (judge_assignment max_entries (entries_of (memory_of table.entry.table)) m.now
        (parse_assignment (id_allowed (AllowedId.Only new_id)) m.now)) }
{
    let assignment = message::read_assignment(m, AllowedId::Only(NEW_ID))?;
    if table.find_name(assignment.name(m)).is_some() {
        return Ok(Decision::Ignore(assignment.size()));
    }
    if table.len() >= table::MAX_ENTRIES {
        return Err(Fault::new(Refusal::TableFull, 0));
    }
    Ok(Decision::StoreNew(assignment))
}

fn judge_update(table: SoundTable, m: &[u8]) -> Result<Decision, Fault>
    ensures { (c : ℕ) → Decides table.entry.table.count c m.now result
        (judge_update c (entries_of (memory_of table.entry.table)) m.now
        (parse_held_update (entries_of (memory_of table.entry.table)) m.now)) }
{
    let update = table.read_held_update(m)?;
    let stored = SequenceNumber(table.entry(usize::from(update.id)).number);
    if !stored.is_passed_by(SequenceNumber(update.number)) {
        return Ok(Decision::Ignore(update.size()));
    }
    Ok(Decision::StoreUpdate(update))
}

// Assignments and updates are for connections that are greeted.
#[tactic(auto, unfolding(field::specs::Choice::pick))]
fn demand_greeted(mark: u8) -> Result<(), Fault>
    ensures { result ≡ demand (eqb mark greeted) (Err (fault_at wrong_state 0)) (Ok tt) }
{
    if mark != soundness::GREETED {
        return Err(Fault::new(Refusal::WrongState, 0));
    }
    Ok(())
}

// A message of a kind, of a connection that is open or greeted.
fn judge_kind(table: SoundTable, mark: u8, kind: Kind, m: &[u8]) -> Result<Decision, Fault>
    ensures { (c : ℕ) → c < connections → Decides table.entry.table.count c m.now result
        (judge_kind max_entries (entries_of (memory_of table.entry.table)) c mark (kind_byte kind) m.now) }
{
    match kind {
        Kind::KeepAlive => Ok(Decision::Ignore(KIND_SIZE)),
        Kind::Hello => judge_hello(mark, m),
        Kind::Assignment => {
            demand_greeted(mark)?;
            judge_assignment(table, m)
        }
        Kind::Update => {
            demand_greeted(mark)?;
            judge_update(table, m)
        }
        Kind::Unsupported | Kind::HelloComplete => Err(Fault::new(Refusal::UnknownKind, 0)),
    }
}

// A message of a connection that is open or greeted.
fn judge_message(table: SoundTable, mark: u8, m: &[u8]) -> Result<Decision, Fault>
    ensures { (c : ℕ) → c < connections → Decides table.entry.table.count c m.now result
        (judge_message max_entries (entries_of (memory_of table.entry.table)) c mark m.now) }
{
    let byte = Reader::new(m).octet()?;
    match Kind::try_from(byte) {
        Ok(kind) => judge_kind(table, mark, kind, m),
        Err(refusal) => Err(Fault::new(refusal, 0)),
    }
}

// One message of a client.
// Stays: C interface. So many marks are asked for: `&[u8; 16]` would be narrower than what C lends.
pub fn judge_client_message(
    table: SoundTable,
    marks: &[u8],
    c: usize,
    m: &[u8],
) -> Result<Decision, Fault>
    requires { connections ≤ length marks.now }
    ensures { Decides table.entry.table.count c m.now result
        (judge max_entries (entries_of (memory_of table.entry.table)) marks.now (client_message c m.now)) }
{
    if c >= soundness::CONNECTIONS {
        return Err(Fault::new(Refusal::ConnectionTooHigh, 0));
    }
    let mark = marks[c];
    if mark == soundness::CLOSED {
        return Err(Fault::new(Refusal::WrongState, 0));
    }
    judge_message(table, mark, m)
}

// ---- opening and leaving

// What a connection does to its mark.
#[derive(Clone, Copy, PartialEq, Eq)]
pub enum MarkChange {
    Open,
    Close,
}

impl MarkChange {
    // The mark that it leaves.
    pub fn mark(self) -> u8
        ensures { result ≡ mark_of self }
    {
        match self {
            MarkChange::Open => soundness::OPEN,
            MarkChange::Close => soundness::CLOSED,
        }
    }

    // Whether a connection with this mark may make it.
    fn is_allowed(self, mark: u8) -> bool
        ensures { result ≡ allows self mark }
    {
        match self {
            MarkChange::Open => mark == soundness::CLOSED,
            MarkChange::Close => mark != soundness::CLOSED,
        }
    }
}

// Connection c opens or leaves, with sound marks. No entry is looked at.
pub fn judge_mark(marks: &[u8], c: usize, change: MarkChange) -> Result<(), Fault>
    requires { connections ≤ length marks.now }
    ensures { (limit : ℕ) (es : List Entry) →
        DecidesMark c change result (judge limit es marks.now (mark_call change c)) }
{
    if c >= soundness::CONNECTIONS {
        return Err(Fault::new(Refusal::ConnectionTooHigh, 0));
    }
    if !change.is_allowed(marks[c]) {
        return Err(Fault::new(Refusal::WrongState, 0));
    }
    Ok(())
}

// ---- local calls

// Local create.
// Stays: C interface. Name, type and value are three parameters, as C lends them; an entry is made of them where it is stored.
pub fn judge_create(
    table: SoundTable,
    name: &[u8],
    type_code: u8,
    value: &[u8],
) -> Result<(), Fault>
    ensures { (marks : List ℕ) →
        DecidesCreate table.entry.table.count name.now type_code value.now result
        (judge max_entries (entries_of (memory_of table.entry.table)) marks
        (local_create name.now type_code value.now)) }
{
    writer::check_name(name)?;
    value::read_lone(type_code, value)?;
    if table.find_name(name).is_some() {
        return Err(Fault::new(Refusal::NameTaken, 0));
    }
    if table.len() >= table::MAX_ENTRIES {
        return Err(Fault::new(Refusal::TableFull, 0));
    }
    Ok(())
}

// Local write: the number that is stored with the value, or none where the entry has the value already. It is put into its callers, so
// that the verdict does not go through memory.
#[inline(always)]
pub fn judge_write(table: SoundTable, id: u16, value: &[u8]) -> Result<Option<u16>, Fault>
    ensures { (marks : List ℕ) →
        DecidesWrite table.entry.table.count id value.now result
        (judge max_entries (entries_of (memory_of table.entry.table)) marks
        (local_write id value.now)) }
{
    if usize::from(id) >= table.len() {
        return Err(Fault::new(Refusal::UnknownId, 0));
    }
    let stored = table.entry(usize::from(id));
    value::read_lone(stored.type_code as u8, value)?;
    if scalar::same_value(stored.value, value) {
        return Ok(None);
    }
    let number = SequenceNumber(stored.number).next();
    Ok(Some(number.0))
}
