// Why a client's message is done, ignored or refused: the verdict by which the call itself goes, explained.
#![tactic(auto)]

ghost use Rattle.std.specs.Prelude.{◌≡◌, ℕ, get_or, false, Ok};
ghost use Rattle.field.specs.Answer.{unsound};
ghost use Rattle.table.specs.Memory.{memory_of};
ghost use Rattle.table.specs.Table.{entries_of, max_entries};
ghost use Rattle.protocol.specs.Lent.{beside_marks};
ghost use Rattle.judge.specs.Decision.{verdict_of};
ghost use Rattle.reason.specs.Reason.{refused_at};
ghost use Rattle.reason.specs.Why.{why};
ghost use Rattle.reason.specs.Explain.{number_reason, ignored_reason, explain};
ghost use Rattle.why.specs.Ignored.{ReadAgain, Explainable};
ghost use Rattle.why.specs.Answer.{reason_answer};

use answer::Answered;
use field::{DONE, Fault, IGNORED, Refusal};
use judge::Decision;
use message::{ASSIGNMENT_NAME_START, KIND_SIZE, Kind, UPDATE_NUMBER_START};
use reason::Reason;
use sequence::SequenceNumber;
use soundness::SoundTable;
use table::Table;

// An update, by its number.
#[tactic(auto, unfolding(reason::specs::Why::first_failing, reason::specs::Checks::number_checks, reason::specs::Explain::number_reason, field::specs::Choice::pick))]
fn why_number(stored: SequenceNumber, received: SequenceNumber) -> Reason
    ensures { result ≡ number_reason stored.0 received.0 }
{
    match stored.distance(received) {
        0 => Reason::Equal,
        SequenceNumber::HALF => Reason::Undefined,
        distance if distance < SequenceNumber::HALF => Reason::Applied(distance),
        _ => Reason::Older(received.distance(stored)),
    }
}

// A message that is ignored: keep alive, an assignment whose name is held, or an update whose number is not greater.
#[tactic(auto, using(crate::proofs::IgnoredLaws::keep_alive_said, crate::proofs::IgnoredLaws::number_said))]
fn why_ignored(table: SoundTable, m: &[u8]) -> Reason
    requires { ReadAgain table.table.count m.now }
    ensures { result ≡ ignored_reason (entries_of (memory_of table.entry.table)) (get_or m.now 0 0) m.now }
{
    // Stays: no plainer. Kind bytes are compared: the verdict read the kind already, and three are left.
    let kind = m[0];
    if kind == u8::from(Kind::KeepAlive) {
        return Reason::KeepAlive;
    }
    // An assignment's name length, or an update's ID.
    let first = usize::from(field::u16_at(m, KIND_SIZE));
    if kind == u8::from(Kind::Assignment) {
        let name = &m[ASSIGNMENT_NAME_START..][..first];
        let id = table.find_name(name).unwrap_or(table.len());
        return Reason::NameHeld(id as u16);
    }
    let received = field::u16_at(m, UPDATE_NUMBER_START);
    why_number(
        SequenceNumber(table.entry(first).number),
        SequenceNumber(received),
    )
}

// A message that is not refused.
#[tactic(auto, using(crate::proofs::IgnoredLaws::stored_said))]
fn why_taken(table: SoundTable, m: &[u8], decision: Decision) -> Reason
    requires { Explainable table.table.count m.now decision }
    ensures { (c : ℕ) → result
        ≡ explain (entries_of (memory_of table.entry.table)) (get_or m.now 0 0) m.now (verdict_of c m.now (Ok decision)) }
{
    match decision {
        Decision::Ignore(_) => why_ignored(table, m),
        Decision::AcceptHello | Decision::UnsupportedRevision | Decision::StoreNew(_) =>
            Reason::Done,
        Decision::StoreUpdate(update) => {
            let stored = table.entry(usize::from(update.id)).number;
            why_number(SequenceNumber(stored), SequenceNumber(update.number))
        }
    }
}

// A message m of connection c.
#[tactic(auto, using(crate::proofs::IgnoredLaws::unsound_said, crate::proofs::IgnoredLaws::refused_said, crate::proofs::IgnoredLaws::decided_said, soundness::proofs::ReadableLaws::sixteen_marks))]
pub fn why(table: Table, marks: &[u8], c: usize, m: &[u8]) -> Reason
    ensures { result ≡ why max_entries (beside_marks (memory_of table.entry) marks.now) c m.now }
{
    let Some(table) = server::sound(table, marks) else {
        return Reason::Refused(Fault::new(Refusal::Unsound, 0));
    };
    match judge::judge_client_message(table, marks, c, m) {
        Err(fault) => Reason::Refused(fault),
        Ok(decision) => why_taken(table, m, decision),
    }
}

// ---- a reason as C has it

// Which number stands for which reason.
#[derive(Clone, Copy, PartialEq, Eq)]
enum ReasonNumber {
    Refused = 0,
    KeepAlive = 1,
    NameHeld = 2,
    Equal = 3,
    Older = 4,
    Undefined = 5,
    Applied = 6,
    OtherDone = 7,
}

// specs/Answer.antt has the numbers too. A field that a reason does not have is 0.
#[repr(C)]
#[derive(Drop)]
pub struct ReasonAnswer {
    // Stays: C's struct has the reason's number, and the call's, as a byte.
    pub reason: u8,
    pub number: u8,
    pub id: u16,
    pub distance: u16,
    pub place: usize,
}

// The answer on memory that is unsound or too small.
// Stays: no plainer. `as u8`, since From is not for a const.
pub const ON_UNSOUND: ReasonAnswer = ReasonAnswer {
    reason: ReasonNumber::Refused as u8,
    number: Refusal::Unsound as u8,
    id: 0,
    distance: 0,
    place: 0,
};

impl Answered for ReasonAnswer {
    ghost on_unsound = { reason_answer (refused_at unsound 0) };

    ghost changes_heads = { λ _. false };

    fn on_unsound() -> ReasonAnswer {
        ON_UNSOUND
    }

    fn changes_heads(&self) -> bool {
        false
    }
}

impl From<Reason> for ReasonAnswer {
    ghost from_gives = { λ reason answer. answer ≡ reason_answer reason };

    fn from(reason: Reason) -> ReasonAnswer {
        let (told, number, id, distance, place) = match reason {
            Reason::Refused(fault) => (ReasonNumber::Refused, fault.number(), 0, 0, fault.place()),
            Reason::KeepAlive => (ReasonNumber::KeepAlive, IGNORED, 0, 0, 0),
            Reason::NameHeld(id) => (ReasonNumber::NameHeld, IGNORED, id, 0, 0),
            Reason::Equal => (ReasonNumber::Equal, IGNORED, 0, 0, 0),
            Reason::Older(by) => (ReasonNumber::Older, IGNORED, 0, by, 0),
            Reason::Undefined => (ReasonNumber::Undefined, IGNORED, 0, SequenceNumber::HALF, 0),
            Reason::Applied(by) => (ReasonNumber::Applied, DONE, 0, by, 0),
            Reason::Done => (ReasonNumber::OtherDone, DONE, 0, 0, 0),
        };
        ReasonAnswer {
            // Stays: no plainer. A From would need a table of the numbers in specs/ beside that of the answers.
            reason: told as u8,
            number,
            id,
            distance,
            place,
        }
    }
}

// The call in the form that C's hands on to.
pub fn why_answer(table: Table, marks: &[u8], connection: usize, m: &[u8]) -> ReasonAnswer
    ensures { result ≡ reason_answer
        (why max_entries (beside_marks (memory_of table.entry) marks.now) connection m.now) }
{
    ReasonAnswer::from(why(table, marks, connection, m))
}
