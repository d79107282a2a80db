// What a verdict on a client's message does: the answer, the output, and lent memory afterwards.
#![tactic(auto)]

ghost use Rattle.std.specs.Prelude.{◌≡◌, true, ◌≤◌, ◌<◌, length};
ghost use Rattle.table.specs.Table.{TableMemory, max_entries};
ghost use Rattle.recipients.specs.Recipients.{greeted_but, recipient_set};
ghost use Rattle.soundness.specs.Sound.{sound_table, connections};
ghost use Rattle.protocol.specs.Judge.{accept_hello, unsupported_revision};
ghost use Rattle.protocol.specs.Memory.{SameMemory, server_of};
ghost use Rattle.protocol.specs.Place.{execute_with_place};
ghost use Rattle.protocol.specs.Lent.{beside_marks, answered};
ghost use Rattle.judge.specs.Decision.{verdict_of, Performable};

use answer::Answer;
use field::Fault;
use judge::Decision;
use message::{Kind, REVISION_LENGTH};
use protocol::Memory;

// ---- hellos

// A hello for 2.0: all entries to the sender, who is then greeted.
// Stays: C interface. So many marks are asked for, here and below: `&mut [u8; 16]` would be narrower than what C lends.
fn greet(memory: &mut Memory, c: usize, out: &mut [u8]) -> Answer
    requires sound { (c < connections) × (sound_table max_entries (server_of memory.old).table ≡ true) }
    requires marks { connections ≤ length memory.old.marks.now }
    ensures same { SameMemory memory.old memory.new }
    ensures done { answered result (server_of memory.new) out.new
        ≡ execute_with_place (server_of memory.old) out.old (accept_hello c) }
{
    if out.len() < hello::hello_length(memory.table()) {
        return answer::no_room();
    }
    let sent = hello::write_hello(memory.table(), out);
    memory.marks[c] = soundness::GREETED;
    answer::done(recipients::only_sender(c), REVISION_LENGTH, sent)
}

// A hello for another revision: the sender is told which one is spoken, and closed.
fn turn_away(marks: &mut [u8], c: usize, out: &mut [u8]) -> Answer
    requires { (c < connections) × (connections ≤ length marks.old) }
    ensures { (table : TableMemory) →
        answered result (beside_marks table marks.new) out.new
        ≡ execute_with_place (beside_marks table marks.old) out.old (unsupported_revision c) }
{
    if out.len() < REVISION_LENGTH {
        return answer::no_room();
    }
    let sent = encoder::write_revision(out, u8::from(Kind::Unsupported), judge::REVISION);
    marks[c] = soundness::CLOSED;
    answer::done(recipients::only_sender(c), REVISION_LENGTH, sent)
}

// ---- a client's message

// All greeted connections but one, or all.
fn greeted_but(memory: &Memory, left_out: Option<usize>) -> u16
    requires { connections ≤ length memory.now.marks.now }
    ensures { result ≡ recipient_set (greeted_but left_out) (server_of memory.now).marks }
{
    recipients::greeted_but(memory.marks, left_out)
}

// A verdict on a message m of connection c.
#[tactic(auto, using(crate::proofs::PerformLaws::refused_performed, crate::proofs::PerformLaws::ignored_performed))]
pub fn perform(
    memory: &mut Memory,
    c: usize,
    m: &[u8],
    decision: Result<Decision, Fault>,
    out: &mut [u8],
) -> Answer
    requires sound { sound_table max_entries (server_of memory.old).table ≡ true }
    requires marks { connections ≤ length memory.old.marks.now }
    requires performable { Performable memory.old.count.now c m.now decision }
    ensures same { SameMemory memory.old memory.new }
    ensures done { answered result (server_of memory.new) out.new
        ≡ execute_with_place (server_of memory.old) out.old (verdict_of c m.now decision) }
{
    match decision {
        Err(fault) => answer::refused(fault),
        Ok(Decision::Ignore(taken)) => answer::ignored(taken),
        Ok(Decision::AcceptHello) => greet(memory, c, out),
        Ok(Decision::UnsupportedRevision) => turn_away(memory.marks, c, out),
        Ok(Decision::StoreNew(assignment)) => {
            let entry = store::new_entry(
                assignment.name(m),
                assignment.type_code,
                assignment.value(m),
            );
            // the sender is not left out
            let recipients = greeted_but(memory, None);
            store::store_new(
                memory.heads,
                memory.bytes,
                memory.count,
                entry,
                assignment.size(),
                recipients,
                out,
            )
        }
        Ok(Decision::StoreUpdate(update)) => {
            let recipients = greeted_but(memory, Some(c));
            store::store_update(
                memory.heads,
                memory.bytes,
                update.id,
                update.number,
                update.value(m),
                update.size(),
                recipients,
                out,
            )
        }
    }
}
