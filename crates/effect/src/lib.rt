// What a call answers and changes, without what it sends: for calls that are lent room enough, and whose output nobody reads.
#![tactic(auto)]

ghost use Rattle.std.specs.Prelude.{◌≡◌, true, List, ℕ, ◌≤◌, length, Ok};
ghost use Rattle.table.specs.Table.{TableMemory, lent, entries_of, max_entries};
ghost use Rattle.soundness.specs.Sound.{sound_table, sound_marks, connections};
ghost use Rattle.protocol.specs.Judge.{client_message, local_create, local_write, judge};
ghost use Rattle.protocol.specs.Step.{call_step, execute};
ghost use Rattle.protocol.specs.Kept.{SoundMemory};
ghost use Rattle.protocol.specs.Lent.{beside_marks};
ghost use Rattle.protocol.specs.Memory.{server_of, SameMemory};
ghost use Rattle.protocol.specs.Effect.{effect_of, longest_output, with_output, without_output};
ghost use Rattle.judge.specs.Decision.{mark_call, verdict_of, Performable, Decides};
ghost use Rattle.effect.specs.Lent.{effected, done_effect, outcome_effect};

use field::{Fault, Refusal};
use judge::{Decision, MarkChange};
use message::REVISION_LENGTH;
use protocol::Memory;
use soundness::SoundTable;
use table::Table;

// What a call that is not refused comes to. Of a refusal the place is not told: nobody looks at it.
#[derive(Clone, Copy, PartialEq, Eq)]
pub enum Outcome {
    Done,
    Ignored,
}

// A message that is not refused, and how many bytes it has.
#[derive(Clone, Copy, PartialEq, Eq)]
pub struct Taken {
    pub outcome: Outcome,
    pub size: usize,
}

// ---- opening and leaving: no entry is looked at

// A connection opens or leaves.
pub fn change_mark(marks: &mut [u8], c: usize, change: MarkChange) -> Result<(), Refusal>
    requires { sound_marks marks.old ≡ true }
    ensures { (table : TableMemory) → sound_table max_entries table ≡ true →
        done_effect result (beside_marks table marks.new)
        ≡ effect_of (call_step max_entries (beside_marks table marks.old) (without_output (mark_call change c))) }
{
    match store::change_mark(marks, c, change) {
        Ok(()) => Ok(()),
        Err(fault) => Err(fault.refusal()),
    }
}

// ---- a client's message

// Stays: no plainer. server::decide is alike: a crate below both would have to know SoundMemory for one line.
fn decide(memory: &Memory, c: usize, m: &[u8]) -> Result<Decision, Fault>
    requires { SoundMemory max_entries (server_of memory.now) }
    ensures { Decides (server_of memory.now).table.count c m.now result
        (judge max_entries (entries_of (server_of memory.now).table) (server_of memory.now).marks (client_message c m.now)) }
{
    let table = SoundTable {
        table: memory.table(),
    };
    judge::judge_client_message(table, memory.marks, c, m)
}

fn done(size: usize) -> Taken
    ensures { result ≡ record { outcome = Outcome.Done; size = size } }
{
    Taken {
        outcome: Outcome::Done,
        size,
    }
}

// A decision on a message m of connection c.
fn apply(memory: &mut Memory, c: usize, m: &[u8], decision: Decision) -> Taken
    requires sound { sound_table max_entries (server_of memory.old).table ≡ true }
    requires marks { connections ≤ length (server_of memory.old).marks }
    requires performable { Performable (server_of memory.old).table.count c m.now (Ok decision) }
    ensures same { SameMemory memory.old memory.new }
    ensures effect { effected (Ok result) (server_of memory.new)
        ≡ effect_of (execute (server_of memory.old) (longest_output max_entries) (verdict_of c m.now (Ok decision))) }
{
    match decision {
        Decision::Ignore(size) => Taken {
            outcome: Outcome::Ignored,
            size,
        },
        Decision::AcceptHello => {
            memory.marks[c] = soundness::GREETED;
            done(REVISION_LENGTH)
        }
        Decision::UnsupportedRevision => {
            memory.marks[c] = soundness::CLOSED;
            done(REVISION_LENGTH)
        }
        Decision::StoreNew(new) => {
            let entry = store::new_entry(new.name(m), new.type_code, new.value(m));
            table::add_entry(memory.heads, memory.bytes, memory.count, entry);
            done(new.size())
        }
        Decision::StoreUpdate(update) => {
            table::store_value(
                memory.heads,
                memory.bytes,
                usize::from(update.id),
                update.number,
                update.value(m),
            );
            done(update.size())
        }
    }
}

// One message of a client.
pub fn receive(memory: &mut Memory, c: usize, m: &[u8]) -> Result<Taken, Refusal>
    requires { SoundMemory max_entries (server_of memory.old) }
    ensures same { SameMemory memory.old memory.new }
    ensures effect { effected result (server_of memory.new)
        ≡ effect_of (call_step max_entries (server_of memory.old)
        (with_output max_entries (client_message c m.now))) }
{
    match decide(memory, c, m) {
        Ok(decision) => Ok(apply(memory, c, m, decision)),
        Err(fault) => Err(fault.refusal()),
    }
}

// ---- local calls

// Local create.
// Stays: no plainer, here and below. No mark is looked at, so the table's parts are lent, and no Memory; an entry's parts are as C lends them.
pub fn create(
    heads: &mut [u16],
    bytes: &mut [u8],
    count: &mut u16,
    name: &[u8],
    type_code: u8,
    value: &[u8],
) -> Result<(), Refusal>
    requires { sound_table max_entries (lent heads.old bytes.old count.old) ≡ true }
    ensures { (marks : List ℕ) → sound_marks marks ≡ true →
        done_effect result (beside_marks (lent heads.new bytes.new count.new) marks)
        ≡ effect_of (call_step max_entries (beside_marks (lent heads.old bytes.old count.old) marks)
        (with_output max_entries (local_create name.now type_code value.now))) }
{
    let table = SoundTable {
        table: Table {
            heads: &*heads,
            bytes: &*bytes,
            count: *count,
        },
    };
    match judge::judge_create(table, name, type_code, value) {
        Ok(()) => {
            let entry = store::new_entry(name, type_code, value);
            table::add_entry(heads, bytes, count, entry);
            Ok(())
        }
        Err(fault) => Err(fault.refusal()),
    }
}

// Local write.
pub fn write(
    heads: &mut [u16],
    bytes: &mut [u8],
    count: u16,
    id: u16,
    value: &[u8],
) -> Result<Outcome, Refusal>
    requires { sound_table max_entries (lent heads.old bytes.old count) ≡ true }
    ensures { (marks : List ℕ) → sound_marks marks ≡ true →
        outcome_effect result (beside_marks (lent heads.new bytes.new count) marks)
        ≡ effect_of (call_step max_entries (beside_marks (lent heads.old bytes.old count) marks)
        (with_output max_entries (local_write id value.now))) }
{
    let table = SoundTable {
        table: Table {
            heads: &*heads,
            bytes: &*bytes,
            count,
        },
    };
    match judge::judge_write(table, id, value) {
        Ok(Some(number)) => {
            table::store_value(heads, bytes, usize::from(id), number, value);
            Ok(Outcome::Done)
        }
        Ok(None) => Ok(Outcome::Ignored),
        Err(fault) => Err(fault.refusal()),
    }
}
