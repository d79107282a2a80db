// The server half: each call on a lent table, with its connection marks and an output. A call judges soundness, judges, and performs.
#![tactic(auto)]

ghost use Rattle.std.specs.Prelude.{◌≡◌, ◌&&◌, true, ℕ, List, [], IsSome, IfSome, ◌↔◌};
ghost use Rattle.table.specs.Memory.{memory_of};
ghost use Rattle.table.specs.Table.{lent, entries_of, max_entries};
ghost use Rattle.soundness.specs.Sound.{sound_table, sound_marks};
ghost use Rattle.protocol.specs.Judge.{client_message, judge, local_create, local_write, read_entry};
ghost use Rattle.protocol.specs.Step.{call_step, read_scalar, number_of};
ghost use Rattle.protocol.specs.Kept.{SoundMemory};
ghost use Rattle.protocol.specs.Memory.{SameMemory, server_of};
ghost use Rattle.protocol.specs.Place.{step_with_place};
ghost use Rattle.protocol.specs.Lent.{beside_marks, lent_server, lent_call, answered};
ghost use Rattle.judge.specs.Decision.{mark_call, Decides};

use answer::Answer;
use field::{Fault, Refusal};
use judge::{Decision, MarkChange};
use protocol::Memory;
use scalar::Scalar;
use soundness::SoundTable;
use table::Table;

// The table, where it and the marks are sound. It is put into its callers, which then need no memory for its answer.
#[inline(always)]
pub fn sound<'a>(table: Table<'a>, marks: &[u8]) -> Option<SoundTable<'a>>
    ensures some { IsSome result ↔ ((sound_table max_entries (memory_of table.entry) && sound_marks marks.now) ≡ true) }
    ensures same { IfSome result (λ sound. sound.table ≡ table.entry) }
{
    let sound = SoundTable::new(table)?;
    if !soundness::marks_are_sound(marks) {
        return None;
    }
    Some(sound)
}

// ---- opening and leaving

// A connection opens or leaves. It is put into its callers, as `sound` is.
#[inline(always)]
#[tactic(auto, using(crate::proofs::StepLaws::unsound_mark, crate::proofs::StepLaws::judged_mark, soundness::proofs::ReadableLaws::sixteen_marks))]
pub fn change_mark(table: Table, marks: &mut [u8], c: usize, change: MarkChange) -> Answer
    ensures { answered result (beside_marks (memory_of table.entry) marks.new) []
        ≡ step_with_place max_entries (beside_marks (memory_of table.entry) marks.old)
        (record { call = mark_call change c; output = [] }) }
{
    if sound(table, marks).is_none() {
        return answer::unsound();
    }
    match store::change_mark(marks, c, change) {
        Ok(()) => answer::done(0, 0, 0),
        Err(fault) => answer::refused(fault),
    }
}

// ---- messages, and calls of the plant's own code

// The verdict on a message, on memory that is known to be sound.
// Stays: no plainer. effect::decide is alike: a crate below both would have to know SoundMemory for one line.
#[tactic(auto, using(soundness::proofs::SoundLaws::marks_facts))]
fn decide(memory: &Memory, c: usize, m: &[u8]) -> Result<Decision, Fault>
    requires { SoundMemory max_entries (server_of memory.now) }
    ensures { Decides memory.now.count.now c m.now result
        (judge max_entries (entries_of (server_of memory.now).table) (server_of memory.now).marks (client_message c m.now)) }
{
    let table = SoundTable {
        table: memory.table(),
    };
    judge::judge_client_message(table, memory.marks, c, m)
}

// One message of a client, on memory that is known to be sound.
#[tactic(auto, using(crate::proofs::StepLaws::judged_message, soundness::proofs::SoundLaws::marks_facts))]
pub fn receive_when_sound(memory: &mut Memory, c: usize, m: &[u8], out: &mut [u8]) -> Answer
    requires { SoundMemory max_entries (server_of memory.old) }
    ensures same { SameMemory memory.old memory.new }
    ensures step { answered result (server_of memory.new) out.new
        ≡ step_with_place max_entries (server_of memory.old) (lent_call (client_message c m.now) out.old) }
{
    let decision = decide(memory, c, m);
    perform::perform(memory, c, m, decision, out)
}

// Whether the server's memory is sound.
fn is_sound(memory: &Memory) -> bool
    ensures { result ≡ (sound_table max_entries (server_of memory.now).table && sound_marks (server_of memory.now).marks) }
{
    sound(memory.table(), memory.marks).is_some()
}

// One message of a client.
#[tactic(auto, using(crate::proofs::StepLaws::unsound_message))]
pub fn receive(memory: &mut Memory, c: usize, m: &[u8], out: &mut [u8]) -> Answer
    ensures same { SameMemory memory.old memory.new }
    ensures step { answered result (server_of memory.new) out.new
        ≡ step_with_place max_entries (server_of memory.old) (lent_call (client_message c m.now) out.old) }
{
    if !is_sound(memory) {
        return answer::unsound();
    }
    receive_when_sound(memory, c, m, out)
}

// Local create: an entry of the plant's own code.
// Stays: C interface, here and below. Heads, bytes and count, and name, type and value, are lent each by itself.
#[tactic(auto, using(crate::proofs::StepLaws::unsound_create, crate::proofs::StepLaws::refused_create, crate::proofs::StepLaws::stored_create, soundness::proofs::ReadableLaws::sixteen_marks))]
pub fn create(
    heads: &mut [u16],
    bytes: &mut [u8],
    count: &mut u16,
    marks: &[u8],
    name: &[u8],
    type_code: u8,
    value: &[u8],
    out: &mut [u8],
) -> Answer
    ensures { answered result (lent_server heads.new bytes.new count.new marks.now) out.new
        ≡ step_with_place max_entries (lent_server heads.old bytes.old count.old marks.now)
        (lent_call (local_create name.now type_code value.now) out.old) }
{
    let lent = Table {
        heads: &*heads,
        bytes: &*bytes,
        count: *count,
    };
    let Some(table) = sound(lent, marks) else {
        return answer::unsound();
    };
    if let Err(fault) = judge::judge_create(table, name, type_code, value) {
        return answer::refused(fault);
    }
    let entry = store::new_entry(name, type_code, value);
    let recipients = recipients::greeted_but(marks, None);
    store::store_new(heads, bytes, count, entry, 0, recipients, out)
}

// Local write: another value of an entry.
#[tactic(auto, using(crate::proofs::StepLaws::unsound_write, crate::proofs::StepLaws::refused_write, crate::proofs::StepLaws::same_write, crate::proofs::StepLaws::stored_write, soundness::proofs::ReadableLaws::sixteen_marks, store::proofs::EntryLaws::entry_there))]
pub fn write(
    heads: &mut [u16],
    bytes: &mut [u8],
    count: u16,
    marks: &[u8],
    id: u16,
    value: &[u8],
    out: &mut [u8],
) -> Answer
    ensures { answered result (lent_server heads.new bytes.new count marks.now) out.new
        ≡ step_with_place max_entries (lent_server heads.old bytes.old count marks.now)
        (lent_call (local_write id value.now) out.old) }
{
    let lent = Table {
        heads: &*heads,
        bytes: &*bytes,
        count,
    };
    let Some(table) = sound(lent, marks) else {
        return answer::unsound();
    };
    match judge::judge_write(table, id, value) {
        Err(fault) => answer::refused(fault),
        Ok(None) => answer::ignored(0),
        Ok(Some(number)) => {
            let recipients = recipients::greeted_but(marks, None);
            store::store_update(heads, bytes, id, number, value, 0, recipients, out)
        }
    }
}

// Reading an entry. No marks are lent; the number is the step's, whatever the marks are.
#[tactic(auto, using(crate::proofs::StepLaws::unsound_read, crate::proofs::StepLaws::unknown_read, crate::proofs::StepLaws::held_read, crate::proofs::StepLaws::number_read))]
pub fn read(table: Table, id: u16) -> Result<Scalar, Refusal>
    ensures scalar { result ≡ read_scalar max_entries (memory_of table.entry) id }
    ensures number { (marks : List ℕ) → number_of result
        ≡ (call_step max_entries (beside_marks (memory_of table.entry) marks)
        (record { call = read_entry id; output = [] })).number }
{
    let Some(table) = SoundTable::new(table) else {
        return Err(Refusal::Unsound);
    };
    let i = usize::from(id);
    if i >= table.len() {
        return Err(Refusal::UnknownId);
    }
    let entry = table.entry(i);
    Ok(scalar::scalar_of(entry.type_code, entry.value))
}
