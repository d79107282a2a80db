// The bytes that a connection gathers, and the calls that are made on them.
#![tactic(auto)]

mod slot;

ghost use Rattle.std.specs.Prelude.{◌≡◌, [], ◌-◌, ◌≤◌, length, take, drop};
ghost use Rattle.table.specs.Table.{max_entries};
ghost use Rattle.soundness.specs.Sound.{connections};
ghost use Rattle.protocol.specs.Run.{memory_after_run};
ghost use Rattle.protocol.specs.Kept.{SoundMemory};
ghost use Rattle.protocol.specs.Memory.{server_of, SameMemory};
ghost use Rattle.line_record.specs.Held.{message_effect, is_closed, leaving, keeping, settle, gather};
ghost use Rattle.line_record.specs.Record.{max_arrived};
ghost use Rattle.effect.specs.Lent.{effected};
ghost use Rattle.gather.specs.Slot.{held_in};

use effect::Taken;
use field::Refusal;
use judge::MarkChange;
use protocol::Memory;
pub use slot::Slot;
use soundness::CONNECTIONS;

// A message that is not complete has so many bytes at most.
const LONGEST_INCOMPLETE: usize = message::LONGEST_ASSIGNMENT + 1;

// The bytes that come in with one record at most.
pub const MAX_ARRIVED: usize = 64;

// Room for what a connection holds, and for what comes in.
pub const SLOT_SIZE: usize = LONGEST_INCOMPLETE + MAX_ARRIVED;

impl Slot {
    pub fn empty() -> Slot
        ensures { held_in result ≡ [] }
    {
        Slot {
            bytes: [0; SLOT_SIZE],
            size: 0,
        }
    }
}

// The message that stands first in the bytes of a connection: of a client, or of the plant's own code.
// Stays: what may not change (the records of a line record). Connection 16 stands for the plant's own code there.
fn message(memory: &mut Memory, c: usize, m: &[u8]) -> Result<Taken, Refusal>
    requires { SoundMemory max_entries (server_of memory.old) }
    ensures same { SameMemory memory.old memory.new }
    ensures effect { effected result (server_of memory.new) ≡ message_effect max_entries (server_of memory.old) c m.now }
{
    if c < CONNECTIONS {
        return effect::receive(memory, c, m);
    }
    plant::receive_local(memory.heads, memory.bytes, memory.count, m)
}

// Whether a connection from 0 to 15 is closed.
fn is_closed(memory: &Memory, c: usize) -> bool
    requires { connections ≤ length (server_of memory.now).marks }
    ensures { result ≡ is_closed (server_of memory.now).marks c }
{
    c < CONNECTIONS && memory.marks[c] == soundness::CLOSED
}

// A refused message makes a connection from 0 to 15 leave.
fn leave_after(memory: &mut Memory, c: usize)
    requires { SoundMemory max_entries (server_of memory.old) }
    ensures same { SameMemory memory.old memory.new }
    ensures left { server_of memory.new ≡ memory_after_run max_entries (server_of memory.old) (leaving c) }
{
    if c < CONNECTIONS {
        let _ = effect::change_mark(memory.marks, c, MarkChange::Close);
    }
}

// Makes the calls on a connection's bytes, and returns where those begin that it still holds.
fn settle(memory: &mut Memory, c: usize, held: &[u8]) -> usize
    requires { SoundMemory max_entries (server_of memory.old) }
    ensures same { SameMemory memory.old memory.new }
    ensures kept { keeping (server_of memory.new) (drop result held.now)
        ≡ (settle (length held.now) max_entries (server_of memory.old) c held.now).kept }
    ensures within { result ≤ length held.now }
{
    let mut at = 0;
    // Stays: no plainer. Messages have sizes of their own, and what is cut is held.
    while at < held.len() {
        match message(memory, c, &held[at..]) {
            Ok(taken) => {
                if is_closed(memory, c) {
                    return held.len();
                }
                at += taken.size;
            }
            Err(refusal) => match refusal {
                Refusal::Incomplete => return at,
                _ => {
                    leave_after(memory, c);
                    return held.len();
                }
            },
        }
    }
    at
}

// Moves the bytes from a place on to the start. Most often nothing was taken, and they are there.
#[tactic(auto, using(crate::proofs::GatherLaws::moved_down))]
fn move_down(bytes: &mut [u8; SLOT_SIZE], from: usize, end: usize)
    requires { (from ≤ end) × (end ≤ length bytes.old) }
    ensures moved { take (end - from) bytes.new ≡ take (end - from) (drop from bytes.old) }
    ensures size { length bytes.new ≡ length bytes.old }
{
    if from > 0 {
        bytes.copy_within(from..end, 0);
    }
}

// Bytes that came in for a connection, behind those that its slot holds.
pub fn gather(memory: &mut Memory, c: usize, slot: &mut Slot, arrived: &[u8])
    requires sound { SoundMemory max_entries (server_of memory.old) }
    requires few { length arrived.now ≤ max_arrived }
    ensures same { SameMemory memory.old memory.new }
    ensures kept { keeping (server_of memory.new) (held_in slot.new)
        ≡ (gather max_entries (server_of memory.old) c (held_in slot.old) arrived.now).kept }
{
    if is_closed(memory, c) {
        return;
    }
    let end = slot.size + arrived.len();
    field::copy_into(&mut slot.bytes, slot.size, arrived);
    let at = settle(memory, c, &slot.bytes[..end]);
    move_down(&mut slot.bytes, at, end);
    slot.size = end - at;
}
