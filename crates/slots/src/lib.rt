// What the connections hold, a slot for each, and one record of a line record on it.
#![tactic(auto)]

ghost use Rattle.std.specs.Prelude.{◌≡◌};
ghost use Rattle.table.specs.Table.{max_entries};
ghost use Rattle.protocol.specs.Judge.{leave};
ghost use Rattle.protocol.specs.Kept.{SoundMemory};
ghost use Rattle.protocol.specs.Memory.{server_of, SameMemory};
ghost use Rattle.line_record.specs.Record.{leaves};
ghost use Rattle.line_record.specs.Replay.{step_record};
ghost use Rattle.slots.specs.Slots.{state_of};
ghost use Rattle.slots.specs.Lent.{lent_record, Fits};

use gather::Slot;
use judge::MarkChange;
use protocol::Memory;

// The plant's own code.
pub const PLANT: usize = soundness::CONNECTIONS;

// Connections 0 to 15, and the plant's own code: a slot for each.
pub const RECORDED_CONNECTIONS: usize = PLANT + 1;

// A record: a connection opens, it leaves, or bytes came in for it.
#[derive(Clone, Copy)]
pub enum Record<'a> {
    Opens(usize),
    Leaves(usize),
    Came(usize, &'a [u8]),
}

// A connection leaves: what it holds is dropped where that is done.
fn connection_left(memory: &mut Memory, slots: &mut [Slot; RECORDED_CONNECTIONS], c: usize)
    requires { SoundMemory max_entries (server_of memory.old) }
    ensures same { SameMemory memory.old memory.new }
    ensures state { state_of (server_of memory.new) slots.new
        ≡ (step_record max_entries (state_of (server_of memory.old) slots.old) (leaves c)).state }
{
    if effect::change_mark(memory.marks, c, MarkChange::Close).is_ok() {
        slots[c].size = 0;
    }
}

// One record.
pub fn step(memory: &mut Memory, slots: &mut [Slot; RECORDED_CONNECTIONS], next: Record)
    requires sound { SoundMemory max_entries (server_of memory.old) }
    requires fits { Fits next }
    ensures same { SameMemory memory.old memory.new }
    ensures state { state_of (server_of memory.new) slots.new
        ≡ (step_record max_entries (state_of (server_of memory.old) slots.old) (lent_record next.entry)).state }
    ensures sound { SoundMemory max_entries (server_of memory.new) }
{
    match next {
        Record::Opens(c) => {
            let _ = effect::change_mark(memory.marks, c, MarkChange::Open);
        }
        Record::Leaves(c) => connection_left(memory, slots, c),
        Record::Came(c, arrived) => gather::gather(memory, c, &mut slots[c], arrived),
    }
}
