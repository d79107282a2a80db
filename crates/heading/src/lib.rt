// One message of a delivery: what it sends stands behind a heading.
#![tactic(auto)]

ghost use Rattle.std.specs.Prelude.{◌≡◌, ◌^◌, ◌<◌, ◌≤◌, length};
ghost use Rattle.field.specs.Octets.{overwrite_at};
ghost use Rattle.table.specs.Table.{max_entries};
ghost use Rattle.protocol.specs.Kept.{SoundMemory};
ghost use Rattle.protocol.specs.Lent.{answered};
ghost use Rattle.protocol.specs.Memory.{SameMemory, server_of};
ghost use Rattle.delivery.specs.Delivery.{heading_size, heading_bytes, message_with_place};

use answer::Answer;
use field::DONE;
use protocol::Memory;

// Recipients in two bytes, and a length in four.
const HEADING_SIZE: usize = 6;

#[tactic(auto, using(crate::proofs::HeadingLaws::heading_stored))]
fn put_heading(out: &mut [u8], recipients: u16, size: usize)
    requires { (heading_size ≤ length out.old) × (size < 2 ^ 32) }
    ensures { out.new ≡ overwrite_at out.old 0 (heading_bytes recipients size) }
{
    field::put_u16(out, 0, recipients);
    field::copy_into(out, 2, &(size as u32).to_be_bytes());
}

// The message that stands first, on memory that is known to be sound. What it sends stands behind a heading; `sent` counts both.
pub fn receive_with_heading(memory: &mut Memory, c: usize, input: &[u8], out: &mut [u8]) -> Answer
    requires { SoundMemory max_entries (server_of memory.old) }
    ensures same { SameMemory memory.old memory.new }
    ensures step { answered result (server_of memory.new) out.new
        ≡ message_with_place max_entries (server_of memory.old) c input.now out.old }
{
    // Where a heading does not fit, nothing of the output is left.
    let from = HEADING_SIZE.min(out.len());
    let a = server::receive_when_sound(memory, c, input, &mut out[from..]);
    if a.number != DONE {
        return a;
    }
    put_heading(out, a.recipients, a.sent);
    Answer {
        sent: HEADING_SIZE + a.sent,
        ..a
    }
}
