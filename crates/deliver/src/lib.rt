// A whole delivery at once: the messages of one connection, judged in order. The table is judged once.
#![tactic(auto)]

ghost use Rattle.std.specs.Prelude.{◌≡◌, ℕ, true, Ok};
ghost use Rattle.field.specs.Answer.{unsound};
ghost use Rattle.table.specs.Table.{max_entries};
ghost use Rattle.protocol.specs.Kept.{SoundMemory};
ghost use Rattle.protocol.specs.Memory.{SameMemory, server_of};
ghost use Rattle.delivery.specs.Delivery.{DeliveryResult, max_messages, demand_ready, deliver_at_most, deliver};
ghost use Rattle.deliver.specs.Lent.{delivered, refused_answer, readiness};

use answer::Answered;
use field::{DONE, Refusal};
use protocol::Memory;

// What a delivery answers: a refusal's number, why it ended, messages and bytes taken, bytes written, and the place in the refused message.
#[repr(C)]
#[derive(Drop)]
pub struct Delivered {
    // Stays: C's struct has the number, and why the delivery ended, as a byte.
    pub number: u8,
    pub ended: u8,
    pub messages: usize,
    pub taken: usize,
    pub written: usize,
    pub place: usize,
}

// Why a delivery ended.
#[derive(Clone, Copy, PartialEq, Eq)]
pub enum Ended {
    AtRefusal = 0,
    InputSpent = 1,
    MaxReached = 2,
}

// The messages of a delivery at most.
pub const MAX_MESSAGES: usize = 64;

// The answer on memory that is unsound or too small: a number alone. All other answers are made of it.
// Stays: no plainer. `as u8`, since From is not for a const.
pub const ON_UNSOUND: Delivered = Delivered {
    number: Refusal::Unsound as u8,
    ended: Ended::AtRefusal as u8,
    messages: 0,
    taken: 0,
    written: 0,
    place: 0,
};

impl Answered for Delivered {
    ghost on_unsound = { refused_answer unsound 0 0 0 0 };

    ghost changes_heads = { λ _. true };

    fn on_unsound() -> Delivered {
        ON_UNSOUND
    }

    // Messages before a refusal may have changed heads too.
    fn changes_heads(&self) -> bool {
        true
    }
}

// The messages of an input, on memory that is known to be sound.
fn deliver_messages(memory: &mut Memory, c: usize, input: &[u8], out: &mut [u8]) -> Delivered
    requires { SoundMemory max_entries (server_of memory.old) }
    ensures same { SameMemory memory.old memory.new }
    ensures done { delivered result (server_of memory.new) out.new
        ≡ deliver_at_most max_messages max_entries (server_of memory.old) c input.now out.old }
{
    // Stays: no plainer. `taken` and `written` are moved by messages of their own size.
    let mut taken = 0;
    let mut written = 0;
    for messages in 0..MAX_MESSAGES {
        if taken == input.len() {
            return Delivered {
                number: DONE,
                ended: Ended::InputSpent as u8,
                messages,
                taken,
                written,
                ..ON_UNSOUND
            };
        }
        let a = heading::receive_with_heading(memory, c, &input[taken..], &mut out[written..]);
        if !answer::goes_on(a.number) {
            return Delivered {
                number: a.number,
                ended: Ended::AtRefusal as u8,
                messages,
                taken,
                written,
                place: a.place,
            };
        }
        taken += a.taken;
        written += a.sent;
    }
    // An input that is spent is named before the 64.
    let ended = if taken == input.len() {
        Ended::InputSpent
    } else {
        Ended::MaxReached
    };
    Delivered {
        number: DONE,
        ended: ended as u8,
        messages: MAX_MESSAGES,
        taken,
        written,
        ..ON_UNSOUND
    }
}

// Whether a delivery of a connection begins: these refusals come first, on an empty input too.
#[tactic(auto, using(soundness::proofs::ReadableLaws::sixteen_marks))]
fn check_ready(memory: &Memory, c: usize) -> Result<(), Refusal>
    ensures answer { (refuse : ℕ → DeliveryResult) (next : DeliveryResult) →
        readiness result refuse next ≡ demand_ready max_entries (server_of memory.now) c refuse next }
    ensures sound { result ≡ Ok tt → SoundMemory max_entries (server_of memory.now) }
{
    if server::sound(memory.table(), memory.marks).is_none() {
        return Err(Refusal::Unsound);
    }
    if c >= soundness::CONNECTIONS {
        return Err(Refusal::ConnectionTooHigh);
    }
    if memory.marks[c] == soundness::CLOSED {
        return Err(Refusal::WrongState);
    }
    Ok(())
}

// Up to 64 messages of a connection.
pub fn deliver(memory: &mut Memory, c: usize, input: &[u8], out: &mut [u8]) -> Delivered
    ensures same { SameMemory memory.old memory.new }
    ensures done { delivered result (server_of memory.new) out.new
        ≡ deliver max_entries (server_of memory.old) c input.now out.old }
{
    match check_ready(memory, c) {
        Err(refusal) => Delivered {
            number: u8::from(refusal),
            ..ON_UNSOUND
        },
        Ok(()) => deliver_messages(memory, c, input, out),
    }
}
