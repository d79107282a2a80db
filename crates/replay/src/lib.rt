// A line record run again: the fresh start, then record after record.
#![tactic(auto)]

ghost use Rattle.std.specs.Prelude.{◌≡◌, ◌≤◌, ◌^◌, ◌<◌, length, true, IfOk};
ghost use Rattle.field.specs.Answer.{unsound};
ghost use Rattle.table.specs.Table.{max_entries};
ghost use Rattle.protocol.specs.Lent.{lent_server};
ghost use Rattle.protocol.specs.Kept.{SoundMemory};
ghost use Rattle.protocol.specs.Memory.{server_of, SameMemory};
ghost use Rattle.line_record.specs.Record.{data_size, next_record, max_arrived};
ghost use Rattle.line_record.specs.Replay.{advance, run, replay, result_of};
ghost use Rattle.slots.specs.Slots.{state_of};
ghost use Rattle.slots.specs.Lent.{Fits};
ghost use Rattle.replay.specs.Kinds.{IsKindOf, kind_data};
ghost use Rattle.replay.specs.Lent.{size_of, next_of, ProgressIs, replayed};

use answer::Answered;
use field::{DONE, Refusal};
use gather::Slot;
use protocol::Memory;
use slots::{RECORDED_CONNECTIONS, Record};

// ---- what is recorded

// A data record has as many bytes as its kind is above this.
const DATA_KIND_BASE: u8 = 63;

// A kind byte and a connection byte.
pub const RECORD_HEAD_SIZE: usize = 2;

// Kinds of a record: a connection opens, it leaves, or so many bytes came in for it.
#[derive(Clone, Copy, PartialEq, Eq)]
pub enum Kind {
    Opens,
    Leaves,
    Data(usize),
}

impl TryFrom<u8> for Kind {
    type Error = Refusal;

    ghost try_from_gives = { IsKindOf };

    fn try_from(byte: u8) -> Result<Kind, Refusal> {
        match byte {
            1 => Ok(Kind::Opens),
            2 => Ok(Kind::Leaves),
            64..=127 => Ok(Kind::Data(usize::from(byte - DATA_KIND_BASE))),
            _ => Err(Refusal::UnknownKind),
        }
    }
}

impl Kind {
    fn data_size(self) -> usize
        ensures { result ≡ kind_data self }
    {
        match self {
            Kind::Data(size) => size,
            Kind::Opens | Kind::Leaves => 0,
        }
    }
}

// How many bytes stand behind the connection byte.
pub fn data_size(kind: u8) -> usize
    ensures size { result ≡ data_size kind }
    ensures few { result ≤ max_arrived }
{
    match Kind::try_from(kind) {
        Ok(known) => known.data_size(),
        Err(_) => 0,
    }
}

// How many bytes a record has.
fn size_of(next: Record) -> usize
    requires { size_of next < 2 ^ 64 }
    ensures { result ≡ size_of next.entry }
{
    match next {
        Record::Opens(_) | Record::Leaves(_) => RECORD_HEAD_SIZE,
        Record::Came(_, arrived) => RECORD_HEAD_SIZE + arrived.len(),
    }
}

// The record at the start of some bytes.
fn read_record<'a>(s: &'a [u8]) -> Result<Record<'a>, Refusal>
    ensures next { next_of result ≡ next_record s.now }
    ensures fits { IfOk result (λ next. Fits next × (size_of next ≤ length s.now)) }
{
    let Ok(byte) = field::read_u8(s, 0) else {
        return Err(Refusal::Incomplete);
    };
    let kind = Kind::try_from(byte)?;
    let Ok(connection) = field::read_u8(s, 1) else {
        return Err(Refusal::Incomplete);
    };
    let c = usize::from(connection);
    match kind {
        Kind::Opens => Ok(Record::Opens(c)),
        Kind::Leaves => Ok(Record::Leaves(c)),
        Kind::Data(size) => {
            if c > slots::PLANT {
                return Err(Refusal::UnknownKind);
            }
            if s.len() - RECORD_HEAD_SIZE < size {
                return Err(Refusal::Incomplete);
            }
            Ok(Record::Came(c, &s[RECORD_HEAD_SIZE..][..size]))
        }
    }
}

// ---- one record

// The record at the start of some bytes is done, or refused. How many bytes it has: what stands behind it is not looked at.
pub fn advance(
    memory: &mut Memory,
    slots: &mut [Slot; RECORDED_CONNECTIONS],
    s: &[u8],
) -> Result<usize, Refusal>
    requires { SoundMemory max_entries (server_of memory.old) }
    ensures same { SameMemory memory.old memory.new }
    ensures answer { ProgressIs result
        (advance max_entries (state_of (server_of memory.old) slots.old) s.now)
        (state_of (server_of memory.new) slots.new) }
    ensures sound { SoundMemory max_entries (server_of memory.new) }
    ensures within { IfOk result (λ size. size ≤ length s.now) }
{
    let next = read_record(s)?;
    slots::step(memory, slots, next);
    Ok(size_of(next))
}

// ---- the run

// What a run answers: its number, and how many records were done.
#[repr(C)]
#[derive(Drop)]
pub struct Replayed {
    // Stays: the number of a run that is done, or of a refusal; C's struct has it as a byte.
    pub number: u8,
    pub records: usize,
}

impl Answered for Replayed {
    ghost on_unsound = { record { number = unsound; records = 0 } };

    ghost changes_heads = { λ r. true };

    fn on_unsound() -> Replayed {
        Replayed {
            number: u8::from(Refusal::Unsound),
            records: 0,
        }
    }

    // Records before a refused one may have changed heads too.
    fn changes_heads(&self) -> bool {
        true
    }
}

// Record after record.
fn run(memory: &mut Memory, slots: &mut [Slot; RECORDED_CONNECTIONS], recorded: &[u8]) -> Replayed
    requires { SoundMemory max_entries (server_of memory.old) }
    ensures same { SameMemory memory.old memory.new }
    ensures ran { replayed result (server_of memory.new)
        ≡ result_of (run (length recorded.now) max_entries (state_of (server_of memory.old) slots.old) recorded.now) }
{
    let mut at = 0;
    let mut records = 0;
    // Stays: no plainer. Records have sizes of their own.
    while at < recorded.len() {
        match advance(memory, slots, &recorded[at..]) {
            Ok(size) => {
                at += size;
                records += 1;
            }
            Err(refusal) => {
                return Replayed {
                    number: u8::from(refusal),
                    records,
                };
            }
        }
    }
    Replayed {
        number: DONE,
        records,
    }
}

// A line record run again, on lent memory with any contents.
pub fn replay(
    heads: &mut [u16],
    bytes: &mut [u8],
    count: &mut u16,
    marks: &mut [u8],
    recorded: &[u8],
) -> Replayed
    ensures { replayed result (lent_server heads.new bytes.new count.new marks.new)
        ≡ result_of (replay max_entries (lent_server heads.old bytes.old count.old marks.old)
        recorded.now) }
{
    let started = start::fresh(heads, bytes, count, marks);
    if started.number != DONE {
        return Replayed {
            number: started.number,
            records: 0,
        };
    }
    let mut memory = Memory {
        heads,
        bytes,
        count,
        marks,
    };
    let mut slots = [Slot::empty(); RECORDED_CONNECTIONS];
    run(&mut memory, &mut slots, recorded)
}
