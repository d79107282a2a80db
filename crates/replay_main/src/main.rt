// Reads a line record from standard input, runs it again, and writes the table at its end to standard output. It may have any length:
// it is read and done one record at a time.
#![tactic(auto)]

ghost use Rattle.std.specs.Prelude.{◌≡◌, ◌+◌, ◌*◌, ◌≤◌, length, IfOk, OnErr};
ghost use Rattle.field.specs.Answer.{done};
ghost use Rattle.table.specs.Table.{max_entries, head_size, entry_size};
ghost use Rattle.soundness.specs.Sound.{connections};
ghost use Rattle.protocol.specs.Kept.{SoundMemory};
ghost use Rattle.protocol.specs.Lent.{lent_server};
ghost use Rattle.protocol.specs.Memory.{server_of, SameMemory};
ghost use Rattle.line_record.specs.Record.{record_head_size, max_arrived};
ghost use Rattle.slots.specs.Slots.{state_of};
ghost use Rattle.replay_main.specs.Shown.{Runs, Shows};

use field::DONE;
use gather::Slot;
use protocol::Memory;
use replay::RECORD_HEAD_SIZE;
use slots::RECORDED_CONNECTIONS;
use std::io;
use std::io::Read;

// The longest record.
const PIECE_SIZE: usize = RECORD_HEAD_SIZE + gather::MAX_ARRIVED;

// Room for 64 lines, each with at most 258 bytes of a name in quotes, 2,015 of a value and 19 of the rest, and for a refusal's line.
const TEXT_SIZE: usize = 146700;

// Reads one record, or what is there of it, and returns how many bytes.
fn read_piece(input: &mut impl Read, piece: &mut [u8; PIECE_SIZE]) -> io::Result<usize>
    ensures { IfOk result (λ n. n ≤ record_head_size + max_arrived) }
{
    let n = script::read_full(input, &mut piece[..RECORD_HEAD_SIZE])?;
    if n < RECORD_HEAD_SIZE {
        return Ok(n);
    }
    let end = RECORD_HEAD_SIZE + replay::data_size(piece[0]);
    let data = script::read_full(input, &mut piece[RECORD_HEAD_SIZE..end])?;
    Ok(RECORD_HEAD_SIZE + data)
}

// Does record after record, until the input ends or one is refused, and returns its number. Every loop has to end: this one would
// after 2^64 records. The only error is that of a read: the records before it are done.
// Stays: no plainer. A refusal is a number in Ok, since the text ends with it, and the error is a read's.
fn run_input(
    input: &mut impl Read,
    memory: &mut Memory,
    slots: &mut [Slot; RECORDED_CONNECTIONS],
) -> io::Result<u8>
    requires { SoundMemory max_entries (server_of memory.old) }
    ensures same { SameMemory memory.old memory.new }
    ensures runs { IfOk result (λ number.
        Runs (state_of (server_of memory.old) slots.old) number (state_of (server_of memory.new) slots.new)) }
    ensures sound { SoundMemory max_entries (server_of memory.new) }
    ensures unread { OnErr result
        (Runs (state_of (server_of memory.old) slots.old) done (state_of (server_of memory.new) slots.new)) }
{
    let mut piece = [0u8; PIECE_SIZE];
    for _ in 0..u64::MAX {
        let n = read_piece(input, &mut piece)?;
        if n == 0 {
            break;
        }
        if let Err(refusal) = replay::advance(memory, slots, &piece[..n]) {
            return Ok(u8::from(refusal));
        }
    }
    Ok(DONE)
}

// The fresh start, the records, and the text. The only error is that of a read, and leaves the text as it was.
// Stays: no plainer. The parts are lent, and no Memory, since the fresh start only measures heads and bytes.
fn put_replay(
    input: &mut impl Read,
    heads: &mut [u16],
    bytes: &mut [u8],
    marks: &mut [u8],
    text: &mut [u8],
) -> io::Result<usize>
    requires table { (length heads.old ≡ head_size * max_entries) × (length bytes.old ≡ entry_size * max_entries) }
    requires marks { length marks.old ≡ connections }
    ensures shows { IfOk result (λ end. Shows (lent_server heads.old bytes.old 0 marks.old) text.old text.new end) }
    ensures unread { OnErr result (text.new ≡ text.old) }
{
    let mut count: u16 = 0;
    start::fresh(heads, bytes, &mut count, marks);
    let mut memory = Memory {
        heads,
        bytes,
        count: &mut count,
        marks,
    };
    let mut slots = [Slot::empty(); RECORDED_CONNECTIONS];
    let number = run_input(input, &mut memory, &mut slots)?;
    Ok(table_text::put_table(memory.table(), number, text))
}

fn main(rt: HostRuntime) -> io::Result<()> {
    let mut input = rt.stdin();
    let mut heads = [0u16; table::HEADS_SIZE];
    let mut bytes = [0u8; table::BYTES_SIZE];
    let mut marks = [0u8; soundness::CONNECTIONS];
    let mut text = [0u8; TEXT_SIZE];
    let end = put_replay(&mut input, &mut heads, &mut bytes, &mut marks, &mut text)?;
    rt.write_all(&text[..end])
}
