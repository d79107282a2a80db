// The listing of a stream: one line a message, as text in a lent buffer.
#![tactic(auto)]

ghost use Rattle.std.specs.Prelude.{◌≡◌, ◌≤◌, length};
ghost use Rattle.protocol.specs.Memory.{SameMemory, server_of};
ghost use Rattle.digits.specs.Put.{Put, Puts};
ghost use Rattle.listing.specs.Listing.{line_text, end_text, messages_text, listing_start, listing_on, listing_text};

use answer::Answer;
use digits::Text;
use judge::MarkChange;
use protocol::Memory;
use table::Table;

// At most so many bytes of a stream are read.
pub const STREAM_SIZE: usize = 4096;

#[tactic(auto, using(digits::proofs::PutLaws::putting), unfolding(crate::specs::Listing::line_text))]
fn put_line(text: &mut Text, offset: usize, a: &Answer)
    ensures { Puts text.old text.new (line_text offset a.now.taken a.now.number a.now.recipients a.now.sent) }
{
    text.decimal(offset);
    text.byte(b' ');
    text.decimal(a.taken);
    text.byte(b' ');
    text.decimal(usize::from(a.number));
    text.byte(b' ');
    text.hex(a.recipients);
    text.byte(b' ');
    text.decimal(a.sent);
    text.byte(b'\n');
}

#[tactic(auto, using(digits::proofs::PutLaws::putting), unfolding(crate::specs::Listing::end_text))]
fn put_end(text: &mut Text, taken: usize, count: u16)
    ensures { Puts text.old text.new (end_text taken count) }
{
    text.bytes(b"end ");
    text.decimal(taken);
    text.bytes(b" entries ");
    text.decimal(usize::from(count));
    text.byte(b'\n');
}

// A line for each message of connection 0's stream, and the end line.
#[tactic(auto, using(crate::proofs::MessagesLaws::messages, digits::proofs::PutLaws::putting))]
fn put_messages(memory: &mut Memory, out: &mut [u8], stream: &[u8], text: &mut Text)
    requires { text.old.end ≤ length text.old.bytes.now }
    ensures { Puts text.old text.new
        (messages_text (length stream.now) 0 (server_of memory.old) out.old stream.now) }
{
    let mut left = stream;
    let mut offset = 0;
    // Stays: no plainer. Messages have sizes of their own.
    while !left.is_empty() {
        let a = server::receive(memory, 0, left, out);
        put_line(text, offset, &a);
        if a.taken == 0 {
            break;
        }
        offset += a.taken;
        left = reader::rest(left, a.taken);
    }
    put_end(text, offset, *memory.count);
}

// A fresh table, with connection 0 open.
#[tactic(auto, unfolding(crate::specs::Listing::listing_start))]
fn start_listing(memory: &mut Memory)
    ensures same { SameMemory memory.old memory.new }
    ensures start { server_of memory.new ≡ listing_start (server_of memory.old) }
{
    let heads = &mut *memory.heads;
    let bytes = &mut *memory.bytes;
    start::fresh(heads, bytes, memory.count, memory.marks);
    let count = *memory.count;
    let table = Table {
        heads,
        bytes,
        count,
    };
    server::change_mark(table, memory.marks, 0, MarkChange::Open);
}

// The whole listing, on lent memory.
#[tactic(auto, using(crate::proofs::MessagesLaws::stream_part, digits::proofs::PutLaws::putting), unfolding(crate::specs::Listing::head_text, crate::specs::Listing::listing_on))]
fn list_on(memory: &mut Memory, out: &mut [u8], input: &[u8], text: &mut Text)
    ensures { Puts text.old text.new (listing_on (server_of memory.old) out.old input.now) }
{
    start_listing(memory);
    text.bytes(b"offset taken answer to sent\n");
    let stream = &input[..input.len().min(STREAM_SIZE)];
    put_messages(memory, out, stream, text);
}

// Puts the listing of the stream at the start of a buffer, as far as there is room, and returns where it ends.
#[tactic(auto, unfolding(crate::specs::Listing::listing_text, crate::specs::Listing::listing_memory, crate::specs::Listing::listing_output, digits::specs::Put::with_text))]
pub fn write_listing(input: &[u8], text: &mut [u8]) -> usize
    ensures { Put text.old 0 (listing_text input.now) text.new result }
{
    let mut memory = Memory {
        heads: &mut [0; table::HEADS_SIZE],
        bytes: &mut [0; table::BYTES_SIZE],
        count: &mut 0,
        marks: &mut [0; soundness::CONNECTIONS],
    };
    let mut out = [0; hello::LONGEST_HELLO];
    let mut text = Text {
        bytes: text,
        end: 0,
    };
    list_on(&mut memory, &mut out, input, &mut text);
    text.end
}
