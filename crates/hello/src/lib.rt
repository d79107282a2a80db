// The answer to a hello.
#![tactic(auto)]

ghost use Rattle.std.specs.Prelude.{◌≡◌, ◌+◌, ◌*◌, ◌≤◌, ◌<◌, length};
ghost use Rattle.field.specs.Octets.{overwrite_at};
ghost use Rattle.message.specs.Layout.{assignment_bytes};
ghost use Rattle.table.specs.Memory.{memory_of};
ghost use Rattle.table.specs.Table.{entry_of, entries_of, Readable};
ghost use Rattle.hello.specs.Hello.{longest_hello, hello_answer};

use message::{ASSIGNMENT_FIXED, KIND_SIZE, Kind, LONGEST_ASSIGNMENT};
use table::Table;

// How many bytes the answer to a hello has at most.
pub const LONGEST_HELLO: usize = LONGEST_ASSIGNMENT * table::MAX_ENTRIES + KIND_SIZE;

// How many bytes the answer to a hello has.
pub fn hello_length(table: Table) -> usize
    requires { Readable table.count table.heads.now table.bytes.now }
    ensures length { result ≡ length (hello_answer 0 (entries_of (memory_of table.entry))) }
    ensures bound { result ≤ longest_hello table.entry.count }
{
    let mut sum = KIND_SIZE;
    for i in 0..table.len() {
        sum += table.name_length_of(i) + table.value_length_of(i) + ASSIGNMENT_FIXED;
    }
    sum
}

// Writes the assignment of an entry of the table at the start of out, and returns its length.
fn write_entry(table: Table, id: u16, out: &mut [u8]) -> usize
    requires entry { Readable (id + 1) table.heads.now table.bytes.now }
    requires room { length (assignment_bytes id (entry_of (memory_of table) id)) ≤ length out.old }
    ensures length { result ≡ length (assignment_bytes id (entry_of (memory_of table.entry) id)) }
    ensures output { out.new ≡ overwrite_at out.old 0 (assignment_bytes id (entry_of (memory_of table.entry) id)) }
{
    encoder::write_assignment(out, id, table.entry(usize::from(id)))
}

// Writes the answer at the start of out, each message into the rest of the output, and returns its length.
pub fn write_hello(table: Table, out: &mut [u8]) -> usize
    requires entries { Readable table.count table.heads.now table.bytes.now }
    requires room { length (hello_answer 0 (entries_of (memory_of table))) ≤ length out.old }
    ensures length { result ≡ length (hello_answer 0 (entries_of (memory_of table.entry))) }
    ensures output { out.new ≡ overwrite_at out.old 0 (hello_answer 0 (entries_of (memory_of table.entry))) }
{
    let mut end = 0;
    // Stays: the end is moved by hand, since messages have sizes of their own.
    for id in 0..table.count {
        end += write_entry(table, id, &mut out[end..]);
    }
    end + encoder::write_kind(&mut out[end..], u8::from(Kind::HelloComplete))
}
