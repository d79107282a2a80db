// What each call comes to and does, and what a run of calls is: definitions in specs/, laws about them in proofs/. Here is the memory
// that calls are lent.
#![tactic(auto)]

ghost use Rattle.std.specs.Prelude.{◌≡◌};
ghost use Rattle.table.specs.Memory.{memory_of};
ghost use Rattle.protocol.specs.Memory.{server_of};

use table::Table;

// The server's memory: its table, and the connections' marks. What is lent may be of any length.
// Stays: C interface. `SoundMemory` is asked for and `SameMemory` promised call by call: an invariant would refuse memory that C may lend.
#[derive(Drop)]
pub struct Memory<'a> {
    pub heads: &'a mut [u16],
    pub bytes: &'a mut [u8],
    pub count: &'a mut u16,
    pub marks: &'a mut [u8],
}

impl<'a> Memory<'a> {
    // The table, to be read.
    pub fn table(&self) -> Table
        ensures { memory_of result ≡ (server_of self.now).table }
    {
        Table {
            heads: &*self.heads,
            bytes: &*self.bytes,
            count: *self.count,
        }
    }
}
