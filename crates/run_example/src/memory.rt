// Memory that is lent to each call: a server's, or that of a client's copy.
use crate::calls::Request;
use answer::Answer;
use judge::MarkChange;
use soundness::{CONNECTIONS, OPEN};
use table::{BYTES_SIZE, HEADS_SIZE, Table};

// A table's memory and the connections' marks. A copy's marks are not looked at before it is asked as a server is.
#[derive(Drop)]
pub struct Memory {
    heads: [u16; HEADS_SIZE],
    bytes: [u8; BYTES_SIZE],
    count: u16,
    marks: [u8; CONNECTIONS],
}

impl Memory {
    // As nothing was ever written to it.
    pub fn stale() -> Memory {
        Memory {
            heads: [0xA5A5; HEADS_SIZE],
            bytes: [0xA5; BYTES_SIZE],
            count: 0xA5A5,
            marks: [0xA5; CONNECTIONS],
        }
    }

    // A copy has no entry at first.
    pub fn copy_fresh(&mut self) {
        start::copy_fresh(&self.heads, &self.bytes, &mut self.count);
    }

    // A copy's message from the server: how many bytes it has, and 0 where it is refused.
    pub fn copy_receive(&mut self, m: &[u8]) -> usize {
        client::copy_receive(&mut self.heads, &mut self.bytes, &mut self.count, m).taken
    }

    // One message of a client.
    fn receive(&mut self, c: usize, m: &[u8], out: &mut [u8]) -> Answer {
        let mut lent = protocol::Memory {
            heads: &mut self.heads,
            bytes: &mut self.bytes,
            count: &mut self.count,
            marks: &mut self.marks,
        };
        server::receive(&mut lent, c, m, out)
    }

    // The answer to a hello, which has every entry.
    pub fn hello<'a>(&mut self, out: &'a mut [u8; hello::LONGEST_HELLO]) -> &'a [u8] {
        self.marks = [OPEN; CONNECTIONS];
        let a = self.receive(0, b"\x01\x02\x00", out);
        script::before(out, a.sent)
    }

    fn change_mark(&mut self, c: usize, change: MarkChange) -> Answer {
        let table = Table {
            heads: &self.heads,
            bytes: &self.bytes,
            count: self.count,
        };
        server::change_mark(table, &mut self.marks, c, change)
    }

    // The name's length, name, type and value.
    fn create(&mut self, s: &[u8], out: &mut [u8]) -> Answer {
        let n = usize::from(script::octet(s, 0));
        server::create(
            &mut self.heads,
            &mut self.bytes,
            &mut self.count,
            &self.marks,
            script::before(script::after(s, 1), n),
            script::octet(s, n + 1),
            script::after(s, n + 2),
            out,
        )
    }

    fn write(&mut self, id: u16, value: &[u8], out: &mut [u8]) -> Answer {
        server::write(
            &mut self.heads,
            &mut self.bytes,
            self.count,
            &self.marks,
            id,
            value,
            out,
        )
    }

    // A call by its letter, its connection or ID, and the bytes that it takes.
    pub fn call(&mut self, request: Request<'_>, out: &mut [u8]) -> Answer {
        let c = usize::from(request.c);
        let s = request.bytes;
        match request.letter {
            b'f' => start::fresh(&self.heads, &self.bytes, &mut self.count, &mut self.marks),
            b'm' => self.receive(c, s, out),
            b'c' => self.create(s, out),
            b'w' => self.write(u16::from(request.c), s, out),
            b'o' => self.change_mark(c, MarkChange::Open),
            b'l' => self.change_mark(c, MarkChange::Close),
            _ => answer::ignored(0),
        }
    }
}
