// A run of calls on stale memory. Each line of standard input is a call, and is printed with its answer; see `script` for its
// bytes. The run is played for each client in turn: its copy is made of what is sent to it, and compared with the server's table.
#![tactic(auto)]

mod calls;
mod copies;
mod memory;

use answer::Answer;
use calls::Request;
use memory::Memory;
use std::io;
use std::ops::Range;

// So many lines in all.
const LINES: u64 = 765;

const OUTPUT_SIZE: usize = 65536;

// The lines of a script, and behind the last one those from the first `=` on, again and again.
#[derive(Drop)]
struct Lines<'a> {
    rest: &'a [u8],
    again: &'a [u8],
}

impl<'a> Lines<'a> {
    fn new(s: &'a [u8]) -> Lines<'a> {
        Lines {
            rest: s,
            again: &s[script::find(s, 0, b'=')..],
        }
    }

    fn take_line(&mut self) -> &'a [u8] {
        let (line, behind) = self.rest.split_at(script::find(self.rest, 0, b'\n'));
        self.rest = match behind {
            [_, rest @ ..] if !rest.is_empty() => rest,
            _ => self.again,
        };
        line
    }
}

// A run for one client, by its bit among the recipients.
#[derive(Drop)]
struct Run {
    server: Memory,
    output: [u8; OUTPUT_SIZE],
    // where in it stands what was sent to the client since its last hello
    kept: Range<usize>,
    bit: u16,
}

impl Run {
    // What is sent to another client is not kept, and the answer to a hello begins anew.
    fn keep(&mut self, start: usize, a: &Answer, hello: bool) {
        if a.recipients & self.bit == 0 {
            return;
        }
        if hello {
            self.kept.start = start;
        }
        self.kept.end = start.wrapping_add(a.sent);
    }

    // A call is lent so many bytes of the output, behind what is kept.
    fn line(&mut self, rt: &impl Print, s: &[u8], n: u64) -> io::Result<()> {
        let mut record = [0u8; 512];
        let end = script::decode(s, script::find(s, 0, b' '), n, &mut record);
        let request = Request::new(s, &record[..end]);
        let start = self.kept.end.min(OUTPUT_SIZE);
        let end = start + request.room.min(OUTPUT_SIZE - start);
        let a = self.server.call(request, &mut self.output[start..end]);
        if self.bit == 1 {
            calls::show(rt, s, &a, n)?;
        }
        self.keep(start, &a, request.is_hello());
        Ok(())
    }

    fn play(&mut self, rt: &impl Print, s: &[u8]) -> io::Result<()> {
        let mut lines = Lines::new(s);
        for n in 0..LINES {
            self.line(rt, lines.take_line(), n)?;
        }
        Ok(())
    }

    fn sent(&self) -> &[u8] {
        script::after(script::before(&self.output, self.kept.end), self.kept.start)
    }
}

// The output and both memories are made here and lent from here on: handed on by value, each would stand on the stack again.
fn run_for(rt: &impl Print, s: &[u8], client: usize, bit: u16) -> io::Result<()> {
    let mut run = Run {
        server: Memory::stale(),
        output: [0xA5; OUTPUT_SIZE],
        kept: 0..0,
        bit,
    };
    run.play(rt, s)?;
    let mut copy = Memory::stale();
    copies::receive_all(rt, &mut copy, run.sent())?;
    copies::compare(rt, client, &mut run.server, &mut copy)
}

fn main(rt: HostRuntime) -> io::Result<()> {
    let mut input = [0u8; 16384];
    let n = script::read_full(&mut rt.stdin(), &mut input)?;
    for (client, bit) in [1, 2, 4, 8].into_iter().enumerate() {
        run_for(&rt, &input[..n], client, bit)?;
    }
    Ok(())
}
