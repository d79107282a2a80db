// Reads a stream of connection 0 from standard input, and writes its listing to standard output.
#![tactic(auto)]

use std::io;

// Room for a line of 25 bytes for each of 4,096 messages, and for the head line and the end line.
const TEXT_SIZE: usize = 102500;

fn main(rt: HostRuntime) -> io::Result<()> {
    // The text first, so that its memory is cleared once.
    let mut text = [0u8; TEXT_SIZE];
    let mut input = [0u8; listing::STREAM_SIZE];
    let n = script::read_full(&mut rt.stdin(), &mut input)?;
    let end = listing::write_listing(&input[..n], &mut text);
    rt.write_all(&text[..end])
}
