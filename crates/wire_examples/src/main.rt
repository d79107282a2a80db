// Both sides of every limit, the UTF-8 cases, the comparisons P1 to P10, messages of all kinds, whole, cut and damaged, and as
// the writer makes them. Each line of standard input is a case, and is printed with its answer; see `script` for its bytes.
#![tactic(auto)]

mod cases;
mod print;
mod writing;

use std::io;

// What stands before the bytes, by the word that the line begins with: allowed: the one ID; cut, message: the type of
// updates; number, passed, text: nothing; value: its type; write: kind, type, room (2), the name's length and the name.
// Stays: no plainer. A letter, since an enum would only name each case once more.
fn case(rt: &impl Print, first: u8, s: &[u8]) -> io::Result<()> {
    match first {
        b'a' => cases::allowed(rt, s),
        b'c' => cases::cuts(rt, script::octet(s, 0), script::after(s, 1)),
        b'm' => cases::message(rt, s),
        b'n' => cases::next(rt, s),
        b'p' => cases::passed(rt, s),
        b't' => cases::text(rt, s),
        b'v' => cases::value(rt, s),
        b'w' => writing::case(rt, s),
        _ => Ok(()),
    }
}

fn line(rt: &impl Print, s: &[u8], bytes: &mut [u8]) -> io::Result<()> {
    script::word(rt, s)?;
    let n = script::decode(s, script::find(s, 0, b' '), 0, bytes);
    case(rt, script::octet(s, 0), &bytes[..n])?;
    script::end_line(rt)
}

fn run(rt: &impl Print, s: &[u8], bytes: &mut [u8]) -> io::Result<()> {
    for ended in s.split_inclusive(|&b| b == b'\n') {
        line(rt, ended.strip_suffix(b"\n").unwrap_or(ended), bytes)?;
    }
    Ok(())
}

fn main(rt: HostRuntime) -> io::Result<()> {
    let mut input = [0u8; 16384];
    let mut bytes = [0u8; 512];
    let n = script::read_full(&mut rt.stdin(), &mut input)?;
    run(&rt, &input[..n], &mut bytes)
}
