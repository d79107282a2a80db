// A line's call, and its answer.
use answer::Answer;
use message::Kind;
use std::io;

// So many lines are shown with their whole answer.
const WHOLE: u64 = 104;

// A line's word by its first letter, its connection or ID, the room, and the bytes that the call takes.
// Stays: no plainer. A letter, since an enum would only name each call once more.
#[derive(Clone, Copy)]
pub struct Request<'a> {
    pub letter: u8,
    pub c: u8,
    pub room: usize,
    pub bytes: &'a [u8],
}

impl<'a> Request<'a> {
    // Of a line, and the bytes that it stands for.
    pub fn new(line: &[u8], record: &'a [u8]) -> Request<'a> {
        Request {
            letter: script::octet(line, 0),
            c: script::octet(record, 0),
            room: usize::from(script::number(record, 1)),
            bytes: script::after(record, 3),
        }
    }

    pub fn is_hello(self) -> bool {
        self.letter == b'm' && script::octet(self.bytes, 0) == u8::from(Kind::Hello)
    }
}

// Number, bytes taken, recipients and bytes sent.
fn show_all(rt: &impl Print, a: &Answer) -> io::Result<()> {
    print!(rt;
        ": {} {} {:04x} {}",
        a.number, a.taken, a.recipients, a.sent
    )
}

// The whole answer, or its number alone. A line that begins with no letter is a remark.
pub fn show(rt: &impl Print, s: &[u8], a: &Answer, line: u64) -> io::Result<()> {
    let remark = script::octet(s, 0) < b'a';
    if line < WHOLE {
        script::word(rt, s)?;
        if !remark {
            show_all(rt, a)?;
        }
    }
    if line < WHOLE || remark {
        script::end_line(rt)
    } else {
        print!(rt; " {}", a.number)
    }
}
