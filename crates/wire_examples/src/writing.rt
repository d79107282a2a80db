// A case of the message writer: what is sent is read back, and the bytes past it must be as lent.
use crate::print;
use answer::Answer;
use std::io;
use writer::MessageFields;

// What every byte of a lent output is.
const LENT: u8 = 0xA5;

// So many bytes of a message are shown.
const SHOWN: usize = 20;

const REVISION: u16 = 0x0200;

const ID: u16 = 0x0102;

const NUMBER: u16 = 0x0304;

fn hex(rt: &impl Print, s: &[u8]) -> io::Result<()> {
    for b in s {
        print!(rt; "{b:02x}")?;
    }
    Ok(())
}

fn show(rt: &impl Print, out: &[u8], sent: usize, update_type: u8) -> io::Result<()> {
    let m = script::before(out, sent);
    if !m.is_empty() {
        script::word(rt, b" = ")?;
        hex(rt, script::before(m, SHOWN))?;
        print::message(rt, message::read_message(m, update_type))?;
    }
    if script::after(out, sent).iter().any(|&b| b != LENT) {
        script::word(rt, b" and more")?;
    }
    Ok(())
}

// Kind, type, room (2), the name's length, name and value.
fn write(s: &[u8], out: &mut [u8]) -> Answer {
    let room = usize::from(script::number(s, 2)).min(out.len());
    let name_length = usize::from(script::octet(s, 4));
    let lent = script::after(s, 5);
    let fields = MessageFields {
        kind: script::octet(s, 0),
        revision: REVISION,
        name: script::before(lent, name_length),
        type_code: script::octet(s, 1),
        id: ID,
        number: NUMBER,
        value: script::after(lent, name_length),
    };
    writer::write_message(fields, &mut out[..room])
}

pub fn case(rt: &impl Print, s: &[u8]) -> io::Result<()> {
    let mut out = [LENT; 400];
    let a = write(s, &mut out);
    if a.number != field::DONE {
        print::refused(rt, a.number, a.place)?;
    }
    show(rt, &out, a.sent, script::octet(s, 1))
}
