// A case of each reader, and of the comparison of numbers.
use crate::print;
use message::{AllowedId, Decoded};
use sequence::SequenceNumber;
use std::io;

pub fn text(rt: &impl Print, s: &[u8]) -> io::Result<()> {
    print::told(rt, utf8::is_utf8(s))
}

// Whether an update with the second number passes a stored one with the first.
pub fn passed(rt: &impl Print, s: &[u8]) -> io::Result<()> {
    let stored = SequenceNumber(script::number(s, 0));
    let received = SequenceNumber(script::number(s, 2));
    print::told(rt, stored.is_passed_by(received))
}

pub fn next(rt: &impl Print, s: &[u8]) -> io::Result<()> {
    let SequenceNumber(next) = SequenceNumber(script::number(s, 0)).next();
    print!(rt; " {next}")
}

pub fn value(rt: &impl Print, s: &[u8]) -> io::Result<()> {
    let type_code = script::octet(s, 0);
    print::value(rt, value::read_lone(type_code, script::after(s, 1)))
}

fn read(rt: &impl Print, update_type: u8, m: &[u8]) -> io::Result<()> {
    print::message(rt, message::read_message(m, update_type))
}

pub fn message(rt: &impl Print, s: &[u8]) -> io::Result<()> {
    read(rt, script::octet(s, 0), script::after(s, 1))
}

// An assignment that may carry one ID only.
pub fn allowed(rt: &impl Print, s: &[u8]) -> io::Result<()> {
    if s.len() < 3 {
        return Ok(());
    }
    let only = AllowedId::Only(script::number(s, 0));
    match message::read_assignment(&s[2..], only) {
        Ok(assignment) => print::message(rt, Ok(Decoded::Assignment(assignment))),
        Err(fault) => print::refused(rt, fault.number(), fault.place()),
    }
}

// A message cut short at every place.
pub fn cuts(rt: &impl Print, update_type: u8, m: &[u8]) -> io::Result<()> {
    for n in 0..m.len() {
        read(rt, update_type, &m[..n])?;
    }
    Ok(())
}
