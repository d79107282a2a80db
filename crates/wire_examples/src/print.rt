// Answers on standard output.
ghost use Rattle.std.specs.Prelude.{◌^◌, ◌<◌};
ghost use Rattle.message.specs.Reader.{taken_of};

use field::Fault;
use message::{Decoded, KIND_SIZE, Kind, REVISION_LENGTH};
use std::io;

pub fn told(rt: &impl Print, b: bool) -> io::Result<()> {
    if b {
        print!(rt; ": yes")
    } else {
        print!(rt; ": no")
    }
}

// A refusal's number, and its place.
pub fn refused(rt: &impl Print, number: u8, place: usize) -> io::Result<()> {
    print!(rt; ": refused {number} {place}")
}

// A message's kind, and its own length.
fn taken(rt: &impl Print, kind: Kind, size: usize) -> io::Result<()> {
    print!(rt; ": kind {} {size}", u8::from(kind))
}

fn revision(rt: &impl Print, kind: Kind, n: u16) -> io::Result<()> {
    taken(rt, kind, REVISION_LENGTH)?;
    print!(rt; " {n}")
}

// The answer to a value.
pub fn value(rt: &impl Print, read: Result<usize, Fault>) -> io::Result<()> {
    match read {
        Err(fault) => refused(rt, fault.number(), fault.place()),
        Ok(n) => print!(rt; ": taken {n}"),
    }
}

// The answer to a message of any kind.
pub fn message(rt: &impl Print, read: Result<Decoded, Fault>) -> io::Result<()>
    requires { taken_of read < 2 ^ 64 }
{
    match read {
        Err(fault) => refused(rt, fault.number(), fault.place()),
        Ok(Decoded::KeepAlive) => taken(rt, Kind::KeepAlive, KIND_SIZE),
        Ok(Decoded::Hello(n)) => revision(rt, Kind::Hello, n),
        Ok(Decoded::Unsupported(n)) => revision(rt, Kind::Unsupported, n),
        Ok(Decoded::HelloComplete) => taken(rt, Kind::HelloComplete, KIND_SIZE),
        Ok(Decoded::Assignment(a)) => {
            taken(rt, Kind::Assignment, a.size())?;
            print!(rt;
                " {} {} {} {} {}",
                a.name_length, a.type_code, a.id, a.number, a.value_length
            )
        }
        Ok(Decoded::Update(u)) => {
            taken(rt, Kind::Update, u.size())?;
            print!(rt; " {} {} {}", u.id, u.number, u.value_length)
        }
    }
}
