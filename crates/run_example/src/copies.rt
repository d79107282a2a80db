// A client's copy, and its comparison with the server's table: both are asked for the answer to a hello, which has every entry.
use crate::memory::Memory;
use std::io;

// A copy is made, on stale memory that is lent, of what was sent. A message that is refused is told, and ends it.
pub fn receive_all(rt: &impl Print, copy: &mut Memory, s: &[u8]) -> io::Result<()> {
    copy.copy_fresh();
    let mut rest = s;
    // Stays: no plainer. Messages have sizes of their own.
    while !rest.is_empty() {
        let taken = copy.copy_receive(rest);
        if taken == 0 {
            script::word(rt, b"refused\n")?;
            break;
        }
        rest = script::after(rest, taken);
    }
    Ok(())
}

pub fn compare(
    rt: &impl Print,
    client: usize,
    server: &mut Memory,
    copy: &mut Memory,
) -> io::Result<()> {
    let mut of_server = [0u8; hello::LONGEST_HELLO];
    let mut of_copy = [0u8; hello::LONGEST_HELLO];
    let table = server.hello(&mut of_server);
    let copy = copy.hello(&mut of_copy);
    print!(rt; "copy of client {client} {} {}", table.len(), copy.len())?;
    if table == copy {
        script::word(rt, b" equal\n")
    } else {
        script::word(rt, b" not equal\n")
    }
}
