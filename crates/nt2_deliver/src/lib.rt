// A whole delivery at once, as C has it: heads become numbers once, all messages are taken on them, and they become heads again.
#![tactic(auto)]

ghost use Rattle.std.specs.Prelude.{◌≡◌};
ghost use Rattle.table.specs.Table.{max_entries};
ghost use Rattle.protocol.specs.Lent.{lent_server};
ghost use Rattle.delivery.specs.Delivery.{deliver};
ghost use Rattle.deliver.specs.Lent.{delivered};
ghost use Rattle.nt2.specs.Lent.{lent};
ghost use Rattle.nt2_deliver.specs.Lent.{heads_delivered, heads_delivery};

use deliver::Delivered;
use heads::Head;
use protocol::Memory;

// A delivery.
// Stays: tried in the closure, and it is refused: the borrow check does not cover a struct of lent slices there.
fn deliver_on(
    heads: &mut [u16],
    bytes: &mut [u8],
    count: &mut u16,
    marks: &mut [u8],
    connection: usize,
    input: &[u8],
    out: &mut [u8],
) -> Delivered
    ensures { delivered result (lent_server heads.new bytes.new count.new marks.new) out.new
        ≡ deliver max_entries (lent_server heads.old bytes.old count.old marks.old) connection
        input.now out.old }
{
    let mut memory = Memory {
        heads,
        bytes,
        count,
        marks,
    };
    deliver::deliver(&mut memory, connection, input, out)
}

// Stays: C interface. nt2_c exports it with C's signature, which lends each part of the memory by itself.
pub fn nt2_deliver(
    heads: &mut [Head],
    bytes: &mut [u8],
    count: &mut u16,
    marks: &mut [u8],
    connection: usize,
    input: &[u8],
    out: &mut [u8],
) -> Delivered
    ensures { heads_delivered result (lent heads.new bytes.new count.new marks.new) out.new
        ≡ heads_delivery (lent heads.old bytes.old count.old marks.old) connection input.now
        out.old }
{
    heads::change(
        heads,
        &mut |flat: &mut [u16]| deliver_on(flat, bytes, count, marks, connection, input, out),
    )
}
