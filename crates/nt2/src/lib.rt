// The calls as C has them. Of those on a table, heads become numbers, the call is made on them, and they become heads again.
// Stays: C interface. nt2_c exports each with C's signature, which lends each part of the memory by itself; kinds and IDs are its numbers.
#![tactic(auto)]

ghost use Rattle.std.specs.Prelude.{◌≡◌, []};
ghost use Rattle.protocol.specs.Judge.{open_connection, leave, client_message, local_create, local_write};
ghost use Rattle.protocol.specs.Lent.{lent_call};
ghost use Rattle.message.specs.Reader.{parse_message};
ghost use Rattle.writer.specs.Writer.{lent_fields, check, write_with_place, written};
ghost use Rattle.fields.specs.Fields.{fields_with_place, fields_in};
ghost use Rattle.nt2.specs.Lent.{lent, lent_table, Started, heads_answered, heads_step, EntryRead};
ghost use Rattle.nt2.specs.Lent.{CopyStarted, heads_copied, heads_copy_message};

use answer::Answer;
use client::Copied;
use fields::Fields;
use flat::ScalarAnswer;
use heads::Head;
use judge::MarkChange;
use table::Table;
use writer::MessageFields;

#[tactic(auto, using(crate::proofs::Calls::few_started))]
pub fn nt2_fresh(heads: &[Head], bytes: &[u8], count: &mut u16, marks: &mut [u8]) -> Answer
    ensures { Started (lent heads.now bytes.now count.old marks.old) result
        (lent heads.now bytes.now count.new marks.new) }
{
    heads::read(
        heads,
        &mut |flat: &[u16]| start::fresh(flat, bytes, count, marks),
    )
}

#[tactic(auto, using(crate::proofs::Calls::few_answered, crate::proofs::Calls::read_call))]
pub fn nt2_open(
    heads: &[Head],
    bytes: &[u8],
    count: &mut u16,
    marks: &mut [u8],
    connection: usize,
) -> Answer
    ensures { heads_answered result (lent heads.now bytes.now count.new marks.new) []
        ≡ heads_step (lent heads.now bytes.now count.old marks.old)
        (record { call = open_connection connection; output = [] }) }
{
    let change = MarkChange::Open;
    heads::read(
        heads,
        &mut |flat: &[u16]| flat::change_mark(flat, bytes, *count, marks, connection, change),
    )
}

#[tactic(auto, using(crate::proofs::Calls::few_answered, crate::proofs::Calls::read_call))]
pub fn nt2_leave(
    heads: &[Head],
    bytes: &[u8],
    count: &mut u16,
    marks: &mut [u8],
    connection: usize,
) -> Answer
    ensures { heads_answered result (lent heads.now bytes.now count.new marks.new) []
        ≡ heads_step (lent heads.now bytes.now count.old marks.old)
        (record { call = leave connection; output = [] }) }
{
    let change = MarkChange::Close;
    heads::read(
        heads,
        &mut |flat: &[u16]| flat::change_mark(flat, bytes, *count, marks, connection, change),
    )
}

pub fn nt2_receive(
    heads: &mut [Head],
    bytes: &mut [u8],
    count: &mut u16,
    marks: &mut [u8],
    connection: usize,
    message: &[u8],
    out: &mut [u8],
) -> Answer
    ensures { heads_answered result (lent heads.new bytes.new count.new marks.new) out.new
        ≡ heads_step (lent heads.old bytes.old count.old marks.old)
        (lent_call (client_message connection message.now) out.old) }
{
    heads::change(
        heads,
        &mut |flat: &mut [u16]| flat::receive(flat, bytes, count, marks, connection, message, out),
    )
}

pub fn nt2_create(
    heads: &mut [Head],
    bytes: &mut [u8],
    count: &mut u16,
    marks: &[u8],
    name: &[u8],
    type_code: u8,
    value: &[u8],
    out: &mut [u8],
) -> Answer
    ensures { heads_answered result (lent heads.new bytes.new count.new marks.now) out.new
        ≡ heads_step (lent heads.old bytes.old count.old marks.now)
        (lent_call (local_create name.now type_code value.now) out.old) }
{
    heads::change(
        heads,
        &mut |flat: &mut [u16]| server::create(
            flat, bytes, count, marks, name, type_code, value, out,
        ),
    )
}

pub fn nt2_write(
    heads: &mut [Head],
    bytes: &mut [u8],
    count: &mut u16,
    marks: &[u8],
    id: u16,
    value: &[u8],
    out: &mut [u8],
) -> Answer
    ensures { heads_answered result (lent heads.new bytes.new count.new marks.now) out.new
        ≡ heads_step (lent heads.old bytes.old count.old marks.now)
        (lent_call (local_write id value.now) out.old) }
{
    heads::change(
        heads,
        &mut |flat: &mut [u16]| server::write(flat, bytes, *count, marks, id, value, out),
    )
}

#[tactic(auto, using(crate::proofs::Calls::few_read))]
pub fn nt2_read(heads: &[Head], bytes: &[u8], count: &mut u16, id: u16) -> ScalarAnswer
    ensures { EntryRead (lent_table heads.now bytes.now count.old) id result
        (lent_table heads.now bytes.now count.new) }
{
    heads::read(
        heads,
        &mut |flat: &[u16]| {
            let table = Table {
                heads: flat,
                bytes,
                count: *count,
            };
            flat::read(table, id)
        },
    )
}

#[tactic(auto, using(crate::proofs::Calls::few_copy_started))]
pub fn nt2_copy_fresh(heads: &[Head], bytes: &[u8], count: &mut u16) -> Answer
    ensures { CopyStarted (lent_table heads.now bytes.now count.old) result
        (lent_table heads.now bytes.now count.new) }
{
    heads::read(
        heads,
        &mut |flat: &[u16]| start::copy_fresh(flat, bytes, count),
    )
}

pub fn nt2_copy_receive(
    heads: &mut [Head],
    bytes: &mut [u8],
    count: &mut u16,
    message: &[u8],
) -> Copied
    ensures { heads_copied result (lent_table heads.new bytes.new count.new)
        ≡ heads_copy_message (lent_table heads.old bytes.old count.old) message.now }
{
    heads::change(
        heads,
        &mut |flat: &mut [u16]| client::copy_receive(flat, bytes, count, message),
    )
}

// ---- messages, with no table

// One message from its fields.
pub fn nt2_encode(
    kind: u8,
    revision: u16,
    name: &[u8],
    type_code: u8,
    id: u16,
    entry_number: u16,
    value: &[u8],
    out: &mut [u8],
) -> Answer
    ensures { written result out.new
        ≡ write_with_place (check (lent_fields kind revision name.now type_code id entry_number value.now))
        out.old }
{
    let fields = MessageFields {
        kind,
        revision,
        name,
        type_code,
        id,
        number: entry_number,
        value,
    };
    writer::write_message(fields, out)
}

// One message's fields, any kind and ID; an update's type is given.
pub fn nt2_decode(bytes: &[u8], update_type: u8) -> Fields
    ensures { fields_in result ≡ fields_with_place (parse_message update_type bytes.now) }
{
    fields::decode(bytes, update_type)
}
