// The library as C calls it: each export is the function of its name in the libraries below, with the same promise.
// Stays: C links the functions that this crate defines, under these names, and each part of the memory is lent by itself.
#![tactic(auto)]

ghost use Rattle.std.specs.Prelude.{◌≡◌, []};
ghost use Rattle.protocol.specs.Judge.{open_connection, leave, client_message, local_create, local_write};
ghost use Rattle.protocol.specs.Lent.{lent_call};
ghost use Rattle.message.specs.Reader.{parse_message};
ghost use Rattle.writer.specs.Writer.{lent_fields, check, write_with_place, written};
ghost use Rattle.fields.specs.Fields.{fields_with_place, fields_in};
ghost use Rattle.nt2.specs.Lent.{lent, lent_table, Started, heads_answered, heads_step, EntryRead};
ghost use Rattle.nt2.specs.Lent.{CopyStarted, heads_copied, heads_copy_message, heads_loaded, heads_load};
ghost use Rattle.nt2_deliver.specs.Lent.{heads_delivered, heads_delivery};
ghost use Rattle.nt2_replay.specs.Lent.{heads_replayed, heads_replay};
ghost use Rattle.nt2_why.specs.Lent.{heads_why};
ghost use Rattle.saved.specs.Calls.{save_result};
ghost use Rattle.nt2_saved.specs.Lent.{heads_save};

use answer::Answer;
use client::Copied;
use deliver::Delivered;
use fields::Fields;
use flat::ScalarAnswer;
use heads::Head;
use replay::Replayed;
use why::ReasonAnswer;

#[unsafe(no_mangle)]
pub extern "C" fn nt2_fresh(
    heads: &[Head],
    bytes: &[u8],
    count: &mut u16,
    marks: &mut [u8],
) -> Answer
    ensures { Started (lent heads.now bytes.now count.old marks.old) result
        (lent heads.now bytes.now count.new marks.new) }
{
    nt2::nt2_fresh(heads, bytes, count, marks)
}

#[unsafe(no_mangle)]
pub extern "C" fn nt2_open(
    heads: &[Head],
    bytes: &[u8],
    count: &mut u16,
    marks: &mut [u8],
    connection: usize,
) -> Answer
    ensures { heads_answered result (lent heads.now bytes.now count.new marks.new) []
        ≡ heads_step (lent heads.now bytes.now count.old marks.old)
        (record { call = open_connection connection; output = [] }) }
{
    nt2::nt2_open(heads, bytes, count, marks, connection)
}

#[unsafe(no_mangle)]
pub extern "C" fn nt2_leave(
    heads: &[Head],
    bytes: &[u8],
    count: &mut u16,
    marks: &mut [u8],
    connection: usize,
) -> Answer
    ensures { heads_answered result (lent heads.now bytes.now count.new marks.new) []
        ≡ heads_step (lent heads.now bytes.now count.old marks.old)
        (record { call = leave connection; output = [] }) }
{
    nt2::nt2_leave(heads, bytes, count, marks, connection)
}

#[unsafe(no_mangle)]
pub extern "C" fn nt2_receive(
    heads: &mut [Head],
    bytes: &mut [u8],
    count: &mut u16,
    marks: &mut [u8],
    connection: usize,
    message: &[u8],
    out: &mut [u8],
) -> Answer
    ensures { heads_answered result (lent heads.new bytes.new count.new marks.new) out.new
        ≡ heads_step (lent heads.old bytes.old count.old marks.old)
        (lent_call (client_message connection message.now) out.old) }
{
    nt2::nt2_receive(heads, bytes, count, marks, connection, message, out)
}

#[unsafe(no_mangle)]
pub extern "C" fn nt2_create(
    heads: &mut [Head],
    bytes: &mut [u8],
    count: &mut u16,
    marks: &[u8],
    name: &[u8],
    type_code: u8,
    value: &[u8],
    out: &mut [u8],
) -> Answer
    ensures { heads_answered result (lent heads.new bytes.new count.new marks.now) out.new
        ≡ heads_step (lent heads.old bytes.old count.old marks.now)
        (lent_call (local_create name.now type_code value.now) out.old) }
{
    nt2::nt2_create(heads, bytes, count, marks, name, type_code, value, out)
}

#[unsafe(no_mangle)]
pub extern "C" fn nt2_write(
    heads: &mut [Head],
    bytes: &mut [u8],
    count: &mut u16,
    marks: &[u8],
    id: u16,
    value: &[u8],
    out: &mut [u8],
) -> Answer
    ensures { heads_answered result (lent heads.new bytes.new count.new marks.now) out.new
        ≡ heads_step (lent heads.old bytes.old count.old marks.now)
        (lent_call (local_write id value.now) out.old) }
{
    nt2::nt2_write(heads, bytes, count, marks, id, value, out)
}

#[unsafe(no_mangle)]
pub extern "C" fn nt2_read(heads: &[Head], bytes: &[u8], count: &mut u16, id: u16) -> ScalarAnswer
    ensures { EntryRead (lent_table heads.now bytes.now count.old) id result
        (lent_table heads.now bytes.now count.new) }
{
    nt2::nt2_read(heads, bytes, count, id)
}

#[unsafe(no_mangle)]
pub extern "C" fn nt2_copy_fresh(heads: &[Head], bytes: &[u8], count: &mut u16) -> Answer
    ensures { CopyStarted (lent_table heads.now bytes.now count.old) result
        (lent_table heads.now bytes.now count.new) }
{
    nt2::nt2_copy_fresh(heads, bytes, count)
}

#[unsafe(no_mangle)]
pub extern "C" fn nt2_copy_receive(
    heads: &mut [Head],
    bytes: &mut [u8],
    count: &mut u16,
    message: &[u8],
) -> Copied
    ensures { heads_copied result (lent_table heads.new bytes.new count.new)
        ≡ heads_copy_message (lent_table heads.old bytes.old count.old) message.now }
{
    nt2::nt2_copy_receive(heads, bytes, count, message)
}

#[unsafe(no_mangle)]
pub extern "C" fn nt2_encode(
    kind: u8,
    revision: u16,
    name: &[u8],
    type_code: u8,
    id: u16,
    entry_number: u16,
    value: &[u8],
    out: &mut [u8],
) -> Answer
    ensures { written result out.new
        ≡ write_with_place (check (lent_fields kind revision name.now type_code id entry_number value.now))
        out.old }
{
    nt2::nt2_encode(
        kind,
        revision,
        name,
        type_code,
        id,
        entry_number,
        value,
        out,
    )
}

#[unsafe(no_mangle)]
pub extern "C" fn nt2_decode(bytes: &[u8], update_type: u8) -> Fields
    ensures { fields_in result ≡ fields_with_place (parse_message update_type bytes.now) }
{
    nt2::nt2_decode(bytes, update_type)
}

#[unsafe(no_mangle)]
pub extern "C" fn nt2_deliver(
    heads: &mut [Head],
    bytes: &mut [u8],
    count: &mut u16,
    marks: &mut [u8],
    connection: usize,
    input: &[u8],
    out: &mut [u8],
) -> Delivered
    ensures { heads_delivered result (lent heads.new bytes.new count.new marks.new) out.new
        ≡ heads_delivery (lent heads.old bytes.old count.old marks.old) connection input.now
        out.old }
{
    nt2_deliver::nt2_deliver(heads, bytes, count, marks, connection, input, out)
}

#[unsafe(no_mangle)]
pub extern "C" fn nt2_replay(
    heads: &mut [Head],
    bytes: &mut [u8],
    count: &mut u16,
    marks: &mut [u8],
    recorded: &[u8],
) -> Replayed
    ensures { heads_replayed result (lent heads.new bytes.new count.new marks.new)
        ≡ heads_replay (lent heads.old bytes.old count.old marks.old) recorded.now }
{
    nt2_replay::nt2_replay(heads, bytes, count, marks, recorded)
}

#[unsafe(no_mangle)]
pub extern "C" fn nt2_why(
    heads: &[Head],
    bytes: &[u8],
    count: &u16,
    marks: &[u8],
    connection: usize,
    message: &[u8],
) -> ReasonAnswer
    ensures { result ≡ heads_why (lent heads.now bytes.now count.now marks.now) connection message.now }
{
    nt2_why::nt2_why(heads, bytes, count, marks, connection, message)
}

#[unsafe(no_mangle)]
pub extern "C" fn nt2_save(heads: &[Head], bytes: &[u8], count: &u16, out: &mut [u8]) -> Answer
    ensures { save_result result out.new
        ≡ heads_save (lent_table heads.now bytes.now count.now) out.old }
{
    nt2_saved::nt2_save(heads, bytes, count, out)
}

#[unsafe(no_mangle)]
pub extern "C" fn nt2_load(
    heads: &mut [Head],
    bytes: &mut [u8],
    count: &mut u16,
    marks: &[u8],
    saved: &[u8],
) -> Answer
    ensures { heads_loaded result (lent_table heads.new bytes.new count.new)
        ≡ heads_load (lent heads.old bytes.old count.old marks.now) saved.now }
{
    nt2_saved::nt2_load(heads, bytes, count, marks, saved)
}
