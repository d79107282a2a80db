// Saving a table: its saved form is written into a lent output.
#![tactic(auto)]

ghost use Rattle.std.specs.Prelude.{◌≡◌, ◌+◌, ◌≤◌, length, replicate};
ghost use Rattle.field.specs.Octets.{overwrite_at};
ghost use Rattle.value.specs.Value.{max_value_size};
ghost use Rattle.message.specs.Layout.{max_name_length};
ghost use Rattle.message.specs.Lent.{entry_lent};
ghost use Rattle.table.specs.Memory.{memory_of};
ghost use Rattle.table.specs.Table.{entries_of, max_entries};
ghost use Rattle.saved.specs.Form.{count_record_size, entry_record_size, saved_size, filled, count_record, entry_record, saved_form};
ghost use Rattle.saved.specs.Calls as calls;

use answer::Answer;
use message::LentEntry;
use saved::{
    NAME_LENGTH_PLACE, NAME_PLACE, NUMBER_PLACE, RecordKind, TYPE_PLACE, VALUE_LENGTH_PLACE,
    VALUE_PLACE,
};
use soundness::SoundTable;
use table::Table;

// Stores so many zeros from a place on.
// Stays: a loop, since `fill` is slower where the number of bytes varies.
#[tactic(auto, using(crate::proofs::SaveLaws::zero_next))]
fn clear(out: &mut [u8], at: usize, n: usize)
    requires { at + n ≤ length out.old }
    ensures { out.new ≡ overwrite_at out.old at (replicate n 0) }
{
    for b in &mut out[at..at + n] {
        *b = 0;
    }
}

// Stores a name from a place on, filled with zeros. Its room is cleared first: a fixed number of bytes, which the compiler stores at once.
// Stays: as one function with put_value, in either order, names or values take 1.2 to 1.4 times as long.
#[tactic(auto, using(crate::proofs::SaveLaws::store_filled))]
fn put_name(out: &mut [u8], at: usize, name: &[u8])
    requires name { length name.now ≤ max_name_length }
    requires room { at + max_name_length ≤ length out.old }
    ensures { out.new ≡ overwrite_at out.old at (filled max_name_length name.now) }
{
    clear(out, at, table::NAME_SIZE);
    field::copy_into(out, at, name);
}

// Stores a value from a place on, filled with zeros. Its room is large: what is behind it alone is cleared.
#[tactic(auto, using(crate::proofs::SaveLaws::store_behind), unfolding(saved::specs::Form::filled))]
fn put_value(out: &mut [u8], at: usize, value: &[u8])
    requires value { length value.now ≤ max_value_size }
    requires room { at + max_value_size ≤ length out.old }
    ensures { out.new ≡ overwrite_at out.old at (filled max_value_size value.now) }
{
    field::copy_into(out, at, value);
    clear(out, at + value.len(), table::VALUE_SIZE - value.len());
}

// Stores an entry's record from a place on.
fn put_record(out: &mut [u8], at: usize, entry: LentEntry)
    requires room { at + entry_record_size ≤ length out.old }
    requires lengths { (length entry.name.now ≤ max_name_length) × (length entry.value.now ≤ max_value_size) }
    requires type_fits { entry.type_code ≤ 255 }
    ensures { out.new ≡ overwrite_at out.old at (entry_record (entry_lent entry.entry)) }
{
    field::put_u8(out, at, u8::from(RecordKind::Entry));
    field::put_u8(out, at + NAME_LENGTH_PLACE, entry.name.len() as u8);
    put_name(out, at + NAME_PLACE, entry.name);
    field::put_u8(out, at + TYPE_PLACE, entry.type_code as u8);
    field::put_u16(out, at + NUMBER_PLACE, entry.number);
    field::put_u16(out, at + VALUE_LENGTH_PLACE, entry.value.len() as u16);
    put_value(out, at + VALUE_PLACE, entry.value);
}

// Stores the first record.
#[tactic(auto, unfolding(saved::specs::Form::count_record, field::specs::Octets::overwrite_at))]
fn put_count(out: &mut [u8], count: u8)
    requires { count_record_size ≤ length out.old }
    ensures { out.new ≡ overwrite_at out.old 0 (count_record count) }
{
    out[0] = u8::from(RecordKind::Count);
    out[1] = count;
}

// Stores the saved form of a sound table.
fn put_form(out: &mut [u8], sound: SoundTable)
    requires { saved_size sound.table.count ≤ length out.old }
    ensures { out.new ≡ overwrite_at out.old 0 (saved_form (entries_of (memory_of sound.entry.table))) }
{
    let count = sound.len();
    put_count(out, count as u8);
    for i in 0..count {
        put_record(out, saved::size_of(i), sound.entry(i));
    }
}

// Saves the table at the start of the output: 14, 12.
#[tactic(auto, using(crate::proofs::SaveLaws::refusing))]
pub fn save(table: Table, out: &mut [u8]) -> Answer
    ensures { calls.save_result result out.new
        ≡ calls.save max_entries (memory_of table.entry) out.old }
{
    let Some(sound) = SoundTable::new(table) else {
        return answer::unsound();
    };
    let size = saved::size_of(table.len());
    if out.len() < size {
        return answer::no_room();
    }
    put_form(out, sound);
    answer::done(0, 0, size)
}
