// Loading a table: a saved form is judged whole, and then its entries are stored.
#![tactic(auto)]

ghost use Rattle.std.specs.Prelude.{◌≡◌, [], ◌+◌, ◌≤◌, ◌<◌, length, drop};
ghost use Rattle.value.specs.Value.{max_value_size};
ghost use Rattle.message.specs.Layout.{max_name_length};
ghost use Rattle.message.specs.Lent.{entry_lent};
ghost use Rattle.table.specs.Table.{Holds, lent, tabulate, max_entries};
ghost use Rattle.soundness.specs.Sound.{connections};
ghost use Rattle.saved.specs.Form.{count_record_size, saved_size};
ghost use Rattle.saved.specs.Reading.{record_entry, read_records, read_saved};
ghost use Rattle.saved.specs.Calls as calls;
ghost use Rattle.load.specs.Records.{saved_entry, Storable, RecordAt, RecordsBelow, outcome};

use answer::Answer;
use field::{Fault, Refusal};
use message::LentEntry;
use saved::{
    NAME_LENGTH_PLACE, NAME_PLACE, NUMBER_PLACE, TYPE_PLACE, VALUE_LENGTH_PLACE, VALUE_PLACE,
};
use soundness::{Names, Owners};
use table::Table;

// ---- the records judged

// A record that was read: the bytes from its start on.
#[derive(Clone, Copy)]
struct Record<'a> {
    bytes: &'a [u8],
    ghost storable: { Storable bytes.now },
}

impl<'a> Record<'a> {
    // The name, without its filling.
    #[tactic(auto, using(field::proofs::OctetsLaws::rest_all), unfolding(saved::specs::Reading::record_entry))]
    fn name(self) -> &'a [u8]
        ensures { result.now ≡ (record_entry self.entry.bytes.now).name }
    {
        &self.bytes[NAME_PLACE..][..usize::from(self.bytes[NAME_LENGTH_PLACE])]
    }

    // The value, without its filling.
    #[tactic(auto, using(field::proofs::OctetsLaws::rest_all), unfolding(saved::specs::Reading::record_entry))]
    fn value(self) -> &'a [u8]
        ensures { result.now ≡ (record_entry self.entry.bytes.now).value }
    {
        &self.bytes[VALUE_PLACE..][..usize::from(field::u16_at(self.bytes, VALUE_LENGTH_PLACE))]
    }

    #[tactic(auto, using(crate::proofs::RecordsLaws::name_small, crate::proofs::RecordsLaws::value_small), unfolding(saved::specs::Reading::record_entry))]
    fn entry(self) -> LentEntry<'a>
        ensures entry { entry_lent result ≡ record_entry self.entry.bytes.now }
        ensures lengths { (length result.name.now ≤ max_name_length) × (length result.value.now ≤ max_value_size) }
    {
        LentEntry {
            name: self.name(),
            type_code: u16::from(self.bytes[TYPE_PLACE]),
            number: field::u16_at(self.bytes, NUMBER_PLACE),
            value: self.value(),
        }
    }
}

// The records of a saved form, by their places.
#[derive(Clone, Copy)]
struct Records<'a> {
    saved: &'a [u8],
}

impl<'a> Records<'a> {
    #[tactic(auto, using(field::proofs::OctetsLaws::rest_all))]
    fn record(self, i: usize) -> Record<'a>
        requires { RecordAt i self.saved.now }
        ensures { result.bytes.now ≡ drop (saved_size i) self.entry.saved.now }
    {
        Record {
            bytes: &self.saved[saved::size_of(i)..],
        }
    }
}

impl<'a> Names for Records<'a> {
    ghost entry = { λ records. saved_entry records.saved.now };

    ghost is_there = { λ records i. RecordAt i records.saved.now };

    #[tactic(auto, using(crate::proofs::RecordsLaws::name_small), unfolding(crate::specs::Records::saved_entry))]
    fn name_at(&self, i: usize) -> &[u8] {
        self.record(i).name()
    }
}

// So many records behind the first.
fn read_records(saved: &[u8], count: usize) -> Result<usize, Fault>
    requires { (count ≤ max_entries) × (count_record_size ≤ length saved.now) }
    ensures { result ≡ outcome (read_records count [] count_record_size (drop count_record_size saved.now)) }
{
    let mut owners = Owners::new();
    for i in 0..count {
        let at = saved::size_of(i);
        field::moved(saved_reader::read_record(&saved[at..]), at)?;
        if !owners.insert(&Records { saved }, i) {
            return Err(Fault::new(Refusal::NameTaken, at));
        }
    }
    let end = saved::size_of(count);
    if end < saved.len() {
        return Err(Fault::new(Refusal::TooLong, end));
    }
    Ok(count)
}

// A saved form: how many entries it has.
fn read_saved(saved: &[u8]) -> Result<usize, Fault>
    ensures { result ≡ outcome (read_saved max_entries saved.now) }
{
    saved_reader::read_count(saved)?;
    read_records(saved, usize::from(saved[message::KIND_SIZE]))
}

// ---- the entries stored

// Stores so many entries from the first ID on.
fn store_records(heads: &mut [u16], bytes: &mut [u8], records: Records, count: usize)
    requires memory { (count ≤ max_entries) × Holds max_entries heads.old bytes.old }
    requires records { RecordsBelow count records.saved.now }
    ensures { lent heads.new bytes.new count
        ≡ calls.store_all (lent heads.old bytes.old 0) (tabulate count (saved_entry records.entry.saved.now)) }
{
    for i in 0..count {
        table::store_entry(heads, bytes, i, records.record(i).entry());
    }
}

// Whether all 16 connections are closed.
// Stays: a slice of 16 or more, since `&[u8; 16]` would be a narrower type than what C lends.
#[tactic(auto, using(crate::proofs::ClosedLaws::closed_same))]
fn all_closed(marks: &[u8]) -> bool
    requires { connections ≤ length marks.now }
    ensures { result ≡ calls.all_closed marks.now }
{
    marks[..soundness::CONNECTIONS] == [soundness::CLOSED; soundness::CONNECTIONS]
}

// Loads a saved form: 14, 3, then its bytes left to right. All is judged before anything is stored.
pub fn load(
    heads: &mut [u16],
    bytes: &mut [u8],
    count: &mut u16,
    marks: &[u8],
    saved: &[u8],
) -> Answer
    ensures { calls.load_result result (lent heads.new bytes.new count.new)
        ≡ calls.load max_entries (lent heads.old bytes.old count.old) marks.now saved.now }
{
    let table = Table {
        heads,
        bytes,
        count: *count,
    };
    if !soundness::table_is_sound(table) || !soundness::marks_are_sound(marks) {
        return answer::unsound();
    }
    if !all_closed(marks) {
        return answer::refused(Fault::new(Refusal::WrongState, 0));
    }
    match read_saved(saved) {
        Ok(n) => {
            store_records(heads, bytes, Records { saved }, n);
            *count = n as u16;
            answer::done(0, saved.len(), 0)
        }
        Err(fault) => answer::refused(fault),
    }
}
