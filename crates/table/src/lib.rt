// The lent table: its layout, what an entry has, the search over names, and storing.
#![tactic(auto)]

ghost use Rattle.std.specs.Prelude.{◌≡◌, ◌↔◌, ◌+◌, ◌≤◌, ◌<◌, length, IsTrue};
ghost use Rattle.table.specs.Names.{entry_named};
ghost use Rattle.table.specs.Table.{head_size, name_length_field, value_length_field, type_field, number_field};
ghost use Rattle.table.specs.Table.{head_field, HasHead, HasName, HasValue, entry_at, entry_of};
ghost use Rattle.table.specs.Table.{Holds, Named, Readable, entries_of, parse_held_update};
ghost use Rattle.table.specs.Table.{lent, max_entries, store_entry};
ghost use Rattle.table.specs.Table.{heads_with_entry, bytes_with_entry, heads_with_value, bytes_with_value};
ghost use Rattle.table.specs.Memory.{memory_of};
ghost use Rattle.message.specs.Layout.{max_name_length};
ghost use Rattle.message.specs.Lent.{entry_lent};
ghost use Rattle.value.specs.Value.{max_value_size};

use field::{Fault, Refusal};
use message::{LentEntry, Update};
use reader::Reader;

pub const MAX_ENTRIES: usize = 64;

// The places of a name and of a value.
// Stays: `as usize`, since no From may be called in a constant.
pub const NAME_SIZE: usize = message::MAX_NAME_LENGTH as usize;

pub const VALUE_SIZE: usize = value::MAX_VALUE_SIZE as usize;

// An entry's bytes: its name's, and then its value's.
pub const ENTRY_SIZE: usize = NAME_SIZE + VALUE_SIZE;

// Stays: heads are a flat list of numbers, since definitions and theorems say so of a table's memory; C's heads are loaded into them.
pub const HEAD_SIZE: usize = 4;

// A head's numbers, by their place in it.
pub const NAME_LENGTH: usize = 0;

pub const VALUE_LENGTH: usize = 1;

pub const TYPE: usize = 2;

pub const NUMBER: usize = 3;

// The numbers of all heads, and the bytes of all entries.
pub const HEADS_SIZE: usize = HEAD_SIZE * MAX_ENTRIES;

pub const BYTES_SIZE: usize = ENTRY_SIZE * MAX_ENTRIES;

// ---- names, of as many entries as are lent

#[tactic(auto, unfolding(crate::specs::Table::entry_at))]
fn name_at<'a>(heads: &[u16], bytes: &'a [u8], i: usize) -> &'a [u8]
    requires { HasName i heads.now bytes.now }
    ensures { result.now ≡ (entry_at heads.now bytes.now i).name }
{
    let size = usize::from(heads[HEAD_SIZE * i + NAME_LENGTH]);
    &bytes[ENTRY_SIZE * i..][..size]
}

// The ID of the first of so many entries whose name is equal. Stays: the count is no table's, since more may be lent than a table has.
#[tactic(auto, using(crate::proofs::SearchLaws::has_name, crate::proofs::SearchLaws::named_at, crate::proofs::SearchLaws::named_nowhere), unfolding(crate::specs::Table::entries_of))]
pub fn find_name(heads: &[u16], bytes: &[u8], count: usize, name: &[u8]) -> Option<usize>
    requires { Named count heads.now bytes.now }
    ensures { result ≡ entry_named name.now (entries_of (lent heads.now bytes.now count)) }
{
    for i in 0..count {
        if is_name(name_at(heads, bytes, i), name) {
            return Some(i);
        }
    }
    None
}

// ---- a table that is read

// The heads' numbers, the entries' bytes, and how many entries there are. What is lent may be of any length.
// Stays: methods ask for what they read, since a table that is lent may be unsound. SoundTable asks for none of it.
#[derive(Clone, Copy)]
pub struct Table<'a> {
    pub heads: &'a [u16],
    pub bytes: &'a [u8],
    pub count: u16,
}

impl<'a> Table<'a> {
    // How many entries there are.
    pub fn len(self) -> usize
        ensures { result ≡ self.entry.count }
    {
        usize::from(self.count)
    }

    fn head_field(self, i: usize, place: usize) -> u16
        requires { (HasHead i self.heads.now) × (place < head_size) }
        ensures { result ≡ head_field self.entry.heads.now i place }
    {
        self.heads[HEAD_SIZE * i + place]
    }

    pub fn name_length_of(self, i: usize) -> usize
        requires { HasHead i self.heads.now }
        ensures { result ≡ head_field self.entry.heads.now i name_length_field }
    {
        usize::from(self.head_field(i, NAME_LENGTH))
    }

    pub fn value_length_of(self, i: usize) -> usize
        requires { HasHead i self.heads.now }
        ensures { result ≡ head_field self.entry.heads.now i value_length_field }
    {
        usize::from(self.head_field(i, VALUE_LENGTH))
    }

    #[tactic(auto, unfolding(crate::specs::Table::entry_at))]
    pub fn type_of(self, i: usize) -> u16
        requires { HasHead i self.heads.now }
        ensures { result ≡ (entry_of (memory_of self.entry) i).type }
    {
        self.head_field(i, TYPE)
    }

    #[tactic(auto, unfolding(crate::specs::Table::entry_at))]
    pub fn number_of(self, i: usize) -> u16
        requires { HasHead i self.heads.now }
        ensures { result ≡ (entry_of (memory_of self.entry) i).number }
    {
        self.head_field(i, NUMBER)
    }

    pub fn name_of(self, i: usize) -> &'a [u8]
        requires { HasName i self.heads.now self.bytes.now }
        ensures { result.now ≡ (entry_of (memory_of self.entry) i).name }
    {
        name_at(self.heads, self.bytes, i)
    }

    #[tactic(auto, unfolding(crate::specs::Table::entry_at))]
    pub fn value_of(self, i: usize) -> &'a [u8]
        requires { HasValue i self.heads.now self.bytes.now }
        ensures { result.now ≡ (entry_of (memory_of self.entry) i).value }
    {
        &self.bytes[ENTRY_SIZE * i + NAME_SIZE..][..self.value_length_of(i)]
    }

    // Entry i.
    pub fn entry(self, i: usize) -> LentEntry<'a>
        requires { (HasName i self.heads.now self.bytes.now) × (HasValue i self.heads.now self.bytes.now) }
        ensures { entry_lent result ≡ entry_of (memory_of self.entry) i }
    {
        LentEntry {
            name: self.name_of(i),
            type_code: self.type_of(i),
            number: self.number_of(i),
            value: self.value_of(i),
        }
    }

    // The ID of the first entry whose name is equal.
    pub fn find_name(self, name: &[u8]) -> Option<usize>
        requires { Named self.count self.heads.now self.bytes.now }
        ensures { result ≡ entry_named name.now (entries_of (memory_of self.entry)) }
    {
        find_name(self.heads, self.bytes, self.len(), name)
    }

    // An update of a held ID, read with its stored type.
    #[tactic(auto, using(crate::proofs::UpdateLaws::update_cut, crate::proofs::UpdateLaws::update_of_held, crate::proofs::UpdateLaws::update_of_none), unfolding(crate::specs::Table::entry_at))]
    pub fn read_held_update(self, m: &[u8]) -> Result<Update, Fault>
        requires { Readable self.count self.heads.now self.bytes.now }
        ensures { result ≡ parse_held_update (entries_of (memory_of self.entry)) m.now }
    {
        let id = Reader::new(m).at(message::KIND_SIZE).number()?;
        if id >= self.count {
            return Err(Fault::new(Refusal::UnknownId, message::KIND_SIZE));
        }
        let type_code = self.type_of(usize::from(id)) as u8;
        message::read_behind_update_id(m, id, type_code)
    }
}

// The bytes of names that are compared first, where a name has so many.
const FRONT: usize = 16;

const SHORT_FRONT: usize = 8;

// Whether a held name is equal. Most names differ in length or in their first bytes: those are compared at once, before the library is
// asked about the whole.
pub fn is_name(held: &[u8], name: &[u8]) -> bool
    ensures { IsTrue result ↔ (held.now ≡ name.now) }
{
    held.len() == name.len()
        && held.first_chunk::<FRONT>() == name.first_chunk::<FRONT>()
        && held.first_chunk::<SHORT_FRONT>() == name.first_chunk::<SHORT_FRONT>()
        && held == name
}

// ---- storing

// Stays, here and below: heads, bytes and count are parameters. A struct of them under Memory is no plainer: each caller has them apart.
// Stores an entry's head and bytes.
#[tactic(auto, unfolding(crate::specs::Table::heads_with_entry, crate::specs::Table::bytes_with_entry))]
pub fn store_entry(heads: &mut [u16], bytes: &mut [u8], id: usize, entry: LentEntry)
    requires memory { Holds (id + 1) heads.old bytes.old }
    requires lengths { (length entry.name.now ≤ max_name_length) × (length entry.value.now ≤ max_value_size) }
    ensures heads { heads.new ≡ heads_with_entry heads.old id (entry_lent entry.entry) }
    ensures bytes { bytes.new ≡ bytes_with_entry bytes.old id (entry_lent entry.entry) }
{
    let head = HEAD_SIZE * id;
    heads[head + NAME_LENGTH] = entry.name.len() as u16;
    heads[head + VALUE_LENGTH] = entry.value.len() as u16;
    heads[head + TYPE] = entry.type_code;
    heads[head + NUMBER] = entry.number;
    field::copy_into(bytes, ENTRY_SIZE * id, entry.name);
    field::copy_into(bytes, ENTRY_SIZE * id + NAME_SIZE, entry.value);
}

// Stores another number and value of an entry.
// Stays: ID, number and value are three parameters. A struct of them would be taken apart again at once.
#[tactic(auto, unfolding(crate::specs::Table::heads_with_value, crate::specs::Table::bytes_with_value))]
pub fn store_value(heads: &mut [u16], bytes: &mut [u8], id: usize, number: u16, value: &[u8])
    requires memory { Holds (id + 1) heads.old bytes.old }
    requires length { length value.now ≤ max_value_size }
    ensures heads { heads.new ≡ heads_with_value heads.old id number value.now }
    ensures bytes { bytes.new ≡ bytes_with_value bytes.old id value.now }
{
    let head = HEAD_SIZE * id;
    heads[head + VALUE_LENGTH] = value.len() as u16;
    heads[head + NUMBER] = number;
    field::copy_into(bytes, ENTRY_SIZE * id + NAME_SIZE, value);
}

// Stores a new entry with the next ID.
#[tactic(auto, unfolding(crate::specs::Table::store_entry))]
pub fn add_entry(heads: &mut [u16], bytes: &mut [u8], count: &mut u16, entry: LentEntry)
    requires memory { (count.old + 1 ≤ max_entries) × Holds (count.old + 1) heads.old bytes.old }
    requires lengths { (length entry.name.now ≤ max_name_length) × (length entry.value.now ≤ max_value_size) }
    ensures { lent heads.new bytes.new count.new
        ≡ store_entry (lent heads.old bytes.old count.old) (entry_lent entry.entry) }
{
    store_entry(heads, bytes, usize::from(*count), entry);
    *count += 1;
}
