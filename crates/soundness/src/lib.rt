// Whether lent memory is sound.
#![tactic(auto)]

ghost use Rattle.std.specs.Prelude.{◌≡◌, ℕ, ◌+◌, ◌*◌, ◌<◌, ◌≤◌, length, replicate, ◌==◌, true, not, IsSome, IfSome, ◌↔◌};
ghost use Rattle.field.specs.Choice.{pick};
ghost use Rattle.value.specs.Value.{IsValue, max_value_size};
ghost use Rattle.message.specs.Layout.{Entry, max_name_length};
ghost use Rattle.message.specs.Lent.{entry_lent};
ghost use Rattle.table.specs.Memory.{memory_of};
ghost use Rattle.table.specs.Names.{entry_named, name_held, names_differ};
ghost use Rattle.table.specs.Table.{Holds, Named, entry_of, entries_of, tabulate, parse_held_update, max_entries};
ghost use Rattle.soundness.specs.Fingerprint.{fingerprints, several, weight_at, fingerprint_of, Covers, AllOwned};
ghost use Rattle.soundness.specs.Sound.{all_below, sound_entry, sound_table, sound_marks};

use field::Fault;
use message::{LentEntry, Update};
use std::marker::Model;
use table::Table;

pub const CONNECTIONS: usize = 16;

// Connection marks.
// Stays: numbers, since C lends marks as bytes, and a byte above 2 may be lent.
pub const CLOSED: u8 = 0;

pub const OPEN: u8 = 1;

pub const GREETED: u8 = 2;

// A name's fingerprint is below this number.
pub const FINGERPRINTS: usize = 1024;

// The weights of places: from 1 to so many, and so far from one place to the next.
const WEIGHTS: u16 = 256;

const WEIGHT_STEP: u16 = 161;

// The owner of a fingerprint that more than one entry has.
const SEVERAL: u8 = 255;

// A table that was judged.
#[derive(Clone, Copy)]
pub struct SoundTable<'a> {
    pub table: Table<'a>,
    pub ghost sound: { sound_table max_entries (memory_of table) ≡ true },
}

impl<'a> SoundTable<'a> {
    // The table, where it is sound.
    pub fn new(table: Table<'a>) -> Option<SoundTable<'a>>
        ensures some { IsSome result ↔ (sound_table max_entries (memory_of table.entry) ≡ true) }
        ensures same { IfSome result (λ sound. sound.table ≡ table.entry) }
    {
        if table_is_sound(table) {
            Some(SoundTable { table })
        } else {
            None
        }
    }

    // How many entries there are.
    pub fn len(self) -> usize
        ensures { result ≡ self.entry.table.count }
    {
        self.table.len()
    }

    // The ID of the entry whose name is equal.
    #[tactic(auto, using(crate::proofs::ReadableLaws::sound_named))]
    pub fn find_name(self, name: &[u8]) -> Option<usize>
        ensures { result ≡ entry_named name.now (entries_of (memory_of self.entry.table)) }
    {
        self.table.find_name(name)
    }

    // An update of a held ID, read with its stored type.
    #[tactic(auto, using(crate::proofs::ReadableLaws::sound_readable))]
    pub fn read_held_update(self, m: &[u8]) -> Result<Update, Fault>
        ensures { result ≡ parse_held_update (entries_of (memory_of self.entry.table)) m.now }
    {
        self.table.read_held_update(m)
    }

    // Entry i, which obeys the rules.
    pub fn entry(self, i: usize) -> LentEntry<'a>
        requires { i < self.table.count }
        ensures entry { entry_lent result ≡ entry_of (memory_of self.entry.table) i }
        ensures lengths { (length result.name.now ≤ max_name_length) × (length result.value.now ≤ max_value_size) }
        ensures typed { result.type_code ≤ 255 }
        ensures valued { IsValue result.type_code result.value.now }
    {
        self.table.entry(i)
    }
}

// Whether entry i has a name and a value that obey the rules.
#[tactic(auto, using(crate::proofs::EntryLaws::long_name, crate::proofs::EntryLaws::long_value, crate::proofs::EntryLaws::bad_name_lem))]
fn entry_is_sound(table: Table, i: usize) -> bool
    requires { Holds (i + 1) table.heads.now table.bytes.now }
    ensures { result ≡ sound_entry table.entry.heads.now table.entry.bytes.now i }
{
    if table.name_length_of(i) > table::NAME_SIZE {
        return false;
    }
    if table.value_length_of(i) > table::VALUE_SIZE {
        return false;
    }
    if !utf8::is_utf8(table.name_of(i)) {
        return false;
    }
    let Ok(type_code) = u8::try_from(table.type_of(i)) else {
        return false;
    };
    value::read_lone(type_code, table.value_of(i)).is_ok()
}

#[tactic(auto, using(crate::proofs::BelowLaws::all_more, crate::proofs::BelowLaws::all_false, crate::proofs::BelowLaws::all_none))]
fn entries_are_sound(table: Table) -> bool
    requires { Holds table.count table.heads.now table.bytes.now }
    ensures { result ≡ all_below table.entry.count (sound_entry table.entry.heads.now table.entry.bytes.now) }
{
    for i in 0..table.len() {
        if !entry_is_sound(table, i) {
            return false;
        }
    }
    true
}

// A byte of a name by the weight of its place.
fn weighted(b: u8, k: u16) -> u16
    requires { k ≤ max_name_length }
    ensures { result ≡ b * weight_at k }
{
    u16::from(b) * (1 + k * WEIGHT_STEP % WEIGHTS)
}

// A number that equal names share.
#[tactic(auto, using(crate::proofs::FingerprintLaws::weighed_next), unfolding(crate::specs::Fingerprint::fingerprint_of, crate::specs::Fingerprint::weighed))]
pub fn fingerprint(name: &[u8]) -> usize
    requires { length name.now ≤ max_name_length }
    ensures { result ≡ fingerprint_of name.now }
{
    let mut sum: u16 = 0;
    for (k, b) in name.iter().enumerate() {
        sum = sum.wrapping_add(weighted(*b, k as u16));
    }
    usize::from(sum) % FINGERPRINTS
}

// Entries by their places, whose names are looked at.
pub trait Names {
    ghost entry: { Self → ℕ → Entry };

    // The entry is there, and its name is no longer than a name may be.
    ghost is_there: { Self → ℕ → Type 0 };

    fn name_at(&self, i: usize) -> &[u8]
        requires { is_there self.now i }
        ensures name { result.now ≡ (entry self.now i).name }
        ensures size { length result.now ≤ max_name_length };
}

impl<'a> Names for Table<'a> {
    ghost entry = { λ table. entry_of (memory_of table) };

    ghost is_there = { λ table i. Named (i + 1) table.heads.now table.bytes.now };

    fn name_at(&self, i: usize) -> &[u8] {
        self.name_of(i)
    }
}

// Whether entry i's name is held by an entry before it.
#[tactic(auto, using(crate::proofs::FingerprintLaws::name_met, crate::proofs::FingerprintLaws::name_new))]
fn name_held<N: Names>(names: &N, i: usize) -> bool
    requires { (j : ℕ) → j ≤ i → N.is_there names.now j }
    ensures { result ≡ name_held (N.entry names.now i).name (tabulate i (N.entry names.now)) }
{
    let name = names.name_at(i);
    for j in 0..i {
        if table::is_name(names.name_at(j), name) {
            return true;
        }
    }
    false
}

// The same, where the name's fingerprint has this owner.
#[tactic(auto, using(crate::proofs::FingerprintLaws::held_by_none, crate::proofs::FingerprintLaws::held_by_one))]
fn held_before<N: Names>(names: &N, i: usize, owner: u8) -> bool
    requires place { i < several }
    requires names { (j : ℕ) → j ≤ i → N.is_there names.now j }
    requires owner { Covers i (N.entry names.now) owner }
    ensures { result ≡ name_held (N.entry names.now i).name (tabulate i (N.entry names.now)) }
{
    if owner == 0 {
        return false;
    }
    let other = usize::from(owner - 1);
    if other >= i {
        return name_held(names, i);
    }
    table::is_name(names.name_at(other), names.name_at(i))
}

// The owner of a fingerprint once entry i has it too: i + 1 where none had it (0), else SEVERAL.
#[tactic(auto, unfolding(field::specs::Choice::pick))]
pub fn next_owner(owner: u8, i: usize) -> u8
    requires { i < several }
    ensures { result ≡ pick (owner == 0) (i + 1) several }
{
    if owner == 0 { (i + 1) as u8 } else { SEVERAL }
}

// Each fingerprint's owner so far, 0 where it has none.
// Stays: a byte each, since an enum of two bytes each takes 10 ns more to clear, at each call on a table.
#[derive(Drop)]
pub struct Owners {
    owners: [u8; FINGERPRINTS],
}

impl Model for Owners {
    ghost use Rattle.std.specs.Prelude.{ℕ, List};

    ghost Value = { List ℕ };

    ghost view = { λ owners. owners.owners };
}

impl Owners {
    // None has one.
    pub fn new() -> Owners
        ensures { result ≡ replicate fingerprints 0 }
    {
        Owners {
            owners: [0; FINGERPRINTS],
        }
    }

    // Entry i owns its fingerprint too. Whether its name is new: no entry before it has it.
    pub fn insert<N: Names>(&mut self, names: &N, i: usize) -> bool
        requires place { i < several }
        requires names { (j : ℕ) → j ≤ i → N.is_there names.now j }
        requires owned { AllOwned self.old (N.entry names.now) i }
        ensures new { result ≡ not (name_held (N.entry names.now i).name (tabulate i (N.entry names.now))) }
        ensures owned { AllOwned self.new (N.entry names.now) (i + 1) }
    {
        let f = fingerprint(names.name_at(i));
        let owner = self.owners[f];
        self.owners[f] = next_owner(owner, i);
        !held_before(names, i, owner)
    }
}

// Whether the names of all entries differ, each looked at once: none is held by an entry before it.
fn names_differ(table: Table) -> bool
    requires { (table.count ≤ several) × Named table.count table.heads.now table.bytes.now }
    ensures { result ≡ names_differ (entries_of (memory_of table.entry)) }
{
    if table.count < 2 {
        return true;
    }
    let mut owners = Owners::new();
    for i in 0..table.len() {
        if !owners.insert(&table, i) {
            return false;
        }
    }
    true
}

// Whether a lent table is sound, with room for 64 entries.
pub fn table_is_sound(table: Table) -> bool
    ensures { result ≡ sound_table max_entries (memory_of table.entry) }
{
    // The table goes on in its parts (docs/DECISIONS.md, Speed).
    let Table {
        heads,
        bytes,
        count,
    } = table;
    let table = Table {
        heads,
        bytes,
        count,
    };
    if table.heads.len() < table::HEADS_SIZE {
        return false;
    }
    if table.bytes.len() < table::BYTES_SIZE {
        return false;
    }
    if table.len() > table::MAX_ENTRIES {
        return false;
    }
    if !entries_are_sound(table) {
        return false;
    }
    names_differ(table)
}

// Whether 16 connection marks are there, each one of the three.
// Stays: no `all`, since all are looked at in one pass with no way out, which is faster.
#[tactic(auto, unfolding(crate::specs::Sound::sound_marks, crate::specs::Sound::all_below))]
pub fn marks_are_sound(marks: &[u8]) -> bool
    ensures { result ≡ sound_marks marks.now }
{
    if marks.len() < CONNECTIONS {
        return false;
    }
    let mut sound = true;
    for mark in &marks[..CONNECTIONS] {
        sound &= *mark <= GREETED;
    }
    sound
}
