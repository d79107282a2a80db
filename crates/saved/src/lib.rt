// The saved form of a table: its layout. Definitions are in specs/, theorems in proofs/.
#![tactic(auto)]

ghost use Rattle.std.specs.Prelude.{◌≡◌, ◌≤◌};
ghost use Rattle.table.specs.Table.{max_entries};
ghost use Rattle.saved.specs.Form.{saved_size};
ghost use Rattle.saved.specs.Kinds.{record_kind_byte};

// Kinds of records: the first, and an entry's.
#[derive(Clone, Copy, PartialEq, Eq)]
pub enum RecordKind {
    Count = 1,
    Entry = 2,
}

impl From<RecordKind> for u8 {
    ghost from_gives = { λ kind byte. byte ≡ record_kind_byte kind };

    fn from(kind: RecordKind) -> u8 {
        kind as u8
    }
}

// Every record opens with its kind and a byte: the count, or the name's length.
pub const OPENING_SIZE: usize = message::KIND_SIZE + 1;

// Where the fields of an entry's record start.
pub const NAME_LENGTH_PLACE: usize = message::KIND_SIZE;

pub const NAME_PLACE: usize = OPENING_SIZE;

pub const TYPE_PLACE: usize = NAME_PLACE + table::NAME_SIZE;

pub const NUMBER_PLACE: usize = TYPE_PLACE + 1;

pub const VALUE_LENGTH_PLACE: usize = NUMBER_PLACE + field::NUMBER_SIZE;

pub const VALUE_PLACE: usize = VALUE_LENGTH_PLACE + field::NUMBER_SIZE;

// How many bytes the first record has, and an entry's.
pub const COUNT_RECORD_SIZE: usize = OPENING_SIZE;

pub const ENTRY_RECORD_SIZE: usize = VALUE_PLACE + table::VALUE_SIZE;

// How many bytes the saved form of so many entries has; record i starts at that of i.
pub fn size_of(count: usize) -> usize
    requires { count ≤ max_entries }
    ensures { result ≡ saved_size count }
{
    COUNT_RECORD_SIZE + ENTRY_RECORD_SIZE * count
}
