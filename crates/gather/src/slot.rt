// What a connection holds.

ghost use Rattle.std.specs.Prelude.{◌≤◌};
ghost use Rattle.line_record.specs.Held.{longest_incomplete};

use super::SLOT_SIZE;

// The bytes that a connection holds: the first ones, as many as the size says.
// Stays: rule of the project. Memory is fixed, so a buffer with its size; `short` keeps the size below its length.
#[derive(Clone, Copy)]
pub struct Slot {
    pub bytes: [u8; SLOT_SIZE],
    pub size: usize,
    pub ghost short: { size ≤ longest_incomplete },
}
