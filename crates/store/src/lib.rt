// What a verdict on a mark, a new entry or another value does: the answer, the output, and lent memory afterwards.
#![tactic(auto)]

ghost use Rattle.std.specs.Prelude.{◌≡◌, true, ℕ, ◌+◌, ◌≤◌, ◌<◌, List, length};
ghost use Rattle.table.specs.Table.{TableMemory, Holds, lent, max_entries};
ghost use Rattle.message.specs.Layout.{Entry, max_name_length};
ghost use Rattle.message.specs.Lent.{entry_lent};
ghost use Rattle.recipients.specs.Recipients.{Recipients, all_greeted, recipient_set};
ghost use Rattle.soundness.specs.Sound.{sound_table, connections};
ghost use Rattle.protocol.specs.Judge.{store_new, store_update, new_entry, judge};
ghost use Rattle.protocol.specs.Place.{execute_with_place};
ghost use Rattle.protocol.specs.Lent.{beside_marks, answered};
ghost use Rattle.judge.specs.Decision.{mark_call};
ghost use Rattle.store.specs.Marked.{marked};
ghost use Rattle.value.specs.Value.{max_value_size};

use answer::Answer;
use field::Fault;
use judge::MarkChange;
use message::{ASSIGNMENT_FIXED, LentEntry, UPDATE_VALUE_START};
use sequence::SequenceNumber;

// ---- marks

// Connection c opens or leaves, if it may: its mark changes, and nothing is sent. No entry is looked at.
// Stays: C interface. So many marks are asked for: `&mut [u8; 16]` would be narrower than what C lends.
pub fn change_mark(marks: &mut [u8], c: usize, change: MarkChange) -> Result<(), Fault>
    requires { connections ≤ length marks.old }
    ensures { (limit : ℕ) (es : List Entry) (table : TableMemory) (out : List ℕ) →
        marked result (beside_marks table marks.new) out
        ≡ execute_with_place (beside_marks table marks.old) out (judge limit es marks.old (mark_call change c)) }
{
    judge::judge_mark(marks, c, change)?;
    marks[c] = change.mark();
    Ok(())
}

// ---- entries

// A new entry, which has the first number.
// Stays: C interface. Name, type and value are three parameters, as C lends them; here the entry is made of them.
pub fn new_entry<'a>(name: &'a [u8], type_code: u8, value: &'a [u8]) -> LentEntry<'a>
    ensures entry { entry_lent result ≡ new_entry name.now type_code value.now }
    ensures type_fits { result.type_code ≤ 255 }
{
    LentEntry {
        name,
        type_code: u16::from(type_code),
        number: SequenceNumber::start().0,
        value,
    }
}

// Stores an entry with the next ID, and writes its assignment to those of a set.
// Stays: C interface. Heads, bytes and count are lent each by itself: a struct of them is taken apart again, as by table::add_entry.
pub fn store_new(
    heads: &mut [u16],
    bytes: &mut [u8],
    count: &mut u16,
    entry: LentEntry,
    taken: usize,
    recipients: u16,
    out: &mut [u8],
) -> Answer
    requires sound { sound_table max_entries (lent heads.old bytes.old count.old) ≡ true }
    requires room { count.old < max_entries }
    requires lengths { (length entry.name.now ≤ max_name_length) × (length entry.value.now ≤ max_value_size) }
    requires type_fits { entry.type_code ≤ 255 }
    ensures { (marks : List ℕ) → recipients ≡ recipient_set all_greeted marks →
        answered result (record { table = lent heads.new bytes.new count.new; marks = marks }) out.new
        ≡ execute_with_place (record { table = lent heads.old bytes.old count.old; marks = marks }) out.old
        (store_new (entry_lent entry.entry) taken) }
{
    if out.len() < ASSIGNMENT_FIXED + entry.name.len() + entry.value.len() {
        return answer::no_room();
    }
    let sent = encoder::write_assignment(out, *count, entry);
    table::add_entry(heads, bytes, count, entry);
    answer::done(recipients, taken, sent)
}

// Another number and value of an entry, to those of a set.
#[tactic(auto, using(message::proofs::ReadBack::length_update), unfolding(protocol::specs::Step::execute, table::specs::Table::store_value, field::specs::Choice::pick))]
pub fn store_update(
    heads: &mut [u16],
    bytes: &mut [u8],
    id: u16,
    number: u16,
    value: &[u8],
    taken: usize,
    recipients: u16,
    out: &mut [u8],
) -> Answer
    requires memory { Holds (id + 1) heads.old bytes.old }
    requires lengths { length value.now ≤ max_value_size }
    ensures { (count : ℕ) (marks : List ℕ) (to : Recipients) → recipients ≡ recipient_set to marks →
        answered result (record { table = lent heads.new bytes.new count; marks = marks }) out.new
        ≡ execute_with_place (record { table = lent heads.old bytes.old count; marks = marks }) out.old
        (store_update id number value.now taken to) }
{
    if out.len() < UPDATE_VALUE_START + value.len() {
        return answer::no_room();
    }
    let sent = encoder::write_update(out, id, number, value);
    table::store_value(heads, bytes, usize::from(id), number, value);
    answer::done(recipients, taken, sent)
}
