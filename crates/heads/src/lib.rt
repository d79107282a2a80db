// A table's heads as C lends them, and calls on them, made on the same heads as flat numbers.
#![tactic(auto)]

ghost use Rattle.std.specs.Prelude.{◌≡◌, IfSome, IfNone, ◌+◌, ◌*◌, ◌<◌, ◌≤◌, ◌⊎◌, true, false, drop, length};
ghost use Rattle.table.specs.Table.{max_entries, head_size, number_field};
ghost use Rattle.heads.specs.Heads.{head_numbers, flat_heads, with_head, head_at, NotMade, Made, MadeToRead};

use answer::Answered;

// One entry head.
#[repr(C)]
#[derive(Clone, Copy)]
pub struct Head {
    pub name_length: u16,
    pub value_length: u16,
    pub type_code: u16,
    pub number: u16,
}

// One head becomes four numbers.
fn put_head(flat: &mut [u16], i: usize, h: Head)
    requires { i * head_size + number_field < length flat.old }
    ensures { flat.new ≡ with_head flat.old i h }
{
    let at = i * table::HEAD_SIZE;
    flat[at] = h.name_length;
    flat[at + table::VALUE_LENGTH] = h.value_length;
    flat[at + table::TYPE] = h.type_code;
    flat[at + table::NUMBER] = h.number;
}

// Four numbers become one head.
fn head_at(flat: &[u16], i: usize) -> Head
    requires { i * head_size + number_field < length flat.now }
    ensures { result ≡ head_at flat.now i }
{
    let at = i * table::HEAD_SIZE;
    Head {
        name_length: flat[at],
        value_length: flat[at + table::VALUE_LENGTH],
        type_code: flat[at + table::TYPE],
        number: flat[at + table::NUMBER],
    }
}

// The heads of a table become numbers, if there are enough.
#[tactic(auto, using(crate::proofs::HeadLaws::loading), unfolding(crate::specs::Heads::loaded))]
fn load(heads: &[Head]) -> Option<[u16; table::HEADS_SIZE]>
    ensures some { IfSome result (λ flat. (max_entries ≤ length heads.now) × (flat ≡ flat_heads heads.now)) }
    ensures none { IfNone result (length heads.now < max_entries) }
{
    if heads.len() < table::MAX_ENTRIES {
        return None;
    }
    let mut flat = [0u16; table::HEADS_SIZE];
    // Stays: heads by their places, since `chunks_exact_mut` is far slower here.
    for i in 0..table::MAX_ENTRIES {
        put_head(&mut flat, i, heads[i]);
    }
    Some(flat)
}

// The numbers become the heads of a table again, where a call may have changed them.
#[tactic(auto, using(crate::proofs::HeadLaws::storing), unfolding(crate::specs::Heads::stored))]
fn store(changes: bool, flat: &[u16], heads: &mut [Head])
    requires { (max_entries ≤ length heads.old) × (length flat.now ≡ head_numbers) }
    ensures changed { changes ≡ true → flat_heads heads.new ≡ flat.now }
    ensures unchanged { changes ≡ false → heads.new ≡ heads.old }
    ensures past { drop max_entries heads.new ≡ drop max_entries heads.old }
{
    if !changes {
        return;
    }
    for i in 0..table::MAX_ENTRIES {
        heads[i] = head_at(flat, i);
    }
}

// A call that may change heads, made on their numbers. It is lent, so that its caller knows what the references that it holds then lend.
#[inline(always)]
pub fn change<R: Answered + Drop, F: FnMut(&mut [u16]) -> R>(heads: &mut [Head], call: &mut F) -> R
    requires callable { (x : _) → length x.now ≡ head_numbers → F.pre call.old x }
    ensures { NotMade R.on_unsound call.old heads.old result call.new heads.new
        ⊎ Made F.FnMut R.changes_heads call.old heads.old result call.new heads.new }
{
    let Some(mut flat) = load(heads) else {
        return R::on_unsound();
    };
    let answer = call(&mut flat);
    store(answer.changes_heads(), &flat, heads);
    answer
}

// A call that only reads heads, made on their numbers.
#[inline(always)]
pub fn read<R: Answered + Drop, F: FnMut(&[u16]) -> R>(heads: &[Head], call: &mut F) -> R
    requires callable { (x : _) → length x.now ≡ head_numbers → F.pre call.old x }
    ensures { NotMade R.on_unsound call.old heads.now result call.new heads.now
        ⊎ MadeToRead F.FnMut call.old heads.now result call.new }
{
    let Some(flat) = load(heads) else {
        return R::on_unsound();
    };
    call(&flat)
}
