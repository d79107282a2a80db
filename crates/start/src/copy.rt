// The fresh start of a copy.
ghost use Rattle.std.specs.Prelude.{◌≡◌};
ghost use Rattle.answer.specs.Answers.{bare_answer};
ghost use Rattle.table.specs.Table.{lent, max_entries};
ghost use Rattle.protocol.specs.Copy.{copy_fresh_start};

use answer::Answer;

// The empty copy: only the count is set.
// Stays: no `Table`, since the count is changed.
#[tactic(auto, unfolding(protocol::specs::Copy::copy_fresh_start, field::specs::Choice::pick))]
pub fn copy_fresh(heads: &[u16], bytes: &[u8], count: &mut u16) -> Answer
    ensures answer { result ≡ bare_answer (copy_fresh_start max_entries (lent heads.now bytes.now count.old)).number }
    ensures memory { lent heads.now bytes.now count.new
        ≡ (copy_fresh_start max_entries (lent heads.now bytes.now count.old)).memory }
{
    if !crate::large_enough(heads, bytes) {
        return answer::unsound();
    }
    *count = 0;
    answer::done(0, 0, 0)
}
