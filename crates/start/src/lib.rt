// The fresh starts: of the server's memory here, of a copy in `copy`.
#![tactic(auto)]

mod copy;

ghost use Rattle.std.specs.Prelude.{◌≡◌, ◌≤◌, length, replicate};
ghost use Rattle.field.specs.Octets.{overwrite_at};
ghost use Rattle.answer.specs.Answers.{bare_answer};
ghost use Rattle.table.specs.Table.{max_entries};
ghost use Rattle.soundness.specs.Sound.{closed, connections, large_enough};
ghost use Rattle.protocol.specs.Step.{fresh_start};
ghost use Rattle.protocol.specs.Lent.{lent_server};

use answer::Answer;
pub use copy::copy_fresh;
use soundness::CONNECTIONS;

// Whether there is room for the most entries.
#[tactic(auto, using(std::proofs::lemmas::Bool::Decides::leb_tells), unfolding(soundness::specs::Sound::large_enough))]
fn large_enough(heads: &[u16], bytes: &[u8]) -> bool
    ensures { result ≡ large_enough max_entries heads.now bytes.now }
{
    heads.len() >= table::HEADS_SIZE && bytes.len() >= table::BYTES_SIZE
}

// Stays: C interface. So many marks are asked for: `&mut [u8; 16]` would be narrower than what C lends.
#[tactic(auto, unfolding(field::specs::Octets::overwrite_at))]
fn close_all(marks: &mut [u8])
    requires { connections ≤ length marks.old }
    ensures { marks.new ≡ overwrite_at marks.old 0 (replicate connections closed) }
{
    marks[..CONNECTIONS].fill(soundness::CLOSED);
}

// Memory for a fresh start: the count becomes 0, and all connections are closed.
// Stays: the parts apart, and no `Memory`, since heads and bytes are only measured, so they are lent to be read.
#[tactic(auto, unfolding(protocol::specs::Step::fresh_start, field::specs::Choice::pick))]
pub fn fresh(heads: &[u16], bytes: &[u8], count: &mut u16, marks: &mut [u8]) -> Answer
    ensures answer { result ≡ bare_answer (fresh_start max_entries (lent_server heads.now bytes.now count.old marks.old)).number }
    ensures memory { lent_server heads.now bytes.now count.new marks.new
        ≡ (fresh_start max_entries (lent_server heads.now bytes.now count.old marks.old)).memory }
{
    if !large_enough(heads, bytes) || marks.len() < CONNECTIONS {
        return answer::unsound();
    }
    close_all(marks);
    *count = 0;
    answer::done(0, 0, 0)
}
