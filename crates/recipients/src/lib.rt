// The set of recipients.
#![tactic(auto)]

ghost use Rattle.std.specs.Prelude.{◌≡◌, ◌^◌, ◌≤◌, ◌<◌, List, ℕ, length};
ghost use Rattle.field.specs.Choice.{pick};
ghost use Rattle.recipients.specs.Recipients.{sender, greeted_but, is_greeted_but, recipient_set};
ghost use Rattle.soundness.specs.Sound.{connections};

// The bit of a connection that is greeted and not the one left out, and else 0.
#[tactic(auto, unfolding(field::specs::Choice::pick))]
fn bit_of(mark: u8, c: usize, left_out: Option<usize>) -> u16
    requires { c < connections }
    ensures { result ≡ pick (is_greeted_but left_out mark c) (2 ^ c) 0 }
{
    if mark == soundness::GREETED && left_out != Some(c) {
        1 << c
    } else {
        0
    }
}

// All greeted connections but one, or all.
// Stays: a slice of 16 or more, since `&[u8; 16]` would be a narrower type.
pub fn greeted_but(marks: &[u8], left_out: Option<usize>) -> u16
    requires { connections ≤ length marks.now }
    ensures { result ≡ recipient_set (greeted_but left_out) marks.now }
{
    let mut set = 0;
    for (c, mark) in marks[..soundness::CONNECTIONS].iter().enumerate() {
        set += bit_of(*mark, c, left_out);
    }
    set
}

// The sender alone.
#[tactic(auto, using(crate::proofs::RecipientLaws::sender_set))]
pub fn only_sender(c: usize) -> u16
    requires { c < connections }
    ensures { (marks : List ℕ) → result ≡ recipient_set (sender c) marks }
{
    1 << c
}
