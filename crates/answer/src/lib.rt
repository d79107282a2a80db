// What a call answers with.
#![tactic(auto)]

ghost use Rattle.std.specs.Prelude.{◌≡◌, Bool, eqb};
ghost use Rattle.field.specs.Answer.{done, output_too_short, unsound};
ghost use Rattle.answer.specs.Answers.{bare_answer, refused_answer, ignored_answer, done_answer, goes_on};

use field::{DONE, Fault, IGNORED, Refusal};

// What a call answers: its number, the set of recipients, bytes taken and bytes sent, and the place of the field that failed.
#[repr(C)]
#[derive(Drop)]
pub struct Answer {
    // Stays: the number of a call that is done, of one that is ignored, or of a refusal; C's struct has it as a byte.
    pub number: u8,
    pub recipients: u16,
    pub taken: usize,
    pub sent: usize,
    pub place: usize,
}

// What a call on a table answers.
pub trait Answered {
    // the answer on memory that is unsound or too small
    ghost on_unsound: { Self };

    // whether heads may have changed
    ghost changes_heads: { Self → Bool };

    fn on_unsound() -> Self
        ensures { result ≡ on_unsound };

    fn changes_heads(&self) -> bool
        ensures { result ≡ changes_heads self.now };
}

// The answer on memory that is unsound or too small: a number alone. All other answers are made of it.
// Stays: `as u8`, since no From may be called in a constant.
pub const ON_UNSOUND: Answer = Answer {
    number: Refusal::Unsound as u8,
    recipients: 0,
    taken: 0,
    sent: 0,
    place: 0,
};

impl Answered for Answer {
    ghost on_unsound = { bare_answer unsound };

    ghost changes_heads = { λ a. eqb a.number done };

    fn on_unsound() -> Answer {
        ON_UNSOUND
    }

    fn changes_heads(&self) -> bool {
        self.number == DONE
    }
}

pub fn unsound() -> Answer
    ensures { result ≡ bare_answer unsound }
{
    ON_UNSOUND
}

// The output is shorter than what would be sent.
pub fn no_room() -> Answer
    ensures { result ≡ bare_answer output_too_short }
{
    Answer {
        number: u8::from(Refusal::OutputTooShort),
        ..ON_UNSOUND
    }
}

// Stays, and so does `ignored`: crates client and fields have functions like them, for structs of C's with other fields.
pub fn refused(fault: Fault) -> Answer
    ensures { result ≡ refused_answer fault }
{
    Answer {
        number: fault.number(),
        place: fault.reported_place(),
        ..ON_UNSOUND
    }
}

pub fn ignored(taken: usize) -> Answer
    ensures { result ≡ ignored_answer taken }
{
    Answer {
        number: IGNORED,
        taken,
        ..ON_UNSOUND
    }
}

pub fn done(recipients: u16, taken: usize, sent: usize) -> Answer
    ensures { result ≡ done_answer recipients taken sent }
{
    Answer {
        number: DONE,
        recipients,
        taken,
        sent,
        ..ON_UNSOUND
    }
}

// Done or ignored: the message is taken, and what stands behind it comes next.
pub fn goes_on(number: u8) -> bool
    ensures { result ≡ goes_on number }
{
    matches!(number, DONE | IGNORED)
}
