// What C's calls hand on to where the core has another form: the server's memory lent in parts, and a scalar as C's struct.
#![tactic(auto)]

ghost use Rattle.std.specs.Prelude.{◌≡◌, [], Err, false};
ghost use Rattle.field.specs.declared.Refusal.TheVariants.{Unsound};
ghost use Rattle.table.specs.Memory.{memory_of};
ghost use Rattle.table.specs.Table.{max_entries};
ghost use Rattle.protocol.specs.Judge.{client_message};
ghost use Rattle.protocol.specs.Step.{read_scalar};
ghost use Rattle.protocol.specs.Place.{step_with_place};
ghost use Rattle.protocol.specs.Lent.{lent_server, lent_call, answered};
ghost use Rattle.judge.specs.Decision.{mark_call};
ghost use Rattle.flat.specs.Answers.{scalar_answer};

use answer::{Answer, Answered};
use field::{DONE, Refusal};
use judge::MarkChange;
use protocol::Memory;
use scalar::Scalar;
use table::Table;

// What reading an entry answers: 0 a Boolean is found, 1 a Double, 2 neither.
// Stays: a number for what is found, with a place for each, since it is C's struct.
#[repr(C)]
#[derive(Drop)]
pub struct ScalarAnswer {
    pub number: u8,
    pub found: u8,
    pub flag: bool,
    pub value: f64,
}

// The answer on memory that is unsound or too small: a number alone. All other answers are made of it.
// Stays: no plainer. `as u8`, since From is not for a const.
pub const ON_UNSOUND: ScalarAnswer = ScalarAnswer {
    number: Refusal::Unsound as u8,
    found: 0,
    flag: false,
    value: 0.0,
};

impl Answered for ScalarAnswer {
    ghost on_unsound = { scalar_answer (Err Unsound) };

    ghost changes_heads = { λ _. false };

    fn on_unsound() -> ScalarAnswer {
        ON_UNSOUND
    }

    fn changes_heads(&self) -> bool {
        false
    }
}

impl From<Result<Scalar, Refusal>> for ScalarAnswer {
    ghost from_gives = { λ read answer. answer ≡ scalar_answer read };

    fn from(read: Result<Scalar, Refusal>) -> ScalarAnswer {
        match read {
            Ok(Scalar::Boolean(flag)) => ScalarAnswer {
                number: DONE,
                flag,
                ..ON_UNSOUND
            },
            Ok(Scalar::Double(value)) => ScalarAnswer {
                number: DONE,
                found: 1,
                value,
                ..ON_UNSOUND
            },
            Ok(Scalar::Neither) => ScalarAnswer {
                number: DONE,
                found: 2,
                ..ON_UNSOUND
            },
            Err(refusal) => ScalarAnswer {
                number: u8::from(refusal),
                ..ON_UNSOUND
            },
        }
    }
}

// Reading an entry.
pub fn read(table: Table, id: u16) -> ScalarAnswer
    ensures { result ≡ scalar_answer (read_scalar max_entries (memory_of table.entry) id) }
{
    ScalarAnswer::from(server::read(table, id))
}

// The same answer: it goes on in its parts (docs/DECISIONS.md, Speed).
#[inline(always)]
fn in_parts(answer: Answer) -> Answer
    ensures { result ≡ answer }
{
    let Answer {
        number,
        recipients,
        taken,
        sent,
        place,
    } = answer;
    Answer {
        number,
        recipients,
        taken,
        sent,
        place,
    }
}

// A connection opens or leaves. It is put into its callers, which then write the answer's parts at once.
#[inline(always)]
pub fn change_mark(
    heads: &[u16],
    bytes: &[u8],
    count: u16,
    marks: &mut [u8],
    c: usize,
    change: MarkChange,
) -> Answer
    ensures { answered result (lent_server heads.now bytes.now count marks.new) []
        ≡ step_with_place max_entries (lent_server heads.now bytes.now count marks.old)
        (record { call = mark_call change c; output = [] }) }
{
    let table = Table {
        heads,
        bytes,
        count,
    };
    in_parts(server::change_mark(table, marks, c, change))
}

// One message of a client.
// Stays: tried in the closure, and it is refused: the borrow check does not cover a struct of lent slices there.
pub fn receive(
    heads: &mut [u16],
    bytes: &mut [u8],
    count: &mut u16,
    marks: &mut [u8],
    c: usize,
    m: &[u8],
    out: &mut [u8],
) -> Answer
    ensures { answered result (lent_server heads.new bytes.new count.new marks.new) out.new
        ≡ step_with_place max_entries (lent_server heads.old bytes.old count.old marks.old)
        (lent_call (client_message c m.now) out.old) }
{
    let mut memory = Memory {
        heads,
        bytes,
        count,
        marks,
    };
    in_parts(server::receive(&mut memory, c, m, out))
}
