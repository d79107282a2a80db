// Why a client's message is done, ignored or refused, as C has it: heads become numbers, and nothing is changed.
#![tactic(auto)]

ghost use Rattle.std.specs.Prelude.{◌≡◌};
ghost use Rattle.nt2.specs.Lent.{lent};
ghost use Rattle.nt2_why.specs.Lent.{heads_why};

use heads::Head;
use table::Table;
use why::ReasonAnswer;

// Stays: C interface. nt2_c exports it with C's signature, which lends each part of the memory by itself.
#[tactic(auto, using(crate::proofs::FewLaws::few_reason))]
pub fn nt2_why(
    heads: &[Head],
    bytes: &[u8],
    count: &u16,
    marks: &[u8],
    connection: usize,
    message: &[u8],
) -> ReasonAnswer
    ensures { result ≡ heads_why (lent heads.now bytes.now count.now marks.now) connection message.now }
{
    heads::read(
        heads,
        &mut |flat: &[u16]| {
            let table = Table {
                heads: flat,
                bytes,
                count: *count,
            };
            why::why_answer(table, marks, connection, message)
        },
    )
}
