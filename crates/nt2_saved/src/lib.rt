// Saving and loading a table, as C has it: heads become numbers, and those of a load become heads again.
#![tactic(auto)]

ghost use Rattle.std.specs.Prelude.{◌≡◌};
ghost use Rattle.saved.specs.Calls.{save_result};
ghost use Rattle.nt2.specs.Lent.{lent, lent_table, heads_loaded, heads_load};
ghost use Rattle.nt2_saved.specs.Lent.{heads_save};

use answer::Answer;
use heads::Head;
use table::Table;

// Stays: C interface. nt2_c exports nt2_save and nt2_load with C's signatures, which lend each part of the memory by itself.
#[tactic(auto, using(crate::proofs::CallLaws::few_saved))]
pub fn nt2_save(heads: &[Head], bytes: &[u8], count: &u16, out: &mut [u8]) -> Answer
    ensures { save_result result out.new
        ≡ heads_save (lent_table heads.now bytes.now count.now) out.old }
{
    heads::read(
        heads,
        &mut |flat: &[u16]| {
            let table = Table {
                heads: flat,
                bytes,
                count: *count,
            };
            save::save(table, out)
        },
    )
}

pub fn nt2_load(
    heads: &mut [Head],
    bytes: &mut [u8],
    count: &mut u16,
    marks: &[u8],
    saved: &[u8],
) -> Answer
    ensures { heads_loaded result (lent_table heads.new bytes.new count.new)
        ≡ heads_load (lent heads.old bytes.old count.old marks.now) saved.now }
{
    heads::change(
        heads,
        &mut |flat: &mut [u16]| load::load(flat, bytes, count, marks, saved),
    )
}
