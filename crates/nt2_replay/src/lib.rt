// A line record run again, as C has it: heads become numbers once, all records are done on them, and they become heads again.
#![tactic(auto)]

ghost use Rattle.std.specs.Prelude.{◌≡◌};
ghost use Rattle.table.specs.Table.{max_entries};
ghost use Rattle.protocol.specs.Lent.{lent_server};
ghost use Rattle.line_record.specs.Replay.{replay, result_of};
ghost use Rattle.replay.specs.Lent.{replayed};
ghost use Rattle.nt2.specs.Lent.{lent};
ghost use Rattle.nt2_replay.specs.Lent.{heads_replayed, heads_replay};

use heads::Head;
use replay::Replayed;

// Stays: C interface. nt2_c exports it with C's signature, which lends each part of the memory by itself.
pub fn nt2_replay(
    heads: &mut [Head],
    bytes: &mut [u8],
    count: &mut u16,
    marks: &mut [u8],
    recorded: &[u8],
) -> Replayed
    ensures { heads_replayed result (lent heads.new bytes.new count.new marks.new)
        ≡ heads_replay (lent heads.old bytes.old count.old marks.old) recorded.now }
{
    heads::change(
        heads,
        &mut |flat: &mut [u16]|
            ensures { replayed result (lent_server flat.new bytes.exit.now count.exit.now marks.exit.now)
                ≡ result_of (replay max_entries (lent_server flat.old bytes.entry.now
                count.entry.now marks.entry.now) recorded.entry.now) }
        { replay::replay(flat, bytes, count, marks, recorded) },
    )
}
