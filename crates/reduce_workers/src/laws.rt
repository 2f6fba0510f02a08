//! Laws over kept transfers.
ghost use Rattle.std.specs.Prelude.{ℕ, List};
ghost use Rattle.tb_base.specs.Lines.{AreDividedInto};
ghost use Rattle.tb_base.specs.OutSets.{AreRowsOf};
ghost use Rattle.tb_base.specs.Soundness.{IsSound};
ghost use Rattle.tb_base.specs.TimetableData.{TimetableData};
ghost use Rattle.reduce_workers.specs.Reductions.{reduced};

/// The kept transfers of all trips are one list a trip, of transfers from its events.
pub fn kept_rows()
    ensures { (T : TimetableData) (lines : List (List ℕ)) →
        IsSound T → AreDividedInto T lines → AreRowsOf T (reduced T lines).rows }
{}
