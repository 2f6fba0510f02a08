//! Laws over candidates.
ghost use Rattle.std.specs.Prelude.{ℕ, List};
ghost use Rattle.tb_base.specs.Lines.{AreDividedInto};
ghost use Rattle.tb_base.specs.Soundness.{IsSound};
ghost use Rattle.tb_base.specs.Sufficiency.{AreSufficient};
ghost use Rattle.tb_base.specs.TimetableData.{TimetableData};
ghost use Rattle.tb_base.specs.Transfers.{candidates};

/// The candidates are sufficient: each is possible, and wherever a journey changes, a ride is saved
/// or a candidate serves.
pub fn candidates_sufficient()
    ensures { (T : TimetableData) (lines : List (List ℕ)) →
        IsSound T → AreDividedInto T lines → AreSufficient T (candidates T lines) }
{
    tb_laws::sufficiency::candidates_sufficient();
}
