//! Laws over what is kept.
ghost use Rattle.std.specs.Prelude.{◌≡◌, ℕ, ℤ, List, Option};
ghost use Rattle.tb_base.specs.Lines.{AreDividedInto};
ghost use Rattle.tb_base.specs.Soundness.{IsSound};
ghost use Rattle.tb_base.specs.Sufficiency.{AreSufficient};
ghost use Rattle.tb_base.specs.TimetableData.{TimetableData};
ghost use Rattle.tb_base.specs.Transfers.{candidates_without_u_turns, kept_hops, transfers_of};
ghost use Rattle.tb_base.specs.declared.transfer.Transfer.{Transfer};
ghost use Rattle.transfer_reduce.specs.Reduced.{IsReducedTo};

/// The candidates that are no U-turns are sufficient, under the law on footpaths that sound parts
/// keep.
pub fn candidates_without_u_turns_sufficient()
    ensures { (T : TimetableData) (lines : List (List ℕ)) →
        IsSound T → AreDividedInto T lines → AreSufficient T (candidates_without_u_turns T lines) }
{
    tb_laws::sufficiency::candidates_without_u_turns_sufficient();
}

/// The kept hops are sufficient: each is possible, and wherever a journey changes, a ride is saved
/// or a kept hop serves.
pub fn kept_hops_sufficient()
    ensures { (T : TimetableData) (lines : List (List ℕ)) →
        IsSound T → AreDividedInto T lines → AreSufficient T (kept_hops T lines) }
{
    tb_laws::sufficiency::kept_hops_sufficient();
}

/// What is kept of a trip that is reduced down to its first event are its kept transfers.
pub fn reduced_kept()
    ensures { (T : TimetableData) (lines : List (List ℕ)) (t : ℕ) (kept : List Transfer)
        (labels : List (Option ℤ)) → IsReducedTo T lines t 0 kept labels →
        kept ≡ transfers_of T (kept_hops T lines t) t }
{}
