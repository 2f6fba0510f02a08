//! Laws over U-turns.
ghost use Rattle.std.specs.Prelude.{◌≡◌, ℕ, List, filter, not};
ghost use Rattle.tb_base.specs.TimetableData.{TimetableData};
ghost use Rattle.tb_base.specs.Transfers.{candidates, candidates_without_u_turns, transfers_of};
ghost use Rattle.uturn_cut.specs.UTurns.{is_u_turn_row};

/// A trip's candidates without the U-turns are the transfers by those of its candidates that are no
/// U-turns.
pub fn candidates_cut()
    ensures { (T : TimetableData) (lines : List (List ℕ)) (t : ℕ) →
        filter (λ r. not (is_u_turn_row T r)) (transfers_of T (candidates T lines t) t)
        ≡ transfers_of T (candidates_without_u_turns T lines t) t }
{}
