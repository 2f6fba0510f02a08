//! Laws over lines.
ghost use Rattle.std.specs.Prelude.{◌≡◌, ℕ, List};
ghost use Rattle.tb_base.specs.TimetableData.{TimetableData};
ghost use Rattle.tb_base.specs.Lines.{AreDividedInto, AreLines, IsTripOrder};

/// The lines of a timetable are all its trips, each once, and along a line stops and marks are the
/// same and no time falls.
pub fn lines_divide()
    ensures { (T : TimetableData) (lines : List (List ℕ)) →
        AreLines T lines → AreDividedInto T lines }
{}

/// The order of the trips is one list.
pub fn trip_order_unique()
    ensures { (T : TimetableData) (us vs : List ℕ) →
        IsTripOrder T us → IsTripOrder T vs → us ≡ vs }
{}

/// The lines are one list.
pub fn lines_unique()
    ensures { (T : TimetableData) (ks ls : List (List ℕ)) →
        AreLines T ks → AreLines T ls → ks ≡ ls }
{}
