ghost use Rattle.std.specs.Prelude.{◌≡◌, List, All, AllPairs, Contains};
ghost use Rattle.tb_base.specs.BestValues.{AreBestValues, IsAttained, IsBest, IsStep, IsNoWorse, QueryData};
ghost use Rattle.tb_base.specs.Soundness.{IsSound};
ghost use Rattle.tb_base.specs.TimetableData.{TimetableData};
ghost use Rattle.tb_base.specs.Wider.{HasAllOf};
ghost use Rattle.tb_base.specs.declared.query.Value.{Value};

/// The best values are one list.
pub fn best_values_unique()
    ensures { (T : TimetableData) (Q : QueryData) (vs ws : List Value) → AreBestValues T Q vs →
        AreBestValues T Q ws → vs ≡ ws }
{}

/// Each attained value has a best value that is no worse.
pub fn best_values_cover()
    ensures { (T : TimetableData) → IsSound T → (Q : QueryData) (vs : List Value) →
        AreBestValues T Q vs → (w : Value) →
        IsAttained T Q w → (v : Value) × Contains vs v × IsNoWorse v w }
{}

/// The same without the list: it cannot be that no best value is no worse than an attained one.
pub fn no_best_is_absurd()
    ensures { (T : TimetableData) → IsSound T → (Q : QueryData) (w : Value) → IsAttained T Q w →
        ((v : Value) → IsBest T Q v → IsNoWorse v w → ⊥) → ⊥ }
{}

/// Further trips make nothing worse: what is attained in a timetable has a best value that is no
/// worse in each one with the same stops, stations and footpaths, and with all its trips.
pub fn wider_no_worse()
    ensures { (T U : TimetableData) → IsSound U → HasAllOf U T → (Q : QueryData) (vs : List Value) →
        AreBestValues U Q vs → (v : Value) →
        IsAttained T Q v → (w : Value) × Contains vs w × IsNoWorse w v }
{}

/// Attained values with ever more rides and ever earlier arrivals, all best values among them, are
/// the best values.
pub fn best_values_from_staircase()
    ensures { (T : TimetableData) (Q : QueryData) (vs : List Value) → IsSound T →
        All (IsAttained T Q) vs →
        ((v : Value) → IsBest T Q v → Contains vs v) → AllPairs IsStep vs → AreBestValues T Q vs }
{}
