//! Laws over travel times.
ghost use Rattle.std.specs.Prelude.{◌≡◌, ℕ, ℤ, ◌+ℤ◌, List, Option, Contains};
ghost use Rattle.tb_base.specs.BestValues.{AreBestValues, IsLeast};
ghost use Rattle.tb_base.specs.Soundness.{IsSound};
ghost use Rattle.tb_base.specs.TimetableData.{TimetableData};
ghost use Rattle.tb_base.specs.declared.query.Value.{Value};
ghost use Rattle.reach_all.specs.Reach.{query_to};
ghost use Rattle.reach_all.specs.TravelTimes.{IsTravelTime, IsWithin};

/// The travel time to a stop is the least arrival of the best values of the query to it, of those
/// with no more rides than the limit, minus the departure.
pub fn travel_time_of_best_values()
    ensures { (T : TimetableData) → IsSound T → (from : List ℕ) (most : Option ℕ) (leave : ℤ)
        (stop : ℕ) (values : List Value) → AreBestValues T (query_to from leave stop) values →
        (time : Option ℤ) →
        IsLeast (λ secs. (v : Value) × Contains values v × IsWithin most v.rides
        × (v.arrive ≡ leave +ℤ secs)) time → IsTravelTime T from most leave stop time }
{}
