//! Laws over searches.
ghost use Rattle.std.specs.Prelude.{◌≡◌, ◌<◌, ◌∷◌, [], ℕ, ℤ, List, Option};
ghost use Rattle.tb_base.specs.BestValues.{IsAttained, IsBest, QueryData};
ghost use Rattle.tb_base.specs.Network.{NetData};
ghost use Rattle.tb_base.specs.Search.{IsFound, RoundSegment};
ghost use Rattle.tb_base.specs.Soundness.{IsSound};
ghost use Rattle.tb_base.specs.Sufficiency.{AreSufficient};
ghost use Rattle.tb_base.specs.declared.query.Value.{Value};
ghost use Rattle.tb_laws.specs.Pruning.{IsLate, IsPrunedSearch};
ghost use Rattle.segment_queue.specs.Queue.{DeskData};
ghost use Rattle.segment_queue.specs.Traced.{IsAnswered, round_segments};
ghost use Rattle.segment_queue.specs.declared.desk.Segment.{Segment};
ghost use Rattle.earliest_query.specs.Parts.{ArePartsOf};
ghost use Rattle.earliest_query.specs.Sweeping.{IsSweptTo};

/// Where parts of the segments of a search over a sufficient set go on from everywhere, as for a
/// query without targets, the search finds for every stop each best value with rides: by alighting
/// at an event of a segment that was entered in the round of so many rides.
pub fn best_values_at_every_stop()
    ensures { (N : NetData) (from : List ℕ) (leave : ℤ) (segments : List Segment) →
        (parts : List RoundSegment) → ArePartsOf (round_segments segments) parts →
        IsPrunedSearch N.table N.hops from leave [] parts →
        AreSufficient N.table N.hops → (stop : ℕ) (v : Value) →
        IsBest N.table (record { from = from; to = stop ∷ []; leave = leave }) v → 0 < v.rides →
        IsFound N.table (stop ∷ []) (round_segments segments) v }
{}

/// A query without targets has no hits: its search holds nothing against an arrival. With what
/// `earliest` says of its segments this makes them the ones that the law above speaks of.
pub fn no_target_no_hit()
    ensures { (N : NetData) (Q : QueryData) (D : DeskData) → IsAnswered N Q D → Q.to ≡ [] →
        D.hits ≡ [] }
{}

/// A sweep over a sufficient set that has come down to the time of a query holds, for each journey
/// that leaves no earlier, a value that is no worse.
pub fn swept_values()
    ensures { (N : NetData) (Q : QueryData) (D : DeskData) (levels : List (List (Option ℕ)))
        (values : List Value) → IsSweptTo N Q D levels values →
        IsSound N.table → AreSufficient N.table N.hops →
        (w : Value) → IsAttained N.table Q w → IsLate values w.arrive w.rides }
{}
