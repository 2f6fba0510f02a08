//! Laws over all runs of a store, and laws of the mirror.
ghost use Rattle.std.specs.Prelude.{◌<◌, List, length, ◌≡◌, map};
ghost use Rattle.history.specs.Lists.{Shown};
ghost use Rattle.tb_base.specs.BestValues.{AreBestValues, HasValue};
ghost use Rattle.tb_base.specs.JourneyRules.{SpellValue};
ghost use Rattle.tb_base.specs.Journeys.{Journey};
ghost use Rattle.tb_base.specs.Soundness.{IsSound};
ghost use Rattle.tb_base.specs.TimetableData.{TimetableData};
ghost use Rattle.tb_base.specs.declared.query.Leg.{Leg};
ghost use Rattle.tb_base.specs.declared.query.Value.{Value};
ghost use Rattle.edition_store.specs.AfterRun.{IsAfterRun};
ghost use Rattle.edition_store.specs.Departures.{AreLatest, ArrivalData, HasLeaving, LeavingData, SpellLeaving, leaving_from, mirror_query, value_from};
ghost use Rattle.edition_store.specs.Mirror.{IsMirror};
ghost use Rattle.edition_store.specs.Rules.{IsKept};
ghost use Rattle.edition_store.specs.Steps.{PinsFollow, PinsStay};
ghost use Rattle.edition_store.specs.Tied.{IsTied};
ghost use Rattle.edition_store.specs.TurnedJourneys.{turn_journey, turn_legs};

/// Each list that a seat pins begins with all that the seat knew, and the list that is published in
/// the end begins with it.
pub fn pins_follow<E>()
    ensures before { (first : E) → PinsFollow first }
    ensures after { (first : E) → PinsStay first }
{}

/// The list after any run of a store is what the history of its publications and its end shows.
pub fn history_is<E>()
    ensures { (first : E) → IsTied first }
{}

/// Wherever the rule of the two copies holds, as it does between any two steps, they are what some
/// run of the store leaves: its list is the published one, and what a side saw last is what a seat
/// knows, unless it has seen nothing yet.
pub fn rule_is_of_a_run<E>()
    ensures { (z : Shown E) (views : List (Shown E)) → 0 < length z.list → IsKept z views →
        IsAfterRun z views }
{}

/// A timetable is the mirror of its mirror, and its mirror has no other.
pub fn mirror_twice()
    ensures back { (T M : TimetableData) → IsMirror T M → IsMirror M T }
    ensures same { (T M N : TimetableData) → IsSound T → IsSound N → IsMirror T M →
        IsMirror M N → N ≡ T }
{}

/// The best values of the mirror, when one leaves the targets, are the latest departures.
pub fn latest_by_mirror()
    ensures { (T M : TimetableData) → IsMirror T M → (A : ArrivalData) (vs : List Value) →
        AreBestValues M (mirror_query A) vs → AreLatest T A (map leaving_from vs) }
{}

/// A journey that arrives in time is, turned round, a journey of the mirror that leaves no earlier
/// than the mirrored time, with the value that its departure stands for; and the other way round.
pub fn journeys_turn()
    ensures there { (T M : TimetableData) → IsMirror T M → (A : ArrivalData) (j : Journey)
        (d : LeavingData) → HasLeaving T A j d →
        HasValue M (mirror_query A) (turn_journey T j) (value_from d) }
    ensures back { (T M : TimetableData) → IsMirror T M → (A : ArrivalData) (j : Journey)
        (v : Value) → HasValue M (mirror_query A) j v →
        HasLeaving T A (turn_journey M j) (leaving_from v) }
{}

/// Legs of the mirror that spell a journey with a value spell, turned round, a journey with the
/// departure that it stands for.
pub fn legs_turn()
    ensures { (T M : TimetableData) → IsMirror T M → (A : ArrivalData) (legs : List Leg)
        (v : Value) → SpellValue M (mirror_query A) legs v →
        SpellLeaving T A (turn_legs M legs) (leaving_from v) }
{}
