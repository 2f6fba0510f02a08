//! The best values, with journeys.
ghost use Rattle.std.specs.Prelude.{◌≡◌, ℕ, ◌<◌, ◌≤◌, ◌+◌, ◌∷◌, List, length, map, All, IfOk, OnOk, IfSome, IsSomeAnd, MatchBool, pos, ◌<ℤ◌, ◌≤ℤ◌};
ghost use Rattle.tb_base.specs.BestValues.{AreBestValues, ChoiceData};
ghost use Rattle.tb_base.specs.JourneyRules.{SpellValue};
ghost use Rattle.plain_rounds.specs.Labels.{AreEarly};
ghost use Rattle.plain_rounds.specs.Rides.{AreArrivals};
ghost use Rattle.plain_rounds.specs.Hits.{IsArrivalHit};
ghost use Rattle.plain_rounds.specs.Shown.{IsInside, SpellShortest};
ghost use Rattle.plain_rounds.specs.PlainAnswer.{IsPlainAnswer, IsRound, IsShownWithin};
ghost use Rattle.plain_rounds.specs.declared.arrivals.PlainRide.{PlainRide as StepData};
ghost use Rattle.tb_base.specs.TimetableData.{stop_at};

use super::arrivals::{PlainRide, StopArrivals};
use super::hits::{TargetArrival, best_hit, best_walk};
use super::labels::StopLabel;
use super::legs::{Walks, nearest, rides_to, spell};
use super::rounds::Rounds;
use std::alloc::Global;
use tb_base::{Choice, Leg, Memory, Query, Sec, StopNo, Timetable, Value};

/// The best values so far, and the last arrival.
#[derive(Drop)]
struct PlainAnswer {
    choices: Vec<Choice>,
    best: Option<Sec>,
}

// Whether a time is before the last arrival, where there is one.
fn is_better(best: Option<Sec>, arrive: Sec) -> bool
    ensures { MatchBool result (IfSome best (λ b. arrive <ℤ b)) (IsSomeAnd best
        (λ b. b ≤ℤ arrive)) }
{
    match best {
        Some(best) => arrive < best,
        None => true,
    }
}

// The stop where the first of some rides is boarded.
fn first_stop(table: &Timetable, rides: &[PlainRide]) -> StopNo
    requires some { 0 < length rides.now }
    requires rides { All (IsInside table.now) rides.now }
    ensures inside { result < length table.now.stops }
    ensures stop { (f : StepData) (rest : List StepData) → rides.now ≡ f ∷ rest → result
        ≡ stop_at table.now f.trip f.board }
{
    table.soundness();
    let trip = rides[0].trip;
    let board = rides[0].board;
    let events = table.trip(trip).events.as_slice();
    events[board as usize].stop
}

// The legs of the rides to a hit, from the nearest origin.
fn legs_to(
    alloc: Global,
    table: &Timetable,
    query: &Query,
    ridden: &[PlainRide],
    hit: &TargetArrival,
) -> Result<Vec<Leg>, Memory>
    requires origins { All (λ p. p < length table.now.stops) query.now.from }
    requires targets { All (λ p. p < length table.now.stops) query.now.to }
    requires hit { (most : ℕ) × IsArrivalHit table.now query.now ridden.now most hit.now }
    ensures { IfOk result (λ legs. (most : ℕ) → IsArrivalHit table.now query.now ridden.now most
        hit.now → IsShownWithin table.now query.now most legs.items hit.now.arrive) }
{
    let rides = rides_to(alloc, ridden, hit.ride)?;
    let start = first_stop(table, rides.as_slice());
    match nearest(table, &Walks::To(start), query.from.as_slice()) {
        Some(origin) => spell(alloc, table, origin.stop, rides.as_slice(), hit.target),
        None => unreachable!(),
    }
}

impl PlainAnswer {
    // The earliest walk, where there is one.
    fn walk(alloc: Global, table: &Timetable, query: &Query) -> Result<PlainAnswer, Memory>
        requires origins { All (λ p. p < length table.now.stops) query.now.from }
        requires targets { All (λ p. p < length table.now.stops) query.now.to }
        requires time { query.now.leave ≤ℤ pos 359999 }
        ensures { IfOk result (λ answer. IsPlainAnswer table.now query.now 0 answer.choices.items
            answer.best) }
    {
        let mut choices = Vec::new(alloc);
        let start = StopLabel {
            time: query.leave,
            ride: None,
        };
        let walk = best_walk(table, query.from.as_slice(), query.to.as_slice(), start);
        let Some(hit) = walk else {
            return Ok(PlainAnswer {
                choices,
                best: None,
            });
        };
        let legs = spell(alloc, table, hit.from, &[], hit.target)?;
        let value = Value {
            arrive: hit.arrive,
            rides: 0,
        };
        choices.push(Choice { value, legs })?;
        Ok(PlainAnswer {
            choices,
            best: Some(hit.arrive),
        })
    }

    // Adds the earliest arrival by one more ride, where that is better.
    fn add(
        &mut self,
        alloc: Global,
        table: &Timetable,
        query: &Query,
        arrivals: &StopArrivals,
        rides: u32,
    ) -> Result<(), Memory>
        requires targets { All (λ p. p < length table.now.stops) query.now.to }
        requires origins { All (λ p. p < length table.now.stops) query.now.from }
        requires early { AreEarly arrivals.now.labels.items }
        requires arrivals { AreArrivals table.now query.now rides arrivals.now }
        requires answer { (most : ℕ) × (rides ≡ most + 1)
            × IsPlainAnswer table.now query.now most self.old.choices.items self.old.best }
        ensures { OnOk result (IsPlainAnswer table.now query.now rides self.new.choices.items
            self.new.best) }
    {
        let best = best_hit(table, query.to.as_slice(), arrivals.labels.as_slice());
        let Some(hit) = best else {
            return Ok(());
        };
        if !is_better(self.best, hit.arrive) {
            return Ok(());
        }
        let legs = legs_to(alloc, table, query, arrivals.ridden.as_slice(), &hit)?;
        let value = Value {
            arrive: hit.arrive,
            rides,
        };
        self.choices.push(Choice { value, legs })?;
        self.best = Some(hit.arrive);
        Ok(())
    }
}

// Where one can board before any ride.
fn begin(alloc: Global, table: &Timetable, query: &Query) -> Result<Rounds, Memory>
    requires origins { All (λ p. p < length table.now.stops) query.now.from }
    requires time { query.now.leave ≤ℤ pos 359999 }
    ensures { IfOk result (λ rounds. IsRound table.now query.now 0 rounds) }
{
    let start = StopLabel {
        time: query.leave,
        ride: None,
    };
    let rounds = Rounds::new(alloc, table, query.from.as_slice(), start)?;
    Ok(rounds)
}

/// The best values in order, each with the legs of a journey that has it, by the shortest walks at
/// both ends.
pub fn plain_ask(alloc: Global, table: &Timetable, query: &Query) -> Result<Vec<Choice>, Memory>
    requires origins { All (λ p. p < length table.now.stops) query.now.from }
    requires targets { All (λ p. p < length table.now.stops) query.now.to }
    requires time { query.now.leave ≤ℤ pos 359999 }
    ensures values { IfOk result (λ cs. AreBestValues table.now query.now
        (map ChoiceData.value cs.items)) }
    ensures journeys { IfOk result (λ cs. All (λ c. SpellValue table.now query.now
        (ChoiceData.legs c) (ChoiceData.value c)) cs.items) }
    ensures walks { IfOk result (λ cs. All (λ c. SpellShortest table.now query.now
        (ChoiceData.legs c) (ChoiceData.value c)) cs.items) }
{
    table.soundness();
    let mut answer = PlainAnswer::walk(alloc, table, query)?;
    let mut rounds = begin(alloc, table, query)?;
    let mut rides = 0;
    while rounds.ride(table)? {
        rides += 1;
        answer.add(alloc, table, query, &rounds.arrivals, rides)?;
        rounds.change(table);
    }
    Ok(answer.choices)
}
