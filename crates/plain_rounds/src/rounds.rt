//! Rounds: what can be reached with ever more rides.
ghost use Rattle.std.specs.Prelude.{◌≡◌, ℕ, ◌<◌, ◌≤◌, ◌+◌, length, sum, All, IfOk, OnOk, MatchBool, MatchOption, Option, None, [], replicate, map, pos, ◌≤ℤ◌, slice_index_or};
ghost use Rattle.tb_base.specs.TimetableData.{no_event};
ghost use Rattle.plain_rounds.specs.Labels.{Takes, AreEarly, IsOfferedByChange, IsOfferedByOrigin};
ghost use Rattle.plain_rounds.specs.Rounds.{AreKept, last_index, IsBoardable, LetsBoard, NoneBoards, TakesRides};

use super::arrivals::{FirstBoarding, StopArrivals};
use super::labels::{StopLabel, offer_all_changes, offer_origins};
use std::alloc::Global;
use tb_base::{Event, Memory, Sec, StopNo, Timetable, TripNo};

/// What is reached by the rides so far.
#[derive(Drop)]
pub(crate) struct Rounds {
    /// By stop, the least time from which a trip can be boarded there.
    pub ready: Vec<Option<StopLabel>>,
    /// The least arrivals.
    pub arrivals: StopArrivals,
    /// By trip, the first index where it was boarded, and its last index where it was not.
    pub boarded_at: Vec<u32>,
}

// The label of the event's stop, where one can board there.
fn boarding_label(ready: &[Option<StopLabel>], event: &Event) -> Option<StopLabel>
    requires { event.now.stop < length ready.now }
    ensures { MatchOption result ((before : Option ℕ) → LetsBoard ready.now event.now before → ⊥)
        (λ l. LetsBoard ready.now event.now l.ride) }
{
    if !event.board {
        return None;
    }
    match ready[event.stop.index()] {
        Some(label) => {
            if label.time <= event.dep {
                Some(label)
            } else {
                None
            }
        }
        None => None,
    }
}

// Where one can board a trip first, before an index.
fn first_boarding(
    ready: &[Option<StopLabel>],
    events: &[Event],
    until: u32,
) -> Option<FirstBoarding>
    requires until { until < length events.now }
    requires stops { All (λ e. e.stop < length ready.now) events.now }
    ensures { MatchOption result (NoneBoards ready.now events.now until) (λ f. (f.at < until)
        × NoneBoards ready.now events.now f.at × LetsBoard ready.now
        (slice_index_or events.now f.at no_event) f.before) }
{
    for at in 0..until {
        if let Some(label) = boarding_label(ready, &events[at as usize]) {
            return Some(FirstBoarding {
                at,
                before: label.ride,
            });
        }
    }
    None
}

// No labels for so many stops.
fn no_labels(alloc: Global, stops: usize) -> Result<Vec<Option<StopLabel>>, Memory>
    ensures { IfOk result (λ labels. labels.items ≡ replicate stops None) }
{
    let labels = vec![in alloc; None; stops]?;
    Ok(labels)
}

// The last index of each trip.
fn last_indexes(alloc: Global, table: &Timetable) -> Result<Vec<u32>, Memory>
    ensures { IfOk result (λ boarded_at. boarded_at.items ≡ map last_index table.now.trips) }
{
    table.soundness();
    let mut boarded_at = Vec::new(alloc);
    for t in 0..table.trip_count() {
        let trip = table.trip(TripNo(t));
        boarded_at.push((trip.events.len() - 1) as u32)?;
    }
    Ok(boarded_at)
}

impl Rounds {
    /// Before any ride: one can board where one can walk to from an origin, from the asked time on.
    pub(crate) fn new(
        alloc: Global,
        table: &Timetable,
        origins: &[StopNo],
        start: StopLabel,
    ) -> Result<Rounds, Memory>
        requires origins { All (λ p. p < length table.now.stops) origins.now }
        requires time { start.time ≤ℤ pos 359999 }
        ensures kept { IfOk result (λ rounds. AreKept table.now rounds) }
        ensures ready { IfOk result (λ rounds. Takes (replicate (length table.now.stops) None)
            rounds.ready.items (IsOfferedByOrigin table.now origins.now start)) }
        ensures arrivals { IfOk result (λ rounds. rounds.arrivals.labels.items
            ≡ replicate (length table.now.stops) None) }
        ensures ridden { IfOk result (λ rounds. rounds.arrivals.ridden.items ≡ []) }
        ensures few { IfOk result (λ rounds. sum rounds.boarded_at.items ≤ 10000000) }
    {
        table.soundness();
        let mut ready = no_labels(alloc, table.stop_count() as usize)?;
        offer_origins(table, ready.as_mut_slice(), origins, start);
        let arrivals = StopArrivals {
            labels: no_labels(alloc, table.stop_count() as usize)?,
            ridden: Vec::new(alloc),
        };
        let boarded_at = last_indexes(alloc, table)?;
        Ok(Rounds {
            ready,
            arrivals,
            boarded_at,
        })
    }

    /// Changes from where one arrives.
    pub(crate) fn change(&mut self, table: &Timetable)
        requires kept { AreKept table.now self.old }
        requires times { AreEarly self.old.arrivals.labels.items }
        ensures kept { AreKept table.now self.new }
        ensures takes { Takes self.old.ready.items self.new.ready.items
            (IsOfferedByChange table.now self.old.arrivals.labels.items) }
        ensures arrivals { self.new.arrivals ≡ self.old.arrivals }
        ensures boarded_at { self.new.boarded_at ≡ self.old.boarded_at }
    {
        offer_all_changes(
            table,
            self.ready.as_mut_slice(),
            self.arrivals.labels.as_slice(),
        );
    }

    // Boards a trip where it can be boarded before it was so far.
    fn ride_trip(&mut self, table: &Timetable, trip: TripNo) -> Result<(), Memory>
        requires trip { trip < length table.now.trips }
        requires kept { AreKept table.now self.old }
        ensures kept { OnOk result (AreKept table.now self.new) }
        ensures ready { OnOk result (self.new.ready.items ≡ self.old.ready.items) }
        ensures takes { OnOk result (TakesRides table.now self.old.arrivals self.new.arrivals
            (λ s. (s.trip ≡ trip) × IsBoardable table.now self.old.ready.items s)) }
        ensures few { OnOk result (length self.new.arrivals.ridden.items + sum
            self.new.boarded_at.items ≤ length self.old.arrivals.ridden.items + sum
            self.old.boarded_at.items) }
    {
        table.soundness();
        let events = table.trip(trip).events.as_slice();
        let until = self.boarded_at[trip.index()];
        let Some(boarding) = first_boarding(self.ready.as_slice(), events, until) else {
            return Ok(());
        };
        self.arrivals.alight_along(table, trip, boarding, until)?;
        self.boarded_at[trip.index()] = boarding.at;
        Ok(())
    }

    /// One more ride: boards each trip where it can be boarded before it was so far. Says whether
    /// one arrives anywhere sooner.
    pub(crate) fn ride(&mut self, table: &Timetable) -> Result<bool, Memory>
        requires { AreKept table.now self.old }
        ensures kept { OnOk result (AreKept table.now self.new) }
        ensures ready { OnOk result (self.new.ready.items ≡ self.old.ready.items) }
        ensures takes { OnOk result (TakesRides table.now self.old.arrivals self.new.arrivals
            (IsBoardable table.now self.old.ready.items)) }
        ensures few { OnOk result (length self.new.arrivals.ridden.items + sum
            self.new.boarded_at.items ≤ length self.old.arrivals.ridden.items + sum
            self.old.boarded_at.items) }
        ensures sooner { IfOk result (λ sooner. MatchBool sooner
            (length self.old.arrivals.ridden.items < length self.new.arrivals.ridden.items)
            (length self.new.arrivals.ridden.items ≡ length self.old.arrivals.ridden.items)) }
    {
        let before = self.arrivals.ridden.len();
        for t in 0..table.trip_count() {
            self.ride_trip(table, TripNo(t))?;
        }
        Ok(self.arrivals.ridden.len() > before)
    }
}
