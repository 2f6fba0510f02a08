//! The least arrival by exactly one ride, by looking at each trip once.
ghost use Rattle.std.specs.Prelude.{◌≡◌, ◌<◌, ◌↔◌, ◌⊎◌, length, IsTrue, All};
ghost use Rattle.tb_base.specs.Soundness.{IsSoundEvent};
ghost use Rattle.tb_base.specs.BestValues.{IsLeast, IsDirectArrival};
ghost use Rattle.plain_rounds.specs.OneRide.{CanBoardAt, ArrivesAt, ArrivesBySome, IsReachedAt, earlier_of};

use tb_base::{Event, Query, Sec, StopNo, Timetable, TripNo};

// The earlier of two times, where there are any.
fn earlier(a: Option<Sec>, b: Option<Sec>) -> Option<Sec>
    ensures { result ≡ earlier_of a b }
{
    match (a, b) {
        (Some(x), Some(y)) => { if x <= y { Some(x) } else { Some(y) } }
        (Some(x), None) => Some(x),
        (None, y) => y,
    }
}

// Whether one of the origins has a walk to the event that leaves no earlier than asked.
fn can_board(table: &Timetable, origins: &[StopNo], asked: Sec, event: &Event) -> bool
    requires origins { All (λ p. p < length table.now.stops) origins.now }
    requires event { IsSoundEvent (length table.now.stops) event.now }
    ensures { IsTrue result ↔ CanBoardAt table.now origins.now asked event.now }
{
    if !event.board {
        return false;
    }
    for origin in origins {
        if let Some(secs) = table.walk(*origin, event.stop) {
            if asked <= event.dep - secs as i32 {
                return true;
            }
        }
    }
    false
}

// The arrival at the target from the event, where there is a walk.
fn arrival_at(table: &Timetable, event: &Event, target: StopNo) -> Option<Sec>
    requires target { target < length table.now.stops }
    requires event { IsSoundEvent (length table.now.stops) event.now }
    ensures { IsLeast (λ time. IsReachedAt table.now event.now time target) result }
{
    match table.walk(event.stop, target) {
        Some(secs) => Some(event.arr + secs as i32),
        None => None,
    }
}

// The least arrival at a target from the event.
fn arrival_from(table: &Timetable, targets: &[StopNo], event: &Event) -> Option<Sec>
    requires targets { All (λ p. p < length table.now.stops) targets.now }
    requires event { IsSoundEvent (length table.now.stops) event.now }
    ensures { IsLeast (ArrivesAt table.now targets.now event.now) result }
{
    if !event.alight {
        return None;
    }
    let mut best = None;
    for target in targets {
        let found = arrival_at(table, event, *target);
        best = earlier(best, found);
    }
    best
}

// The least arrival at a target from the event for one who is aboard, and none for one who isn't.
fn arrival_if(aboard: bool, table: &Timetable, targets: &[StopNo], event: &Event) -> Option<Sec>
    requires targets { All (λ p. p < length table.now.stops) targets.now }
    requires event { IsSoundEvent (length table.now.stops) event.now }
    ensures { IsLeast (λ time. IsTrue aboard × ArrivesAt table.now targets.now event.now time)
        result }
{
    if aboard {
        arrival_from(table, targets, event)
    } else {
        None
    }
}

// Whether one of the two holds, as a function, since a loop's invariant speaks of both.
fn either(a: bool, b: bool) -> bool
    ensures { IsTrue result ↔ (IsTrue a ⊎ IsTrue b) }
{
    a || b
}

// The least arrival at a target by one ride on the trip with these events.
fn arrival_on(
    table: &Timetable,
    origins: &[StopNo],
    targets: &[StopNo],
    asked: Sec,
    events: &[Event],
) -> Option<Sec>
    requires origins { All (λ p. p < length table.now.stops) origins.now }
    requires targets { All (λ p. p < length table.now.stops) targets.now }
    requires events { All (IsSoundEvent (length table.now.stops)) events.now }
    ensures { IsLeast (ArrivesBySome table.now origins.now targets.now asked events.now) result }
{
    let mut best = None;
    let mut aboard = false;
    for event in events {
        let found = arrival_if(aboard, table, targets, event);
        best = earlier(best, found);
        let boards = can_board(table, origins, asked, event);
        aboard = either(aboard, boards);
    }
    best
}

/// The least arrival over journeys of exactly one ride that leave no earlier than asked.
pub fn direct(table: &Timetable, query: &Query) -> Option<Sec>
    requires origins { All (λ p. p < length table.now.stops) query.now.from }
    requires targets { All (λ p. p < length table.now.stops) query.now.to }
    ensures { IsLeast (IsDirectArrival table.now query.now) result }
{
    direct_between(
        table,
        query.from.as_slice(),
        query.to.as_slice(),
        query.leave,
    )
}

fn direct_between(
    table: &Timetable,
    origins: &[StopNo],
    targets: &[StopNo],
    asked: Sec,
) -> Option<Sec>
    requires origins { All (λ p. p < length table.now.stops) origins.now }
    requires targets { All (λ p. p < length table.now.stops) targets.now }
    ensures { IsLeast (IsDirectArrival table.now (record {
      from = origins.now;
      to =
          targets.now;
      leave = asked;
    })) result }
{
    let mut best = None;
    for t in 0..table.trip_count() {
        let trip = table.trip(TripNo(t));
        let found = arrival_on(table, origins, targets, asked, trip.events.as_slice());
        best = earlier(best, found);
    }
    best
}
