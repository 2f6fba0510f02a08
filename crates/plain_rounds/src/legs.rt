//! The legs of a journey, and the shortest walks at its ends.
ghost use Rattle.std.specs.Prelude.{◌≡◌, ◌<◌, ◌≤◌, ◌⊎◌, ◌++◌, ◌∷◌, [], List, Option, None, Some, length, map, reverse, All, Contains, IfOk, OnOk, IfSome, MatchOption};
ghost use Rattle.tb_base.specs.TimetableData.{stop_at};
ghost use Rattle.tb_base.specs.JourneyRules.{walk_legs, legs_of};
ghost use Rattle.tb_base.specs.Journeys.{Ride};
ghost use Rattle.plain_rounds.specs.Rounds.{ride_of};
ghost use Rattle.plain_rounds.specs.Rides.{IsTrace};
ghost use Rattle.plain_rounds.specs.Shown.{IsAsNear, IsNearestOf, IsInside, ride_leg, secs_by, stop_of};

use super::arrivals::PlainRide;
use std::alloc::Global;
use tb_base::{Leg, Memory, StopNo, Timetable};

/// A stop at the other end of a walk, and the seconds of the walk.
#[derive(Clone, Copy)]
pub struct Near {
    pub stop: StopNo,
    pub secs: u32,
}

/// The walks at one end of a journey.
#[derive(Drop)]
pub enum Walks {
    /// Those that lead to the stop.
    To(StopNo),
    /// Those that lead from the stop.
    From(StopNo),
}

impl Walks {
    // The seconds of the walk from or to another stop.
    fn secs(&self, table: &Timetable, other: StopNo) -> Option<u32>
        requires stop { stop_of self.now < length table.now.stops }
        requires other { other < length table.now.stops }
        ensures secs { result ≡ secs_by table.now self.now other }
        ensures at_most_a_day { IfSome result (λ secs. secs ≤ 86400) }
    {
        match self {
            Walks::To(stop) => table.walk(other, *stop),
            Walks::From(stop) => table.walk(*stop, other),
        }
    }
}

// The nearer of the nearest stop so far and another one.
fn nearer(best: Option<Near>, stop: StopNo, secs: Option<u32>) -> Option<Near>
    ensures one { IfSome result (λ n. (best ≡ Some n) ⊎ ((n.stop ≡ stop) × (secs ≡ Some n.secs))) }
    ensures best { IfSome best (λ b. MatchOption result ⊥ (λ n. IsAsNear n b.stop b.secs)) }
    ensures new { IfSome secs (λ s. MatchOption result ⊥ (λ n. IsAsNear n stop s)) }
{
    match (best, secs) {
        (Some(near), Some(s)) => {
            if s < near.secs || (s == near.secs && stop.index() < near.stop.index()) {
                Some(Near { stop, secs: s })
            } else {
                Some(near)
            }
        }
        (None, Some(s)) => Some(Near { stop, secs: s }),
        (best, None) => best,
    }
}

/// The nearest of the stops, where there is a walk at all; of equally near ones that with the
/// lowest number.
pub fn nearest(table: &Timetable, walks: &Walks, stops: &[StopNo]) -> Option<Near>
    requires stop { stop_of walks.now < length table.now.stops }
    requires stops { All (λ p. p < length table.now.stops) stops.now }
    ensures nearest { IsNearestOf (secs_by table.now walks.now) (Contains stops.now) result }
    ensures at_most_a_day { IfSome result (λ n. n.secs ≤ 86400) }
{
    let mut best = None;
    for stop in stops {
        let secs = walks.secs(table, *stop);
        best = nearer(best, *stop, secs);
    }
    best
}

/// The rides that end in the one at a place, in order.
pub(crate) fn rides_to(
    alloc: Global,
    ridden: &[PlainRide],
    last: Option<usize>,
) -> Result<Vec<PlainRide>, Memory>
    requires { (back : List Ride) × IsTrace ridden.now back last }
    ensures { IfOk result (λ rides. (back : List Ride) → IsTrace ridden.now back last →
        map ride_of rides.items ≡ reverse back) }
{
    let mut rides = Vec::new(alloc);
    let mut at = last;
    while let Some(place) = at {
        let step = ridden[place];
        at = step.before;
        rides.push(step)?;
    }
    rides.reverse();
    Ok(rides)
}

/// Adds the leg of a walk, which within one stop is none.
pub fn push_walk(
    table: &Timetable,
    legs: &mut Vec<Leg>,
    from: StopNo,
    to: StopNo,
) -> Result<(), Memory>
    requires from { from < length table.now.stops }
    requires to { to < length table.now.stops }
    ensures { OnOk result (legs.new.items ≡ legs.old.items ++ walk_legs table.now from to) }
{
    if from.index() == to.index() {
        return Ok(());
    }
    let secs = table.walk(from, to).unwrap_or(0);
    legs.push(Leg::Walk { from, to, secs })?;
    Ok(())
}

// Adds the legs up to the end of a ride, and gives the stop there.
fn push_ride(
    table: &Timetable,
    legs: &mut Vec<Leg>,
    from: StopNo,
    ride: PlainRide,
) -> Result<StopNo, Memory>
    requires from { from < length table.now.stops }
    requires ride { IsInside table.now ride }
    ensures stop { IfOk result (λ stop. stop ≡ stop_at table.now ride.trip ride.alight) }
    ensures legs { OnOk result (legs.new.items ≡ (legs.old.items
        ++ walk_legs table.now from (stop_at table.now ride.trip ride.board))
        ++ ride_leg ride ∷ []) }
{
    let events = table.trip(ride.trip).events.as_slice();
    push_walk(table, legs, from, events[ride.board as usize].stop)?;
    legs.push(Leg::Ride {
        trip: ride.trip,
        board: ride.board,
        alight: ride.alight,
    })?;
    Ok(events[ride.alight as usize].stop)
}

/// The legs that spell the journey with these rides.
pub(crate) fn spell(
    alloc: Global,
    table: &Timetable,
    origin: StopNo,
    rides: &[PlainRide],
    target: StopNo,
) -> Result<Vec<Leg>, Memory>
    requires origin { origin < length table.now.stops }
    requires target { target < length table.now.stops }
    requires rides { All (IsInside table.now) rides.now }
    ensures { IfOk result (λ legs. legs.items ≡ legs_of table.now origin (map ride_of rides.now)
        target) }
{
    table.soundness();
    let mut legs = Vec::new(alloc);
    let mut at = origin;
    for ride in rides {
        at = push_ride(table, &mut legs, at, *ride)?;
    }
    push_walk(table, &mut legs, at, target)?;
    Ok(legs)
}
