//! From a hit back to an origin.
ghost use Rattle.std.specs.Prelude.{◌≡◌, ◌<◌, ◌++◌, ◌∷◌, [], ℕ, List, Some, All, Contains, IfOk, OnOk, length};
ghost use Rattle.tb_base.specs.JourneyRules.{walk_legs};
ghost use Rattle.tb_base.specs.TimetableData.{events_of, stop_at};
ghost use Rattle.tb_base.specs.declared.query.Leg.TheVariants.{Ride as RideLeg};
ghost use Rattle.tb_base.specs.declared.query.Value.{Value as ValueData};
ghost use Rattle.tb_base.specs.declared.transfer.Hop.{Hop};
ghost use Rattle.segment_queue.specs.Traced.{IsRideHit, IsTraced, LegsFollow, UsesHops, segment_of};
ghost use Rattle.segment_queue.specs.declared.desk.LastLeg.TheVariants.{Aboard};
ghost use Rattle.plain_rounds.specs.Shown.{IsNearest, secs_by, stop_of};
ghost use Rattle.journey_unfold.specs.Unfolded.{SpellEnding, SpellHit};

use plain_rounds::{Walks, nearest, push_walk};
use segment_queue::{Desk, Hit, LastLeg, Segment};
use std::alloc::Global;
use tb_base::{Leg, Memory, Query, StopNo, Timetable, TripNo};

// Segment `n` of a desk.
fn segment_of(desk: &Desk, n: u32) -> Segment
    requires { n < length desk.now.segments }
    ensures { result ≡ segment_of desk.now.segments n }
{
    match desk.segment(n) {
        Some(segment) => segment,
        None => unreachable!(),
    }
}

// The stop of an event.
fn stop_at(table: &Timetable, trip: TripNo, at: u32) -> StopNo
    requires trip { trip < length table.now.trips }
    requires at { at < length (events_of table.now trip) }
    ensures stop { result ≡ stop_at table.now trip at }
    ensures inside { result < length table.now.stops }
{
    table.event(trip, at).stop
}

// The nearest of the stops, one of which has a walk.
fn nearest_of(table: &Timetable, walks: &Walks, stops: &[StopNo]) -> StopNo
    requires stop { stop_of walks.now < length table.now.stops }
    requires stops { All (λ p. p < length table.now.stops) stops.now }
    requires some { (q secs : ℕ) × Contains stops.now q
        × (secs_by table.now walks.now q ≡ Some secs) }
    ensures nearest { IsNearest (secs_by table.now walks.now) stops.now result }
    ensures inside { result < length table.now.stops }
{
    match nearest(table, walks, stops) {
        Some(near) => near.stop,
        None => unreachable!(),
    }
}

// Adds the leg of the ride in a segment up to an index.
fn push_ride(legs: &mut Vec<Leg>, segment: &Segment, at: u32) -> Result<(), Memory>
    ensures { OnOk result
        (legs.new.items ≡ legs.old.items ++ RideLeg segment.now.trip segment.now.board at ∷ []) }
{
    legs.push(Leg::Ride {
        trip: segment.trip,
        board: segment.board,
        alight: at,
    })?;
    Ok(())
}

// The legs of a walk from an origin to a target.
fn walk_legs(alloc: Global, table: &Timetable, from: StopNo, to: StopNo) -> Result<Vec<Leg>, Memory>
    requires from { from < length table.now.stops }
    requires to { to < length table.now.stops }
    ensures { IfOk result (λ legs. legs.items ≡ walk_legs table.now from to) }
{
    let mut legs = Vec::new(alloc);
    push_walk(table, &mut legs, from, to)?;
    Ok(legs)
}

// The legs of the journey that alights from a segment at an index, by the chain of its parents.
fn ride_legs(
    alloc: Global,
    desk: &Desk,
    table: &Timetable,
    query: &Query,
    entry: u32,
    at: u32,
) -> Result<Vec<Leg>, Memory>
    requires origins { All (λ p. p < length table.now.stops) query.now.from }
    requires targets { All (λ p. p < length table.now.stops) query.now.to }
    requires traced { IsTraced table.now query.now desk.now }
    requires hit { (to : ℕ) × (v : ValueData) ×
        IsRideHit table.now query.now desk.now.segments entry at to v.arrive v.rides }
    ensures journey { IfOk result (λ legs. (to : ℕ) (v : ValueData) →
        IsRideHit table.now query.now desk.now.segments entry at to v.arrive v.rides →
        SpellEnding table.now query.now desk.now.segments (Aboard entry at to) v legs.items) }
    ensures hops { IfOk result (λ legs. (hops : ℕ → ℕ → List Hop) →
        UsesHops hops desk.now.segments → LegsFollow hops legs.items) }
{
    let mut segment = segment_of(desk, entry);
    let mut legs = Vec::new(alloc);
    let end = stop_at(table, segment.trip, at);
    let target = nearest_of(table, &Walks::From(end), query.to.as_slice());
    push_walk(table, &mut legs, end, target)?;
    push_ride(&mut legs, &segment, at)?;
    while let Some((parent, left)) = segment.parent {
        let before = segment_of(desk, parent);
        let change = stop_at(table, before.trip, left);
        let boarded = stop_at(table, segment.trip, segment.board);
        push_walk(table, &mut legs, change, boarded)?;
        push_ride(&mut legs, &before, left)?;
        segment = before;
    }
    let start = stop_at(table, segment.trip, segment.board);
    let origin = nearest_of(table, &Walks::To(start), query.from.as_slice());
    push_walk(table, &mut legs, origin, start)?;
    legs.reverse();
    Ok(legs)
}

/// The legs of the journey of a hit, with exactly the hit's value. It leaves no earlier than asked;
/// its rides are those of the chain of the hit's parents, so where each parent was reached by a hop
/// of a set, its changes are by hops of that set. The walk to the first ride and the walk from the
/// last one are the shortest, to the lowest number of equally near stops. The desk is traced for
/// this timetable and this query. Takes time and memory by the number of rides, and time by the
/// numbers of origins and targets. Refused only for want of memory.
pub fn unfold(
    alloc: Global,
    desk: &Desk,
    hit: &Hit,
    table: &Timetable,
    query: &Query,
) -> Result<Vec<Leg>, Memory>
    requires origins { All (λ p. p < length table.now.stops) query.now.from }
    requires targets { All (λ p. p < length table.now.stops) query.now.to }
    requires traced { IsTraced table.now query.now desk.now }
    requires hit { Contains desk.now.hits hit.now }
    ensures journey { IfOk result (λ legs.
        SpellHit table.now query.now desk.now.segments hit.now legs.items) }
    ensures hops { IfOk result (λ legs. (hops : ℕ → ℕ → List Hop) →
        UsesHops hops desk.now.segments → LegsFollow hops legs.items) }
{
    match hit.last {
        LastLeg::OnFoot { from, to } => walk_legs(alloc, table, from, to),
        LastLeg::Aboard { entry, at, .. } => ride_legs(alloc, desk, table, query, entry, at),
    }
}
