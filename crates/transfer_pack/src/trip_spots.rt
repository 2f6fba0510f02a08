//! The spots of a trip's events, put behind those of other trips, each with its hops.
ghost use Rattle.std.specs.Prelude.{◌≡◌, ◌+◌, ◌<◌, ◌++◌, ◌∷◌, [], All, IfOk, List, OnOk, if◌then◌else◌, length};
ghost use Rattle.tb_base.specs.OutSets.{hops_at};
ghost use Rattle.tb_base.specs.TimetableData.{events_of};
ghost use Rattle.transfer_pack.specs.Adding.{AddsEvents};
ghost use Rattle.transfer_pack.specs.CallsOf.{call_of};
ghost use Rattle.transfer_pack.specs.Descending.{Descend};
ghost use Rattle.tb_base.specs.declared.transfer.Hop.{Hop};
ghost use Rattle.transfer_pack.specs.Packed.{AreBounds, hops_before, packed};
ghost use Rattle.transfer_pack.specs.Spots.{calls_beside, ends_in};

use super::hops::HopList;
use super::numbers::number;
use super::packed_call::PackedCall;
use super::set::{Set, Spot};
use super::trip_hops::{add_last, add_scattered, descend};
use std::alloc::Global;
use tb_base::{Event, Memory, Transfer, TripNo};

// Adds the spot of an event whose hops end there.
fn add_spot_to(spots: &mut Vec<Spot>, end: u32, event: &Event) -> Result<(), Memory>
    requires { event.now.stop < 100000 }
    ensures ends { OnOk result (ends_in spots.new.items ≡ ends_in spots.old.items ++ end ∷ []) }
    ensures calls { OnOk result
        (calls_beside spots.new.items ≡ calls_beside spots.old.items ++ call_of event.now ∷ []) }
{
    let packed = PackedCall::of(event);
    spots.push(Spot { packed, end })?;
    Ok(())
}

// Adds the spot of an event behind whose hops no others stand yet.
fn add_spot(spots: &mut Vec<Spot>, hops: &HopList, event: &Event) -> Result<(), Memory>
    requires { event.now.stop < 100000 }
    ensures ends { OnOk result
        (ends_in spots.new.items ≡ ends_in spots.old.items ++ length hops.now ∷ []) }
    ensures calls { OnOk result
        (calls_beside spots.new.items ≡ calls_beside spots.old.items ++ call_of event.now ∷ []) }
{
    let end = number(hops.count())?;
    add_spot_to(spots, end, event)
}

// Adds the events of a trip, each with the hops of the trip's transfers from there, which stand in
// any order.
fn add_scattered_trip(
    alloc: Global,
    hops: &mut HopList,
    spots: &mut Vec<Spot>,
    row: &[Transfer],
    events: &[Event],
) -> Result<(), Memory>
    requires bounds { AreBounds (ends_in spots.old.items) (length hops.old) }
    requires stops { All (λ e. e.stop < 100000) events.now }
    ensures { OnOk result (AddsEvents (hops_at row.now) events.now hops.old hops.new
        spots.old.items spots.new.items) }
{
    for at in 0..events.len() {
        add_scattered(alloc, hops, row, at)?;
        add_spot(spots, hops, &events[at])?;
    }
    Ok(())
}

// The same, where the transfers stand by their events, the last event first: each is looked at
// once.
fn add_descending_trip(
    alloc: Global,
    hops: &mut HopList,
    spots: &mut Vec<Spot>,
    row: &[Transfer],
    events: &[Event],
) -> Result<(), Memory>
    requires row { Descend row.now }
    requires bounds { AreBounds (ends_in spots.old.items) (length hops.old) }
    requires stops { All (λ e. e.stop < 100000) events.now }
    ensures { OnOk result (AddsEvents (hops_at row.now) events.now hops.old hops.new
        spots.old.items spots.new.items) }
{
    let mut left = row.len();
    for at in 0..events.len() {
        left = add_last(alloc, hops, row, left, at)?;
        add_spot(spots, hops, &events[at])?;
    }
    Ok(())
}

/// The same. Transfers from the last event down take the least time.
pub(crate) fn add_trip(
    alloc: Global,
    hops: &mut HopList,
    spots: &mut Vec<Spot>,
    row: &[Transfer],
    events: &[Event],
) -> Result<(), Memory>
    requires bounds { AreBounds (ends_in spots.old.items) (length hops.old) }
    requires stops { All (λ e. e.stop < 100000) events.now }
    ensures { OnOk result (AddsEvents (hops_at row.now) events.now hops.old hops.new
        spots.old.items spots.new.items) }
{
    if descend(row) {
        add_descending_trip(alloc, hops, spots, row, events)
    } else {
        add_scattered_trip(alloc, hops, spots, row, events)
    }
}

// Where so many hops more end.
fn end_behind(end: u32, count: usize) -> Result<u32, Memory>
    ensures { IfOk result (λ n. n ≡ end + count) }
{
    number((end as usize).saturating_add(count))
}

// Adds the spots of the events of a trip, where the hops that each has in another set are to stand
// behind so many others.
fn add_kept_spots(
    spots: &mut Vec<Spot>,
    kept: &Set,
    trip: TripNo,
    events: &[Event],
    first: u32,
) -> Result<(), Memory>
    requires trip { trip < length kept.now.table.trips }
    requires events { length (events_of kept.now.table trip) ≡ length events.now }
    requires some { 0 < length events.now }
    requires stops { All (λ e. e.stop < 100000) events.now }
    ensures { OnOk result ((hops : List Hop) → length hops ≡ first →
        AreBounds (ends_in spots.old.items) (length hops) →
        AddsEvents (packed kept.now trip) events.now hops
        (hops ++ hops_before (packed kept.now) trip 0 (length events.now))
        spots.old.items spots.new.items) }
{
    let begin = kept.begin_of(trip, 0);
    let kept_spots = kept.spots_of(trip);
    for at in 0..events.len() {
        let count = kept_spots[at].end - begin;
        let end = end_behind(first, count as usize)?;
        add_spot_to(spots, end, &events[at])?;
    }
    Ok(())
}

// Adds the events of a trip, each with the hops that it has in another set: those of all of them
// are copied in one piece.
fn add_kept_trip(
    alloc: Global,
    hops: &mut HopList,
    spots: &mut Vec<Spot>,
    kept: &Set,
    trip: TripNo,
    events: &[Event],
) -> Result<(), Memory>
    requires trip { trip < length kept.now.table.trips }
    requires events { length (events_of kept.now.table trip) ≡ length events.now }
    requires bounds { AreBounds (ends_in spots.old.items) (length hops.old) }
    requires stops { All (λ e. e.stop < 100000) events.now }
    ensures { OnOk result (AddsEvents (packed kept.now trip) events.now hops.old hops.new
        spots.old.items spots.new.items) }
{
    let count = kept.event_count(trip);
    if count == 0 {
        return Ok(());
    }
    let first = number(hops.count())?;
    add_kept_spots(spots, kept, trip, events, first)?;
    hops.append(alloc, &kept.hops_over(trip, 0, count - 1))?;
    Ok(())
}

/// Adds the events of a trip, each with the hops of these transfers if the trip is marked, or else
/// with those that it has in another set.
pub(crate) fn add_rebuilt_trip(
    alloc: Global,
    hops: &mut HopList,
    spots: &mut Vec<Spot>,
    kept: &Set,
    trip: TripNo,
    redone: bool,
    row: &[Transfer],
    events: &[Event],
) -> Result<(), Memory>
    requires trip { trip < length kept.now.table.trips }
    requires events { length (events_of kept.now.table trip) ≡ length events.now }
    requires bounds { AreBounds (ends_in spots.old.items) (length hops.old) }
    requires stops { All (λ e. e.stop < 100000) events.now }
    ensures { OnOk result (AddsEvents
        (λ i. if redone then hops_at row.now i else packed kept.now trip i)
        events.now hops.old hops.new spots.old.items spots.new.items) }
{
    if redone {
        add_trip(alloc, hops, spots, row, events)
    } else {
        add_kept_trip(alloc, hops, spots, kept, trip, events)
    }
}
