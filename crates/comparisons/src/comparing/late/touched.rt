//! The trips that a change of events touches, counted one by one as they are defined.
use super::parts::events_of;
use crate::comparing::refused::{Difference, Refused, held};
use edition_store::Edition;
use std::alloc::Global;
use tb_base::{Memory, Transfer, TripNo};
use transfer_make::make;

// Whether a trip has other events in another edition.
fn has_other_events(old: &Edition, new: &Edition, trip: TripNo) -> bool {
    events_of(old.table(), trip) != events_of(new.table(), trip)
}

// The candidates of a trip, none where there is no such trip.
fn candidates(alloc: Global, edition: &Edition, trip: TripNo) -> Result<Vec<Transfer>, Memory> {
    if trip.0 < edition.table().trip_count() {
        make(alloc, edition.table(), edition.lines(), trip)
    } else {
        Ok(Vec::new(alloc))
    }
}

// Whether one of the trips that some transfers lead to has other events.
fn lead_to_other_events(old: &Edition, new: &Edition, rows: &[Transfer]) -> bool {
    for row in rows {
        if has_other_events(old, new, row.to_trip) {
            return true;
        }
    }
    false
}

// Whether a trip is touched: it has other events, or other candidates, or a trip that they lead to
// has other events.
fn is_touched(alloc: Global, old: &Edition, new: &Edition, trip: TripNo) -> Result<bool, Memory> {
    if has_other_events(old, new, trip) {
        return Ok(true);
    }
    let before = candidates(alloc, old, trip)?;
    let after = candidates(alloc, new, trip)?;
    Ok(before.as_slice() != after.as_slice() || lead_to_other_events(old, new, before.as_slice()))
}

// How many trips have other events.
fn changed_count(old: &Edition, new: &Edition) -> u32 {
    let mut count: u32 = 0;
    for t in 0..old.table().trip_count() {
        count = count.saturating_add(has_other_events(old, new, TripNo(t)) as u32);
    }
    count
}

// How many trips are touched.
fn touched_count(alloc: Global, old: &Edition, new: &Edition) -> Result<u32, Memory> {
    let mut count: u32 = 0;
    for t in 0..old.table().trip_count() {
        let touched = is_touched(alloc, old, new, TripNo(t))?;
        count = count.saturating_add(touched as u32);
    }
    Ok(count)
}

/// Holds a number of touched trips against counting them one by one, and gives how many trips have
/// other events.
pub fn compare_touched(
    alloc: Global,
    old: &Edition,
    new: &Edition,
    touched: u32,
) -> Result<u32, Refused> {
    let counted = touched_count(alloc, old, new)?;
    held(touched == counted, Difference::Touched)?;
    let changed = changed_count(old, new);
    held(changed <= touched, Difference::Touched)?;
    held(changed > 0 || touched == 0, Difference::Touched)?;
    Ok(changed)
}
