//! Arrivals at targets, and the legs that lead there.
ghost use Rattle.std.specs.Prelude.{◌≡◌, ◌<◌, ◌≤◌, ◌⊎◌, Option, Some, length, All, IfSome, IsSomeAnd, MatchOption, pos, ◌≤ℤ◌};
ghost use Rattle.plain_rounds.specs.Labels.{AreEarly};
ghost use Rattle.plain_rounds.specs.Hits.{IsHitFrom, IsDueFrom, IsHitOf, IsDueOf, IsHitOfOrigin, IsDueOfOrigin, IsEarliest};

use super::labels::StopLabel;
use super::legs::{Walks, nearest};
use tb_base::{Sec, StopNo, Timetable};

/// An arrival at a target on foot, and the place of the last ride before.
#[derive(Clone, Copy)]
pub(crate) struct TargetArrival {
    pub arrive: Sec,
    pub from: StopNo,
    pub target: StopNo,
    pub ride: Option<usize>,
}

// The earlier of two hits.
fn earlier_hit(a: Option<TargetArrival>, b: Option<TargetArrival>) -> Option<TargetArrival>
    ensures one { IfSome result (λ h. (a ≡ Some h) ⊎ (b ≡ Some h)) }
    ensures first { IfSome a (λ x. MatchOption result ⊥ (λ h. h.arrive ≤ℤ x.arrive)) }
    ensures second { IfSome b (λ x. MatchOption result ⊥ (λ h. h.arrive ≤ℤ x.arrive)) }
{
    match (a, b) {
        (Some(x), Some(y)) => {
            if x.arrive <= y.arrive {
                Some(x)
            } else {
                Some(y)
            }
        }
        (Some(x), None) => Some(x),
        (None, y) => y,
    }
}

// The hit from a label by the walk to the nearest target.
fn hit_from(
    table: &Timetable,
    targets: &[StopNo],
    stop: StopNo,
    label: StopLabel,
) -> Option<TargetArrival>
    requires targets { All (λ p. p < length table.now.stops) targets.now }
    requires stop { stop < length table.now.stops }
    requires time { label.time ≤ℤ pos 359999 }
    ensures { IsEarliest (IsHitFrom table.now targets.now stop label)
        (IsDueFrom table.now targets.now stop label) result }
{
    match nearest(table, &Walks::From(stop), targets) {
        Some(near) => {
            let arrival = label.later(near.secs);
            Some(TargetArrival {
                arrive: arrival.time,
                from: stop,
                target: near.stop,
                ride: label.ride,
            })
        }
        None => None,
    }
}

// The hit from the label that a stop may have, by the walk to the nearest target.
fn hit_from_if(
    table: &Timetable,
    targets: &[StopNo],
    stop: StopNo,
    label: Option<StopLabel>,
) -> Option<TargetArrival>
    requires targets { All (λ p. p < length table.now.stops) targets.now }
    requires stop { stop < length table.now.stops }
    requires time { IfSome label (λ l. l.time ≤ℤ pos 359999) }
    ensures { IsEarliest (λ h. IsSomeAnd label (λ l. IsHitFrom table.now targets.now stop l h))
        (λ time. IsSomeAnd label (λ l. IsDueFrom table.now targets.now stop l time)) result }
{
    match label {
        Some(label) => hit_from(table, targets, stop, label),
        None => None,
    }
}

/// The earliest hit from the labels of all stops.
pub(crate) fn best_hit(
    table: &Timetable,
    targets: &[StopNo],
    labels: &[Option<StopLabel>],
) -> Option<TargetArrival>
    requires targets { All (λ p. p < length table.now.stops) targets.now }
    requires rows { length labels.now ≡ length table.now.stops }
    requires times { AreEarly labels.now }
    ensures { IsEarliest (IsHitOf table.now targets.now labels.now)
        (IsDueOf table.now targets.now labels.now) result }
{
    let mut best = None;
    for p in 0..table.stop_count() {
        let stop = StopNo(p);
        let found = hit_from_if(table, targets, stop, labels[stop.index()]);
        best = earlier_hit(best, found);
    }
    best
}

/// The earliest hit by a walk from an origin.
pub(crate) fn best_walk(
    table: &Timetable,
    origins: &[StopNo],
    targets: &[StopNo],
    start: StopLabel,
) -> Option<TargetArrival>
    requires origins { All (λ p. p < length table.now.stops) origins.now }
    requires targets { All (λ p. p < length table.now.stops) targets.now }
    requires time { start.time ≤ℤ pos 359999 }
    ensures { IsEarliest (IsHitOfOrigin table.now origins.now targets.now start)
        (IsDueOfOrigin table.now origins.now targets.now start) result }
{
    let mut best = None;
    for origin in origins {
        let found = hit_from(table, targets, *origin, start);
        best = earlier_hit(best, found);
    }
    best
}
