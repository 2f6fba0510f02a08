//! Labels at stops: the least time found so far, with the ride that leads there.
ghost use Rattle.std.specs.Prelude.{◌≡◌, ◌<◌, ◌≤◌, length, Some, IfSome, IsSomeAnd, MatchBool, All, ℤ, pos, ◌≤ℤ◌};
ghost use Rattle.tb_base.specs.Walking.{footpath_secs, walk, change};
ghost use Rattle.plain_rounds.specs.Labels.{IsNoLaterAt, IsLaterAt, Takes, AreEarly, IsOfferedByChange, IsOfferedByOrigin, later};

use tb_base::{Sec, StopNo, Timetable};

/// A time at a stop, and the place of the last ride that leads there in the list of rides: none
/// where one walks from an origin.
#[derive(Clone, Copy)]
pub(crate) struct StopLabel {
    pub time: Sec,
    pub ride: Option<usize>,
}

impl StopLabel {
    /// The same so many seconds later.
    pub(crate) fn later(self, secs: u32) -> StopLabel
        requires time { self.time ≤ℤ pos 359999 }
        requires secs { secs ≤ 86400 }
        ensures { result ≡ later self secs }
    {
        StopLabel {
            time: self.time + secs as i32,
            ride: self.ride,
        }
    }
}

// Whether a stop has no label, or one that is later than the time.
pub(crate) fn is_sooner(labels: &[Option<StopLabel>], stop: StopNo, time: Sec) -> bool
    requires { stop < length labels.now }
    ensures { MatchBool result (IsLaterAt labels.now stop time) (IsNoLaterAt labels.now stop time) }
{
    match labels[stop.index()] {
        Some(label) => time < label.time,
        None => true,
    }
}

// Offers a stop the label, which takes it where it has none or a later one.
fn offer(labels: &mut [Option<StopLabel>], stop: StopNo, label: StopLabel)
    requires { stop < length labels.old }
    ensures { Takes labels.old labels.new (λ p l. (p ≡ stop) × (l ≡ label)) }
{
    if is_sooner(labels, stop, label.time) {
        labels[stop.index()] = Some(label);
    }
}

// Offers the label to each stop that a footpath leads to, later by its seconds.
fn offer_footpaths(
    table: &Timetable,
    labels: &mut [Option<StopLabel>],
    from: StopNo,
    label: StopLabel,
)
    requires from { from < length table.now.stops }
    requires rows { length labels.old ≡ length table.now.stops }
    requires time { label.time ≤ℤ pos 359999 }
    ensures { Takes labels.old labels.new (λ q l.
        IsSomeAnd (footpath_secs table.now.footpaths from q) (λ secs. l ≡ later label secs)) }
{
    table.soundness();
    let paths = table.paths(from);
    for path in paths {
        offer(labels, path.to, label.later(path.secs));
    }
}

// Offers the label to each stop that one can walk to, its own stop among them.
fn offer_walks(table: &Timetable, labels: &mut [Option<StopLabel>], from: StopNo, label: StopLabel)
    requires from { from < length table.now.stops }
    requires rows { length labels.old ≡ length table.now.stops }
    requires time { label.time ≤ℤ pos 359999 }
    ensures { Takes labels.old labels.new (λ q l. IsSomeAnd (walk table.now from q)
        (λ secs. l ≡ later label secs)) }
{
    table.soundness();
    offer(labels, from, label);
    offer_footpaths(table, labels, from, label);
}

// Offers the label to its own stop, where one can change within it.
fn offer_own(table: &Timetable, labels: &mut [Option<StopLabel>], from: StopNo, label: StopLabel)
    requires from { from < length table.now.stops }
    requires rows { length labels.old ≡ length table.now.stops }
    requires time { label.time ≤ℤ pos 359999 }
    ensures { Takes labels.old labels.new (λ q l. (q ≡ from)
        × IsSomeAnd (change table.now from from) (λ secs. l ≡ later label secs)) }
{
    if let Some(secs) = table.change(from, from) {
        offer(labels, from, label.later(secs));
    }
}

// Offers the label to each stop that one can change to.
fn offer_changes(
    table: &Timetable,
    labels: &mut [Option<StopLabel>],
    from: StopNo,
    label: StopLabel,
)
    requires from { from < length table.now.stops }
    requires rows { length labels.old ≡ length table.now.stops }
    requires time { label.time ≤ℤ pos 359999 }
    ensures { Takes labels.old labels.new (λ q l. IsSomeAnd (change table.now from q)
        (λ secs. l ≡ later label secs)) }
{
    table.soundness();
    offer_own(table, labels, from, label);
    offer_footpaths(table, labels, from, label);
}

// Offers the label that a stop may have to each stop that one can change to.
fn offer_changes_if(
    table: &Timetable,
    labels: &mut [Option<StopLabel>],
    from: StopNo,
    label: Option<StopLabel>,
)
    requires from { from < length table.now.stops }
    requires rows { length labels.old ≡ length table.now.stops }
    requires time { IfSome label (λ l. l.time ≤ℤ pos 359999) }
    ensures { Takes labels.old labels.new (λ q l. IsSomeAnd label
        (λ m. IsSomeAnd (change table.now from q) (λ secs. l ≡ later m secs))) }
{
    if let Some(label) = label {
        offer_changes(table, labels, from, label);
    }
}

// Offers the label of each stop to the stops that one can change to from there.
pub(crate) fn offer_all_changes(
    table: &Timetable,
    labels: &mut [Option<StopLabel>],
    arrived: &[Option<StopLabel>],
)
    requires rows { length labels.old ≡ length table.now.stops }
    requires arrived { length arrived.now ≡ length table.now.stops }
    requires times { AreEarly arrived.now }
    ensures { Takes labels.old labels.new (λ q l. IsOfferedByChange table.now arrived.now q l) }
{
    for p in 0..table.stop_count() {
        let stop = StopNo(p);
        offer_changes_if(table, labels, stop, arrived[stop.index()]);
    }
}

// Offers each stop that one can walk to from an origin the asked time, later by the seconds of the
// walk.
pub(crate) fn offer_origins(
    table: &Timetable,
    labels: &mut [Option<StopLabel>],
    origins: &[StopNo],
    start: StopLabel,
)
    requires origins { All (λ p. p < length table.now.stops) origins.now }
    requires rows { length labels.old ≡ length table.now.stops }
    requires time { start.time ≤ℤ pos 359999 }
    ensures { Takes labels.old labels.new (λ q l. IsOfferedByOrigin table.now origins.now start q
        l) }
{
    for origin in origins {
        offer_walks(table, labels, *origin, start);
    }
}
