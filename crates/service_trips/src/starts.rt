//! How many starts a row of frequencies.txt gives, and which is the first.
ghost use Rattle.std.specs.Prelude.{◌≡◌, ◌≤◌, ◌<◌, ◌+◌, ◌*◌, map};
ghost use Rattle.std.specs.List.{range_with_len};
ghost use Rattle.service_trips.specs.Starts.{IsGoodFrequency, cut_at, first_from, starts_from, starts_in};

use crate::TripFrequency;

/// Some starts of a trip, by a time in seconds.
#[derive(Clone, Copy)]
pub(crate) enum StartSpan {
    /// Those that are not before it.
    From(u32),
    /// Those that are before it.
    Until(u32),
}

/// Starts one headway after another.
#[derive(Clone, Copy)]
pub(crate) struct Starts {
    /// The first one, or where there is none, what would be the first were there no end.
    pub first: u64,
    /// How many there are.
    pub count: u32,
}

/// The starts of a row that are in a span, counted by division.
pub(crate) fn starts_in(frequency: &TripFrequency, span: StartSpan) -> Starts
    requires good { IsGoodFrequency frequency.now }
    ensures starts { map (λ k. result.first + k * frequency.now.headway)
        (range_with_len 0 result.count)
        ≡ starts_in span frequency.now }
    ensures within { result.count ≤ 359999 }
{
    match span {
        StartSpan::From(least) => starts_from(frequency, least),
        StartSpan::Until(end) => starts_from(&cut_at(frequency, end), 0),
    }
}

// The row with an end that is no later than a time.
fn cut_at(frequency: &TripFrequency, end: u32) -> TripFrequency
    requires good { IsGoodFrequency frequency.now }
    ensures cut { result ≡ cut_at end frequency.now }
    ensures good { IsGoodFrequency result }
{
    TripFrequency {
        row: frequency.row,
        trip_row: frequency.trip_row,
        start: frequency.start,
        end: frequency.end.min(end),
        headway: frequency.headway,
    }
}

/// The starts of a row that are not before a time, counted by division.
pub(crate) fn starts_from(frequency: &TripFrequency, least: u32) -> Starts
    requires good { IsGoodFrequency frequency.now }
    ensures starts { map (λ k. result.first + k * frequency.now.headway)
        (range_with_len 0 result.count)
        ≡ starts_from least frequency.now }
    ensures within { result.count ≤ 359999 }
{
    let first = first_from(frequency, least);
    if first >= frequency.end as u64 {
        return Starts { first, count: 0 };
    }
    Starts {
        first,
        count: (frequency.end - 1 - first as u32) / frequency.headway + 1,
    }
}

// The first start that is not before a time, were there no end.
fn first_from(frequency: &TripFrequency, least: u32) -> u64
    requires good { IsGoodFrequency frequency.now }
    ensures { result ≡ first_from least frequency.now }
{
    if least <= frequency.start {
        return frequency.start as u64;
    }
    let headway = frequency.headway as u64;
    let headways = ((least - frequency.start) as u64 + (headway - 1)) / headway;
    frequency.start as u64 + headways * headway
}
