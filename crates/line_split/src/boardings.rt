//! Where lines may be boarded.
ghost use Rattle.std.specs.Prelude.{◌≡◌, ◌+◌, ◌*◌, ◌<◌, ◌≤◌, ℕ, [], true, All, IfOk, length, map, flat_map, slice_index_or};
ghost use Rattle.std.specs.List.{range_with_len};
ghost use Rattle.line_split.specs.Layout.{AreBoardings, IsBoarding, berth_of, line_departures, start_of};
ghost use Rattle.tb_base.specs.Transfers.{may_be_boarded};
ghost use Rattle.line_split.specs.LinesOf.{IsBerth, berths_at, is_boarded};

use super::berths::first_of;
use super::events::events_of;
use super::lines::Berth;
use super::nested::Nested;
use std::alloc::Global;
use tb_base::{LineNo, Memory, Sec, Timetable, TripNo};

/// A line that may be boarded at an index of its trips. It knows the run of the line's departures
/// there, in the order of the trips: where it begins among those of all lines, and how many.
#[derive(Clone, Copy, Debug, PartialEq, Eq)]
pub struct Boarding {
    pub line: LineNo,
    pub at: u32,
    pub(crate) start: usize,
    pub(crate) count: usize,
}

/// For each stop the lines that may be boarded there, by line, then by index.
pub(crate) fn boardings_of(
    alloc: Global,
    table: &Timetable,
    lines: &Nested<TripNo>,
    berths: &Nested<Berth>,
    starts: &[usize],
    departures: &[Sec],
) -> Result<Nested<Boarding>, Memory>
    requires stops { length berths.now ≡ length table.now.stops }
    requires berths { (q : ℕ) → q < length table.now.stops →
        slice_index_or berths.now q [] ≡ berths_at table.now lines.now q }
    requires starts { starts.now
        ≡ map (start_of table.now lines.now) (range_with_len 0 (length lines.now)) }
    requires departures { departures.now ≡ flat_map (line_departures table.now) lines.now }
    ensures length { IfOk result (λ rows. length rows ≡ length table.now.stops) }
    ensures boardings { IfOk result (λ rows. (q : ℕ) → q < length table.now.stops →
        AreBoardings table.now lines.now (berths_at table.now lines.now q)
        (slice_index_or rows q [])) }
{
    let mut boardings = Nested::new(alloc);
    for stop in 0..berths.len() {
        let row = boarded(alloc, table, lines, berths.row(stop), starts, departures)?;
        boardings.open_row(row)?;
    }
    Ok(boardings)
}

// The boardings where lines call.
fn boarded(
    alloc: Global,
    table: &Timetable,
    lines: &Nested<TripNo>,
    berths: &[Berth],
    starts: &[usize],
    departures: &[Sec],
) -> Result<Vec<Boarding>, Memory>
    requires berths { All (IsBerth table.now lines.now) berths.now }
    requires starts { starts.now
        ≡ map (start_of table.now lines.now) (range_with_len 0 (length lines.now)) }
    requires departures { departures.now ≡ flat_map (line_departures table.now) lines.now }
    ensures { IfOk result (λ row. AreBoardings table.now lines.now berths.now row.items) }
{
    let mut row = Vec::new(alloc);
    for berth in berths {
        if is_boarded(table, lines, berth) {
            row.push(boarding_at(table, lines, berth, starts, departures))?;
        }
    }
    Ok(row)
}

// Whether a line may be boarded where it calls.
fn is_boarded(table: &Timetable, lines: &Nested<TripNo>, berth: &Berth) -> bool
    requires { berth.now.line < length lines.now }
    ensures { result ≡ is_boarded table.now lines.now berth.now }
{
    may_be_boarded(table, lines.row(berth.line.index()), berth.at)
}

/// Whether the line of these trips may be boarded at an index: boarding is allowed there, and it is
/// not the line's last index.
pub(crate) fn may_be_boarded(table: &Timetable, trips: &[TripNo], at: u32) -> bool
    ensures { result ≡ may_be_boarded table.now (slice_index_or trips.now 0 0) at }
{
    let events = events_of(table, first_of(trips));
    let at = at as usize;
    at < events.len() && events[at].board && at + 1 < events.len()
}

// The boarding where a line calls.
fn boarding_at(
    table: &Timetable,
    lines: &Nested<TripNo>,
    berth: &Berth,
    starts: &[usize],
    departures: &[Sec],
) -> Boarding
    requires berth { IsBerth table.now lines.now berth.now }
    requires boarded { is_boarded table.now lines.now berth.now ≡ true }
    requires starts { starts.now
        ≡ map (start_of table.now lines.now) (range_with_len 0 (length lines.now)) }
    requires departures { departures.now ≡ flat_map (line_departures table.now) lines.now }
    ensures berth { berth_of result ≡ berth.now }
    ensures boarding { IsBoarding table.now lines.now result }
{
    let count = lines.row(berth.line.index()).len();
    Boarding {
        line: berth.line,
        at: berth.at,
        start: run_start(
            departures,
            starts[berth.line.index()],
            berth.at as usize,
            count,
        ),
        count,
    }
}

/// Where the run at an index begins, where runs of one length begin at a place.
pub(crate) fn run_start(departures: &[Sec], start: usize, at: usize, count: usize) -> usize
    requires { start + at * count + count ≤ length departures.now }
    ensures { result ≡ start + at * count }
{
    // A vector's length is bounded, so the sum is too.
    let _all = departures.len();
    start + at * count
}
