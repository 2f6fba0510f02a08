//! Where lines call at each stop.
ghost use Rattle.std.specs.Prelude.{◌≡◌, ◌<◌, ◌^◌, ◌++◌, ℕ, [], All, IfOk, OnOk, length, slice_index_or};
ghost use Rattle.line_split.specs.LinesOf.{berths_at};
ghost use Rattle.line_split.specs.Calls.{calls_of};

use super::events::events_of;
use super::lines::Berth;
use super::nested::Nested;
use std::alloc::Global;
use tb_base::{Event, LineNo, Memory, Timetable, TripNo};

/// The first trip of a line.
pub(crate) fn first_of(trips: &[TripNo]) -> TripNo
    ensures { result ≡ slice_index_or trips.now 0 0 }
{
    if trips.is_empty() {
        return TripNo(0);
    }
    trips[0]
}

/// For each stop where lines call, by line, then by index.
pub(crate) fn berths_of(
    alloc: Global,
    table: &Timetable,
    lines: &Nested<TripNo>,
) -> Result<Nested<Berth>, Memory>
    requires { length lines.now < 2 ^ 32 }
    ensures length { IfOk result (λ berths. length berths ≡ length table.now.stops) }
    ensures berths { IfOk result (λ berths. (q : ℕ) → q < length table.now.stops →
        slice_index_or berths q [] ≡ berths_at table.now lines.now q) }
{
    table.soundness();
    let mut berths = Nested::with_rows(alloc, table.stop_count() as usize)?;
    for line in 0..lines.len() {
        let events = events_of(table, first_of(lines.row(line)));
        add_calls(&mut berths, LineNo(line as u32), events)?;
    }
    Ok(berths)
}

// Adds the calls of a line with these events.
fn add_calls(berths: &mut Nested<Berth>, line: LineNo, events: &[Event]) -> Result<(), Memory>
    requires fits { length events.now < 2 ^ 32 }
    requires stops { All (λ e. e.stop < length berths.old) events.now }
    ensures length { OnOk result (length berths.new ≡ length berths.old) }
    ensures calls { OnOk result ((q : ℕ) → q < length berths.old →
        slice_index_or berths.new q []
        ≡ slice_index_or berths.old q [] ++ calls_of line events.now q (length events.now)) }
{
    for at in 0..events.len() {
        let berth = Berth {
            line,
            at: at as u32,
        };
        berths.add(events[at].stop.index(), berth)?;
    }
    Ok(())
}
