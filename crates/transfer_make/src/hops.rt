//! The hop onto a line where it is boarded.
ghost use Rattle.std.specs.Prelude.{◌≡◌, ◌<◌, ◌≤◌, ◌==◌, ◌&&◌, ◌++◌, length, nat_le, ◌+ℤ◌, ◌≤ℤ◌, pos, negsuc, OnOk};
ghost use Rattle.std.specs.Option.{option_to_list};
ghost use Rattle.line_split.specs.Layout.{IsBoarding, berth_of};
ghost use Rattle.transfer_make.specs.ByBerth.{IsAlighting, hop_at, row_by, rows_at};

use super::alighting::Alighting;
use line_split::{Boarding, Lines};
use tb_base::{Memory, Sec, StopNo, Transfer, TripNo};

// The trip that is hopped onto where a line is boarded, so many seconds after the alighting.
fn hop(lines: &Lines, from: &Alighting, boarding: &Boarding, secs: u32) -> Option<TripNo>
    requires from { IsAlighting lines.now.table lines.now.lines from.now }
    requires boarding { IsBoarding lines.now.table lines.now.lines boarding.now }
    requires secs { secs ≤ 86400 }
    ensures { result ≡ hop_at lines.now.table lines.now.lines from.now.trip from.now.at
        (from.now.arr +ℤ pos secs) (berth_of boarding.now) }
{
    lines.soundness();
    let Some(found) = lines.boarded(boarding, time_after(from, secs)) else {
        return None;
    };
    if is_onward(from, boarding, found.1) {
        return None;
    }
    Some(found.0)
}

// The time so many seconds after the alighting.
fn time_after(from: &Alighting, secs: u32) -> Sec
    requires earliest { negsuc 86399 ≤ℤ from.now.arr }
    requires latest { from.now.arr ≤ℤ pos 359999 }
    requires secs { secs ≤ 86400 }
    ensures { result ≡ from.now.arr +ℤ pos secs }
{
    from.arr + secs as i32
}

// Whether a trip at a place of the line is the own trip or comes after it, and is boarded no
// earlier than one alights.
fn is_onward(from: &Alighting, boarding: &Boarding, place: usize) -> bool
    ensures { result ≡ ((boarding.now.line == from.now.line)
        && nat_le from.now.at boarding.now.at && nat_le from.now.place place) }
{
    boarding.line.index() == from.line.index()
        && from.at <= boarding.at
        && from.place as usize <= place
}

// Adds the row of a hop, where there is one.
fn add_boarding(
    rows: &mut Vec<Transfer>,
    lines: &Lines,
    from: &Alighting,
    boarding: &Boarding,
    secs: u32,
) -> Result<(), Memory>
    requires from { IsAlighting lines.now.table lines.now.lines from.now }
    requires boarding { IsBoarding lines.now.table lines.now.lines boarding.now }
    requires secs { secs ≤ 86400 }
    ensures { OnOk result (rows.new.items ≡ rows.old.items
        ++ option_to_list (row_by lines.now.table lines.now.lines from.now.trip from.now.at
        (from.now.arr +ℤ pos secs) (berth_of boarding.now))) }
{
    if let Some(trip) = hop(lines, from, boarding, secs) {
        let row = Transfer {
            trip: from.trip,
            at: from.at,
            to_trip: trip,
            to_at: boarding.at,
        };
        rows.push(row)?;
    }
    Ok(())
}

/// Adds the candidates onto the lines that are boarded at a stop, so many seconds after the
/// alighting.
pub(crate) fn add_stop(
    rows: &mut Vec<Transfer>,
    lines: &Lines,
    from: &Alighting,
    stop: StopNo,
    secs: u32,
) -> Result<(), Memory>
    requires from { IsAlighting lines.now.table lines.now.lines from.now }
    requires stop { stop < length lines.now.table.stops }
    requires secs { secs ≤ 86400 }
    ensures { OnOk result (rows.new.items ≡ rows.old.items
        ++ rows_at lines.now.table lines.now.lines from.now.trip from.now.at stop secs
        from.now.arr) }
{
    for boarding in lines.boardings(stop) {
        add_boarding(rows, lines, from, boarding, secs)?;
    }
    Ok(())
}
