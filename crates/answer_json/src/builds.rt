//! What is built of a timetable, as JSON.
ghost use Rattle.std.specs.Prelude.{◌≡◌, ◌++◌, ◌<◌, All, IfOk, OnOk, length, map};
ghost use Rattle.answer_text.specs.Builds.{HasTrips};
ghost use Rattle.answer_json.specs.Builds.{build_json, build_list_json, counts_json, event_json, table_json, transfer_json, transfers_json};

use crate::journeys::add_trip;
use crate::strings::{add_count, add_total};
use answer_text::{BuildCounts, Text};
use std::alloc::Global;
use tb_base::{Memory, Timetable, Transfer, TripNo};

// Adds a timetable's size.
fn add_table(text: &mut Text, table: &Timetable) -> Result<(), Memory>
    ensures { OnOk result (text.new ≡ text.old ++ table_json table.now) }
{
    text.add(b"{\"stops\":")?;
    text.number(table.stop_count())?;
    add_count(text, b"trips", table.trip_count())?;
    add_total(text, b"events", table.event_count())?;
    add_total(text, b"footpaths", table.path_count())
}

// Adds the counts.
fn add_counts(text: &mut Text, counts: BuildCounts) -> Result<(), Memory>
    ensures { OnOk result (text.new ≡ text.old ++ counts_json counts) }
{
    add_count(text, b"lines", counts.lines)?;
    add_total(text, b"generated", counts.generated)?;
    add_total(text, b"after_uturn", counts.after_uturn)?;
    add_total(text, b"kept", counts.kept)?;
    text.add(b"}")
}

// Adds both, in a line.
fn add_build(text: &mut Text, table: &Timetable, counts: BuildCounts) -> Result<(), Memory>
    ensures { OnOk result (text.new ≡ text.old ++ build_json table.now counts) }
{
    add_table(text, table)?;
    add_counts(text, counts)?;
    text.add(b"\n")
}

// Adds an event of a trip.
fn add_event(text: &mut Text, table: &Timetable, trip: TripNo, at: u32) -> Result<(), Memory>
    requires { trip < length table.now.trips }
    ensures { OnOk result (text.new ≡ text.old ++ event_json table.now trip at) }
{
    text.add(b"{\"trip\":")?;
    add_trip(text, table, trip)?;
    add_count(text, b"event", at)?;
    text.add(b"}")
}

// Adds the line of a transfer.
fn add_transfer(text: &mut Text, table: &Timetable, row: &Transfer) -> Result<(), Memory>
    requires { HasTrips table.now row.now }
    ensures { OnOk result (text.new ≡ text.old ++ transfer_json table.now row.now) }
{
    text.add(b"{\"from\":")?;
    add_event(text, table, row.trip, row.at)?;
    text.add(b",\"to\":")?;
    add_event(text, table, row.to_trip, row.to_at)?;
    text.add(b"}\n")
}

// Adds the lines of some transfers.
fn add_transfers(text: &mut Text, table: &Timetable, rows: &[Transfer]) -> Result<(), Memory>
    requires { All (HasTrips table.now) rows.now }
    ensures { OnOk result (text.new ≡ text.old ++ transfers_json table.now rows.now) }
{
    for row in rows {
        add_transfer(text, table, row)?;
    }
    Ok(())
}

/// What is built of a timetable, in one line: `{"stops":N,"trips":N,"events":N,"footpaths":N,
/// "lines":N,"generated":N,"after_uturn":N,"kept":N}`.
pub fn build_json(alloc: Global, table: &Timetable, counts: BuildCounts) -> Result<Vec<u8>, Memory>
    ensures { IfOk result (λ v. v.items ≡ build_json table.now counts) }
{
    let mut text = Text::new(alloc);
    add_build(&mut text, table, counts)?;
    Ok(text.into_bytes())
}

/// The same, and behind it a line `{"from":EVENT,"to":EVENT}` for each transfer, list after list,
/// an event being `{"trip":TRIP,"event":I}`, with `"day":-1` behind a trip that began on the day
/// before. The trips exist in the timetable.
pub fn build_list_json(
    alloc: Global,
    table: &Timetable,
    counts: BuildCounts,
    lists: &[Vec<Transfer>],
) -> Result<Vec<u8>, Memory>
    requires { All (λ row. All (HasTrips table.now) row.items) lists.now }
    ensures { IfOk result (λ v.
        v.items ≡ build_list_json table.now counts (map (λ row. row.items) lists.now)) }
{
    let mut text = Text::new(alloc);
    add_build(&mut text, table, counts)?;
    for rows in lists {
        add_transfers(&mut text, table, rows.as_slice())?;
    }
    Ok(text.into_bytes())
}
