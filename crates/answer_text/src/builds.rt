//! What is built of a timetable, as texts.
ghost use Rattle.std.specs.Prelude.{◌≡◌, ◌++◌, ◌<◌, All, IfOk, OnOk, length, map};
ghost use Rattle.answer_text.specs.Builds.{HasTrips, build_list_text, build_text, counts_text, event_mark, event_text, labelled, table_text, transfer_text, transfers_text};

use crate::journeys::trip_day;
use crate::text::Text;
use std::alloc::Global;
use tb_base::{Memory, ServiceDay, Timetable, Transfer, TripNo};

/// How many lines a timetable has, how many candidate transfers, how many of these are no U-turns,
/// and how many are kept.
#[derive(Clone, Copy, Debug, PartialEq, Eq)]
pub struct BuildCounts {
    pub lines: u32,
    pub generated: u64,
    pub after_uturn: u64,
    pub kept: u64,
}

// What stands behind an event of a trip of a service day.
fn event_mark(day: ServiceDay) -> &'static [u8]
    ensures { result.now ≡ event_mark day }
{
    match day {
        ServiceDay::Before => b"/before",
        ServiceDay::Date => b"",
        ServiceDay::After => b"/after",
        ServiceDay::SecondAfter => b"/+2",
    }
}

impl Text {
    // Adds a label and a number.
    pub(crate) fn labelled(&mut self, label: &[u8], n: u64) -> Result<(), Memory>
        ensures { OnOk result (self.new ≡ self.old ++ labelled label.now n) }
    {
        self.add(label)?;
        self.count(n)
    }

    // Adds the line of a timetable's size.
    fn table(&mut self, table: &Timetable) -> Result<(), Memory>
        ensures { OnOk result (self.new ≡ self.old ++ table_text table.now) }
    {
        self.labelled(b"stops ", u64::from(table.stop_count()))?;
        self.labelled(b" trips ", u64::from(table.trip_count()))?;
        self.labelled(b" events ", table.event_count())?;
        self.labelled(b" footpaths ", table.path_count())?;
        self.add(b"\n")
    }

    // Adds the line of the counts.
    fn counts(&mut self, counts: BuildCounts) -> Result<(), Memory>
        ensures { OnOk result (self.new ≡ self.old ++ counts_text counts) }
    {
        self.labelled(b"lines ", u64::from(counts.lines))?;
        self.labelled(b" generated ", counts.generated)?;
        self.labelled(b" after_uturn ", counts.after_uturn)?;
        self.labelled(b" kept ", counts.kept)?;
        self.add(b"\n")
    }

    // Adds both lines.
    fn build(&mut self, table: &Timetable, counts: BuildCounts) -> Result<(), Memory>
        ensures { OnOk result (self.new ≡ self.old ++ build_text table.now counts) }
    {
        self.table(table)?;
        self.counts(counts)
    }

    // Adds an event of a trip.
    fn event(&mut self, table: &Timetable, trip: TripNo, at: u32) -> Result<(), Memory>
        requires { trip < length table.now.trips }
        ensures { OnOk result (self.new ≡ self.old ++ event_text table.now trip at) }
    {
        self.trip(table, trip)?;
        self.add(b"@")?;
        self.number(at)?;
        self.add(event_mark(trip_day(table, trip)))
    }

    // Adds the line of a transfer.
    fn transfer(&mut self, table: &Timetable, row: &Transfer) -> Result<(), Memory>
        requires { HasTrips table.now row.now }
        ensures { OnOk result (self.new ≡ self.old ++ transfer_text table.now row.now) }
    {
        self.event(table, row.trip, row.at)?;
        self.add(b" ")?;
        self.event(table, row.to_trip, row.to_at)?;
        self.add(b"\n")
    }

    // Adds the lines of some transfers.
    fn transfers(&mut self, table: &Timetable, rows: &[Transfer]) -> Result<(), Memory>
        requires { All (HasTrips table.now) rows.now }
        ensures { OnOk result (self.new ≡ self.old ++ transfers_text table.now rows.now) }
    {
        for row in rows {
            self.transfer(table, row)?;
        }
        Ok(())
    }
}

/// What is built of a timetable: `stops N trips N events N footpaths N`, and
/// `lines N generated N after_uturn N kept N`.
pub fn build_text(alloc: Global, table: &Timetable, counts: BuildCounts) -> Result<Vec<u8>, Memory>
    ensures { IfOk result (λ v. v.items ≡ build_text table.now counts) }
{
    let mut text = Text::new(alloc);
    text.build(table, counts)?;
    Ok(text.into_bytes())
}

/// The same, and behind it `TRIP@I TRIP@J` for each transfer, list after list, an end at a trip
/// whose service day isn't the date as `TRIP@I/before`, `TRIP@I/after` or `TRIP@I/+2`. The trips
/// exist in the timetable.
pub fn build_list_text(
    alloc: Global,
    table: &Timetable,
    counts: BuildCounts,
    lists: &[Vec<Transfer>],
) -> Result<Vec<u8>, Memory>
    requires { All (λ row. All (HasTrips table.now) row.items) lists.now }
    ensures { IfOk result (λ v.
        v.items ≡ build_list_text table.now counts (map (λ row. row.items) lists.now)) }
{
    let mut text = Text::new(alloc);
    text.build(table, counts)?;
    for rows in lists {
        text.transfers(table, rows.as_slice())?;
    }
    Ok(text.into_bytes())
}
