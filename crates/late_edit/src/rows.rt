//! The kept transfers of the touched trips of an amended timetable.
ghost use Rattle.std.specs.Prelude.{◌≡◌, ◌+◌, ◌<◌, ◌++◌, ◌∷◌, [], IfOk, OnOk, if◌then◌else◌, length};
ghost use Rattle.tb_base.specs.Transfers.{kept_hops, transfers_of};
ghost use Rattle.late_edit.specs.Amending.{AreKeptRows, edition_lines, touched_row};
ghost use Rattle.late_edit.specs.Updated.{IsUpdated};
ghost use Rattle.late_edit.specs.Touched.{MarksOthers, is_touched};

use crate::amendment::Amendment;
use crate::lined_timetable::LinedTimetable;
use edition_store::Edition;
use line_split::Lines;
use reduce_workers::kept_row;
use std::alloc::Global;
use std::marker::Model;
use tb_base::{Memory, Timetable, Transfer, TripNo};
use transfer_pack::FlatCalls;
use transfer_reduce::Labels;

/// The kept transfers of each touched trip of a timetable, one list a trip, which of the others is
/// empty; which trips are touched, and how many; and how many transfers all trips keep.
#[derive(Drop)]
pub(crate) struct Rows {
    pub(crate) rows: Vec<Vec<Transfer>>,
    pub(crate) touched: Vec<bool>,
    pub(crate) kept: u64,
    pub(crate) redone: u32,
}

impl Model for Rows {
    ghost use Rattle.std.specs.Prelude.{map};
    ghost use Rattle.late_edit.specs.Amending.{RowsData};

    ghost Value = { RowsData };

    ghost view = { λ r. record {
      rows = map (λ row. row.items) r.rows.items;
      touched = r.touched.items;
      kept = r.kept;
      redone = r.redone;
    } };
}

// How many transfers a trip keeps in an edition.
fn kept_count(edition: &Edition, trip: TripNo) -> usize
    requires { trip < length edition.now.table.trips }
    ensures { result ≡ length (transfers_of edition.now.table
        (kept_hops edition.now.table edition.now.lines trip) trip) }
{
    let set = edition.set();
    let events = set.event_count(trip);
    if events == 0 {
        return 0;
    }
    set.hops_over(trip, 0, events - 1).count()
}

// The kept transfers of a trip if it is touched, by the reduction, and none else; and how many
// transfers it keeps: those of the old edition if it isn't touched.
fn trip_row(
    alloc: Global,
    old: &Edition,
    table: &Timetable,
    lines: &Lines,
    calls: &FlatCalls,
    labels: &mut Labels,
    trip: TripNo,
    touched: bool,
) -> Result<(Vec<Transfer>, usize), Memory>
    requires lines { lines.now.table ≡ table.now }
    requires calls { calls.now ≡ table.now }
    requires labels { labels.old.table ≡ table.now }
    requires trip { trip < length table.now.trips }
    requires updated { IsUpdated old.now.table table.now }
    requires touched { touched ≡ is_touched (edition_lines old.now) lines.now trip }
    ensures labels { labels.new.table ≡ table.now }
    ensures row { IfOk result (λ r. r.0.items ≡ touched_row (edition_lines old.now) lines.now trip) }
    ensures kept { IfOk result (λ r. r.1
        ≡ length (transfers_of table.now (kept_hops table.now lines.now.lines trip) trip)) }
{
    if touched {
        let row = kept_row(alloc, table, lines, calls, labels, trip)?;
        let kept = row.len();
        return Ok((row, kept));
    }
    crate::laws::untouched_kept();
    Ok((Vec::new(alloc), kept_count(old, trip)))
}

impl Rows {
    fn new(alloc: Global) -> Rows
        ensures { result ≡ record { rows = []; touched = []; kept = 0; redone = 0 } }
    {
        Rows {
            rows: Vec::new(alloc),
            touched: Vec::new(alloc),
            kept: 0,
            redone: 0,
        }
    }

    // Adds what the next trip has, which keeps so many transfers.
    fn add(&mut self, row: Vec<Transfer>, touched: bool, kept: usize) -> Result<(), Memory>
        requires kept { self.old.kept + kept < 18446744073709551616 }
        requires redone { self.old.redone < 4294967295 }
        ensures { OnOk result (self.new ≡ record {
          rows = self.old.rows ++ row.items ∷ [];
          touched = self.old.touched ++ touched ∷ [];
          kept = self.old.kept + kept;
          redone = self.old.redone + (if touched then 1 else 0);
        }) }
    {
        self.kept += kept as u64;
        self.redone += touched as u32;
        self.touched.push(touched)?;
        self.rows.push(row)?;
        Ok(())
    }

    // Adds what each trip has, where nothing was added yet.
    fn add_trips(
        &mut self,
        alloc: Global,
        old: &Edition,
        table: &Timetable,
        lines: &Lines,
        amendment: &Amendment,
        calls: &FlatCalls,
        labels: &mut Labels,
    ) -> Result<(), Memory>
        requires none { self.old ≡ record { rows = []; touched = []; kept = 0; redone = 0 } }
        requires lines { lines.now.table ≡ table.now }
        requires updated { IsUpdated old.now.table table.now }
        requires before { amendment.now.before ≡ edition_lines old.now }
        requires after { amendment.now.after ≡ lines.now }
        requires calls { calls.now ≡ table.now }
        requires labels { labels.old.table ≡ table.now }
        ensures { OnOk result (AreKeptRows (edition_lines old.now) lines.now
            (length table.now.trips) self.new) }
    {
        table.soundness();
        lines.soundness();
        for t in 0..table.trip_count() {
            let trip = TripNo(t);
            let touched = amendment.is_touched(alloc, trip)?;
            let (row, kept) = trip_row(alloc, old, table, lines, calls, labels, trip, touched)?;
            self.add(row, touched, kept)?;
        }
        Ok(())
    }

    /// The kept transfers of the touched trips of a timetable with its lines, in which marked trips
    /// may have other events than in that of an edition. That only touched trips are reduced again is
    /// so in the code and in no clause. Refused only for want of memory.
    pub(crate) fn of(
        alloc: Global,
        old: &Edition,
        table: &Timetable,
        lines: &Lines,
        others: &[bool],
    ) -> Result<Rows, Memory>
        requires lines { lines.now.table ≡ table.now }
        requires updated { IsUpdated old.now.table table.now }
        requires others { MarksOthers old.now.table table.now others.now }
        ensures { IfOk result
            (AreKeptRows (edition_lines old.now) lines.now (length table.now.trips)) }
    {
        let before = LinedTimetable::new(old.table(), old.lines());
        let after = LinedTimetable::new(table, lines);
        let amendment = Amendment::between(alloc, before, after, others)?;
        let Ok(calls) = FlatCalls::of(alloc, table) else {
            drop(amendment);
            return Err(Memory);
        };
        let Ok(mut labels) = Labels::new(alloc, table) else {
            drop(calls);
            drop(amendment);
            return Err(Memory);
        };
        let mut rows = Rows::new(alloc);
        let added = rows.add_trips(alloc, old, table, lines, &amendment, &calls, &mut labels);
        drop(labels);
        drop(calls);
        drop(amendment);
        match added {
            Ok(()) => Ok(rows),
            Err(Memory) => {
                drop(rows);
                Err(Memory)
            }
        }
    }
}
