//! What is wrong with the times of a trip.
ghost use Rattle.std.specs.Prelude.{◌≡◌, None};
ghost use Rattle.gtfs_rows.specs.declared.fault.FeedFile.TheVariants as file;
ghost use Rattle.gtfs_rows.specs.Faults.{spot};
ghost use Rattle.service_trips.specs.Faults.{first_wrong};
ghost use Rattle.service_trips.specs.TimeFaults.{wrong_end, wrong_times, departed_by, wrong_along, wrong_trip_times};

use crate::StopTime;
use crate::times::{Times, times_of};
use gtfs_rows::columns::stop_times;
use gtfs_rows::{FeedFault, FeedFile, Spot};
use tb_base::Sec;

/// The first fault of a trip whose rows stand in order. A trip of fewer than two rows has none.
pub fn trip_fault(rows: &[StopTime]) -> Option<FeedFault>
    ensures { result ≡ first_wrong (wrong_trip_times rows.now) }
{
    if rows.len() < 2 {
        return None;
    }
    if let Some(fault) = end_fault(&rows[0]) {
        return Some(fault);
    }
    let last = rows.len() - 1;
    if let Some(fault) = end_fault(&rows[last]) {
        return Some(fault);
    }
    fault_along(rows)
}

// The fault of a trip's first or last row that has no time.
fn end_fault(row: &StopTime) -> Option<FeedFault>
    ensures { result ≡ wrong_end row.now }
{
    match times_of(row) {
        Some(_) => None,
        None => Some(FeedFault::NoEndTime(time_spot(row, stop_times::ARRIVAL_TIME))),
    }
}

// The first fault of times that run back.
fn fault_along(rows: &[StopTime]) -> Option<FeedFault>
    ensures { result ≡ first_wrong (wrong_along None rows.now) }
{
    let mut departed: Option<Sec> = None;
    for row in rows {
        let times = times_of(row);
        if let Some(fault) = times_fault(row, times, departed) {
            return Some(fault);
        }
        departed = departed_by(departed, times);
    }
    None
}

// The first fault of a row's times, after the departure of the timed row before it.
fn times_fault(row: &StopTime, times: Option<Times>, departed: Option<Sec>) -> Option<FeedFault>
    ensures { result ≡ first_wrong (wrong_times departed row.now times) }
{
    let Some(times) = times else {
        return None;
    };
    if let Some(departed) = departed {
        if times.arr < departed {
            return Some(FeedFault::TimeRunsBack(time_spot(row, stop_times::ARRIVAL_TIME)));
        }
    }
    if times.dep < times.arr {
        return Some(FeedFault::TimeRunsBack(time_spot(row, stop_times::DEPARTURE_TIME)));
    }
    None
}

// The departure of the last timed row.
fn departed_by(departed: Option<Sec>, times: Option<Times>) -> Option<Sec>
    ensures { result ≡ departed_by departed times }
{
    match times {
        Some(times) => Some(times.dep),
        None => departed,
    }
}

// Where the row's arrival stands, in column 2, or its departure, in column 3.
fn time_spot(row: &StopTime, column: u8) -> Spot
    ensures { result ≡ spot file.StopTimes row.now.row column }
{
    Spot {
        file: FeedFile::StopTimes,
        row: row.row,
        column,
    }
}
