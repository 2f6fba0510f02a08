//! The trips with whose times something is wrong.
ghost use Rattle.std.specs.Prelude.{◌≡◌, ◌≤◌, ◌<◌, All, IfOk, length};
ghost use Rattle.service_trips.specs.declared.stop_time.StopTime.{StopTime};
ghost use Rattle.service_trips.specs.StopTimes.{DifferWithinTrips};
ghost use Rattle.service_trips.specs.Broken.{broken_trips};

use crate::StopTime;
use crate::chains::TripChains;
use crate::faults::trip_fault;
use crate::order::stop_times;
use gtfs_rows::FeedFault;
use std::alloc::Global;
use tb_base::Memory;

/// A trip, by the position of its row in trips.txt, from 0, and what is wrong with it.
#[derive(Debug, Drop)]
pub struct TripFault {
    pub trip: u32,
    pub fault: FeedFault,
}

/// The trips, of so many, with whose times something is wrong, in the order of trips.txt, each with
/// its first fault, running or not: `NoEndTime` of the first row, then of the last, then
/// `TimeRunsBack` along the rows. Two rows of a trip have different sequence numbers.
pub fn broken_trips(
    alloc: Global,
    rows: &[StopTime],
    trips: usize,
) -> Result<Vec<TripFault>, Memory>
    requires trips { All (λ r. StopTime.trip_row r < trips) rows.now }
    requires row_count { length rows.now ≤ 20000000 }
    requires trip_count { trips ≤ 2000000 }
    requires sequences { DifferWithinTrips rows.now }
    ensures { IfOk result (λ found. found.items ≡ broken_trips rows.now trips) }
{
    let chains = TripChains::new(alloc, rows, trips)?;
    let mut found: Vec<TripFault> = Vec::new(alloc);
    let mut ordered: Vec<StopTime> = Vec::new(alloc);
    for trip in 0..trips {
        stop_times(&chains, rows, trip as u32, &mut ordered)?;
        if let Some(fault) = trip_fault(&ordered) {
            found.push(TripFault {
                trip: trip as u32,
                fault,
            })?;
        }
    }
    Ok(found)
}
