//! The rows of each trip, in linear time: each row leads back to the one before it of its trip.
ghost use Rattle.std.specs.Prelude.{◌≡◌, ◌<◌, ◌^◌, All, IfOk, OnOk, filter, length};
ghost use Rattle.service_trips.specs.declared.stop_time.StopTime.{StopTime};
ghost use Rattle.service_trips.specs.StopTimes.{is_of_trip};
ghost use Rattle.service_trips.specs.Chains.{ChainsOf};

use crate::StopTime;
use std::alloc::Global;
use tb_base::Memory;

/// The rows of each trip from the last one back. A row is named by how many rows end with it, so
/// 0 is none.
#[derive(Drop)]
pub struct TripChains {
    // The last row of each trip.
    last: Vec<u32>,
    // For each row the one before it of the same trip.
    earlier: Vec<u32>,
}

impl TripChains {
    /// The chains of so many trips.
    pub fn new(alloc: Global, rows: &[StopTime], trips: usize) -> Result<TripChains, Memory>
        requires trips { All (λ r. StopTime.trip_row r < trips) rows.now }
        requires fits { length rows.now < 2 ^ 32 }
        ensures { IfOk result (ChainsOf rows.now trips) }
    {
        let mut last: Vec<u32> = vec![in alloc; 0; trips]?;
        let mut earlier: Vec<u32> = Vec::with_capacity(alloc, rows.len())?;
        for i in 0..rows.len() {
            let trip = rows[i].trip_row as usize;
            earlier.push(last[trip])?;
            last[trip] = i as u32 + 1;
        }
        Ok(TripChains { last, earlier })
    }

    /// Puts the rows of a trip into a vector, in the order of the file.
    pub fn rows_of(
        &self,
        rows: &[StopTime],
        trip: u32,
        found: &mut Vec<StopTime>,
    ) -> Result<(), Memory>
        requires chains { ChainsOf rows.now (length self.now.last.items) self.now }
        requires trip { trip < length self.now.last.items }
        ensures { OnOk result (found.new.items ≡ filter (is_of_trip trip) rows.now) }
    {
        found.clear();
        let mut end = self.last[trip as usize];
        while end > 0 {
            let row = end as usize - 1;
            found.push(rows[row])?;
            end = self.earlier[row];
        }
        found.reverse();
        Ok(())
    }
}
