//! The rows of a trip in order of their sequence numbers.
ghost use Rattle.std.specs.Prelude.{◌≡◌, ◌≢◌, ◌<◌, ◌↔◌, IsTrue, AllPairs, OnOk, length};
ghost use Rattle.service_trips.specs.declared.stop_time.StopTime.{StopTime};
ghost use Rattle.service_trips.specs.StopTimes.{in_sequence, stop_times, DifferWithinTrips};
ghost use Rattle.service_trips.specs.Chains.{ChainsOf};

use crate::StopTime;
use crate::chains::TripChains;
use tb_base::Memory;

/// Puts the stop times of a trip, in order, into a vector.
pub fn stop_times(
    chains: &TripChains,
    rows: &[StopTime],
    trip: u32,
    found: &mut Vec<StopTime>,
) -> Result<(), Memory>
    requires chains { ChainsOf rows.now (length chains.now.last.items) chains.now }
    requires trip { trip < length chains.now.last.items }
    requires sequences { DifferWithinTrips rows.now }
    ensures { OnOk result (found.new.items ≡ stop_times rows.now trip) }
{
    chains.rows_of(rows, trip, found)?;
    put_in_sequence(found);
    Ok(())
}

// Puts rows in order. They mostly stand in order already.
fn put_in_sequence(rows: &mut Vec<StopTime>)
    requires { AllPairs (λ r s. StopTime.sequence r ≢ StopTime.sequence s) rows.old.items }
    ensures { rows.new.items ≡ in_sequence rows.old.items }
{
    if !ascends(rows) {
        rows.sort_unstable_by_key(|row| row.sequence);
    }
}

// Whether each row's number is less than those of the rows after it.
fn ascends(rows: &[StopTime]) -> bool
    ensures { IsTrue result
        ↔ AllPairs (λ r s. StopTime.sequence r < StopTime.sequence s) rows.now }
{
    for k in 1..rows.len() {
        if rows[k].sequence <= rows[k - 1].sequence {
            return false;
        }
    }
    true
}
