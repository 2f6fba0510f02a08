//! What was compared of amended editions.
use crate::comparing::refused::{Difference, Refused};
use late_edit::LateFault;

/// Lists of updates that are refused, by their first fault.
#[derive(Clone, Copy)]
pub struct Faults {
    pub unknown_trips: u64,
    pub times_run_back: u64,
    pub out_of_range: u64,
    pub bad_events: u64,
}

/// What was compared, by numbers.
#[derive(Clone, Copy)]
pub struct AmendedTally {
    pub feeds: u64,
    /// Lists of updates.
    pub lists: u64,
    pub refused: Faults,
    /// Amended editions, and those among them that have no other events.
    pub amended: u64,
    pub unmoved: u64,
    /// Touched trips, and kept transfers, of all amended editions.
    pub touched: u64,
    pub transfers: u64,
    /// Queries, and the best values of all of them.
    pub queries: u64,
    pub values: u64,
}

impl AmendedTally {
    /// Nothing yet.
    pub const NOTHING: AmendedTally = AmendedTally {
        feeds: 0,
        lists: 0,
        refused: Faults {
            unknown_trips: 0,
            times_run_back: 0,
            out_of_range: 0,
            bad_events: 0,
        },
        amended: 0,
        unmoved: 0,
        touched: 0,
        transfers: 0,
        queries: 0,
        values: 0,
    };

    /// Adds an amended edition with so many touched trips and kept transfers.
    pub fn add_amended(&mut self, touched: u32, transfers: u64) {
        self.amended = self.amended.wrapping_add(1);
        self.touched = self.touched.wrapping_add(touched as u64);
        self.transfers = self.transfers.wrapping_add(transfers);
    }

    /// Adds a query with so many best values.
    pub fn add_query(&mut self, values: usize) {
        self.queries = self.queries.wrapping_add(1);
        self.values = self.values.wrapping_add(values as u64);
    }
}

impl Faults {
    /// Adds a refused list. No list is refused for a file's fault.
    pub fn add(&mut self, fault: LateFault) -> Result<(), Refused> {
        let count = match fault {
            LateFault::UnknownTrip(_) => &mut self.unknown_trips,
            LateFault::TimeRunsBack(_) => &mut self.times_run_back,
            LateFault::OutOfRange(_) => &mut self.out_of_range,
            LateFault::BadEvent(_) => &mut self.bad_events,
            LateFault::BadLine(_) | LateFault::MissingFile | LateFault::TooLarge => {
                return Err(Refused::Differs(Difference::Fault));
            }
        };
        *count = count.wrapping_add(1);
        Ok(())
    }
}

impl Faults {
    // Writes it.
    fn write(&self, rt: &impl Print) {
        let trips = self.unknown_trips;
        let times = self.times_run_back;
        let range = self.out_of_range;
        let events = self.bad_events;
        let _ = println!(rt; "refused: trips {trips} times {times} range {range} events {events}");
    }
}

impl AmendedTally {
    /// Writes it.
    pub fn write(&self, rt: &impl Print) {
        let AmendedTally {
            feeds,
            lists,
            amended,
            unmoved,
            touched,
            transfers,
            queries,
            values,
            ..
        } = self;
        let _ = println!(rt; "feeds {feeds} lists of updates {lists}");
        self.refused.write(rt);
        let _ = println!(rt; "amended {amended} with no other events {unmoved}");
        let _ = println!(rt; "touched {touched} transfers {transfers}");
        let _ = println!(rt; "queries {queries} values {values}");
        let _ = println!(rt; "no difference");
    }
}
