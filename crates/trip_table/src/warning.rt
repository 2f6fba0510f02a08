//! What of a feed is read, but likely not meant.

/// What of a feed is read, but likely not meant; rows by their numbers in their files, from 1.
#[derive(Debug, Clone, Copy)]
pub enum Warning {
    /// No row of calendar.txt or calendar_dates.txt has the `service_id` of a row of trips.txt.
    UnknownService(u32),
    /// No row of trips.txt has a service that runs on the day.
    NoTrips,
    /// No stop time is at the platform of a row of stops.txt.
    UnservedStop(u32),
    /// Closing footpaths gives a change to so many ordered pairs of stops that had none, and to so
    /// many a faster one.
    Closing(u64, u64),
    /// The `headway_secs` of a row of frequencies.txt are more than a day.
    LongHeadway(u32),
}
