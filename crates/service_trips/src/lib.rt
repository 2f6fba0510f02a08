//! The trips of service days: from the rows of stop times and of frequencies to the trips that a
//! day's timetable has, with the events of each.
//!
//! The layer above names the trip and the stop of each row of stop_times.txt, and the trip of each
//! row of frequencies.txt, by their numbers, and says which rows of trips.txt have a service that
//! runs on the date and on each other service day of the timetable.
//!
//! From `rides_of` it gets, for each trip that runs, one event a stop time, or else the first fault
//! over all trips: a first or last stop without a time, or times that run back. A stop without
//! times gets its own by interpolation between the nearest stops that have them, by the number of
//! stops. From `timetable_trips` it gets exactly the trips of the date, and after them those of later
//! days that end within the limits of times, and those of the day before that are still under way
//! after midnight, or else the first thing that is wrong: a start that moves a time beyond the limits
//! of a day, then too many trips, then too many events. In the code they are counted before one is
//! made; no clause says it. The trips that it gets are sound. Follows stop_times.txt and
//! frequencies.txt of the GTFS Schedule Reference.
#![tactic(auto)]

mod beyond;
mod broken;
mod by_starts;
mod chains;
mod faults;
mod frequency;
mod moved_rides;
mod order;
mod rides;
mod size;
mod starts;
mod stop_time;
mod times;
mod timetable;
mod trips;

pub use beyond::moves_beyond;
pub use broken::{TripFault, broken_trips};
pub use frequency::{FrequencyTable, TripFrequency};
pub use rides::rides_of;
pub use stop_time::StopTime;
pub use timetable::{DayRuns, timetable_trips};
