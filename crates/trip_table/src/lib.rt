//! The timetable of a day of service, from the files of a feed, as the GTFS Schedule Reference
//! describes them.
//!
//! [`read_day`] takes the files from a folder, one after another, and gives exactly the timetable
//! of the day, or exactly the first thing that is wrong: stops.txt, calendar.txt,
//! calendar_dates.txt, trips.txt, stop_times.txt, transfers.txt and frequencies.txt, and in each
//! its presence, its size, its text, its columns, its rows and what they name; then the times of a
//! trip, running or not; then those that the starts of frequencies.txt give; then the size of the
//! day; then the number of footpaths; then, where footpaths are closed, their number again and
//! pairs that are more than a day apart, and else the law that they keep. The trips of the day
//! before that are still under way after midnight are part of the day, and where the options say so
//! those of one or two days after it. The definition of the whole is `IsTimetableOf` in
//! specs/Day.antt.
//!
//! [`read_lenient_day`] leaves bad rows out, and what names them in turn, tells the fault of each, and
//! gives the timetable of what is left: `IsLenientOf` in specs/LeftFeed.antt. [`read_asked_day`] is
//! one or the other, as the options ask; [`check_feed`] gives all that is wrong, [`feed_warnings`] what
//! is right, but likely not meant: `AreWarningsOf` in specs/Warnings.antt.
#![tactic(auto)]

mod asked_day;
mod assemble;
mod bearer;
mod closing;
mod day;
mod day_fault;
mod day_trips;
mod distinct;
mod feed;
mod frequencies;
mod law;
pub mod laws;
mod left_day;
mod left_frequencies;
mod left_services;
mod left_starts;
mod left_stops;
mod left_times;
mod left_transfers;
mod left_trips;
mod paths;
mod rows;
mod seen;
mod services;
mod sieve;
mod stops;
mod times;
mod trips;
mod turns;
mod warning;
mod warnings;

pub use asked_day::{check_feed, read_asked_day};
pub use day::read_day;
pub use day_fault::DayFault;
pub use footpaths::Options;
pub use left_day::read_lenient_day;
pub use service_day::{Day, day_of};
pub use warning::Warning;
pub use warnings::feed_warnings;
