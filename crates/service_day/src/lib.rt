//! Which services run on a day, by calendar.txt and calendar_dates.txt of the GTFS Schedule
//! Reference.
//!
//! [`day_of`] reads a date, and [`running`] gives the [`Services`] of that day: a service runs
//! where a row of calendar_dates.txt adds it on the day, or where a row of calendar.txt has the
//! day, both ends of its range counted, and no row of calendar_dates.txt removes it. The layer
//! above asks [`Services::runs`] for one service.
#![tactic(auto)]

mod day;
mod near_days;
mod services;

pub use day::{BadDate, Day, day_of};
pub use services::{Services, running};
