//! Delays, cancelled trips and skipped stops: a file that says them of trips, the timetable amended
//! by it, the trips whose transfers that may change, and the edition of the amended timetable.
//!
//! `amend` reduces again only the touched trips of an edition, and takes the transfers of all others
//! from the old edition, as Trip-Based Public Transit Routing (Witt, ESA 2015) allows where delays
//! are known; which trips are reduced again is so in the code and in no clause. The layer above may
//! rely on this:
//! - what is read is exactly what the file says, line by line, or its first bad line. A line says of
//!   a scheduled trip what the trip updates of GTFS Realtime do;
//! - the amended timetable is exactly the one in which each update, one after another, changes the
//!   first trip of its name and day: its events are moved from one of them on, or at all of them or
//!   at one of them nobody boards or alights; or the first fault of an update. Times are in seconds
//!   from noon minus twelve hours, as the GTFS Schedule Reference counts them;
//! - of two timetables with their lines that differ in times and marks alone, `Amendment` tells
//!   exactly which trips are touched: those with other events, with another list of candidate
//!   transfers, or with a trip of other events in that list. The law in `laws` says that every other
//!   trip keeps the same transfers in the reduction;
//! - the new edition is that of exactly the amended timetable, or the first fault of an update; and
//!   how many trips are touched.
#![tactic(auto)]

mod amended_table;
mod amending;
mod amendment;
mod closing;
mod compared;
mod doubts;
mod events;
mod first_trips;
mod late;
pub mod laws;
mod lined_timetable;
mod moves;
mod named_trips;
mod near;
mod reader;
mod rows;
mod settled;
mod taking;
mod update;
mod updated_trips;
mod words;

pub use amended_table::amended;
pub use amending::{Amended, amend};
pub use amendment::Amendment;
pub use late::{Cancel, Late, LateFault, Skip};
pub use lined_timetable::LinedTimetable;
pub use reader::read_late;
pub use taking::{LateTaken, take_late};
pub use update::Update;
