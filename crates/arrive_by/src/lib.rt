//! When one has to leave at the latest to arrive by a time.
//!
//! The question is turned round: in the mirror of a timetable, where time runs backwards, it is the
//! one for the earliest arrivals, which a search over trip segments answers (Witt, Trip-Based
//! Public Transit Routing, ESA 2015). To the layer above the crate promises that `latest` gives
//! exactly the best pairs of departure and number of rides, each with the legs of a journey that
//! has them, and `departures_text` exactly their lines. `mirror` makes the timetable whose network
//! is asked.
#![tactic(auto)]

mod departing;
mod departures;
mod text;
mod turned;

pub use departing::latest;
pub use departures::{Arrival, Departure};
pub use edition_store::mirror;
pub use text::departures_text;
