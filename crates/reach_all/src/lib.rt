//! The best values to every stop, by one search over trip segments (Witt, Trip-Based Public Transit
//! Routing, ESA 2015).
//!
//! `reach_all` asks, from some origins and at one time, for every stop at once. To the layer above
//! it promises, for every sufficient set of hops, exactly the best values of the query to each stop
//! alone, in at most as many steps as there are events and, at the stops with a walk from an
//! origin, line indices. `reach_text` shows the answer, one line a stop. `travel_times` asks for the
//! departures of a window, and tells of each stop how many reach it and percentiles of the travel
//! time, as accessibility studies want them (R5 answers such); it promises them exactly, and
//! `times_text` shows them. Times are those of the service day, as the GTFS Schedule Reference
//! counts them.
#![tactic(auto)]

mod arrivals;
mod departures;
mod figures;
pub mod laws;
mod offers;
mod query;
mod soonest;
mod sweeping;
mod text;
mod travel_text;
mod travelling;
mod walking;

pub use departures::Departures;
pub use figures::Figures;
pub use query::reach_all;
pub use text::reach_text;
pub use travel_text::times_text;
pub use travelling::{TravelTimes, travel_times};
