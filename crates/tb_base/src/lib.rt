//! The shared types of the planner, and the definitions that the layers above cite.
//!
//! A timetable is one service day of a GTFS feed as the GTFS Schedule Reference describes it:
//! stops, stations, trips with their events, change times and footpaths (transfers.txt). The
//! definitions in specs/ say over plain lists what walks, journeys, best values, profiles, lines
//! and transfers are; lines, transfers, U-turns and their reduction follow Witt, Trip-Based Public
//! Transit Routing (ESA 2015). To the layers above the crate promises that each timetable is sound,
//! and that each call answers exactly what these definitions say. All numbers of stops, trips and
//! events count from 0.
#![tactic(auto)]

mod clock;
mod copies;
mod days;
mod gate;
mod groups;
mod hash_key;
mod memory;
mod name_index;
mod numbers;
mod out_set;
mod paths;
mod query;
mod refused;
mod rows;
mod rule;
mod table;
mod timetable;
mod transfer;

pub use clock::{add_time, time_text};
pub use days::{Horizon, ServiceDay};
pub use gate::{Gate, IdleGate, Work};
pub use groups::Groups;
pub use hash_key::HashKey;
pub use memory::Memory;
pub use name_index::NameIndex;
pub use numbers::{LineNo, Sec, StopNo, TripNo};
pub use out_set::OutSet;
pub use paths::{path_secs, secs_between};
pub use query::{Choice, Leg, Offer, Place, Query, Slot, Value, Window};
pub use refused::Refused;
pub use rows::Rows;
pub use rule::{Rule, RuleBroken};
pub use table::{Event, Name, Parts, Path, Station, Stop, Trip};
pub use timetable::Timetable;
pub use transfer::{Hop, Transfer};
