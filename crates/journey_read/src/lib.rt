//! Claimed journeys: the rules of a journey, and a text in a form in which journeys are shown, in
//! lines or as JSON, read against a timetable and judged by them.
//!
//! The layers above may rely on three things. No rule is broken exactly where legs spell a journey
//! (rides that change in time, with walks by footpaths before, between and behind them) that leaves
//! no earlier than asked; else `fault` is the first rule that they break. What is read is exactly
//! what the text claims, or its first fault, line by line. And a claim is said to be right exactly
//! where its legs spell a journey that the query allows and that has the claimed value. A journey
//! is that of Witt, Trip-Based Public Transit Routing (ESA 2015), with the changes and footpaths of
//! GTFS transfers.txt. Times are in seconds from noon minus twelve hours.
#![tactic(auto)]

mod calls;
mod claim;
mod indexed_timetable;
mod json_claim;
pub mod laws;
mod leg_rules;
mod legs;
mod reader;
mod rides;
mod rules;
mod times;
mod verdict;

pub use claim::{Claimed, JourneyFault};
pub use json_claim::read_json_journey;
pub use reader::read_journey;
pub use rules::fault;
pub use verdict::{Verdict, judge};
