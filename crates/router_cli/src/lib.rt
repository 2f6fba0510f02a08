//! All that the program `router` does, over objects that are handed in.
//!
//! [`route`] answers about one service day of a GTFS feed, or about one that late trips amend,
//! judges a claimed journey over a day, or answers a script, or what comes for as long as it comes,
//! while several days are published, from the words of the command line, the bytes of the folder
//! and of the script, claim or lines to the bytes written. Its contract is the program's promise.
//! The program hands in the machine's files, standard input and standard output, and tests hand in
//! objects in memory. The files follow the GTFS Schedule Reference.
#![tactic(auto)]

mod answers;
mod checking;
mod day;
mod late_trips;
mod living;
mod made_city;
mod matrix;
mod over_table;
mod program;
mod refusals;
mod serving;
mod status;
mod verdicts;
mod verifying;
mod warned;
mod writing;

pub use command_line::asks_json;
pub use program::route;
pub use refusals::{end, end_shown, status_shown};
pub use status::Status;
