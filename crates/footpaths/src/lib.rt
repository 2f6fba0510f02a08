//! Footpaths and change times, from transfers.txt and the stations of stops.txt, as the GTFS
//! Schedule Reference has them. The layer above gets the rows of stops.txt with their numbers
//! (`StopTable`), exactly the change times and footpaths that the rows of transfers.txt and the
//! options give (`build_paths`), and a test of the law on footpaths that tells the first breach
//! (`test_law`). Each refusal tells the first thing that is wrong; want of memory is free.
#![tactic(auto)]

mod best_rules;
mod build;
mod found;
mod law;
mod linked_platforms;
mod links;
mod path_rows;
mod paths;
mod stop_table;

pub use build::build_paths;
pub use found::{Found, StopsFault};
pub use law::{LawFault, test_law};
pub use paths::{Options, Paths, PathsFault};
pub use stop_table::StopTable;
