//! Closure of footpaths over chains: for each ordered pair of stops the least sum over all nonempty
//! chains of given changes. `close` gives it with the counts of what it added and lowered, or
//! exactly why it is refused; `laws` has that what is closed keeps the law on footpaths, and that
//! there is exactly one closure. From each stop a label-correcting search goes over the given
//! footpaths and touches only the stops that it reaches.
#![tactic(auto)]

mod closed;
mod closed_paths;
mod closing;
mod counts;
mod far;
pub mod laws;
mod search;
mod table;

pub use closed::{CloseFault, Closed};
pub use closing::close;
