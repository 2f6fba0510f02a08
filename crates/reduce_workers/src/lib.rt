//! The kept transfers of all trips of a timetable, reduced by several workers.
//!
//! The reduction goes through the trips one by one: it makes a trip's candidates, cuts the U-turns
//! and keeps what the reduction keeps, as Trip-Based Public Transit Routing (Witt, ESA 2015) has
//! it. A piece of work is 64 trips. A claim gives pieces by their numbers: its seats draw them, each
//! once and none left out, by one atomic step a draw and with no lock; `reduce_all` lets each worker
//! draw pieces until none is left. The layer above is promised that the kept transfers and the
//! counts are those of the definitions, whatever the number of workers and whoever draws which
//! piece, and that the set made of the kept transfers has exactly their hops and is sufficient: a
//! search over it finds all best values. `kept_row` is the same of one trip. That a gate is told of each piece that is begun and done
//! is so in the code and in no clause.
#![tactic(auto)]

mod claim;
pub mod laws;
mod pieces;
mod places;
mod reduced;
mod rule;
mod seat;
mod trips;
mod workers;

pub use claim::{Claim, Drawn};
pub use reduced::Reduced;
pub use seat::ClaimSeat;
pub use tb_base::{Gate, IdleGate, Work};
pub use trips::kept_row;
pub use workers::reduce_all;
