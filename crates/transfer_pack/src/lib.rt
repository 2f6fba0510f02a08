//! Packed layouts of what the reduction and the search read again and again.
//!
//! What they read stands far apart in a timetable and in lists of transfers; here it stands in one
//! run, in few bytes. Each type gives the layer above exactly what the timetable or the plain lists
//! have:
//!
//! - `Calls` are the calls of a timetable's events: of each its stop, its arrival and whether one
//!   may alight there. The timetable gives them, and so does `FlatCalls`, in eight bytes an event,
//!   trip after trip: what is proved of the one way holds for the other.
//! - `PathsInto` has for each stop exactly the footpaths that lead to it, each with the stop that
//!   it comes from, in ascending order; `PackedPaths` has the same, one stop's behind another's.
//!   Footpaths are those of transfers.txt in the GTFS Schedule Reference.
//! - `Set` holds the hops of all events in one vector, event after event, and in another for each
//!   event where its hops end, beside its call. It stands for the same lists as the plain set of
//!   `tb_base`. `Set::out` lends the hops of an event, in their order, `Set::hops_over` those of
//!   several events of a trip that follow one another, as one list, and `Set::call` gives an
//!   event's call. A hop takes four bytes where all of a set's fit in that, and eight else; so hops
//!   are lent as `Hops`, and not as a slice. `Set::rebuild` takes the hops of some trips over from
//!   another set.
#![tactic(auto)]

mod ahead;
mod calls;
mod flat;
mod hops;
mod numbers;
mod packed_call;
mod packed_paths;
mod paths_into;
mod set;
mod trip_hops;
mod trip_spots;

pub use ahead::ReadAhead;
pub use calls::{Call, Calls};
pub use flat::FlatCalls;
pub use hops::Hops;
pub use packed_paths::PackedPaths;
pub use paths_into::PathsInto;
pub use set::Set;
