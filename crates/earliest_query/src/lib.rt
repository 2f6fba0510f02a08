//! The earliest arrivals of a query, by a search over trip segments (Witt, Trip-Based Public
//! Transit Routing, ESA 2015).
//!
//! `earliest` leaves the answer in a desk that was made before: no memory is taken, and no search
//! is refused. To the layer above it promises, for every sufficient set of hops, exactly the best
//! values of the query, segments that go by hops of the set, and a bound on its steps. A `Search`
//! runs the same with something done at each event (`AtEvent`). `Sweep` asks at one departure time
//! after another, from the last to the first, and keeps what it has found from one to the next. It
//! needs memory; it promises that each journey that leaves no earlier than the time has a hit of
//! the time, or a value of a later time, that is no worse. `laws` has what such searches find at
//! every stop and for every time.
#![tactic(auto)]

mod all_rounds;
mod at_event;
mod boarding;
mod entering;
mod found;
pub mod laws;
mod query;
mod riding;
mod running;
mod search;
mod sweep;
mod sweeping;
mod swept_riding;
mod swept_start;
mod walks;

pub use at_event::AtEvent;
pub use query::earliest;
pub use search::Search;
pub use sweep::Sweep;
pub use swept_riding::segment_total;
