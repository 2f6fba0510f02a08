//! The reduction of the transfers of a trip, as Trip-Based Public Transit Routing (Witt, ESA 2015)
//! has it.
//!
//! Along a trip, from its last event down, one may stay or hop onto another trip. Of the hops those
//! are kept that bring one somewhere sooner than every alternative before. `reduce` gives the layer
//! above exactly the kept transfers, whatever its labels served before; the laws in `laws` say that
//! these are sufficient: no best journey is lost.
//!
//! The labels hold one number for each stop, the earliest arrival that was offered there. One
//! number is enough: where walks in a row are no faster than one walk, a hop that is no sooner at
//! any stop where it ends, than by arrivals there and on foot, is sooner nowhere, on foot or by a
//! change. What one reaches on foot is asked by the footpaths that lead to a stop, up to the first
//! event of a hop that is sooner; from there on arrivals are only lowered. So a hop that brings
//! nothing lowers no label. A hop onto a trip that was hopped onto just before is looked at only up
//! to where that one began.
//!
//! `begin_trip` and `reduce_event` are the same, event by event, for a caller that makes the
//! candidates of an event just before they are reduced. What is read of events comes from any
//! `Calls`: the timetable, or a copy that stands in one run.
#![tactic(auto)]

mod labels;
pub mod laws;
mod offers;
mod reduction;
mod times;
mod tried;

pub use labels::Labels;
pub use reduction::{begin_trip, reduce, reduce_event};
pub use tried::{TRIED, Tried};
