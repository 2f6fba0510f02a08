//! The queue of a search by trip segments (Witt, Trip-Based Public Transit Routing, ESA 2015), and
//! what the search looks at.
//!
//! A `Scan` shows a timetable, its lines and a set of hops, a `Look` one event at a time, and
//! counts each look; the hops from events that were looked at may be followed once, by the `Seen`
//! that the looks gave. A `Desk` holds the segments that a search has entered, a mark for each trip, the
//! hits, and notes of the events to go on from. To the layer above it promises that segments of one
//! trip cover no event twice, that marks along a line never rise, and that a desk that fits needs
//! no more memory.
#![tactic(auto)]

mod ahead;
mod desk;
pub mod laws;
mod levels;
mod marks;
mod notes;
mod scan;
mod seen;
mod steps;
mod view;
mod walk_groups;

pub use ahead::Ahead;
pub use desk::{Desk, Hit, LastLeg, Segment};
pub use levels::Levels;
pub use marks::Marks;
pub use notes::Note;
pub use scan::{Look, Scan, Shape, Visit};
pub use seen::{Followed, Seen};
pub use steps::Steps;
pub use view::View;
pub use walk_groups::WalkGroups;
