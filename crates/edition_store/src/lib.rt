//! The network of a day as one value, ready for questions, and editions of it that are published
//! while readers read.
//!
//! A `Network` owns a timetable, its lines, and the set of its kept transfers, as Trip-Based Public
//! Transit Routing (Witt, ESA 2015) prepares them. To the layer above it promises that the lines are
//! those of the timetable, that the hops from each event are exactly its kept transfers, and that
//! these suffice: a search over them finds all best values. It is a `Scan`, so a search looks at it
//! as it stands. An `Edition` is the network of a day and the number of its kept transfers; where
//! latest departures are asked for, it has the network of its mirror too.
//!
//! In the mirror of a timetable time runs backwards: each trip runs from its last event to its first,
//! each footpath leads back, and each time is that of a day looked at from its end. Who asks when one
//! has to leave at the latest asks, in the mirror, when one can arrive at the earliest. To the layer
//! above the crate promises that `mirror` gives exactly this timetable, that the mirror of the mirror
//! is the timetable itself, and that each journey, turned round, is a journey of the mirror that
//! leaves and arrives at the mirrored times.
//!
//! A `Store` gives one `Publisher`, which appends editions to one list and closes it in the end,
//! and its seats, which pin the list in other threads and never wait for it: two copies of the list
//! are kept, and readers are moved from one to the other (`left_right`). What is pinned stays as it
//! is for as long as it is held. Of a list no more than its number of editions and the last one are
//! kept, so that an edition goes with the last who holds it; a `Shelf` keeps all of a list. To the
//! layer above the crate promises that a pinned list begins with all that its seat has pinned or
//! learned before, and that the whole list, once the seat learns it, begins with what it pinned.
//! What is pinned was published: the publisher's list begins with it. A seat that has learned the
//! whole list pins that. Where a publication is refused, seats are shown the list as it was. Which list a seat that learned nothing meets, and when, it does not
//! promise. The types of one store carry its name `J`.
#![tactic(auto)]

mod content;
mod edition;
pub mod laws;
mod mirror_time;
mod mirrored;
mod network;
mod pinned;
mod publisher;
mod rule;
mod seat;
mod shared;
mod shelf;
mod store;
mod turned_trips;

pub use edition::Edition;
pub use history::{Naming, Opened};
pub use mirror_time::mirrored_time;
pub use mirrored::mirror;
pub use network::Network;
pub use pinned::{Last, Pinned, Receipt};
pub use publisher::{Publisher, Refused};
pub use seat::Seat;
pub use shared::Shared;
pub use shelf::Shelf;
pub use store::Store;
