//! The journeys that a search has found, as legs.
//!
//! A search leaves hits in a desk (Witt, Trip-Based Public Transit Routing, ESA 2015). `unfold`
//! follows the parents of a hit back to an origin. To the layer above it promises, for each hit of
//! a traced desk, the legs of a journey with exactly the hit's value: it leaves no earlier than
//! asked, its changes are the hops that the search took, and its walks at both ends are the
//! shortest. `choices` gives the values of all hits, each with such legs.
#![tactic(auto)]

mod answers;
mod journey;

pub use answers::choices;
pub use journey::unfold;
