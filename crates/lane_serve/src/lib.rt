//! Lanes of requests, read from a script, beside a publisher of editions.
//!
//! `read_script` gives the lanes that a script says, or exactly its first fault. `serve` has the
//! items of a plan read and built by `edition_build`, and publishes their editions, one after
//! another. Meanwhile the lanes run: `run_lane` answers a lane's requests by a caller of its own,
//! each by an edition of the list that the caller then keeps and none before those that it knew, or
//! as deferred; `close_lane` answers again, by the last edition of all, the first request and each
//! that was deferred. To the layer above the crate promises one outcome for each item of the plan,
//! that each reply is exactly that of the edition that it names (best values as in Witt, Trip-Based
//! Public Transit Routing, ESA 2015), that a lane's editions never go back, and that each closing
//! reply is the last edition's. `served_shown` shows all of it, as text or as JSON. `write_matrix`
//! answers many origins over one edition, run after run.
#![tactic(auto)]

mod json;
mod lane;
mod matrix;
mod origins;
mod plan;
mod publishing;
mod rows;
mod run;
mod script;
mod texts;

pub use json::served_shown;
pub use lane::{LaneReport, ReplyText, close_lane, run_lane};
pub use matrix::{MatrixFault, write_matrix};
pub use origins::read_origins;
pub use rows::{RowForm, TimesAsked};
pub use run::{ServeFault, Served, serve};
pub use script::{Lane, Script, ScriptFault, read_script};
pub use texts::served_text;
