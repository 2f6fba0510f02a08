//! The candidate transfers of a trip, as Trip-Based Public Transit Routing (Witt, ESA 2015) makes
//! them before it reduces them.
//!
//! `make` gives the layer above all candidates of a trip, from its last event down: at each event
//! where one may alight, for each stop that one can change to and each index of a line there where
//! one may board, the line's first trip in time; left out is staying on the own line. The law in
//! `laws` says that the candidates are sufficient: no best journey is lost by taking them alone.
#![tactic(auto)]

ghost use Rattle.std.specs.Prelude.{◌≡◌, ◌<◌, IfOk, length};
ghost use Rattle.tb_base.specs.Transfers.{candidates, transfers_of};

mod alighting;
mod events;
mod hops;
pub mod laws;

pub use events::add_event;
use line_split::Lines;
use std::alloc::Global;
use tb_base::{Memory, Timetable, Transfer, TripNo};

/// The candidates of all events of a trip, from its last event down, and within an event by stop,
/// by line and by index.
pub fn make(
    alloc: Global,
    table: &Timetable,
    lines: &Lines,
    trip: TripNo,
) -> Result<Vec<Transfer>, Memory>
    requires lines { lines.now.table ≡ table.now }
    requires trip { trip < length table.now.trips }
    ensures { IfOk result (λ rows. rows.items
        ≡ transfers_of table.now (candidates table.now lines.now.lines trip) trip) }
{
    let mut rows = Vec::new(alloc);
    let mut at = table.trip(trip).events.len();
    while at > 0 {
        at -= 1;
        add_event(&mut rows, table, lines, trip, at)?;
    }
    Ok(rows)
}
