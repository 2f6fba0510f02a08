//! The U-turns among the transfers of a trip, as Trip-Based Public Transit Routing (Witt, ESA 2015)
//! leaves them out.
//!
//! A transfer is a U-turn where one could change already at the event before it: there the trip
//! stops where the other trip goes next, and the change is possible in time. `cut` gives the layer
//! above exactly the transfers that are no U-turns, in their order; `cut_by` does so by any `Calls`
//! of the timetable.
#![tactic(auto)]

ghost use Rattle.std.specs.Prelude.{◌≡◌, filter, not};
ghost use Rattle.uturn_cut.specs.UTurns.{is_u_turn_row};

mod events;
pub mod laws;

use events::is_u_turn;
use tb_base::{Timetable, Transfer};
use transfer_pack::Calls;

/// Takes the U-turns out of some transfers; the others stay, in their order. Takes no memory.
pub fn cut(table: &Timetable, rows: &mut Vec<Transfer>)
    ensures { rows.new.items ≡ filter (λ r. not (is_u_turn_row table.now r)) rows.old.items }
{
    cut_by(table, table, rows);
}

/// The same, where the stops of events are read from calls, which are those of the timetable.
pub fn cut_by<C: Calls>(table: &Timetable, calls: &C, rows: &mut Vec<Transfer>)
    requires { C.table calls.now ≡ table.now }
    ensures { rows.new.items ≡ filter (λ r. not (is_u_turn_row table.now r)) rows.old.items }
{
    rows.retain(|row| !is_u_turn(table, calls, row));
}
