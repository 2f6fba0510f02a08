//! Searches at one time after another, in one sweep.
ghost use Rattle.std.specs.Prelude.{◌≡◌, ◌<◌, ◌≤ℤ◌, ◌+ℤ◌, ℤ, All, IfOk, OnOk, length, map, pos};
ghost use Rattle.tb_base.specs.Sufficiency.{AreSufficient};
ghost use Rattle.segment_queue.specs.Queue.{Fits};
ghost use Rattle.segment_queue.specs.Traced.{IsTraced, UsesHops};
ghost use Rattle.earliest_query.specs.Sweeping.{IsSweptSoFar};
ghost use Rattle.query_gate.specs.Slots.{AreFound, AreLater};

use earliest_query::Sweep;
use segment_queue::{Desk, Look, Steps};
use std::alloc::Global;
use std::sync::ledger::Ledger;
use tb_base::{Memory, Query, Sec, Timetable, Value, Window};

// The last second at which a search is asked. Nothing departs after it.
const LAST: Sec = 359_999;

/// The query of a window, asked a second after its end.
pub(crate) fn query_after(alloc: Global, window: &Window) -> Result<Query, Memory>
    requires { window.now.last ≤ℤ pos 359999 }
    ensures { IfOk result (λ query. query
        ≡ record { from = window.now.from; to = window.now.to; leave = window.now.last +ℤ pos 1 }) }
{
    Ok(Query {
        from: Vec::from_slice(alloc, window.from.as_slice())?,
        to: Vec::from_slice(alloc, window.to.as_slice())?,
        leave: window.last + 1,
    })
}

/// Asks the query at another time.
pub(crate) fn ask_at(query: &mut Query, time: Sec)
    ensures { query.new ≡ record query.old { leave = time } }
{
    query.leave = time;
}

/// Makes some values a copy of others.
pub(crate) fn copy_values(values: &mut Vec<Value>, others: &[Value]) -> Result<(), Memory>
    ensures { OnOk result (values.new.items ≡ others.now) }
{
    values.clear();
    values.extend_from_slice(others)?;
    Ok(())
}

/// Comes down to the time of the query, from a later one or the same. The desk has the values then
/// found, and the sweep those of all who leave no earlier.
pub(crate) fn search<L: Ledger, S: Look<L>>(
    alloc: Global,
    scan: &S,
    table: &Timetable,
    query: &Query,
    desk: &mut Desk,
    sweep: &mut Sweep,
    steps: &mut Steps<L>,
) -> Result<(), Memory>
    requires table { (S.net scan.now).table ≡ table.now }
    requires fits { Fits table.now desk.old }
    requires origins { All (λ p. p < length table.now.stops) query.now.from }
    requires leave { query.now.leave ≤ℤ pos 359999 }
    requires later { (later : ℤ) × (query.now.leave ≤ℤ later)
        × IsSweptSoFar (S.net scan.now) (record query.now { leave = later }) desk.old sweep.old }
    requires sufficient { AreSufficient table.now (S.net scan.now).hops }
    ensures fits { Fits table.now desk.new }
    ensures swept { OnOk result (IsSweptSoFar (S.net scan.now) query.now desk.new sweep.new) }
    ensures found { OnOk result
        (AreFound table.now query.now sweep.old.values (map (λ h. h.value) desk.new.hits)) }
    ensures later { OnOk result (AreLater table.now query.now sweep.new.values) }
    ensures traced { OnOk result (IsTraced table.now query.now desk.new) }
    ensures hops { OnOk result (UsesHops (S.net scan.now).hops desk.new.segments) }
{
    table.soundness();
    sweep.ask(alloc, scan, query, desk, steps)?;
    Ok(())
}

/// Begins a sweep at the time of a query, with the values of all who leave no earlier: none where
/// nothing departs any more.
pub(crate) fn begin<L: Ledger, S: Look<L>>(
    alloc: Global,
    scan: &S,
    table: &Timetable,
    query: &Query,
    desk: &mut Desk,
    sweep: &mut Sweep,
    steps: &mut Steps<L>,
) -> Result<(), Memory>
    requires table { (S.net scan.now).table ≡ table.now }
    requires fits { Fits table.now desk.old }
    requires origins { All (λ p. p < length table.now.stops) query.now.from }
    requires sufficient { AreSufficient table.now (S.net scan.now).hops }
    ensures fits { Fits table.now desk.new }
    ensures swept { OnOk result (IsSweptSoFar (S.net scan.now) query.now desk.new sweep.new) }
    ensures later { OnOk result (AreLater table.now query.now sweep.new.values) }
{
    table.soundness();
    sweep.begin(alloc, scan, query, desk)?;
    if query.leave > LAST {
        return Ok(());
    }
    search(alloc, scan, table, query, desk, sweep, steps)?;
    Ok(())
}
