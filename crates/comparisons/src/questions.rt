//! Questions between two stops.
ghost use Rattle.std.specs.Prelude.{◌<◌, ◌≤◌, ◌≤ℤ◌, pos, All, IfOk, length};
ghost use Rattle.edition_store.specs.Departures.{ArrivalData};
ghost use Rattle.tb_base.specs.BestValues.{QueryData};
ghost use Rattle.tb_base.specs.Profiles.{WindowData};

use arrive_by::Arrival;
use std::alloc::Global;
use tb_base::{Memory, Place, Query, Sec, StopNo, Timetable, Window};

/// A stop alone.
pub fn one_stop(alloc: Global, table: &Timetable, stop: u32) -> Result<Vec<StopNo>, Memory>
    requires { stop < length table.now.stops }
    ensures { IfOk result (λ stops. All (λ p. p < length table.now.stops) stops.items) }
{
    table.place_stops(alloc, Place::Stop(StopNo(stop)))
}

/// A query between two stops.
pub fn query(
    alloc: Global,
    table: &Timetable,
    from: u32,
    to: u32,
    leave: Sec,
) -> Result<Query, Memory>
    requires from { from < length table.now.stops }
    requires to { to < length table.now.stops }
    ensures origins { IfOk result
        (λ query. All (λ p. p < length table.now.stops) (QueryData.from query)) }
    ensures targets { IfOk result
        (λ query. All (λ p. p < length table.now.stops) (QueryData.to query)) }
    ensures time { IfOk result (λ query. QueryData.leave query ≤ℤ pos 359999) }
{
    Ok(Query {
        from: one_stop(alloc, table, from)?,
        to: one_stop(alloc, table, to)?,
        leave: leave.min(359_999),
    })
}

/// The window of so many seconds between two stops that begins at a time.
pub fn window(
    alloc: Global,
    table: &Timetable,
    from: u32,
    to: u32,
    first: Sec,
    seconds: u32,
) -> Result<Window, Memory>
    requires from { from < length table.now.stops }
    requires to { to < length table.now.stops }
    requires seconds { seconds ≤ 86400 }
    ensures origins { IfOk result
        (λ window. All (λ p. p < length table.now.stops) (WindowData.from window)) }
    ensures targets { IfOk result
        (λ window. All (λ p. p < length table.now.stops) (WindowData.to window)) }
    ensures last { IfOk result (λ window. WindowData.last window ≤ℤ pos 359998) }
{
    Ok(Window {
        from: one_stop(alloc, table, from)?,
        to: one_stop(alloc, table, to)?,
        first,
        last: first.saturating_add(seconds as i32 - 1).min(359_998),
    })
}

/// A time to arrive by between two stops.
pub fn arrival(
    alloc: Global,
    table: &Timetable,
    from: u32,
    to: u32,
    by: Sec,
) -> Result<Arrival, Memory>
    requires from { from < length table.now.stops }
    requires to { to < length table.now.stops }
    ensures origins { IfOk result
        (λ by. All (λ p. p < length table.now.stops) (ArrivalData.from by)) }
    ensures targets { IfOk result
        (λ by. All (λ p. p < length table.now.stops) (ArrivalData.to by)) }
    ensures earliest { IfOk result (λ by. pos 0 ≤ℤ ArrivalData.by by) }
    ensures latest { IfOk result (λ by. ArrivalData.by by ≤ℤ pos 273599) }
{
    Ok(Arrival {
        from: one_stop(alloc, table, from)?,
        to: one_stop(alloc, table, to)?,
        by: by.max(0).min(273_599),
    })
}
