//! Questions that are drawn by numbers that look random.
ghost use Rattle.std.specs.Prelude.{◌<◌, ◌≤◌, ◌≤ℤ◌, pos, All, IfOk, length};
ghost use Rattle.tb_base.specs.BestValues.{QueryData};
ghost use Rattle.tb_base.specs.Profiles.{WindowData};
ghost use Rattle.edition_store.specs.Departures.{ArrivalData};

use arrive_by::Arrival;
use feed_maker::Draw;
use reach_all::Departures;
use std::alloc::Global;
use tb_base::{Memory, Query, Sec, StopNo, Timetable, TripNo, Window};

// The last second of a query.
const LAST: Sec = 359_999;

/// One stop, or at times two.
pub fn some_stops(alloc: Global, draw: &mut Draw, stops: u32) -> Result<Vec<StopNo>, Memory>
    requires { 0 < stops }
    ensures { IfOk result (λ found. All (λ p. p < stops) found.items) }
{
    let first = StopNo(draw.below(stops));
    let second = StopNo(draw.below(stops));
    if draw.one_in(3) {
        return Ok(vec![in alloc; first, second]?);
    }
    Ok(vec![in alloc; first]?)
}

/// A time up to ten minutes before a departure, the first of some trip more often than a later one,
/// or a second before such a time.
pub fn some_time(draw: &mut Draw, table: &Timetable) -> Sec
    ensures { result ≤ℤ pos 359999 }
{
    let before = draw.below(10) as i32 * 60 + draw.below(2) as i32;
    if table.trip_count() == 0 {
        return 0;
    }
    let trip = TripNo(draw.below(table.trip_count()));
    let mut time = 0;
    for event in table.trip(trip).events.as_slice() {
        if time == 0 || draw.one_in(4) {
            time = event.dep;
        }
    }
    time.saturating_sub(before).max(0).min(LAST)
}

/// A query between some stops, at some time.
pub fn some_query(alloc: Global, draw: &mut Draw, table: &Timetable) -> Result<Query, Memory>
    requires { 0 < length table.now.stops }
    ensures origins { IfOk result
        (λ query. All (λ p. p < length table.now.stops) (QueryData.from query)) }
    ensures targets { IfOk result
        (λ query. All (λ p. p < length table.now.stops) (QueryData.to query)) }
    ensures time { IfOk result (λ query. QueryData.leave query ≤ℤ pos 359999) }
{
    Ok(Query {
        from: some_stops(alloc, draw, table.stop_count())?,
        to: some_stops(alloc, draw, table.stop_count())?,
        leave: some_time(draw, table),
    })
}

/// A window of so many seconds between some stops, which ends soon after some time.
pub fn some_window(
    alloc: Global,
    draw: &mut Draw,
    table: &Timetable,
    seconds: u32,
) -> Result<Window, Memory>
    requires stops { 0 < length table.now.stops }
    requires seconds { seconds ≤ 86400 }
    ensures origins { IfOk result
        (λ window. All (λ p. p < length table.now.stops) (WindowData.from window)) }
    ensures targets { IfOk result
        (λ window. All (λ p. p < length table.now.stops) (WindowData.to window)) }
    ensures last { IfOk result (λ window. WindowData.last window ≤ℤ pos 359998) }
{
    let last = some_time(draw, table).saturating_add(300).min(LAST - 1);
    Ok(Window {
        from: some_stops(alloc, draw, table.stop_count())?,
        to: some_stops(alloc, draw, table.stop_count())?,
        first: last.saturating_sub(seconds as i32).saturating_add(1),
        last,
    })
}

/// A time to arrive by between some stops, up to an hour after some time.
pub fn some_arrival(alloc: Global, draw: &mut Draw, table: &Timetable) -> Result<Arrival, Memory>
    requires { 0 < length table.now.stops }
    ensures origins { IfOk result
        (λ by. All (λ p. p < length table.now.stops) (ArrivalData.from by)) }
    ensures targets { IfOk result
        (λ by. All (λ p. p < length table.now.stops) (ArrivalData.to by)) }
    ensures earliest { IfOk result (λ by. pos 0 ≤ℤ ArrivalData.by by) }
    ensures latest { IfOk result (λ by. ArrivalData.by by ≤ℤ pos 273599) }
{
    let after = draw.below(60) as i32 * 60;
    Ok(Arrival {
        from: some_stops(alloc, draw, table.stop_count())?,
        to: some_stops(alloc, draw, table.stop_count())?,
        by: some_time(draw, table)
            .saturating_add(after)
            .max(0)
            .min(273_599),
    })
}

/// Up to sixteen departures, the last of them soon after some time.
pub fn some_departures(draw: &mut Draw, table: &Timetable) -> Departures
    ensures first { pos 0 ≤ℤ result.first }
    ensures order { result.first ≤ℤ result.last }
    ensures last { result.last ≤ℤ pos 359999 }
    ensures step { 1 ≤ result.step }
    ensures most_step { result.step ≤ 3600 }
{
    let step = draw.below(900) + 1;
    let seconds = draw.below(15) * step + draw.below(step);
    let late = some_time(draw, table).saturating_add(300);
    let last = if 0 <= late && late <= LAST {
        late
    } else {
        LAST
    };
    let early = last.saturating_sub(seconds as i32);
    let first = if 0 <= early && early <= last {
        early
    } else {
        last
    };
    Departures { first, last, step }
}

/// A limit on rides, or none.
pub fn some_limit(draw: &mut Draw) -> Option<u32> {
    if draw.one_in(3) {
        Some(draw.below(4))
    } else {
        None
    }
}
