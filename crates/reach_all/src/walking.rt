ghost use Rattle.std.specs.Prelude.{◌≡◌, ◌+◌, ◌<◌, ◌≤◌, [], All, MatchBool, OnOk, length, replicate, pos, ◌+ℤ◌, ◌≤ℤ◌};
ghost use Rattle.reach_all.specs.Arriving.{AreStairs, IsOfferedFrom};
ghost use Rattle.reach_all.specs.Spreading.{AreStarts};

use super::arrivals::Arrivals;
use super::soonest::Soonest;
use segment_queue::{Scan, Visit};
use tb_base::{Memory, Query, StopNo, Value};

// The value of who walks on for so many seconds.
fn walked_on(value: &Value, secs: u32) -> Value
    requires arrive { value.now.arrive ≤ℤ pos 359999 }
    requires secs { secs ≤ 86400 }
    ensures { result
        ≡ record { arrive = value.now.arrive +ℤ pos secs; rides = value.now.rides } }
{
    Value {
        arrive: value.arrive + secs as i32,
        rides: value.rides,
    }
}

// The value of who alights at an event, after so many rides.
fn alighting(visit: &Visit, round: u32) -> Value
    ensures { result ≡ record { arrive = visit.now.arr; rides = round } }
{
    Value {
        arrive: visit.arr,
        rides: round,
    }
}

// The value of who is at an origin.
fn start(query: &Query) -> Value
    ensures { result ≡ record { arrive = query.now.leave; rides = 0 } }
{
    Value {
        arrive: query.leave,
        rides: 0,
    }
}

// The origins of a query.
fn origins(query: &Query) -> &[StopNo]
    ensures { result.now ≡ query.now.from }
{
    query.from.as_slice()
}

// Offers a value at a stop to the stop and to each one with a walk from there.
fn offer_from<S: Scan>(
    scan: &S,
    arrivals: &mut Arrivals,
    stop: StopNo,
    value: &Value,
) -> Result<(), Memory>
    requires stop { stop < length (S.net scan.now).table.stops }
    requires each_stop { length arrivals.old ≡ length (S.net scan.now).table.stops }
    requires stairs { AreStairs value.now.rides arrivals.old }
    requires arrive { value.now.arrive ≤ℤ pos 359999 }
    ensures { OnOk result (IsOfferedFrom (S.net scan.now).table stop value.now
        arrivals.old arrivals.new) }
{
    scan.soundness();
    arrivals.offer(stop, value)?;
    for path in scan.walks(stop) {
        let there = walked_on(value, path.secs);
        arrivals.offer(path.to, &there)?;
    }
    Ok(())
}

// Offers what an event of a trip that is ridden gives, if one may alight there.
pub(crate) fn alight<S: Scan>(
    scan: &S,
    arrivals: &mut Arrivals,
    visit: &Visit,
    round: u32,
) -> Result<(), Memory>
    requires stop { visit.now.stop < length (S.net scan.now).table.stops }
    requires each_stop { length arrivals.old ≡ length (S.net scan.now).table.stops }
    requires stairs { AreStairs round arrivals.old }
    requires arr { visit.now.arr ≤ℤ pos 359999 }
    ensures { OnOk result (MatchBool visit.now.alight
        (IsOfferedFrom (S.net scan.now).table visit.now.stop
        (record { arrive = visit.now.arr; rides = round }) arrivals.old arrivals.new)
        (arrivals.new ≡ arrivals.old)) }
{
    if !visit.alight {
        return Ok(());
    }
    let value = alighting(visit, round);
    offer_from(scan, arrivals, visit.stop, &value)
}

// Offers a value of one ride at a stop to the stop and to each one with a walk from there.
fn offer_ride<S: Scan>(scan: &S, soonest: &mut Soonest, stop: StopNo, value: &Value)
    requires stop { stop < length (S.net scan.now).table.stops }
    requires each_stop { length soonest.old ≡ length (S.net scan.now).table.stops }
    requires stairs { AreStairs 1 soonest.old }
    requires arrive { value.now.arrive ≤ℤ pos 359999 }
    requires rides { value.now.rides ≡ 1 }
    ensures { IsOfferedFrom (S.net scan.now).table stop value.now soonest.old soonest.new }
{
    scan.soundness();
    soonest.offer(stop, value);
    for path in scan.walks(stop) {
        let there = walked_on(value, path.secs);
        soonest.offer(path.to, &there);
    }
}

// Offers what an event of a trip that is ridden gives as a value of one ride, if one may alight
// there.
pub(crate) fn alight_soonest<S: Scan>(scan: &S, soonest: &mut Soonest, visit: &Visit)
    requires stop { visit.now.stop < length (S.net scan.now).table.stops }
    requires each_stop { length soonest.old ≡ length (S.net scan.now).table.stops }
    requires stairs { AreStairs 1 soonest.old }
    requires arr { visit.now.arr ≤ℤ pos 359999 }
    ensures { MatchBool visit.now.alight
        (IsOfferedFrom (S.net scan.now).table visit.now.stop
        (record { arrive = visit.now.arr; rides = 1 }) soonest.old soonest.new)
        (soonest.new ≡ soonest.old) }
{
    if visit.alight {
        let value = alighting(visit, 1);
        offer_ride(scan, soonest, visit.stop, &value);
    }
}

// Offers all walks from origins.
pub(crate) fn walk_all<S: Scan>(
    scan: &S,
    query: &Query,
    arrivals: &mut Arrivals,
) -> Result<(), Memory>
    requires origins { All (λ p. p < length (S.net scan.now).table.stops) query.now.from }
    requires leave { query.now.leave ≤ℤ pos 359999 }
    requires nothing { arrivals.old ≡ replicate (length (S.net scan.now).table.stops) [] }
    ensures { OnOk result (AreStarts (S.net scan.now).table query.now.from query.now.leave
        arrivals.new) }
{
    let start = start(query);
    for origin in origins(query) {
        offer_from(scan, arrivals, *origin, &start)?;
    }
    Ok(())
}
