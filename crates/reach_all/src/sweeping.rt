//! Travel times by one sweep over departures, from the last to the first.
ghost use Rattle.std.specs.Prelude.{◌≡◌, ◌+◌, ◌-◌, ◌<◌, ◌≤◌, [], ℕ, ℤ, List, Option, None, Some, All, AllPairs, IfOk, IfSome, MatchBool, OnOk, length, map, pos, replicate, slice_get, slice_index_or, ◌-ℤ◌, ◌≤ℤ◌};
ghost use Rattle.tb_base.specs.BestValues.{IsLeast};
ghost use Rattle.tb_base.specs.Search.{IsReached};
ghost use Rattle.tb_base.specs.Sufficiency.{AreSufficient};
ghost use Rattle.segment_queue.specs.Queue.{Fits, IsSoundSegment};
ghost use Rattle.segment_queue.specs.Traced.{round_of, segment_of};
ghost use Rattle.earliest_query.specs.Sweeping.{IsSweptTo};
ghost use Rattle.reach_all.specs.Arriving.{AreStairs, lone};
ghost use Rattle.plain_rounds.specs.OneRide.{earlier_of};
ghost use Rattle.reach_all.specs.Ranks.{AreTimesAt, IsTimeOf};
ghost use Rattle.reach_all.specs.Reach.{values_at};
ghost use Rattle.reach_all.specs.Spreading.{AreStarts, everywhere};
ghost use Rattle.reach_all.specs.Swept.{AreRidden, AreRounds, IsOfferedUpTo, IsSweptDown, IsWalkOrRide};
ghost use Rattle.reach_all.specs.TravelTimes.{IsWithin};

use super::arrivals::Arrivals;
use super::query::query_everywhere;
use super::soonest::Soonest;
use super::walking::{alight_soonest, walk_all};
use earliest_query::{Sweep, segment_total};
use segment_queue::{Desk, Look, Scan, Steps};
use std::alloc::Global;
use std::sync::ledger::Ledger;
use tb_base::{Memory, Query, Sec, StopNo, Value};

// What a sweep to every stop keeps beside its desk: the rounds of the segments, and for each stop
// the earliest arrival so far with rides, as a value of one ride.
#[derive(Drop)]
struct Swept {
    sweep: Sweep,
    rounds: Vec<u32>,
    arrivals: Soonest,
}

// Whether a round is past a limit on rides.
fn is_past(round: u32, rides: Option<u32>) -> bool
    ensures { MatchBool result (IsWithin rides round → ⊥) (IsWithin rides round) }
{
    match rides {
        Some(most) => round > most,
        None => false,
    }
}

// The round of the next segment, by its parent and the rounds of the segments before it.
fn round_after(rounds: &[u32], parent: Option<(u32, u32)>) -> u32
    requires inside { IfSome parent (λ p. p.0 < length rounds.now) }
    requires few { (n d : ℕ) → n < length rounds.now → slice_index_or rounds.now n d ≤ n + 1 }
    requires room { length rounds.now < 4294967295 }
    ensures first { parent ≡ None → result ≡ 1 }
    ensures later { IfSome parent (λ p. result ≡ slice_index_or rounds.now p.0 0 + 1) }
{
    match parent {
        Some((segment, _)) => rounds[segment as usize] + 1,
        None => 1,
    }
}

// Notes the rounds of the segments that have joined the queue.
fn note_rounds(desk: &Desk, total: u32, rounds: &mut Vec<u32>) -> Result<(), Memory>
    requires total { total ≡ length desk.now.segments }
    requires room { total < 4294967295 }
    requires rounds { AreRounds desk.now rounds.old.items }
    requires before { length rounds.old.items ≤ total }
    requires parents { (n : ℕ) → n < total →
        IfSome (segment_of desk.now.segments n).parent (λ p. p.0 < n) }
    ensures rounds { OnOk result (AreRounds desk.now rounds.new.items) }
    ensures all { OnOk result (length rounds.new.items ≡ total) }
{
    for n in rounds.len() as u32..total {
        let Some(segment) = desk.segment(n) else {
            return Err(Memory);
        };
        let round = round_after(rounds.as_slice(), segment.parent);
        rounds.push(round)?;
    }
    Ok(())
}

// Offers what a segment gives to each stop.
fn offer_segment<L: Ledger, S: Look<L>>(
    scan: &S,
    desk: &Desk,
    n: u32,
    arrivals: &mut Soonest,
    steps: &mut Steps<L>,
) -> Result<(), Memory>
    requires segment { n < length desk.now.segments }
    requires sound { All (IsSoundSegment (S.net scan.now).table) desk.now.segments }
    requires each_stop { length arrivals.old ≡ length (S.net scan.now).table.stops }
    requires stairs { AreStairs 1 arrivals.old }
    ensures { OnOk result (IsOfferedUpTo (S.net scan.now).table desk.now n
        (segment_of desk.now.segments n).end arrivals.old arrivals.new) }
{
    scan.soundness();
    let Some(segment) = desk.segment(n) else {
        return Err(Memory);
    };
    for before in segment.board..segment.end {
        let visit = scan.visit(segment.trip, before + 1, steps);
        alight_soonest(scan, arrivals, &visit);
    }
    Ok(())
}

// Offers what a segment of this round gives, if that is within the limit on rides.
fn offer_within<L: Ledger, S: Look<L>>(
    scan: &S,
    query: &Query,
    desk: &Desk,
    n: u32,
    round: u32,
    rides: Option<u32>,
    arrivals: &mut Soonest,
    steps: &mut Steps<L>,
) -> Result<(), Memory>
    requires segment { n < length desk.now.segments }
    requires sound { All (IsSoundSegment (S.net scan.now).table) desk.now.segments }
    requires reached { IsReached (S.net scan.now).table query.now.from query.now.leave
        (round_of desk.now.segments n) (segment_of desk.now.segments n).trip
        (segment_of desk.now.segments n).board }
    requires round { round ≡ round_of desk.now.segments n }
    requires ridden { AreRidden (S.net scan.now).table query.now rides desk.now n arrivals.old }
    ensures { OnOk result
        (AreRidden (S.net scan.now).table query.now rides desk.now (n + 1) arrivals.new) }
{
    if is_past(round, rides) {
        return Ok(());
    }
    offer_segment(scan, desk, n, arrivals, steps)?;
    Ok(())
}

// Offers what the segments from a number on give, where they are within the limit on rides.
fn offer_segments<L: Ledger, S: Look<L>>(
    scan: &S,
    query: &Query,
    desk: &Desk,
    from: u32,
    rounds: &[u32],
    rides: Option<u32>,
    arrivals: &mut Soonest,
    steps: &mut Steps<L>,
) -> Result<(), Memory>
    requires sound { All (IsSoundSegment (S.net scan.now).table) desk.now.segments }
    requires reached { (n : ℕ) → n < length desk.now.segments →
        IsReached (S.net scan.now).table query.now.from query.now.leave
        (round_of desk.now.segments n) (segment_of desk.now.segments n).trip
        (segment_of desk.now.segments n).board }
    requires rounds { AreRounds desk.now rounds.now }
    requires all { length rounds.now ≡ length desk.now.segments }
    requires room { length rounds.now < 4294967295 }
    requires from { from ≤ length desk.now.segments }
    requires ridden { AreRidden (S.net scan.now).table query.now rides desk.now from arrivals.old }
    ensures { OnOk result (AreRidden (S.net scan.now).table query.now rides desk.now
        (length desk.now.segments) arrivals.new) }
{
    for n in from..rounds.len() as u32 {
        offer_within(
            scan,
            query,
            desk,
            n,
            rounds[n as usize],
            rides,
            arrivals,
            steps,
        )?;
    }
    Ok(())
}

// Comes down to the time of the query, from a later one or the same.
fn come_down<L: Ledger, S: Look<L>>(
    alloc: Global,
    scan: &S,
    query: &Query,
    rides: Option<u32>,
    desk: &mut Desk,
    swept: &mut Swept,
    steps: &mut Steps<L>,
) -> Result<(), Memory>
    requires later { (later : ℤ) × (query.now.leave ≤ℤ later)
        × IsSweptDown (S.net scan.now) (record query.now { leave = later }) rides desk.old
        swept.old.sweep swept.old.rounds.items swept.old.arrivals }
    requires fits { Fits (S.net scan.now).table desk.old }
    requires origins { All (λ p. p < length (S.net scan.now).table.stops) query.now.from }
    requires leave { query.now.leave ≤ℤ pos 359999 }
    requires no_target { query.now.to ≡ [] }
    requires sufficient { AreSufficient (S.net scan.now).table (S.net scan.now).hops }
    ensures down { OnOk result (IsSweptDown (S.net scan.now) query.now rides desk.new
        swept.new.sweep swept.new.rounds.items swept.new.arrivals) }
    ensures swept { OnOk result (IsSweptTo (S.net scan.now) query.now desk.new
        swept.new.sweep.levels []) }
    ensures fits { Fits (S.net scan.now).table desk.new }
{
    let from = segment_total(desk)?;
    swept.sweep.ask(alloc, scan, query, desk, steps)?;
    let total = segment_total(desk)?;
    note_rounds(desk, total, &mut swept.rounds)?;
    offer_segments(
        scan,
        query,
        desk,
        from,
        swept.rounds.as_slice(),
        rides,
        &mut swept.arrivals,
        steps,
    )?;
    Ok(())
}

// Asks a query at another time.
fn ask_at(query: &mut Query, leave: Sec)
    ensures { query.new ≡ record query.old { leave = leave } }
{
    query.leave = leave;
}

// The values of all walks from origins that begin at 0.
fn walks_from<S: Scan>(alloc: Global, scan: &S, from: &[StopNo]) -> Result<Arrivals, Memory>
    requires origins { All (λ p. p < length (S.net scan.now).table.stops) from.now }
    ensures { IfOk result (λ walks. AreStarts (S.net scan.now).table from.now (pos 0) walks) }
{
    let query = query_everywhere(alloc, from, 0)?;
    let mut walks = Arrivals::new(alloc, scan.shape().stops as usize)?;
    walk_all(scan, &query, &mut walks)?;
    Ok(walks)
}

// The shorter of two times, where there are any.
fn shorter(time: Option<Sec>, other: Option<Sec>) -> Option<Sec>
    ensures { result ≡ earlier_of time other }
{
    match (time, other) {
        (Some(x), Some(y)) => { if x <= y { Some(x) } else { Some(y) } }
        (Some(x), None) => Some(x),
        (None, y) => y,
    }
}

// How long after the departure a value arrives.
fn since(value: &Value, leave: Sec) -> Sec
    requires leave { pos 0 ≤ℤ leave }
    requires later { leave ≤ℤ value.now.arrive }
    ensures { result ≡ value.now.arrive -ℤ leave }
{
    value.arrive - leave
}

// The least time after the departure at which one of the values arrives.
fn time_of(values: &[Value], leave: Sec) -> Option<Sec>
    requires leave { pos 0 ≤ℤ leave }
    requires later { All (λ v. leave ≤ℤ v.arrive) values.now }
    ensures { IsTimeOf values.now leave result }
{
    let mut time = None;
    for value in values {
        time = shorter(time, Some(since(value, leave)));
    }
    time
}

// How long after the departure an arrival is.
fn later_by(arrive: Sec, leave: Sec) -> Sec
    requires leave { pos 0 ≤ℤ leave }
    requires later { leave ≤ℤ arrive }
    ensures { result ≡ arrive -ℤ leave }
{
    arrive - leave
}

// The same, where there is one.
fn time_after(arrival: Option<Sec>, leave: Sec) -> Option<Sec>
    requires leave { pos 0 ≤ℤ leave }
    requires later { All (λ v. leave ≤ℤ v.arrive) (lone arrival) }
    ensures { IsTimeOf (lone arrival) leave result }
{
    match arrival {
        Some(arrive) => Some(later_by(arrive, leave)),
        None => None,
    }
}

// The least time by a walk that begins at 0 or by an arrival after the departure.
fn time_at(walks: &[Value], arrival: Option<Sec>, leave: Sec) -> Option<Sec>
    requires leave { pos 0 ≤ℤ leave }
    requires walks { All (λ v. pos 0 ≤ℤ v.arrive) walks.now }
    requires arrival { All (λ v. leave ≤ℤ v.arrive) (lone arrival) }
    ensures { IsLeast (IsWalkOrRide walks.now (lone arrival) leave) result }
{
    shorter(time_of(walks, 0), time_after(arrival, leave))
}

// The same for each stop.
fn times_at(
    alloc: Global,
    walks: &[Vec<Value>],
    arrivals: &[Option<Sec>],
    leave: Sec,
) -> Result<Vec<Option<Sec>>, Memory>
    requires leave { pos 0 ≤ℤ leave }
    requires each_stop { length walks.now ≡ length arrivals.now }
    requires walks { (p : ℕ) → All (λ v. pos 0 ≤ℤ v.arrive)
        (values_at (map (λ list. list.items) walks.now) p) }
    requires arrivals { (p : ℕ) → All (λ v. leave ≤ℤ v.arrive)
        (values_at (map lone arrivals.now) p) }
    ensures each_stop { IfOk result (λ times. length times.items ≡ length arrivals.now) }
    ensures times { IfOk result (λ times. (p : ℕ) (o : Option ℤ) → p < length arrivals.now →
        IsLeast (IsWalkOrRide (values_at (map (λ list. list.items) walks.now) p)
        (values_at (map lone arrivals.now) p) leave) (slice_index_or times.items p o)) }
{
    let mut times = Vec::new(alloc);
    for stop in 0..arrivals.len() {
        times.push(time_at(walks[stop].as_slice(), arrivals[stop], leave))?;
    }
    Ok(times)
}

// Begins a sweep at the time of the query.
fn begin<S: Scan>(alloc: Global, scan: &S, query: &Query, desk: &mut Desk) -> Result<Swept, Memory>
    requires fits { Fits (S.net scan.now).table desk.old }
    ensures down { IfOk result (λ swept. (rides : Option ℕ) → IsSweptDown (S.net scan.now) query.now
        rides desk.new swept.sweep swept.rounds.items swept.arrivals) }
    ensures fits { Fits (S.net scan.now).table desk.new }
{
    let mut sweep = Sweep::new(alloc);
    sweep.begin(alloc, scan, query, desk)?;
    let arrivals = Soonest::new(alloc, scan.shape().stops as usize)?;
    Ok(Swept {
        sweep,
        rounds: Vec::new(alloc),
        arrivals,
    })
}

// The travel times of the departure at the time of the query, by stops.
fn ask<L: Ledger, S: Look<L>>(
    alloc: Global,
    scan: &S,
    query: &Query,
    rides: Option<u32>,
    walks: &[Vec<Value>],
    desk: &mut Desk,
    swept: &mut Swept,
    steps: &mut Steps<L>,
) -> Result<Vec<Option<Sec>>, Memory>
    requires later { (later : ℤ) × (query.now.leave ≤ℤ later)
        × IsSweptDown (S.net scan.now) (record query.now { leave = later }) rides desk.old
        swept.old.sweep swept.old.rounds.items swept.old.arrivals }
    requires fits { Fits (S.net scan.now).table desk.old }
    requires origins { All (λ p. p < length (S.net scan.now).table.stops) query.now.from }
    requires leave { query.now.leave ≤ℤ pos 359999 }
    requires not_before { pos 0 ≤ℤ query.now.leave }
    requires no_target { query.now.to ≡ [] }
    requires walks { AreStarts (S.net scan.now).table query.now.from (pos 0)
        (map (λ list. list.items) walks.now) }
    requires sufficient { AreSufficient (S.net scan.now).table (S.net scan.now).hops }
    ensures down { OnOk result (IsSweptDown (S.net scan.now) query.now rides desk.new
        swept.new.sweep swept.new.rounds.items swept.new.arrivals) }
    ensures times { IfOk result (λ times. AreTimesAt (S.net scan.now).table query.now.from rides
        query.now.leave times.items) }
    ensures fits { Fits (S.net scan.now).table desk.new }
{
    scan.soundness();
    come_down(alloc, scan, query, rides, desk, swept, steps)?;
    let times = times_at(alloc, walks, swept.arrivals.times(), query.leave)?;
    Ok(times)
}

// The last second at which a journey is asked for. Nothing departs after it.
const LAST: Sec = 359_999;

// The departure of this number from the last.
fn from_last(departures: &[Sec], place: usize) -> Sec
    requires { place < length departures.now }
    ensures { slice_get departures.now (length departures.now - 1 - place) ≡ Some result }
{
    departures[departures.len() - 1 - place]
}

// The travel times of each departure, by stops, last departure first.
fn times_from_last<L: Ledger, S: Look<L>>(
    alloc: Global,
    scan: &S,
    from: &[StopNo],
    departures: &[Sec],
    rides: Option<u32>,
    desk: &mut Desk,
    steps: &mut Steps<L>,
) -> Result<Vec<Vec<Option<Sec>>>, Memory>
    requires fits { Fits (S.net scan.now).table desk.old }
    requires origins { All (λ p. p < length (S.net scan.now).table.stops) from.now }
    requires departures { All (λ t. t ≤ℤ pos 359999) departures.now }
    requires not_before { All (λ t. pos 0 ≤ℤ t) departures.now }
    requires order { AllPairs (λ m n. m ≤ℤ n) departures.now }
    requires sufficient { AreSufficient (S.net scan.now).table (S.net scan.now).hops }
    ensures each_departure { IfOk result (λ lists. length lists.items ≡ length departures.now) }
    ensures times { IfOk result (λ lists. (k : ℕ) (t : ℤ) (o : List (Option ℤ)) →
        k < length departures.now →
        AreTimesAt (S.net scan.now).table from.now rides
        (slice_index_or departures.now (length departures.now - 1 - k) t)
        (slice_index_or (map (λ list. list.items) lists.items) k o)) }
    ensures fits { Fits (S.net scan.now).table desk.new }
{
    let walks = walks_from(alloc, scan, from)?.into_rows();
    let mut query = query_everywhere(alloc, from, LAST)?;
    let mut swept = begin(alloc, scan, &query, desk)?;
    let mut lists = Vec::new(alloc);
    for place in 0..departures.len() {
        ask_at(&mut query, from_last(departures, place));
        lists.push(ask(
            alloc,
            scan,
            &query,
            rides,
            walks.as_slice(),
            desk,
            &mut swept,
            steps,
        )?)?;
    }
    Ok(lists)
}

// The travel times of each departure, by stops, of departures in order. One sweep from the last
// departure to the first serves all: what a later one reaches by rides an earlier one reaches too.
pub(crate) fn swept_times<L: Ledger, S: Look<L>>(
    alloc: Global,
    scan: &S,
    from: &[StopNo],
    departures: &[Sec],
    rides: Option<u32>,
    desk: &mut Desk,
    steps: &mut Steps<L>,
) -> Result<Vec<Vec<Option<Sec>>>, Memory>
    requires fits { Fits (S.net scan.now).table desk.old }
    requires origins { All (λ p. p < length (S.net scan.now).table.stops) from.now }
    requires departures { All (λ t. t ≤ℤ pos 359999) departures.now }
    requires not_before { All (λ t. pos 0 ≤ℤ t) departures.now }
    requires order { AllPairs (λ m n. m ≤ℤ n) departures.now }
    requires sufficient { AreSufficient (S.net scan.now).table (S.net scan.now).hops }
    ensures each_departure { IfOk result (λ lists. length lists.items ≡ length departures.now) }
    ensures times { IfOk result (λ lists. (k : ℕ) (t : ℤ) (o : List (Option ℤ)) →
        k < length departures.now →
        AreTimesAt (S.net scan.now).table from.now rides (slice_index_or departures.now k t)
        (slice_index_or (map (λ list. list.items) lists.items) k o)) }
    ensures fits { Fits (S.net scan.now).table desk.new }
{
    let mut lists = times_from_last(alloc, scan, from, departures, rides, desk, steps)?;
    lists.reverse();
    Ok(lists)
}
