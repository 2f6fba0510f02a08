//! Ways to an answer. Each is called in one function alone, since whatever calls it is proved over
//! all that its contract names.
ghost use Rattle.std.specs.Prelude.{◌≡◌, ◌<◌, ◌≤◌, ◌≤ℤ◌, All, length, pos};
ghost use Rattle.edition_store.specs.Mirror.{IsMirror};

use arrive_by::{Arrival, Departure, latest};
use edition_store::{Edition, Network};
use plain_rounds::plain_ask;
use query_gate::{best_choices, best_offers};
use reach_all::{Departures, TravelTimes, reach_all, travel_times};
use segment_queue::{Desk, Steps};
use std::alloc::Global;
use std::marker::Brand;
use std::sync::ledger::{Blank, Ledger};
use tb_base::{Choice, Memory, Offer, Query, Sec, StopNo, Timetable, Value, Window};

// The best choices of a query, on a ledger that nobody else counts in.
fn searched_on<L: Ledger>(
    alloc: Global,
    network: &Network,
    desk: &mut Desk,
    query: &Query,
    blank: Blank,
) -> Result<Vec<Choice>, Memory>
    requires name { blank.name ≡ L.name }
    requires parts { blank.parts ≡ L.parts }
    requires some { 0 < L.parts }
    requires origins { All (λ p. p < length network.now.table.stops) query.now.from }
    requires targets { All (λ p. p < length network.now.table.stops) query.now.to }
    requires time { query.now.leave ≤ℤ pos 359999 }
{
    network.soundness();
    desk.make_room(network)?;
    let mut steps = Steps::<L>::new(blank);
    best_choices(alloc, network, network.table(), query, desk, &mut steps)
}

/// The best choices of a query, by the search over kept transfers.
pub fn searched(
    alloc: Global,
    edition: &Edition,
    desk: &mut Desk,
    query: &Query,
) -> Result<Vec<Choice>, Memory>
    requires origins { All (λ p. p < length edition.now.table.stops) query.now.from }
    requires targets { All (λ p. p < length edition.now.table.stops) query.now.to }
    requires time { query.now.leave ≤ℤ pos 359999 }
{
    searched_on::<Brand>(alloc, edition.network(), desk, query, Blank::new(1))
}

/// The best choices of a query, round by round.
pub fn asked_by_rounds(
    alloc: Global,
    table: &Timetable,
    query: &Query,
) -> Result<Vec<Choice>, Memory>
    requires origins { All (λ p. p < length table.now.stops) query.now.from }
    requires targets { All (λ p. p < length table.now.stops) query.now.to }
    requires time { query.now.leave ≤ℤ pos 359999 }
{
    plain_ask(alloc, table, query)
}

// The profile of a window, on a ledger that nobody else counts in.
fn offers_on<L: Ledger>(
    alloc: Global,
    network: &Network,
    desk: &mut Desk,
    window: &Window,
    blank: Blank,
) -> Result<Vec<Offer>, Memory>
    requires name { blank.name ≡ L.name }
    requires parts { blank.parts ≡ L.parts }
    requires some { 0 < L.parts }
    requires origins { All (λ p. p < length network.now.table.stops) window.now.from }
    requires targets { All (λ p. p < length network.now.table.stops) window.now.to }
    requires last { window.now.last ≤ℤ pos 359998 }
{
    network.soundness();
    desk.make_room(network)?;
    let mut steps = Steps::<L>::new(blank);
    best_offers(alloc, network, network.table(), window, desk, &mut steps)
}

/// The profile of a window.
pub fn offers_of(
    alloc: Global,
    edition: &Edition,
    desk: &mut Desk,
    window: &Window,
) -> Result<Vec<Offer>, Memory>
    requires origins { All (λ p. p < length edition.now.table.stops) window.now.from }
    requires targets { All (λ p. p < length edition.now.table.stops) window.now.to }
    requires last { window.now.last ≤ℤ pos 359998 }
{
    offers_on::<Brand>(alloc, edition.network(), desk, window, Blank::new(1))
}

/// The latest departures by a time, over the edition of the mirror.
pub fn departures_by(
    alloc: Global,
    mirrored: &Edition,
    table: &Timetable,
    desk: &mut Desk,
    by: &Arrival,
) -> Result<Vec<Departure>, Memory>
    requires mirror { IsMirror table.now mirrored.now.table }
    requires origins { All (λ p. p < length table.now.stops) by.now.from }
    requires targets { All (λ p. p < length table.now.stops) by.now.to }
    requires earliest { pos 0 ≤ℤ by.now.by }
    requires latest { by.now.by ≤ℤ pos 273599 }
{
    latest(alloc, mirrored.network(), table, by, desk)
}

// The best values to every stop, on a ledger that nobody else counts in.
fn reached_on<L: Ledger>(
    alloc: Global,
    network: &Network,
    desk: &mut Desk,
    from: &[StopNo],
    leave: Sec,
    blank: Blank,
) -> Result<Vec<Vec<Value>>, Memory>
    requires name { blank.name ≡ L.name }
    requires parts { blank.parts ≡ L.parts }
    requires some { 0 < L.parts }
    requires origins { All (λ p. p < length network.now.table.stops) from.now }
    requires leave { leave ≤ℤ pos 359999 }
{
    network.soundness();
    desk.make_room(network)?;
    let mut steps = Steps::<L>::new(blank);
    reach_all(alloc, network, from, leave, desk, &mut steps)
}

/// The best values to every stop.
pub fn reached(
    alloc: Global,
    edition: &Edition,
    desk: &mut Desk,
    from: &[StopNo],
    leave: Sec,
) -> Result<Vec<Vec<Value>>, Memory>
    requires origins { All (λ p. p < length edition.now.table.stops) from.now }
    requires leave { leave ≤ℤ pos 359999 }
{
    reached_on::<Brand>(alloc, edition.network(), desk, from, leave, Blank::new(1))
}

// The travel times to every stop, on a ledger that nobody else counts in.
fn travelled_on<L: Ledger>(
    alloc: Global,
    network: &Network,
    desk: &mut Desk,
    from: &[StopNo],
    departures: &Departures,
    rides: Option<u32>,
    blank: Blank,
) -> Result<TravelTimes, Memory>
    requires name { blank.name ≡ L.name }
    requires parts { blank.parts ≡ L.parts }
    requires some { 0 < L.parts }
    requires origins { All (λ p. p < length network.now.table.stops) from.now }
    requires first { pos 0 ≤ℤ departures.now.first }
    requires order { departures.now.first ≤ℤ departures.now.last }
    requires last { departures.now.last ≤ℤ pos 359999 }
    requires step { 1 ≤ departures.now.step }
    requires most_step { departures.now.step ≤ 3600 }
{
    network.soundness();
    desk.make_room(network)?;
    let mut steps = Steps::<L>::new(blank);
    travel_times(alloc, network, from, departures, rides, desk, &mut steps)
}

/// The travel times to every stop over several departures.
pub fn travelled(
    alloc: Global,
    edition: &Edition,
    desk: &mut Desk,
    from: &[StopNo],
    departures: &Departures,
    rides: Option<u32>,
) -> Result<TravelTimes, Memory>
    requires origins { All (λ p. p < length edition.now.table.stops) from.now }
    requires first { pos 0 ≤ℤ departures.now.first }
    requires order { departures.now.first ≤ℤ departures.now.last }
    requires last { departures.now.last ≤ℤ pos 359999 }
    requires step { 1 ≤ departures.now.step }
    requires most_step { departures.now.step ≤ 3600 }
{
    travelled_on::<Brand>(
        alloc,
        edition.network(),
        desk,
        from,
        departures,
        rides,
        Blank::new(1),
    )
}
