//! The latest departures that arrive by a time.
ghost use Rattle.std.specs.Prelude.{◌≡◌, ◌<◌, ◌≤ℤ◌, All, IfOk, length, map, pos};
ghost use Rattle.tb_base.specs.BestValues.{AreBestValues, ChoiceData};
ghost use Rattle.tb_base.specs.JourneyRules.{HasNumbers, SpellValue};
ghost use Rattle.edition_store.specs.Departures.{mirror_query};
ghost use Rattle.edition_store.specs.Mirror.{IsMirror};
ghost use Rattle.arrive_by.specs.Latest.{AreLatestDepartures, DepartureData};

use crate::departures::{Arrival, Departure};
use crate::turned::departures;
use earliest_query::earliest;
use edition_store::{Network, mirrored_time};
use journey_unfold::choices;
use segment_queue::{Desk, Steps};
use std::alloc::Global;
use std::marker::Brand;
use std::sync::ledger::{Blank, Ledger};
use tb_base::{Choice, Memory, Query, Timetable};

// What is asked of the mirror.
fn mirrored_query(alloc: Global, by: &Arrival) -> Result<Query, Memory>
    requires earliest { pos 0 ≤ℤ by.now.by }
    requires latest { by.now.by ≤ℤ pos 273599 }
    ensures { IfOk result (λ query. query ≡ mirror_query by.now) }
{
    Ok(Query {
        from: Vec::from_slice(alloc, by.to.as_slice())?,
        to: Vec::from_slice(alloc, by.from.as_slice())?,
        leave: mirrored_time(by.by),
    })
}

// The best values of a query over a network, each with legs, on a ledger that nobody else counts
// in.
fn choices_on<L: Ledger>(
    alloc: Global,
    network: &Network,
    query: &Query,
    desk: &mut Desk,
    blank: Blank,
) -> Result<Vec<Choice>, Memory>
    requires name { blank.name ≡ L.name }
    requires parts { blank.parts ≡ L.parts }
    requires some { 0 < L.parts }
    requires origins { All (λ p. p < length network.now.table.stops) query.now.from }
    requires targets { All (λ p. p < length network.now.table.stops) query.now.to }
    requires leave { query.now.leave ≤ℤ pos 359999 }
    ensures values { IfOk result (λ cs.
        AreBestValues network.now.table query.now (map ChoiceData.value cs.items)) }
    ensures journeys { IfOk result (λ cs. All (λ c.
        SpellValue network.now.table query.now (ChoiceData.legs c) (ChoiceData.value c)) cs.items) }
{
    network.soundness();
    desk.make_room(network)?;
    let mut steps = Steps::<L>::new(blank);
    earliest(network, query, desk, &mut steps);
    choices(alloc, desk, network.table(), query)
}

/// The latest departures of a timetable that arrive by a time, each with the legs of a journey, by
/// the network of its mirror: the pairs of departure and number of rides to which no different one
/// leaves no earlier with no more rides. A walk counts as one that arrives at the time. The desk may
/// have served any network before; it is made to fit. The time is at most 75:59:59. Refused only
/// for want of memory: the desk may be used again.
pub fn latest(
    alloc: Global,
    mirrored: &Network,
    table: &Timetable,
    by: &Arrival,
    desk: &mut Desk,
) -> Result<Vec<Departure>, Memory>
    requires mirror { IsMirror table.now mirrored.now.table }
    requires origins { All (λ p. p < length table.now.stops) by.now.from }
    requires targets { All (λ p. p < length table.now.stops) by.now.to }
    requires earliest { pos 0 ≤ℤ by.now.by }
    requires latest { by.now.by ≤ℤ pos 273599 }
    ensures latest { IfOk result (λ ds. AreLatestDepartures table.now by.now ds.items) }
    ensures numbers { IfOk result (λ ds.
        All (λ d. All (HasNumbers table.now) (DepartureData.legs d)) ds.items) }
{
    table.soundness();
    mirrored.soundness();
    let query = mirrored_query(alloc, by)?;
    let choices = choices_on::<Brand>(alloc, mirrored, &query, desk, Blank::new(1))?;
    departures(alloc, mirrored, choices.as_slice())
}
