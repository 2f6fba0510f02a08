//! The walk over a window, from its end to its beginning.
ghost use Rattle.std.specs.Prelude.{◌≡◌, ◌<◌, ◌≤ℤ◌, [], All, IfOk, OnErr, length, map, pos};
ghost use Rattle.tb_base.specs.JourneyRules.{SpellSlot};
ghost use Rattle.tb_base.specs.Profiles.{IsProfile, OfferData};
ghost use Rattle.tb_base.specs.Sufficiency.{AreSufficient};
ghost use Rattle.segment_queue.specs.Queue.{Fits};
ghost use Rattle.segment_queue.specs.Traced.{LegsFollow};
ghost use Rattle.query_gate.specs.Replies.{AreBestOffers};

use super::leaving::leaving_times;
use super::searching::{ask_at, begin, copy_values, query_after, search};
use super::slots::add_offers;
use earliest_query::Sweep;
use segment_queue::{Desk, Look, Scan, Steps};
use std::alloc::Global;
use std::sync::ledger::Ledger;
use tb_base::{Memory, Offer, Query, Timetable, Window};

// The offers of a window.
fn offers_of<L: Ledger, S: Look<L>>(
    alloc: Global,
    scan: &S,
    table: &Timetable,
    window: &Window,
    desk: &mut Desk,
    steps: &mut Steps<L>,
) -> Result<Vec<Offer>, Memory>
    requires table { (S.net scan.now).table ≡ table.now }
    requires fits { Fits table.now desk.old }
    requires origins { All (λ p. p < length table.now.stops) window.now.from }
    requires targets { All (λ p. p < length table.now.stops) window.now.to }
    requires last { window.now.last ≤ℤ pos 359999 }
    requires sufficient { AreSufficient table.now (S.net scan.now).hops }
    ensures slots { IfOk result (λ offers.
        IsProfile table.now window.now (map OfferData.slot offers.items)) }
    ensures journeys { IfOk result
        (λ offers. All (λ o. SpellSlot table.now window.now (OfferData.legs o) (OfferData.slot o))
        offers.items) }
    ensures hops { IfOk result
        (λ offers. All (λ o. LegsFollow (S.net scan.now).hops (OfferData.legs o)) offers.items) }
    ensures fits { Fits table.now desk.new }
{
    table.soundness();
    let mut query = query_after(alloc, window)?;
    let mut times = leaving_times(alloc, scan, table, window, steps)?;
    let mut sweep = Sweep::new(alloc);
    begin(alloc, scan, table, &query, desk, &mut sweep, steps)?;
    let mut later = Vec::new(alloc);
    let mut offers = Vec::new(alloc);
    while let Some(time) = times.pop() {
        copy_values(&mut later, sweep.values())?;
        ask_at(&mut query, time);
        search(alloc, scan, table, &query, desk, &mut sweep, steps)?;
        add_offers(alloc, &mut offers, desk, table, &query, later.as_slice())?;
    }
    Ok(offers)
}

// Empties a desk.
fn empty<S: Scan>(alloc: Global, scan: &S, desk: &mut Desk)
    requires { Fits (S.net scan.now).table desk.old }
    ensures fits { Fits (S.net scan.now).table desk.new }
    ensures emptied { desk.new.segments ≡ [] }
{
    let nothing = Query {
        from: Vec::new(alloc),
        to: Vec::new(alloc),
        leave: 0,
    };
    desk.begin(scan, &nothing);
}

/// The profile of a window: its slots by leaving time, greatest first, then by rides, smallest
/// first, each with the legs of a journey that has it and changes by hops of the set alone. Any
/// sufficient set of hops gives the same slots. The window is swept from its end: once a second
/// after it, and at each time within it at which one can leave an origin for a first ride. What a
/// later time has reached with no more rides isn't entered again. Each look by the scan is a step
/// on the counter, but no clause bounds how many there are; when a trip departs is read of the
/// timetable, without a step. Refused only for want of memory, as which more segments count than 32
/// bits can number; then the desk fits still and its queue is empty.
pub fn best_offers<L: Ledger, S: Look<L>>(
    alloc: Global,
    scan: &S,
    table: &Timetable,
    window: &Window,
    desk: &mut Desk,
    steps: &mut Steps<L>,
) -> Result<Vec<Offer>, Memory>
    requires table { (S.net scan.now).table ≡ table.now }
    requires fits { Fits table.now desk.old }
    requires origins { All (λ p. p < length table.now.stops) window.now.from }
    requires targets { All (λ p. p < length table.now.stops) window.now.to }
    requires last { window.now.last ≤ℤ pos 359999 }
    requires sufficient { AreSufficient table.now (S.net scan.now).hops }
    ensures best { IfOk result (λ os. AreBestOffers (S.net scan.now) window.now os.items) }
    ensures fits { Fits table.now desk.new }
    ensures emptied { OnErr result (desk.new.segments ≡ []) }
{
    let offers = offers_of(alloc, scan, table, window, desk, steps);
    match offers {
        Ok(offers) => Ok(offers),
        Err(refused) => {
            empty(alloc, scan, desk);
            Err(refused)
        }
    }
}
