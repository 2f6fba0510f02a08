//! Which of the values that a search finds are offered.
ghost use Rattle.std.specs.Prelude.{◌≡◌, ◌<◌, ◌++◌, ◌∷◌, [], ℕ, List, All, Contains, IfOk, OnOk, length, map};
ghost use Rattle.tb_base.specs.Profiles.{OfferData};
ghost use Rattle.tb_base.specs.declared.transfer.Hop.{Hop};
ghost use Rattle.segment_queue.specs.Traced.{IsTraced, UsesHops};
ghost use Rattle.std.specs.List.{list_any};
ghost use Rattle.query_gate.specs.Slots.{IsShown, is_kept, is_no_worse, slots_at};

use journey_unfold::unfold;
use segment_queue::{Desk, Hit};
use std::alloc::Global;
use tb_base::{Memory, Offer, Query, Slot, Timetable, Value};

// Whether a value arrives no later than another and has no more rides.
fn is_no_worse(u: Value, v: Value) -> bool
    ensures { result ≡ is_no_worse u v }
{
    u.arrive <= v.arrive && u.rides <= v.rides
}

// Whether one of the later values is no worse.
fn is_beaten(later: &[Value], value: Value) -> bool
    ensures { result ≡ list_any (λ u. is_no_worse u value) later.now }
{
    later.iter().any(|other| is_no_worse(*other, value))
}

// Whether a value has a ride and none of the later ones is no worse.
fn is_kept(later: &[Value], value: Value) -> bool
    ensures { result ≡ is_kept later.now value }
{
    0 < value.rides && !is_beaten(later, value)
}

// Offers a hit, if its value is kept.
fn add_offer(
    alloc: Global,
    offers: &mut Vec<Offer>,
    desk: &Desk,
    hit: &Hit,
    table: &Timetable,
    query: &Query,
    later: &[Value],
) -> Result<(), Memory>
    requires origins { All (λ p. p < length table.now.stops) query.now.from }
    requires targets { All (λ p. p < length table.now.stops) query.now.to }
    requires traced { IsTraced table.now query.now desk.now }
    requires hit { Contains desk.now.hits hit.now }
    ensures slots { OnOk result
        (map OfferData.slot offers.new.items ≡ map OfferData.slot offers.old.items
        ++ slots_at query.now.leave later.now (hit.now.value ∷ [])) }
    ensures shown { OnOk result ((hops : ℕ → ℕ → List Hop) → UsesHops hops desk.now.segments →
        All (IsShown table.now query.now.from query.now.to hops) offers.old.items →
        All (IsShown table.now query.now.from query.now.to hops) offers.new.items) }
{
    if !is_kept(later, hit.value) {
        return Ok(());
    }
    let legs = unfold(alloc, desk, hit, table, query)?;
    let slot = Slot {
        leave: query.leave,
        arrive: hit.value.arrive,
        rides: hit.value.rides,
    };
    offers.push(Offer { slot, legs })?;
    Ok(())
}

/// Offers the hits whose values are kept, in order, each with the legs of its journey.
pub(crate) fn add_offers(
    alloc: Global,
    offers: &mut Vec<Offer>,
    desk: &Desk,
    table: &Timetable,
    query: &Query,
    later: &[Value],
) -> Result<(), Memory>
    requires origins { All (λ p. p < length table.now.stops) query.now.from }
    requires targets { All (λ p. p < length table.now.stops) query.now.to }
    requires traced { IsTraced table.now query.now desk.now }
    ensures slots { OnOk result
        (map OfferData.slot offers.new.items ≡ map OfferData.slot offers.old.items
        ++ slots_at query.now.leave later.now (map (λ h. h.value) desk.now.hits)) }
    ensures shown { OnOk result ((hops : ℕ → ℕ → List Hop) → UsesHops hops desk.now.segments →
        All (IsShown table.now query.now.from query.now.to hops) offers.old.items →
        All (IsShown table.now query.now.from query.now.to hops) offers.new.items) }
{
    for hit in desk.hits() {
        add_offer(alloc, offers, desk, hit, table, query, later)?;
    }
    Ok(())
}
