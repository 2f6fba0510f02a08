//! What alternatives offer at the stops.
ghost use Rattle.std.specs.Prelude.{◌≡◌, ◌<◌, ◌≤◌, ◌+◌, ◌↔◌, ◌⊎◌, ◌≤ℤ◌, ℕ, ℤ, true, false, IsTrue, List, ◌∷◌, Some, length};
ghost use Rattle.std.specs.List.{list_any};
ghost use Rattle.transfer_pack.specs.CallsOf.{IsSoundCall};
ghost use Rattle.tb_base.specs.TimetableData.{event_at, events_of};
ghost use Rattle.tb_base.specs.Transfers.{is_sooner};
ghost use Rattle.tb_base.specs.Walking.{walk};
ghost use Rattle.tb_base.specs.declared.table.Event.{Event};
ghost use Rattle.tb_laws.specs.Labels.{label};
ghost use Rattle.transfer_reduce.specs.Reached.{AreLowered, AreReached, AreShown, IsAlighting, IsBy, IsReachedOnFoot, hop_alightings};
ghost use Rattle.transfer_reduce.specs.Tried.{AreTried};

use super::labels::Labels;
use super::tried::{TRIED, Tried, untried_end};
use tb_base::{Timetable, Transfer, TripNo};
use transfer_pack::{Call, Calls};

// Whether one may alight at a call, and is there sooner than by all that was offered.
#[inline(always)]
fn is_sooner_at(labels: &Labels, call: &Call) -> bool
    requires { IsSoundCall (length labels.now.table.stops) call.now }
    ensures alights { result ≡ true → IsTrue call.now.alight }
    ensures sooner { result ≡ true →
        IsReachedOnFoot labels.now.table labels.now.times call.now.stop call.now.arr → ⊥ }
    ensures late { result ≡ false → IsTrue call.now.alight →
        IsReachedOnFoot labels.now.table labels.now.times call.now.stop call.now.arr }
{
    call.alight && labels.is_sooner(call.stop, call.arr)
}

// Lowers the time at the stop of a call, where one may alight.
#[inline(always)]
fn lower_at(labels: &mut Labels, call: &Call)
    requires { IsSoundCall (length labels.old.table.stops) call.now }
    ensures table { labels.new.table ≡ labels.old.table }
    ensures times { (p : ℕ) (x : ℤ) → IsBy labels.new.times p x ↔ (IsBy labels.old.times p x
        ⊎ (IsTrue call.now.alight × (call.now.stop ≡ p) × (call.now.arr ≤ℤ x))) }
{
    if call.alight {
        labels.lower(call.stop, call.arr);
    }
}

// The first event of a trip, from one index up to another, where one may alight and is sooner than
// by all that was offered; the other index if there is none.
fn first_sooner<C: Calls>(
    table: &Timetable,
    calls: &C,
    labels: &Labels,
    trip: TripNo,
    from: usize,
    to: usize,
) -> usize
    requires table { C.table calls.now ≡ table.now }
    requires labels { labels.now.table ≡ table.now }
    requires inside { to ≤ length (events_of table.now trip) }
    ensures within { result ≤ to }
    ensures late { AreReached table.now labels.now.times trip from result }
    ensures after { result < to → from ≤ result }
    ensures alights { result < to → IsTrue (event_at table.now trip result).alight }
    ensures sooner { result < to → IsReachedOnFoot table.now labels.now.times
        (event_at table.now trip result).stop (event_at table.now trip result).arr → ⊥ }
{
    table.soundness();
    for at in from..to {
        if is_sooner_at(labels, &calls.call(trip, at)) {
            return at;
        }
    }
    to
}

// Lowers the times at the stops of a trip from one index up to another, where one may alight.
fn lower_all<C: Calls>(
    table: &Timetable,
    calls: &C,
    labels: &mut Labels,
    trip: TripNo,
    from: usize,
    to: usize,
)
    requires table { C.table calls.now ≡ table.now }
    requires labels { labels.old.table ≡ table.now }
    requires inside { to ≤ length (events_of table.now trip) }
    ensures labels { labels.new.table ≡ table.now }
    ensures times { AreLowered table.now trip from to labels.old.times labels.new.times }
{
    table.soundness();
    for at in from..to {
        lower_at(labels, &calls.call(trip, at));
    }
}

/// Offers what a hop brings: whether it is sooner at some stop where one may alight. What was
/// offered when the trip was tried is passed over. No label falls where nothing is sooner.
pub(crate) fn offer_hop<C: Calls>(
    table: &Timetable,
    calls: &C,
    labels: &mut Labels,
    tried: &mut [Tried; TRIED],
    row: &Transfer,
) -> bool
    requires table { C.table calls.now ≡ table.now }
    requires labels { labels.old.table ≡ table.now }
    requires tried { AreTried table.now labels.old.times tried.old }
    ensures labels { labels.new.table ≡ table.now }
    ensures tried { AreTried table.now labels.new.times tried.new }
    ensures sooner { (earlier : List (List Event)) → AreShown table.now labels.old.times earlier →
        result ≡ list_any (λ e. is_sooner (Some e.arr) (label (walk table.now) earlier e.stop))
        (hop_alightings table.now row.now) }
    ensures shown { (earlier : List (List Event)) → AreShown table.now labels.old.times earlier →
        AreShown table.now labels.new.times (hop_alightings table.now row.now ∷ earlier) }
{
    table.soundness();
    let place = row.to_trip.index() % TRIED;
    let end = untried_end(calls, &tried[place], row);
    let behind = row.to_at as usize + 1;
    let first = first_sooner(table, calls, labels, row.to_trip, behind, end);
    lower_all(table, calls, labels, row.to_trip, first, end);
    tried[place] = Tried {
        trip: row.to_trip,
        at: row.to_at,
    };
    first < end
}

/// Offers alighting at an event and staying there, if one may.
pub(crate) fn offer_stay<C: Calls>(
    table: &Timetable,
    calls: &C,
    labels: &mut Labels,
    trip: TripNo,
    at: usize,
)
    requires table { C.table calls.now ≡ table.now }
    requires labels { labels.old.table ≡ table.now }
    requires inside { at < length (events_of table.now trip) }
    ensures labels { labels.new.table ≡ table.now }
    ensures none { at ≡ 0 → labels.new.times ≡ labels.old.times }
    ensures times { 0 < at →
        AreLowered table.now trip at (at + 1) labels.old.times labels.new.times }
{
    table.soundness();
    if at == 0 {
        return;
    }
    lower_at(labels, &calls.call(trip, at));
}
