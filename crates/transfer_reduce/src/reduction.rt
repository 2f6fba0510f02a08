//! The reduction of the transfers of one trip.
ghost use Rattle.std.specs.Prelude.{◌≡◌, ◌<◌, ◌≤◌, ◌+◌, ◌++◌, ◌↔◌, [], ℕ, IsTrue, List, drop, length, map, slice_index_or, slice_set, take};
ghost use Rattle.tb_base.specs.TimetableData.{events_of};
ghost use Rattle.tb_base.specs.Transfers.{candidates_without_u_turns, kept_hops, transfers_of};
ghost use Rattle.tb_laws.specs.Rows.{transfer_by_hop};
ghost use Rattle.transfer_reduce.specs.Tried.{AreTried};
ghost use Rattle.transfer_reduce.specs.Reduced.{HasRowAt, IsReducedTo, Reduces, rows_below};
ghost use Rattle.tb_base.specs.declared.transfer.Transfer.{Transfer};

use super::labels::Labels;
use super::offers::{offer_hop, offer_stay};
use super::tried::{TRIED, Tried};
use tb_base::{Timetable, Transfer, TripNo};
use transfer_pack::Calls;

/// How far a reduction has come: it is at event `at`, with `taken` rows, of which `kept` are kept.
#[derive(Clone, Copy, Debug, PartialEq, Eq)]
struct Progress {
    at: usize,
    taken: usize,
    kept: usize,
}

// Puts a row to another place.
fn put_row(rows: &mut [Transfer], from: usize, to: usize)
    requires from { from < length rows.old }
    requires to { to ≤ from }
    ensures { (d : Transfer) → rows.new ≡ slice_set rows.old to (slice_index_or rows.old from d) }
{
    rows[to] = rows[from];
}

// Takes the next row, which is one of the event that is taken up: it stays where it is sooner
// somewhere.
fn take_row<C: Calls>(
    table: &Timetable,
    calls: &C,
    labels: &mut Labels,
    tried: &mut [Tried; TRIED],
    rows: &mut [Transfer],
    done: Progress,
) -> Progress
    requires table { C.table calls.now ≡ table.now }
    requires labels { labels.old.table ≡ table.now }
    requires tried { AreTried table.now labels.old.times tried.old }
    requires taken { done.taken < length rows.old }
    requires kept { done.kept ≤ done.taken }
    requires here { HasRowAt rows.old done.at done.taken }
    ensures labels { labels.new.table ≡ table.now }
    ensures tried { AreTried table.now labels.new.times tried.new }
    ensures at { result.at ≡ done.at }
    ensures taken { result.taken ≡ done.taken + 1 }
    ensures kept { result.kept ≤ result.taken }
    ensures reduces { (lines : List (List ℕ)) (t n : ℕ) (before : List Transfer) →
        Reduces table.now lines t before rows.old labels.old.times n done.at done.taken done.kept →
        Reduces table.now lines t before rows.new labels.new.times n result.at result.taken
        result.kept }
{
    table.soundness();
    let taken = done.taken + 1;
    if !offer_hop(table, calls, labels, tried, &rows[done.taken]) {
        return Progress {
            at: done.at,
            taken,
            kept: done.kept,
        };
    }
    put_row(rows, done.taken, done.kept);
    Progress {
        at: done.at,
        taken,
        kept: done.kept + 1,
    }
}

// Whether the next row is one of the event that is taken up.
fn has_row(rows: &[Transfer], done: Progress) -> bool
    ensures { IsTrue result ↔ HasRowAt rows.now done.at done.taken }
{
    done.taken < rows.len() && rows[done.taken].at as usize == done.at
}

// Takes all rows of the event that is taken up.
fn take_rows<C: Calls>(
    table: &Timetable,
    calls: &C,
    labels: &mut Labels,
    tried: &mut [Tried; TRIED],
    rows: &mut [Transfer],
    done: Progress,
) -> Progress
    requires table { C.table calls.now ≡ table.now }
    requires labels { labels.old.table ≡ table.now }
    requires tried { AreTried table.now labels.old.times tried.old }
    requires taken { done.taken ≤ length rows.old }
    requires kept { done.kept ≤ done.taken }
    ensures labels { labels.new.table ≡ table.now }
    ensures tried { AreTried table.now labels.new.times tried.new }
    ensures at { result.at ≡ done.at }
    ensures taken { result.taken ≤ length rows.old }
    ensures kept { result.kept ≤ result.taken }
    ensures reduces { (lines : List (List ℕ)) (t n : ℕ) (before : List Transfer) →
        Reduces table.now lines t before rows.old labels.old.times n done.at done.taken done.kept →
        IsReducedTo table.now lines t done.at (before ++ take result.kept rows.new) labels.new.times
        × (drop result.taken rows.new ≡ rows_below table.now lines t n) }
{
    table.soundness();
    let mut next = done;
    while has_row(rows, next) {
        next = take_row(table, calls, labels, tried, rows, next);
    }
    next
}

// Takes up an event, where one may stay, and takes its rows.
fn take_event<C: Calls>(
    table: &Timetable,
    calls: &C,
    labels: &mut Labels,
    tried: &mut [Tried; TRIED],
    trip: TripNo,
    rows: &mut [Transfer],
    done: Progress,
) -> Progress
    requires table { C.table calls.now ≡ table.now }
    requires labels { labels.old.table ≡ table.now }
    requires tried { AreTried table.now labels.old.times tried.old }
    requires inside { done.at < length (events_of table.now trip) }
    requires taken { done.taken ≤ length rows.old }
    requires kept { done.kept ≤ done.taken }
    ensures labels { labels.new.table ≡ table.now }
    ensures tried { AreTried table.now labels.new.times tried.new }
    ensures at { result.at ≡ done.at }
    ensures taken { result.taken ≤ length rows.old }
    ensures kept { result.kept ≤ result.taken }
    ensures reduced { (lines : List (List ℕ)) (n : ℕ) (before : List Transfer) → n ≤ done.at →
        drop done.taken rows.old ≡ map (transfer_by_hop trip done.at)
        (candidates_without_u_turns table.now lines trip done.at)
        ++ rows_below table.now lines trip n →
        IsReducedTo table.now lines trip (done.at + 1) (before ++ take done.kept rows.old)
        labels.old.times →
        IsReducedTo table.now lines trip done.at (before ++ take result.kept rows.new)
        labels.new.times × (drop result.taken rows.new ≡ rows_below table.now lines trip n) }
{
    table.soundness();
    offer_stay(table, calls, labels, trip, done.at);
    take_rows(table, calls, labels, tried, rows, done)
}

/// Begins the reduction of a trip: the labels forget all times, whatever they served before, and no
/// trip is tried.
pub fn begin_trip(table: &Timetable, labels: &mut Labels) -> [Tried; TRIED]
    requires { labels.old.table ≡ table.now }
    ensures labels { labels.new.table ≡ table.now }
    ensures tried { AreTried table.now labels.new.times result }
    ensures reduced { (lines : List (List ℕ)) (t : ℕ) →
        IsReducedTo table.now lines t (length (events_of table.now t)) [] labels.new.times }
{
    table.soundness();
    labels.clear();
    [Tried::NO_TRIP; TRIED]
}

/// Reduces the transfers of one event of a trip that is reduced down to the event behind: of its
/// candidates that are no U-turns exactly the kept ones stay, in their order. The calls are those
/// of the timetable. Takes no memory.
pub fn reduce_event<C: Calls>(
    table: &Timetable,
    calls: &C,
    labels: &mut Labels,
    tried: &mut [Tried; TRIED],
    trip: TripNo,
    at: usize,
    rows: &mut Vec<Transfer>,
)
    requires table { C.table calls.now ≡ table.now }
    requires labels { labels.old.table ≡ table.now }
    requires tried { AreTried table.now labels.old.times tried.old }
    requires inside { at < length (events_of table.now trip) }
    ensures labels { labels.new.table ≡ table.now }
    ensures tried { AreTried table.now labels.new.times tried.new }
    ensures reduced { (lines : List (List ℕ)) (before : List Transfer) → rows.old.items
        ≡ map (transfer_by_hop trip at) (candidates_without_u_turns table.now lines trip at) →
        IsReducedTo table.now lines trip (at + 1) before labels.old.times →
        IsReducedTo table.now lines trip at (before ++ rows.new.items) labels.new.times }
{
    let none = Progress {
        at,
        taken: 0,
        kept: 0,
    };
    let done = take_event(table, calls, labels, tried, trip, rows.as_mut_slice(), none);
    rows.truncate(done.kept);
}

/// Reduces the transfers of a trip: of its candidates that are no U-turns, from the last event
/// down, exactly the kept ones stay, in their order. The labels are for the stops of this
/// timetable, and may have served any trip before. Takes no memory.
pub fn reduce(table: &Timetable, labels: &mut Labels, trip: TripNo, rows: &mut Vec<Transfer>)
    requires labels { labels.old.table ≡ table.now }
    requires trip { trip < length table.now.trips }
    ensures labels { labels.new.table ≡ table.now }
    ensures kept { (lines : List (List ℕ)) → rows.old.items
        ≡ transfers_of table.now (candidates_without_u_turns table.now lines trip) trip →
        rows.new.items ≡ transfers_of table.now (kept_hops table.now lines trip) trip }
{
    let mut tried = begin_trip(table, labels);
    let mut done = Progress {
        at: table.count(trip),
        taken: 0,
        kept: 0,
    };
    while done.at > 0 {
        done.at -= 1;
        done = take_event(
            table,
            table,
            labels,
            &mut tried,
            trip,
            rows.as_mut_slice(),
            done,
        );
    }
    rows.truncate(done.kept);
}
