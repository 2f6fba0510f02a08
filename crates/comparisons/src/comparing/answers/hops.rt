//! The packed set of an edition's hops, and the plain one.
ghost use Rattle.std.specs.Prelude.{◌≡◌, ◌<◌, IfOk, length};

use crate::comparing::refused::{Difference, Refused, held};
use crate::comparing::same_hops::are_same;
use edition_store::Edition;
use reduce_workers::reduce_all;
use std::alloc::Global;
use std::thread::Threads;
use tb_base::{IdleGate, Memory, OutSet, Rows, Timetable, TripNo};
use transfer_pack::{Hops, Set};

// Whether both sets have the same hops, in the same order, from each event of a trip.
fn same_from(plain: &Rows, packed: &Set, table: &Timetable, trip: TripNo) -> bool
    requires plain { plain.now.table ≡ table.now }
    requires packed { packed.now.table ≡ table.now }
    requires trip { trip < length table.now.trips }
{
    table.soundness();
    for at in 0..table.trip(trip).events.len() {
        let at = at as u32;
        if !are_same(Hops::of(plain.out(trip, at)), packed.out(trip, at)) {
            return false;
        }
    }
    true
}

// Whether a plain set has the same hops as the packed set of an edition.
fn same_hops(plain: &Rows, edition: &Edition) -> bool
    requires { plain.now.table ≡ edition.now.table }
{
    let table = edition.table();
    for t in 0..table.trip_count() {
        if !same_from(plain, edition.set(), table, TripNo(t)) {
            return false;
        }
    }
    true
}

// The plain set of an edition's kept transfers.
fn plain_set<R: Threads + Sync>(rt: &R, alloc: Global, edition: &Edition) -> Result<Rows, Memory>
    ensures { IfOk result (λ rows. rows.table ≡ edition.now.table) }
{
    let table = edition.table();
    let reduced = reduce_all(rt, alloc, table, edition.lines(), 1, &IdleGate)?;
    Rows::new(alloc, table, reduced.rows)
}

/// Holds the hops of an edition's packed set against those of the plain one, from each event.
pub fn compare_hops<R: Threads + Sync>(
    rt: &R,
    alloc: Global,
    edition: &Edition,
) -> Result<(), Refused> {
    let plain = plain_set(rt, alloc, edition)?;
    let same = same_hops(&plain, edition);
    drop(plain);
    held(same, Difference::Hops)
}
