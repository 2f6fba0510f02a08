//! The plain set of transfers: for each event a list of hops.
ghost use Rattle.std.specs.Prelude.{◌≡◌, ◌<◌, ◌++◌, ◌∷◌, [], ℕ, List, All, IfOk, OnOk, length, map, replicate, set, slice_index_or};
ghost use Rattle.tb_base.specs.declared.transfer.Hop.{Hop};

use super::memory::Memory;
use super::numbers::TripNo;
use super::out_set::OutSet;
use super::timetable::Timetable;
use super::transfer::{Hop, Transfer};
use std::alloc::Global;
use std::marker::Model;
use std::snapshot::Snapshot;

// The hops from the events of one trip, a list for each event.
#[derive(Drop)]
struct TripHops {
    lists: Vec<Vec<Hop>>,
}

impl Model for TripHops {
    ghost Value = { List (List Hop) };

    ghost view = { λ h. map (λ v. v.items) h.lists.items };
}

impl TripHops {
    ghost use Rattle.tb_base.specs.OutSets.{hops_at};

    // The hops of a trip's transfers, where it has so many events.
    fn of(alloc: Global, row: &[Transfer], events: usize) -> Result<TripHops, Memory>
        requires { All (λ r. r.at < events) row.now }
        ensures long { IfOk result (λ h. length h ≡ events) }
        ensures hops { IfOk result (λ h. (i : ℕ) → slice_index_or h i [] ≡ hops_at row.now i) }
    {
        let mut hops = TripHops::new(alloc, events)?;
        for k in 0..row.len() {
            let transfer = row[k];
            hops.add(
                transfer.at,
                Hop {
                    trip: transfer.to_trip,
                    at: transfer.to_at,
                },
            )?;
        }
        Ok(hops)
    }

    // No hop from any of so many events.
    fn new(alloc: Global, events: usize) -> Result<TripHops, Memory>
        ensures { IfOk result (λ h. h ≡ replicate events []) }
    {
        let mut lists: Vec<Vec<Hop>> = Vec::new(alloc);
        for _event in 0..events {
            lists.push(Vec::new(alloc))?;
        }
        Ok(TripHops { lists })
    }

    // Adds a hop behind those of an event.
    fn add(&mut self, at: u32, hop: Hop) -> Result<(), Memory>
        requires { at < length self.old }
        ensures { OnOk result (self.new
            ≡ set self.old at (slice_index_or self.old at [] ++ hop ∷ [])) }
    {
        let list = &mut self.lists[at as usize];
        match list.push(hop) {
            Ok(()) => Ok(()),
            Err(_) => Err(Memory),
        }
    }

    // The hops from an event.
    fn at(&self, i: u32) -> &[Hop]
        requires { i < length self.now }
        ensures { result.now ≡ slice_index_or self.now i [] }
    {
        self.lists[i as usize].as_slice()
    }
}

/// A set of transfers as it was given, trip by trip: from each event the hops of its transfers, in
/// their order. It remembers for contracts of which timetable it is; that takes no room.
#[derive(Drop)]
pub struct Rows {
    table: Snapshot<Timetable>,
    trips: Vec<TripHops>,
}

impl Model for Rows {
    ghost use Rattle.tb_base.specs.OutSets.{FitsTable, ListedHops};

    ghost Value = { ListedHops };

    ghost view = { λ s. record { table = s.table.value; lists = s.trips.items } };

    ghost invariant = { λ s. FitsTable (record { table = s.table.value; lists = s.trips.items }) };
}

impl Rows {
    ghost use Rattle.tb_base.specs.OutSets.{AreRowsOf, hops_at, listed, row_of};

    /// The set of these transfers: one list for each trip, of transfers from its events, in any
    /// order. Takes time and memory by the numbers of events and transfers. Refused only for want
    /// of memory.
    pub fn new(alloc: Global, table: &Timetable, rows: Vec<Vec<Transfer>>) -> Result<Rows, Memory>
        requires { AreRowsOf table.now (map (λ row. row.items) rows.items) }
        ensures table { IfOk result (λ set. set.table ≡ table.now) }
        ensures hops { IfOk result
            (λ set. (t i : ℕ) →
            listed set t i ≡ hops_at (row_of (map (λ row. row.items) rows.items) t) i) }
    {
        let mut trips: Vec<TripHops> = Vec::new(alloc);
        for t in 0..table.trip_count() {
            let events = table.trip(TripNo(t)).events.len();
            let row = rows[t as usize].as_slice();
            trips.push(TripHops::of(alloc, row, events)?)?;
        }
        Ok(Rows {
            table: Snapshot::of(table),
            trips,
        })
    }
}

impl OutSet for Rows {
    ghost use Rattle.tb_base.specs.OutSets.{listed};

    ghost table = { λ s. s.table };

    ghost hops = { listed };

    fn out(&self, trip: TripNo, at: u32) -> &[Hop] {
        let hops = &self.trips[trip.index()];
        hops.at(at)
    }
}
