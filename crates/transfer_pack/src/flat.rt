//! The calls of all trips, one behind the other.
ghost use Rattle.std.specs.Prelude.{◌≡◌, ◌<◌, ◌++◌, All, IfOk, OnOk, length, map};
ghost use Rattle.transfer_pack.specs.CallsOf.{call_of};
ghost use Rattle.transfer_pack.specs.PackedCalls.{calls_in};

use super::calls::{Call, Calls};
use super::numbers::number;
use super::packed_call::PackedCall;
use std::alloc::Global;
use std::marker::Model;
use std::snapshot::Snapshot;
use tb_base::{Event, Memory, Timetable, TripNo};

/// The calls of all events, trip after trip: those of trip t stand from the place that `bounds` has
/// at t up to the one that it has at t + 1. It remembers for contracts of which timetable it is;
/// that takes no room.
#[derive(Drop)]
pub struct FlatCalls {
    table: Snapshot<Timetable>,
    bounds: Vec<u32>,
    spots: Vec<PackedCall>,
}

impl Model for FlatCalls {
    ghost use Rattle.std.specs.Prelude.{length};
    ghost use Rattle.tb_base.specs.TimetableData.{TimetableData};
    ghost use Rattle.transfer_pack.specs.Flat.{AreFlat};
    ghost use Rattle.transfer_pack.specs.PackedCalls.{calls_in};

    ghost Value = { TimetableData };

    ghost view = { λ s. s.table.value };

    ghost invariant = { λ s. AreFlat s.table.value (length s.table.value.trips) s.bounds.items
        (calls_in s.spots.items) };
}

// Adds the calls of a trip.
fn add_trip(spots: &mut Vec<PackedCall>, events: &[Event]) -> Result<(), Memory>
    requires { All (λ e. e.stop < 100000) events.now }
    ensures { OnOk result (calls_in spots.new.items
        ≡ calls_in spots.old.items ++ map call_of events.now) }
{
    for event in events {
        spots.push(PackedCall::of(event))?;
    }
    Ok(())
}

impl FlatCalls {
    /// The calls of all events of a timetable. Takes eight bytes an event and four a trip. Refused
    /// only for want of memory.
    pub fn of(alloc: Global, table: &Timetable) -> Result<FlatCalls, Memory>
        ensures { IfOk result (λ calls. calls ≡ table.now) }
    {
        table.soundness();
        let mut bounds = Vec::new(alloc);
        let mut spots = Vec::new(alloc);
        bounds.push(0)?;
        for t in 0..table.trip_count() {
            add_trip(&mut spots, table.events(TripNo(t)))?;
            bounds.push(number(spots.len())?)?;
        }
        Ok(FlatCalls {
            table: Snapshot::of(table),
            bounds,
            spots,
        })
    }
}

impl Calls for FlatCalls {
    ghost table = { λ T. T };

    fn count(&self, trip: TripNo) -> usize {
        if trip.index() + 1 < self.bounds.len() {
            (self.bounds[trip.index() + 1] - self.bounds[trip.index()]) as usize
        } else {
            0
        }
    }

    fn call(&self, trip: TripNo, at: usize) -> Call {
        self.spots[self.bounds[trip.index()] as usize + at].call()
    }
}
