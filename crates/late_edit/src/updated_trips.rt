//! The trips of a timetable, while updates change their events.
ghost use Rattle.std.specs.Prelude.{◌≡◌, All, Err, IfErr, IfOk, MatchResult, Ok, OnErr};
ghost use Rattle.late_edit.specs.Amended.{events_after, trip_named, trips_after};
ghost use Rattle.late_edit.specs.Finding.{IsTimedEvent};
ghost use Rattle.late_edit.specs.Updates.{IsOfUpdate};
ghost use Rattle.late_edit.specs.declared.update.Update.{Update};

use crate::closing::{close_all, close_skipped};
use crate::late::LateFault;
use crate::moves::move_events;
use crate::update::Update;
use std::alloc::Global;
use std::marker::Model;
use tb_base::{Event, Memory, Timetable, Trip};

/// The trips of a timetable, while updates change their events.
#[derive(Drop)]
pub(crate) struct UpdatedTrips {
    trips: Vec<Trip>,
}

impl Model for UpdatedTrips {
    ghost use Rattle.std.specs.Prelude.{List};
    ghost use Rattle.tb_base.specs.TimetableData.{TripData};
    ghost use Rattle.late_edit.specs.Finding.{AreTimed};

    ghost Value = { List TripData };

    ghost view = { λ m. m.trips.items };

    ghost invariant = { λ m. AreTimed m.trips.items };
}

// Changes the events of a trip as an update says, or tells its first fault.
fn update_events(events: &mut [Event], update: &Update) -> Result<(), LateFault>
    requires { All IsTimedEvent events.old }
    ensures updated { MatchResult result (λ _. events_after update.now events.old ≡ Ok events.new)
        (λ f. events_after update.now events.old ≡ Err f) }
    ensures own { IfErr result IsOfUpdate }
    ensures unchanged { OnErr result (events.new ≡ events.old) }
{
    match update {
        Update::Late(late) => move_events(events, late),
        Update::Cancel(_) => {
            close_all(events);
            Ok(())
        }
        Update::Skip(skip) => close_skipped(events, skip),
    }
}

impl UpdatedTrips {
    /// The trips of a timetable.
    pub(crate) fn of(alloc: Global, table: &Timetable) -> Result<UpdatedTrips, Memory>
        ensures { IfOk result (λ trips. trips ≡ table.now.trips) }
    {
        table.soundness();
        let trips = table.copy_trips(alloc)?;
        Ok(UpdatedTrips { trips })
    }

    /// Changes the trip that an update names, which is told, or tells its first fault. All updates
    /// name the same trips as before.
    pub(crate) fn apply(&mut self, update: &Update, named: Option<u32>) -> Result<(), LateFault>
        requires { named ≡ trip_named self.old update.now }
        ensures updated { MatchResult result (λ _. trips_after update.now self.old ≡ Ok self.new)
            (λ f. trips_after update.now self.old ≡ Err f) }
        ensures own { IfErr result IsOfUpdate }
        ensures named { (u : Update) → trip_named self.new u ≡ trip_named self.old u }
    {
        let Some(trip) = named else {
            return Err(LateFault::UnknownTrip(update.line()));
        };
        let updated = &mut self.trips[trip as usize];
        update_events(updated.events.as_mut_slice(), update)
    }

    /// The trips.
    pub(crate) fn into_trips(self) -> Vec<Trip>
        ensures { result.items ≡ self }
    {
        let UpdatedTrips { trips } = self;
        trips
    }
}
