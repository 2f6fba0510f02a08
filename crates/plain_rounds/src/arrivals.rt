//! Arrivals: the least time at which one alights at each stop, with the rides that lead there.
ghost use Rattle.std.specs.Prelude.{◌≡◌, ◌<◌, ◌≤◌, ◌+◌, length, OnOk};
ghost use Rattle.tb_base.specs.TimetableData.{events_of, MayAlight};
ghost use Rattle.plain_rounds.specs.Rounds.{TakesRides, IsAlong};

use super::labels::{StopLabel, is_sooner};
use tb_base::{Memory, Timetable, TripNo};

/// A ride, and the place of the ride before it in the list of rides: none where one walks from an
/// origin.
#[derive(Clone, Copy)]
pub(crate) struct PlainRide {
    pub trip: TripNo,
    pub board: u32,
    pub alight: u32,
    pub before: Option<usize>,
}

/// Where a trip is boarded, and the place of the ride before it.
#[derive(Clone, Copy)]
pub(crate) struct FirstBoarding {
    pub at: u32,
    pub before: Option<usize>,
}

/// By stop, the least arrival by alighting there, and the list of the rides that the labels name.
#[derive(Drop)]
pub(crate) struct StopArrivals {
    pub labels: Vec<Option<StopLabel>>,
    pub ridden: Vec<PlainRide>,
}

impl StopArrivals {
    // Alights, where that is allowed and sooner than before.
    fn alight(&mut self, table: &Timetable, step: PlainRide) -> Result<(), Memory>
        requires trip { step.trip < length table.now.trips }
        requires at { step.alight < length (events_of table.now step.trip) }
        requires rows { length self.old.labels.items ≡ length table.now.stops }
        ensures takes { OnOk result (TakesRides table.now self.old self.new (λ s. (s ≡ step)
            × MayAlight table.now step.trip step.alight)) }
        ensures few { OnOk result (length self.new.ridden.items
            ≤ length self.old.ridden.items + 1) }
    {
        let events = table.trip(step.trip).events.as_slice();
        let event = events[step.alight as usize];
        if !event.alight {
            return Ok(());
        }
        if !is_sooner(self.labels.as_slice(), event.stop, event.arr) {
            return Ok(());
        }
        let place = self.ridden.len();
        self.ridden.push(step)?;
        self.labels[event.stop.index()] = Some(StopLabel {
            time: event.arr,
            ride: Some(place),
        });
        Ok(())
    }

    /// Alights from a trip at each event behind the boarding, up to an index.
    pub(crate) fn alight_along(
        &mut self,
        table: &Timetable,
        trip: TripNo,
        boarding: FirstBoarding,
        until: u32,
    ) -> Result<(), Memory>
        requires trip { trip < length table.now.trips }
        requires until { until < length (events_of table.now trip) }
        requires onward { boarding.at < until }
        requires rows { length self.old.labels.items ≡ length table.now.stops }
        requires events { length (events_of table.now trip) ≤ 10000000 }
        ensures takes { OnOk result (TakesRides table.now self.old self.new
            (IsAlong table.now trip boarding until)) }
        ensures few { OnOk result (length self.new.ridden.items + boarding.at
            ≤ length self.old.ridden.items + until) }
    {
        for alight in boarding.at + 1..until + 1 {
            let step = PlainRide {
                trip,
                board: boarding.at,
                alight,
                before: boarding.before,
            };
            self.alight(table, step)?;
        }
        Ok(())
    }
}
