//! Hops for each event of a timetable.
ghost use Rattle.std.specs.Prelude.{◌≡◌, ◌<◌, length};
ghost use Rattle.tb_base.specs.TimetableData.{events_of};

use super::numbers::TripNo;
use super::transfer::Hop;

/// A set of transfers: a list of hops for each event of a timetable. A user asks that the timetable
/// is its own.
pub trait OutSet {
    ghost use Rattle.std.specs.Prelude.{ℕ, List};
    ghost use Rattle.tb_base.specs.TimetableData.{TimetableData};
    ghost use Rattle.tb_base.specs.declared.transfer.Hop.{Hop};

    /// The timetable whose events have hops.
    ghost table: { Self → TimetableData };

    /// The hops from an event, by its trip and its index.
    ghost hops: { Self → ℕ → ℕ → List Hop };

    /// The hops from event `at` of a trip. No memory is taken.
    fn out(&self, trip: TripNo, at: u32) -> &[Hop]
        requires trip { trip < length (table self.now).trips }
        requires at { at < length (events_of (table self.now) trip) }
        ensures { result.now ≡ hops self.now trip at };
}
