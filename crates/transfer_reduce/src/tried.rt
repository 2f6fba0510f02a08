//! Trips that were hopped onto already: what they bring need not be offered again.
ghost use Rattle.std.specs.Prelude.{◌≤◌, ℤ, List, Option, length};
ghost use Rattle.tb_base.specs.TimetableData.{events_of};
ghost use Rattle.transfer_reduce.specs.Reached.{AreReached};
ghost use Rattle.transfer_reduce.specs.Tried.{IsTried};

use tb_base::{Transfer, TripNo};
use transfer_pack::Calls;

/// How many tried trips are remembered, each in the place of the one before with the same
/// remainder.
pub const TRIED: usize = 1024;

/// A trip and an index of it. All that alighting behind the index brings has been offered.
#[derive(Clone, Copy, Debug, PartialEq, Eq)]
pub struct Tried {
    pub(crate) trip: TripNo,
    pub(crate) at: u32,
}

impl Tried {
    /// What stands for no trip: there is none with this number.
    pub(crate) const NO_TRIP: Tried = Tried {
        trip: TripNo(u32::MAX),
        at: 0,
    };
}

/// Where the events behind a hop end that were not offered when the trip was tried.
#[inline(always)]
pub(crate) fn untried_end<C: Calls>(calls: &C, tried: &Tried, row: &Transfer) -> usize
    ensures rest { (times : List (Option ℤ)) → IsTried (C.table calls.now) times tried.now →
        AreReached (C.table calls.now) times row.now.to_trip result
        (length (events_of (C.table calls.now) row.now.to_trip)) }
    ensures inside { result ≤ length (events_of (C.table calls.now) row.now.to_trip) }
{
    let count = calls.count(row.to_trip);
    if tried.trip.index() == row.to_trip.index() && (tried.at as usize) < count {
        return tried.at as usize + 1;
    }
    count
}
