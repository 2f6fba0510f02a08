ghost use Rattle.std.specs.Prelude.{◌≡◌};
ghost use Rattle.late_edit.specs.Updates.{day_of, line_of, trip_of};

use crate::late::{Cancel, Late, Skip};
use tb_base::{Name, ServiceDay};

/// What a line of a late file says of a trip, as the trip updates of GTFS Realtime do of scheduled
/// trips.
#[derive(Drop)]
pub enum Update {
    /// It runs late, or early, from one of its events on.
    Late(Late),
    /// It is cancelled.
    Cancel(Cancel),
    /// It skips a stop.
    Skip(Skip),
}

impl Update {
    /// The line that says it, counted from 1.
    pub fn line(&self) -> u32
        ensures { result ≡ line_of self.now }
    {
        match self {
            Update::Late(late) => late.line,
            Update::Cancel(cancel) => cancel.line,
            Update::Skip(skip) => skip.line,
        }
    }

    /// The trip's name.
    pub fn trip(&self) -> &Name
        ensures { result.now ≡ trip_of self.now }
    {
        match self {
            Update::Late(late) => &late.trip,
            Update::Cancel(cancel) => &cancel.trip,
            Update::Skip(skip) => &skip.trip,
        }
    }

    /// The trip's service day.
    pub fn day(&self) -> ServiceDay
        ensures { result ≡ day_of self.now }
    {
        match self {
            Update::Late(late) => late.day,
            Update::Cancel(cancel) => cancel.day,
            Update::Skip(skip) => skip.day,
        }
    }
}
