//! The stops of two named places.
ghost use Rattle.std.specs.Prelude.{◌<◌, IfOk, length};
ghost use Rattle.query_gate.specs.Replies.{AreWithin, IsBetween};

use std::alloc::Global;
use tb_base::{Memory, StopNo, Timetable};

/// The stops of two places, or the name that is no place.
#[derive(Drop)]
pub enum Between<'n> {
    /// The stops of the origin and those of the target.
    Stops(Vec<StopNo>, Vec<StopNo>),
    /// The first of the names that no stop and no station has.
    Unknown(&'n [u8]),
}

/// The stops of two named places of a timetable, each a stop or a station, which stands for its
/// stops; or the first name that is no place, the origin's before the target's. Refused only for
/// want of memory.
pub fn stops_between<'n>(
    alloc: Global,
    table: &Timetable,
    from: &'n [u8],
    to: &'n [u8],
) -> Result<Between<'n>, Memory>
    ensures between { IfOk result (IsBetween table.now from.now to.now) }
    ensures within { IfOk result (AreWithin (length table.now.stops)) }
{
    let Some(origin) = table.place(from) else {
        return Ok(Between::Unknown(from));
    };
    let Some(target) = table.place(to) else {
        return Ok(Between::Unknown(to));
    };
    let origins = table.place_stops(alloc, origin)?;
    let targets = table.place_stops(alloc, target)?;
    Ok(Between::Stops(origins, targets))
}
