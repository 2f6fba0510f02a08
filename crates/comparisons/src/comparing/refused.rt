//! Why a comparison ends early, and over which feed.
use crate::reading::Unread;
use std::alloc::AllocError;
use tb_base::Memory;

/// What differs.
#[derive(Clone, Copy, Debug)]
pub enum Difference {
    /// The hops of an event.
    Hops,
    /// The best values of a query, or the legs of a choice break a rule.
    Values,
    /// The verdict on a claim.
    Claims,
    /// The slots of a window.
    Slots,
    /// The latest departures by a time, or the legs of one don't arrive by then.
    Departures,
    /// The best values to a stop.
    Reach,
    /// The travel times to a stop.
    Times,
    /// The best values or slots over trips that are written out.
    WrittenOut,
    /// The first fault of a list of lates, or that it has one.
    Fault,
    /// The trips of an amended edition and their times.
    Trips,
    /// Its lines.
    Lines,
    /// The number of its kept transfers, or those of an event.
    Transfers,
    /// The number of touched trips.
    Touched,
}

/// Why a comparison ends early: something differs, a feed has no timetable, or memory was wanting.
#[derive(Clone, Copy, Debug)]
pub enum Refused {
    Differs(Difference),
    NoTimetable,
    Memory,
}

impl From<Memory> for Refused {
    fn from(_memory: Memory) -> Refused {
        Refused::Memory
    }
}

impl From<AllocError> for Refused {
    fn from(_refused: AllocError) -> Refused {
        Refused::Memory
    }
}

/// Why a feed without a timetable ends a comparison.
impl From<Unread> for Refused {
    fn from(unread: Unread) -> Refused {
        match unread {
            Unread::Memory => Refused::Memory,
            Unread::NoTimetable => Refused::NoTimetable,
        }
    }
}

/// Nothing, where a comparison finds no difference.
pub fn held(same: bool, difference: Difference) -> Result<(), Refused> {
    if same {
        Ok(())
    } else {
        Err(Refused::Differs(difference))
    }
}

/// A feed that is made by hand.
#[derive(Clone, Copy, Debug)]
pub enum MadeFeed {
    Town,
    Ring,
}

/// A feed: one that is made by hand, one of the machine's folder, the one of a seed, the twins of a
/// seed, or the one of a seed whose trips are late.
#[derive(Clone, Copy, Debug)]
pub enum FeedName {
    Made(MadeFeed),
    OfDay,
    Seed(u32),
    Twins(u32),
    Late(u32),
}

/// How a comparison ended early, and over which feed.
#[derive(Clone, Copy, Debug)]
pub struct Ended {
    pub feed: FeedName,
    pub refused: Refused,
}
