ghost use Rattle.std.specs.Prelude.{◌≡◌};
ghost use Rattle.footpaths.specs.declared.paths.PathsFault.TheVariants as why;

use std::marker::Model;
use tb_base::{Horizon, Memory, Path, StopNo, secs_between};

/// How the timetable of a day is made of a feed. Seconds.
#[derive(Debug, Clone, Copy, PartialEq, Eq)]
pub struct Options {
    /// The default change time.
    pub change: u32,
    /// The footpath between platforms of one station, where no row of transfers.txt speaks of it.
    pub station: Option<u32>,
    /// Footpaths are closed over chains, in place of being tested.
    pub close: bool,
    /// From how many service days the timetable has all trips.
    pub horizon: Horizon,
    /// Bad rows are left out, in place of being refused.
    pub lenient: bool,
}

/// The change time of each stop, and the footpaths that leave it.
#[derive(Debug, Drop)]
pub struct Paths {
    pub change: Vec<Option<u32>>,
    pub paths: Vec<Vec<Path>>,
}

impl Model for Paths {
    ghost use Rattle.std.specs.Prelude.{map};
    ghost use Rattle.tb_base.specs.TimetableData.{FootpathData};

    ghost Value = { FootpathData };

    ghost view = { λ t. record {
      change = t.change.items;
      paths = map (λ row. row.items) t.paths.items;
    } };
}

impl Paths {
    ghost use Rattle.std.specs.Prelude.{◌<◌, [], length, slice_index_or};
    ghost use Rattle.tb_base.specs.Soundness.{IsSoundFootpaths};
    ghost use Rattle.tb_base.specs.Walking.{change_time, change_between};

    /// The change time of a stop, where it has one.
    pub fn change_time(&self, p: StopNo) -> Option<u32>
        requires { p < length self.now.change }
        ensures { result ≡ change_time self.now p }
    {
        self.change[p.index()]
    }

    /// The footpaths that leave a stop, by the stop that they lead to.
    pub fn leaving(&self, p: StopNo) -> &[Path]
        requires { p < length self.now.paths }
        ensures { result.now ≡ slice_index_or self.now.paths p [] }
    {
        self.paths[p.index()].as_slice()
    }

    /// The seconds that it takes to change from one stop to another, where there is a change.
    pub fn change_between(&self, p: StopNo, q: StopNo) -> Option<u32>
        requires sound { IsSoundFootpaths self.now }
        requires from { p < length self.now.paths }
        ensures { result ≡ change_between self.now p q }
    {
        secs_between(self.change_time(p), self.leaving(p), p, q)
    }
}

/// Why there are no footpaths. Rows and columns are those of transfers.txt.
#[derive(Debug, Clone, Copy, PartialEq, Eq)]
pub enum PathsFault {
    DuplicateTransfer(u32),
    UnknownStop { row: u32, column: u8 },
    TooMany,
    Memory,
}

impl From<Memory> for PathsFault {
    ghost from_gives = { λ _ fault. fault ≡ why.Memory };

    fn from(_refusal: Memory) -> PathsFault {
        PathsFault::Memory
    }
}
