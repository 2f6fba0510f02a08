ghost use Rattle.std.specs.Prelude.{◌≡◌};
ghost use Rattle.footpaths.specs.declared.found.StopsFault.TheVariants as why;

use tb_base::{Memory, StopNo};

/// What has an id in stops.txt: a platform or a station by its number, from 0 in file order among
/// those of its kind, or a row of another kind.
#[derive(Debug, Clone, Copy, PartialEq, Eq)]
pub enum Found {
    Platform(StopNo),
    Station(u32),
    Other,
}

/// A row of transfers.txt by the numbers of its ends: None where the way is forbidden.
#[derive(Debug, Clone, Copy, PartialEq, Eq)]
pub struct Link {
    pub from: Found,
    pub to: Found,
    pub secs: Option<u32>,
}

/// Why there is no table of stops. The number is the row in stops.txt.
#[derive(Debug, Clone, Copy, PartialEq, Eq)]
pub enum StopsFault {
    DuplicateId(u32),
    UnknownStop(u32),
    Memory,
}

impl From<Memory> for StopsFault {
    ghost from_gives = { λ _ fault. fault ≡ why.Memory };

    fn from(_refusal: Memory) -> StopsFault {
        StopsFault::Memory
    }
}
