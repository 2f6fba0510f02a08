ghost use Rattle.std.specs.Prelude.{◌≡◌};
ghost use Rattle.foot_close.specs.declared.closed.CloseFault.TheVariants as why;

use footpaths::Paths;
use tb_base::{Memory, StopNo};

/// Change times and footpaths after closing, and how many ordered pairs of stops, equal stops among
/// them, got a change and had none (`added`) or got a faster one (`lowered`).
#[derive(Debug, Drop)]
pub struct Closed {
    pub paths: Paths,
    pub added: u64,
    pub lowered: u64,
}

/// Why footpaths can't be closed: there would be more than 2,000,000 of them, or a change of more
/// than 86,400 seconds from the first stop to the second.
#[derive(Debug, Clone, Copy, PartialEq, Eq)]
pub enum CloseFault {
    TooMany,
    Far(StopNo, StopNo),
    Memory,
}

impl From<Memory> for CloseFault {
    ghost from_gives = { λ _ fault. fault ≡ why.Memory };

    fn from(_refusal: Memory) -> CloseFault {
        CloseFault::Memory
    }
}
