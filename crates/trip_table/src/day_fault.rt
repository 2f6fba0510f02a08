//! Why there is no timetable.
use gtfs_rows::{FeedFault, RowsFault};
use tb_base::Memory;

/// Why there is no timetable: something is wrong with the feed, the folder failed, or memory was
/// wanting.
#[derive(Debug, Drop)]
pub enum DayFault {
    Feed(FeedFault),
    ReadFault,
    Memory,
}

impl From<Memory> for DayFault {
    ghost use Rattle.std.specs.Prelude.{◌≡◌};
    ghost use Rattle.trip_table.specs.declared.day_fault.DayFault.TheVariants as why;

    ghost from_gives = { λ _ fault. fault ≡ why.Memory };

    fn from(_refusal: Memory) -> DayFault {
        DayFault::Memory
    }
}

impl From<RowsFault> for DayFault {
    ghost use Rattle.std.specs.Prelude.{◌≡◌};
    ghost use Rattle.trip_table.specs.OfRows.{day_fault};

    ghost from_gives = { λ wrong fault. fault ≡ day_fault wrong };

    fn from(wrong: RowsFault) -> DayFault {
        match wrong {
            RowsFault::Feed(fault) => DayFault::Feed(fault),
            RowsFault::Memory => DayFault::Memory,
        }
    }
}
