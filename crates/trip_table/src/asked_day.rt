//! The timetable of a day as its options ask for it, and all that is wrong with a feed.
ghost use Rattle.std.specs.Prelude.{◌≡◌, ◌<◌, ◌-◌, ◌^◌, [], Err, IfOk, IsSome};
ghost use Rattle.gtfs_rows.specs.declared.fault.FeedFault.{FeedFault};
ghost use Rattle.footpaths.specs.Limits.{AreWithinADay};
ghost use Rattle.trip_table.specs.Answers.{Gives, Leaves, feed_of};
ghost use Rattle.trip_table.specs.AskedDay.{AreFaultsOf, IsAskedDay, IsAskedOf};

use crate::day::read_day;
use crate::left_day::read_lenient_day;
use crate::{DayFault, Options};
use gtfs_rows::FeedFault;
use service_day::Day;
use std::alloc::Global;
use tb_base::Timetable;
use tb_io::Folder;

/// The timetable of a day as the options ask for it, with the faults of what is left out: as
/// `read_lenient_day` gives it, or as `read_day` does, and then nothing is left out.
///
/// `ReadFault` comes only where the folder's count of faults rose.
pub fn read_asked_day<F: Folder>(
    alloc: Global,
    folder: &mut F,
    dir: &str,
    day: &Day,
    options: &Options,
    told: &mut Vec<FeedFault>,
) -> Result<Timetable, DayFault>
    requires options { AreWithinADay options.now }
    requires count { F.faults folder.old < 2 ^ 64 - 1 }
    requires none { told.old.items ≡ [] }
    ensures told { IsSome (F.files folder.old) →
        Gives
        (IsAskedOf (feed_of (F.files folder.old) dir.now) day.now options.now told.new.items)
        result }
    ensures day { IsSome (F.files folder.old) →
        Gives (IsAskedDay (feed_of (F.files folder.old) dir.now) day.now options.now) result }
    ensures leaves { Leaves (F.files folder.old) (F.files folder.new) (F.faults folder.old)
        (F.faults folder.new) result }
{
    if options.lenient {
        return read_lenient_day(alloc, folder, dir, day, options, told);
    }
    read_day(alloc, folder, dir, day, options)
}

/// All that is wrong with a feed on a day, in the order in which it is told; the last one may be a
/// fault that no row bears, which ends it.
///
/// `ReadFault` comes only where the folder's count of faults rose, and no other fault than that and
/// `Memory` comes.
pub fn check_feed<F: Folder>(
    alloc: Global,
    folder: &mut F,
    dir: &str,
    day: &Day,
    options: &Options,
) -> Result<Vec<FeedFault>, DayFault>
    requires options { AreWithinADay options.now }
    requires count { F.faults folder.old < 2 ^ 64 - 1 }
    ensures faults { IfOk result (λ faults. IsSome (F.files folder.old) →
        AreFaultsOf (feed_of (F.files folder.old) dir.now) day.now options.now faults.items) }
    ensures ended { (fault : FeedFault) → result ≡ Err (DayFault.Feed fault) → ⊥ }
    ensures leaves { Leaves (F.files folder.old) (F.files folder.new) (F.faults folder.old)
        (F.faults folder.new) result }
{
    let mut faults = Vec::new(alloc);
    match read_lenient_day(alloc, folder, dir, day, options, &mut faults) {
        Ok(table) => {
            drop(table);
            Ok(faults)
        }
        Err(DayFault::Feed(fault)) => {
            let Ok(()) = faults.push(fault) else {
                return Err(DayFault::Memory);
            };
            Ok(faults)
        }
        Err(fault) => Err(fault),
    }
}
