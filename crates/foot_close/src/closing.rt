//! Closing footpaths over chains.
ghost use Rattle.std.specs.Prelude.{IfOk, MatchResult};
ghost use Rattle.tb_base.specs.Soundness.{IsSoundFootpaths};
ghost use Rattle.foot_close.specs.Closure.{IsClosed};
ghost use Rattle.foot_close.specs.Closing.{ClosureHas, IsHeld, IsCloseRefused};

use crate::table::Table;
use crate::{CloseFault, Closed};
use footpaths::Paths;
use std::alloc::Global;

/// The closure of change times and footpaths: for each ordered pair of stops, equal stops among
/// them, the least sum of seconds over all nonempty chains of given changes, with the counts of
/// what it added and lowered. Refused exactly where it has more than 2,000,000 footpaths, or else a
/// change of more than 86,400 seconds, with the first such pair in order of the two numbers. The
/// given ones are dropped at a refusal.
pub fn close(alloc: Global, paths: Paths) -> Result<Closed, CloseFault>
    requires { IsSoundFootpaths paths }
    ensures told { MatchResult result
        (λ c. ClosureHas paths (IsHeld paths c)) (IsCloseRefused paths) }
    ensures closed { IfOk result (λ c. IsClosed paths c.paths) }
    ensures sound { IfOk result (λ c. IsSoundFootpaths c.paths) }
{
    let table = Table::new(alloc, paths)?;
    table.soundness();
    if let Some((from, to)) = table.first_far() {
        return Err(CloseFault::Far(from, to));
    }
    let added = table.added();
    let lowered = table.lowered();
    let paths = table.closed_paths(alloc)?;
    Ok(Closed {
        paths,
        added,
        lowered,
    })
}
