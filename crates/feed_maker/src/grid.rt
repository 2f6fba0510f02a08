//! The stops of the city.
ghost use Rattle.std.specs.Prelude.{◌≡◌, ◌<◌, ◌≤◌, ◌*◌, [], Some, IfOk, map, replicate};
ghost use Rattle.tb_base.specs.Transfers.{numbers_below};
ghost use Rattle.feed_maker.specs.City.{city_stop};

use std::alloc::Global;
use tb_base::{Memory, Name, Path, Stop};

// The stop with a number.
fn stop(alloc: Global, side: u32, number: u32) -> Result<Stop, Memory>
    requires { 0 < side }
    ensures { IfOk result (λ stop. stop ≡ city_stop side number) }
{
    let column = number % side;
    let row = number / side;
    let name = format!(in alloc; "S{column}-{row}")?;
    Ok(Stop {
        name: Name::new(alloc, name.as_bytes())?,
    })
}

/// The stops of a grid, row by row.
#[tactic(auto, using(crate::proofs::Growing::map_more))]
pub(crate) fn stops(alloc: Global, side: u32) -> Result<Vec<Stop>, Memory>
    requires some { 0 < side }
    requires few { side ≤ 40 }
    ensures { IfOk result (λ v. v.items ≡ map (city_stop side) (numbers_below (side * side))) }
{
    let mut stops = Vec::new(alloc);
    for number in 0..side * side {
        stops.push(stop(alloc, side, number)?)?;
    }
    Ok(stops)
}

/// The change times of so many stops: one minute each.
pub(crate) fn change_times(alloc: Global, stops: usize) -> Result<Vec<Option<u32>>, Memory>
    ensures { IfOk result (λ v. v.items ≡ replicate stops (Some 60)) }
{
    Ok(vec![in alloc; Some(60); stops]?)
}

/// The footpaths of so many stops: none.
pub(crate) fn no_footpaths(alloc: Global, stops: usize) -> Result<Vec<Vec<Path>>, Memory>
    ensures { IfOk result (λ v. map (λ row. row.items) v.items ≡ replicate stops []) }
{
    let mut rows = Vec::new(alloc);
    for _stop in 0..stops {
        rows.push(Vec::new(alloc))?;
    }
    Ok(rows)
}
