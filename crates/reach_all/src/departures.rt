//! The departures for which travel times are asked.
ghost use Rattle.std.specs.Prelude.{◌<◌, ◌≤◌, All, AllPairs, IfOk, length, pos, ◌≤ℤ◌};
ghost use Rattle.reach_all.specs.TravelTimes.{AreDepartures};

use std::alloc::Global;
use tb_base::{Memory, Sec};

/// Departures: the first, and one every so many seconds from it on, up to the last.
#[derive(Copy, Clone)]
pub struct Departures {
    /// In seconds since noon minus twelve hours, as `last`.
    pub first: Sec,
    pub last: Sec,
    /// Seconds from each to the next.
    pub step: u32,
}

// The times of departures, in order.
pub(crate) fn departure_times(alloc: Global, departures: &Departures) -> Result<Vec<Sec>, Memory>
    requires first { pos 0 ≤ℤ departures.now.first }
    requires last { departures.now.last ≤ℤ pos 359999 }
    requires step { 1 ≤ departures.now.step }
    requires most_step { departures.now.step ≤ 3600 }
    ensures times { IfOk result (λ times. AreDepartures departures.now times.items) }
    ensures few { IfOk result (λ times. length times.items ≤ 360000) }
    ensures some { departures.now.first ≤ℤ departures.now.last →
        IfOk result (λ times. 0 < length times.items) }
    ensures order { IfOk result (λ times. AllPairs (λ m n. m ≤ℤ n) times.items) }
    ensures not_before { IfOk result (λ times. All (λ t. pos 0 ≤ℤ t) times.items) }
    ensures latest { IfOk result (λ times. All (λ t. t ≤ℤ pos 359999) times.items) }
{
    let mut times = Vec::new(alloc);
    let mut time = departures.first;
    while time <= departures.last {
        times.push(time)?;
        time += departures.step as i32;
    }
    Ok(times)
}
