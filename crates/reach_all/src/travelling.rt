//! Travel times to every stop over several departures.
ghost use Rattle.std.specs.Prelude.{◌≡◌, ◌<◌, ◌≤◌, All, IfOk, length, pos, ◌≤ℤ◌};
ghost use Rattle.tb_base.specs.Sufficiency.{AreSufficient};
ghost use Rattle.segment_queue.specs.Queue.{Fits};
ghost use Rattle.reach_all.specs.TravelTimes.{AreFiguresOver};

use super::departures::{Departures, departure_times};
use super::figures::{Figures, all_figures};
use super::sweeping::swept_times;
use segment_queue::{Desk, Look, Scan, Steps};
use std::alloc::Global;
use std::sync::ledger::Ledger;
use tb_base::{Memory, StopNo};

/// What the travel times to every stop are over several departures.
#[derive(Drop)]
pub struct TravelTimes {
    /// How many departures there are.
    pub departures: u32,
    /// For each stop, by its number.
    pub figures: Vec<Figures>,
}

/// For each stop, by its number, at how many of the departures it is reached from the origins, and
/// percentiles of the travel time, which is the least arrival of a journey with at most so many
/// rides, or with any number of them, minus the departure. Any sufficient set of hops gives the
/// same. One sweep from the last departure to the first serves all: what a later one reaches by
/// rides an earlier one reaches too. Each look is a step on the counter, but no clause bounds how
/// many there are.
/// Refused only for want of memory, as which more segments count than 32 bits can number; the desk
/// fits the scan afterwards, also then.
pub fn travel_times<L: Ledger, S: Look<L>>(
    alloc: Global,
    scan: &S,
    from: &[StopNo],
    departures: &Departures,
    rides: Option<u32>,
    desk: &mut Desk,
    steps: &mut Steps<L>,
) -> Result<TravelTimes, Memory>
    requires fits { Fits (S.net scan.now).table desk.old }
    requires origins { All (λ p. p < length (S.net scan.now).table.stops) from.now }
    requires first { pos 0 ≤ℤ departures.now.first }
    requires some { departures.now.first ≤ℤ departures.now.last }
    requires last { departures.now.last ≤ℤ pos 359999 }
    requires step { 1 ≤ departures.now.step }
    requires most_step { departures.now.step ≤ 3600 }
    requires sufficient { AreSufficient (S.net scan.now).table (S.net scan.now).hops }
    ensures figures { IfOk result (λ travel. AreFiguresOver (S.net scan.now).table from.now rides
        departures.now travel.departures travel.figures.items) }
    ensures each_stop { IfOk result
        (λ travel. length travel.figures.items ≡ length (S.net scan.now).table.stops) }
    ensures fits { Fits (S.net scan.now).table desk.new }
{
    scan.soundness();
    let times = departure_times(alloc, departures)?;
    let lists = swept_times(alloc, scan, from, times.as_slice(), rides, desk, steps)?;
    let figures = all_figures(alloc, lists.as_slice(), scan.shape().stops)?;
    Ok(TravelTimes {
        departures: times.len() as u32,
        figures,
    })
}
