//! How often a stop is reached, and percentiles of its travel times.
ghost use Rattle.std.specs.Prelude.{◌≡◌, ◌-◌, ◌<◌, ◌≤◌, ◌/◌, ◌+◌, ℕ, All, AllPairs, IfOk, None, OnOk, length, map, slice_get, slice_index_or, ◌≤ℤ◌};
ghost use Rattle.std.specs.List.Sorted.{IsPermutation};
ghost use Rattle.reach_all.specs.TravelTimes.{AreFigures};
ghost use Rattle.reach_all.specs.Ranks.{figures_in_order, reached_times};
ghost use Rattle.reach_all.specs.TimesText.{figure_times};

use std::alloc::Global;
use tb_base::{Memory, Sec};

/// What the travel times of a stop are over several departures, in seconds. Percentiles are by
/// nearest rank over all departures, and one that doesn't reach the stop counts as the greatest.
#[derive(Copy, Clone)]
pub struct Figures {
    /// How many departures reach the stop.
    pub reached: u32,
    pub least: Option<Sec>,
    pub percentile_5: Option<Sec>,
    pub percentile_25: Option<Sec>,
    pub percentile_50: Option<Sec>,
    pub percentile_75: Option<Sec>,
    pub percentile_95: Option<Sec>,
    pub greatest: Option<Sec>,
}

impl Figures {
    /// Its times: the least, the 5th, 25th, 50th, 75th and 95th percentile, and the greatest.
    pub fn times(&self) -> [Option<Sec>; 7]
        ensures { result ≡ figure_times self.now }
    {
        [
            self.least,
            self.percentile_5,
            self.percentile_25,
            self.percentile_50,
            self.percentile_75,
            self.percentile_95,
            self.greatest,
        ]
    }
}

// The time of this rank, counted from 1, of times in order.
fn ranked(times: &[Sec], rank: usize) -> Option<Sec>
    requires { 1 ≤ rank }
    ensures { result ≡ slice_get times.now (rank - 1) }
{
    times.get(rank - 1).copied()
}

// The least rank that is no less than so many hundredths.
fn nearest_rank(hundredths: usize) -> usize
    requires { hundredths ≤ 36000000 }
    ensures { result ≡ (hundredths + 99) / 100 }
{
    (hundredths + 99) / 100
}

// The figures of so many departures: the times in order of those that reach the stop are given.
fn figures_in_order(times: &[Sec], count: usize) -> Figures
    requires some { 0 < count }
    requires few { count ≤ 360000 }
    requires of_all { length times.now ≤ count }
    ensures { result ≡ figures_in_order times.now count }
{
    Figures {
        reached: times.len() as u32,
        least: ranked(times, 1),
        percentile_5: ranked(times, nearest_rank(5 * count)),
        percentile_25: ranked(times, nearest_rank(25 * count)),
        percentile_50: ranked(times, nearest_rank(50 * count)),
        percentile_75: ranked(times, nearest_rank(75 * count)),
        percentile_95: ranked(times, nearest_rank(95 * count)),
        greatest: ranked(times, count),
    }
}

// Puts times in order.
fn put_in_order(times: &mut Vec<Sec>)
    ensures order { AllPairs (λ m n. m ≤ℤ n) times.new.items }
    ensures same { IsPermutation times.old.items times.new.items }
{
    times.sort_unstable();
}

// Gathers the travel times to a stop from lists by stops, of the departures that reach it.
fn gather(lists: &[Vec<Option<Sec>>], stop: usize, times: &mut Vec<Sec>) -> Result<(), Memory>
    requires { All (λ list. stop < length list.items) lists.now }
    ensures { OnOk result (times.new.items
        ≡ reached_times (map (λ list. slice_index_or list.items stop None) lists.now)) }
{
    times.clear();
    for list in lists {
        if let Some(time) = list[stop] {
            times.push(time)?;
        }
    }
    Ok(())
}

// The figures of a stop, from lists by stops, one a departure.
fn stop_figures(
    lists: &[Vec<Option<Sec>>],
    stop: usize,
    room: &mut Vec<Sec>,
) -> Result<Figures, Memory>
    requires some { 0 < length lists.now }
    requires few { length lists.now ≤ 360000 }
    requires stop { All (λ list. stop < length list.items) lists.now }
    ensures { IfOk result (λ figures.
        AreFigures (map (λ list. slice_index_or list.items stop None) lists.now) figures) }
{
    gather(lists, stop, room)?;
    put_in_order(room);
    Ok(figures_in_order(room.as_slice(), lists.len()))
}

// The figures of each stop, from lists by stops, one a departure.
pub(crate) fn all_figures(
    alloc: Global,
    lists: &[Vec<Option<Sec>>],
    stops: u32,
) -> Result<Vec<Figures>, Memory>
    requires some { 0 < length lists.now }
    requires few { length lists.now ≤ 360000 }
    requires each_stop { All (λ list. length list.items ≡ stops) lists.now }
    ensures each_stop { IfOk result (λ figures. length figures.items ≡ stops) }
    ensures figures { IfOk result (λ figures. (p : ℕ) (d : Figures) → p < stops →
        AreFigures (map (λ list. slice_index_or list.items p None) lists.now)
        (slice_index_or figures.items p d)) }
{
    let mut room = Vec::new(alloc);
    let mut figures = Vec::new(alloc);
    for stop in 0..stops {
        figures.push(stop_figures(lists, stop as usize, &mut room)?)?;
    }
    Ok(figures)
}
