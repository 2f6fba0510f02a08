//! Change times and footpaths from the rows of transfers.txt.
ghost use Rattle.std.specs.Prelude.{◌≡◌, ◌<◌, ◌++◌, ℕ, [], None, IfOk, OnOk, length, get_or};
ghost use Rattle.std.specs.Option.{option_to_list};
ghost use Rattle.gtfs_rows.specs.Refused.{Yields};
ghost use Rattle.footpaths.specs.Stops.{platforms};
ghost use Rattle.footpaths.specs.Limits.{AreWithinADay};
ghost use Rattle.footpaths.specs.Links.{IsPathsRefused};
ghost use Rattle.footpaths.specs.Footpaths.{footpaths, path_to, paths_of, check_count, secs_between};
ghost use Rattle.tb_base.specs.Soundness.{IsSoundFootpaths};
ghost use Rattle.footpaths.specs.BestRules.{slot, ranked_secs};

use crate::best_rules::{BestRules, RankedRule};
use crate::linked_platforms::LinkedPlatforms;
use crate::links::links_of;
use crate::path_rows::PathRows;
use crate::{Options, Paths, PathsFault, StopTable};
use gtfs_rows::TransferRow;
use std::alloc::Global;
use tb_base::{Memory, Path, StopNo};

// The footpaths to a stop from each stop that has a mark; then no stop has one.
fn collect(marks: &mut BestRules, rows: &mut PathRows, to: StopNo) -> Result<(), Memory>
    requires many { length marks.old ≡ length rows.old }
    requires away { slot marks.old to ≡ None }
    ensures marks { OnOk result (length marks.new ≡ length marks.old) }
    ensures many { OnOk result (length rows.new ≡ length rows.old) }
    ensures clear { OnOk result ((p : ℕ) → slot marks.new p ≡ None) }
    ensures rows { OnOk result ((p : ℕ) → p < length rows.old →
        get_or rows.new p []
        ≡ get_or rows.old p []
        ++ option_to_list (path_to p to (ranked_secs (slot marks.old p)))) }
{
    while let Some((from, ranked)) = marks.pop() {
        if let Some(secs) = ranked.secs {
            rows.add(from, Path { to, secs })?;
        }
    }
    Ok(())
}

fn ranked_secs(ranked: Option<RankedRule>) -> Option<u32>
    ensures { result ≡ ranked_secs ranked }
{
    match ranked {
        Some(ranked) => ranked.secs,
        None => None,
    }
}

// The footpaths to one stop, after those that are there, and its change time.
fn fill_stop(
    linked: &LinkedPlatforms,
    marks: &mut BestRules,
    rows: &mut PathRows,
    stop: StopNo,
    options: &Options,
) -> Result<Option<u32>, Memory>
    requires stop { stop < length (platforms linked.now.stops) }
    requires marks { length marks.old ≡ length (platforms linked.now.stops) }
    requires many { length rows.old ≡ length (platforms linked.now.stops) }
    requires clear { (p : ℕ) → slot marks.old p ≡ None }
    ensures marks { OnOk result (length marks.new ≡ length marks.old) }
    ensures many { OnOk result (length rows.new ≡ length rows.old) }
    ensures clear { OnOk result ((p : ℕ) → slot marks.new p ≡ None) }
    ensures own { IfOk result
        (λ own. own ≡ secs_between linked.now.stops options.now linked.now.links stop stop) }
    ensures rows { OnOk result ((p : ℕ) → p < length rows.old →
        get_or rows.new p []
        ≡ get_or rows.old p []
        ++ option_to_list (path_to p stop (secs_between linked.now.stops options.now
        linked.now.links p stop))) }
{
    linked.mark_to(marks, stop, options)?;
    let own = ranked_secs(marks.take(stop.0));
    collect(marks, rows, stop)?;
    Ok(own)
}

// The change times and footpaths of all platforms.
fn fill(
    alloc: Global,
    linked: &LinkedPlatforms,
    count: u32,
    options: &Options,
) -> Result<Paths, PathsFault>
    requires { count ≡ length (platforms linked.now.stops) }
    ensures { Yields IsPathsRefused result (λ x. x) (check_count
        (paths_of count (secs_between linked.now.stops options.now linked.now.links))) }
{
    let mut marks = BestRules::new(alloc, count as usize)?;
    let mut rows = PathRows::new(alloc, count as usize)?;
    let mut change = Vec::new(alloc);
    for stop in 0..count {
        let own = fill_stop(linked, &mut marks, &mut rows, StopNo(stop), options)?;
        if change.push(own).is_err() {
            return Err(PathsFault::Memory);
        }
        if rows.total() > 2_000_000 {
            return Err(PathsFault::TooMany);
        }
    }
    let paths = rows.into_rows();
    Ok(Paths { change, paths })
}

/// The change times and footpaths between platforms that the rows of transfers.txt and the options
/// give. The first row that names an unknown stop, or goes between the same two as an earlier row,
/// is refused; then more than 2,000,000 footpaths.
pub fn build_paths(
    alloc: Global,
    rows: &[TransferRow],
    stops: &StopTable,
    options: &Options,
) -> Result<Paths, PathsFault>
    requires { AreWithinADay options.now }
    ensures told { Yields IsPathsRefused result (λ x. x)
        (footpaths stops.now options.now rows.now) }
    ensures sound { IfOk result (λ paths. IsSoundFootpaths paths) }
{
    stops.soundness();
    let links = match links_of(alloc, rows, stops, options.change) {
        Ok(links) => links,
        Err(fault) => return Err(fault),
    };
    let linked = LinkedPlatforms::new(alloc, links, stops)?;
    fill(alloc, &linked, stops.platforms(), options)
}
