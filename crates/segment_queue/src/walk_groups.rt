//! Groups of stops, so that most pairs of stops are seen to have no walk at one look.
ghost use Rattle.std.specs.Prelude.{◌≡◌, ◌<◌, ℕ, Some, All, IfOk, IsTrue, length};
ghost use Rattle.tb_base.specs.TimetableData.{TimetableData};
ghost use Rattle.tb_base.specs.Walking.{walk};
ghost use Rattle.segment_queue.specs.WalkGroups.{AreWalkGroups, StaysIn};

use std::alloc::Global;
use std::marker::Model;
use std::snapshot::Snapshot;
use tb_base::{Memory, Path, StopNo, Timetable};

// How often groups are joined before all stops are taken for one group.
const ROUNDS: u32 = 8;

/// The stops of a timetable in groups: no walk leads from one group to another. They remember for
/// contracts of which timetable they are; that takes no room.
#[derive(Drop)]
pub struct WalkGroups {
    table: Snapshot<Timetable>,
    groups: Vec<u32>,
}

impl Model for WalkGroups {
    ghost use Rattle.tb_base.specs.TimetableData.{TimetableData};
    ghost use Rattle.segment_queue.specs.WalkGroups.{AreWalkGroups};

    ghost Value = { TimetableData };

    ghost view = { λ w. w.table.value };

    ghost invariant = { λ w. AreWalkGroups w.table.value w.groups.items };
}

// A group for each stop.
fn own_groups(alloc: Global, stops: u32) -> Result<Vec<u32>, Memory>
    ensures { IfOk result (λ groups. length groups.items ≡ stops) }
{
    let mut groups = Vec::new(alloc);
    for stop in 0..stops {
        groups.push(stop)?;
    }
    Ok(groups)
}

// Joins two stops: the lesser group takes both.
fn join(groups: &mut [u32], p: usize, q: usize)
    requires p { p < length groups.old }
    requires q { q < length groups.old }
    ensures { length groups.new ≡ length groups.old }
{
    let group = groups[p].min(groups[q]);
    groups[p] = group;
    groups[q] = group;
}

// Joins each stop with those that its footpaths lead to.
fn join_all(table: &Timetable, groups: &mut [u32])
    requires { length groups.old ≡ length table.now.stops }
    ensures { length groups.new ≡ length groups.old }
{
    for p in 0..table.stop_count() {
        for path in table.paths(StopNo(p)) {
            join(groups, p as usize, path.to.index());
        }
    }
}

// Whether all these footpaths lead to stops of a group.
fn do_stay(groups: &[u32], group: u32, paths: &[Path]) -> bool
    requires { All (λ f. f.to < length groups.now) paths.now }
    ensures { IsTrue result → All (StaysIn groups.now group) paths.now }
{
    for path in paths {
        if groups[path.to.index()] != group {
            return false;
        }
    }
    true
}

// Whether no footpath leads from one group to another.
fn are_apart(table: &Timetable, groups: &[u32]) -> bool
    requires { length groups.now ≡ length table.now.stops }
    ensures { IsTrue result → AreWalkGroups table.now groups.now }
{
    table.soundness();
    for p in 0..table.stop_count() {
        if !do_stay(groups, groups[p as usize], table.paths(StopNo(p))) {
            return false;
        }
    }
    true
}

// Groups that are apart.
fn groups_of(alloc: Global, table: &Timetable) -> Result<Vec<u32>, Memory>
    ensures { IfOk result (λ groups. AreWalkGroups table.now groups.items) }
{
    let mut groups = own_groups(alloc, table.stop_count())?;
    for _round in 0..ROUNDS {
        join_all(table, groups.as_mut_slice());
        if are_apart(table, groups.as_slice()) {
            return Ok(groups);
        }
    }
    one_group(alloc, table)
}

// All stops in one group.
fn one_group(alloc: Global, table: &Timetable) -> Result<Vec<u32>, Memory>
    ensures { IfOk result (λ groups. AreWalkGroups table.now groups.items) }
{
    table.soundness();
    let mut groups = Vec::new(alloc);
    for _stop in 0..table.stop_count() {
        groups.push(0)?;
    }
    Ok(groups)
}

impl WalkGroups {
    /// The groups of a timetable's stops. Refused only for want of memory.
    pub fn of(alloc: Global, table: &Timetable) -> Result<WalkGroups, Memory>
        ensures { IfOk result (λ groups. groups ≡ table.now) }
    {
        let groups = groups_of(alloc, table)?;
        Ok(WalkGroups {
            table: Snapshot::of(table),
            groups,
        })
    }

    /// The group of each stop.
    pub fn as_slice(&self) -> &[u32]
        ensures { AreWalkGroups self.now result.now }
    {
        self.groups.as_slice()
    }

    /// Whether two stops are of one group. Where it says no, there is no walk from the first to the
    /// other; nothing is promised of how often it says yes, which only costs time.
    pub fn may_walk(&self, p: StopNo, q: StopNo) -> bool
        requires { p < length self.now.stops }
        ensures { (secs : ℕ) → walk self.now p q ≡ Some secs → IsTrue result }
    {
        let groups = self.groups.as_slice();
        match groups.get(q.index()) {
            Some(group) => *group == groups[p.index()],
            None => false,
        }
    }
}
