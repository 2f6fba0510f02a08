//! For each stop the earliest arrival that was offered there, and who can walk there.
ghost use Rattle.std.specs.Prelude.{◌≡◌, ◌<◌, ◌↔◌, ◌⊎◌, ◌≤ℤ◌, ℕ, ℤ, pos, negsuc, true, false, IfOk, None, length, replicate, slice_index_or};
ghost use Rattle.transfer_reduce.specs.Reached.{IsBy, IsReachedOnFoot};

use super::times::Times;
use std::alloc::Global;
use std::marker::Model;
use std::snapshot::Snapshot;
use tb_base::{Memory, Sec, StopNo, Timetable};
use transfer_pack::PackedPaths;

/// For each stop of a timetable the earliest arrival that was offered there, if any was, and the
/// footpaths that lead to it. They remember for contracts of which timetable they are; that takes
/// no room.
#[derive(Drop)]
pub struct Labels {
    table: Snapshot<Timetable>,
    into: PackedPaths,
    times: Times,
}

impl Model for Labels {
    ghost use Rattle.transfer_reduce.specs.LabelsData.{AreLabels, LabelsData};

    ghost Value = { LabelsData };

    ghost view = { λ l. record { table = l.table.value; times = l.times } };

    ghost invariant = { λ l. AreLabels l.table.value l.into l.times };
}

impl Labels {
    /// Labels for the stops of a timetable, with no time at any. Takes memory by the number of
    /// stops and footpaths. Refused only for want of memory.
    pub fn new(alloc: Global, table: &Timetable) -> Result<Labels, Memory>
        ensures table { IfOk result (λ labels. labels.table ≡ table.now) }
        ensures times { IfOk result
            (λ labels. labels.times ≡ replicate (length table.now.stops) None) }
    {
        table.soundness();
        Ok(Labels {
            table: Snapshot::of(table),
            into: PackedPaths::of(alloc, table)?,
            times: Times::new(alloc, table.stop_count())?,
        })
    }

    /// Forgets all times.
    pub(crate) fn clear(&mut self)
        ensures table { self.new.table ≡ self.old.table }
        ensures times { (p : ℕ) → slice_index_or self.new.times p None ≡ None }
    {
        self.times.clear();
    }

    /// Whether a time is sooner at a stop than one is there by all that was offered, on foot too.
    #[inline(always)]
    pub(crate) fn is_sooner(&self, stop: StopNo, time: Sec) -> bool
        requires stop { stop < length self.now.table.stops }
        requires earliest { negsuc 86399 ≤ℤ time }
        requires latest { time ≤ℤ pos 359999 }
        ensures sooner { result ≡ true → IsReachedOnFoot self.now.table self.now.times stop time → ⊥ }
        ensures late { result ≡ false → IsReachedOnFoot self.now.table self.now.times stop time }
    {
        if !self.times.is_sooner(time, stop, 0) {
            return false;
        }
        for path in self.into.at(stop) {
            if !self.times.is_sooner(time, path.to, path.secs) {
                return false;
            }
        }
        true
    }

    /// Lowers the time at a stop to this one, where it is sooner.
    #[inline(always)]
    pub(crate) fn lower(&mut self, stop: StopNo, time: Sec)
        requires stop { stop < length self.old.table.stops }
        requires earliest { negsuc 86399 ≤ℤ time }
        requires latest { time ≤ℤ pos 359999 }
        ensures table { self.new.table ≡ self.old.table }
        ensures times { (p : ℕ) (x : ℤ) →
            IsBy self.new.times p x ↔ (IsBy self.old.times p x ⊎ ((stop ≡ p) × (time ≤ℤ x))) }
    {
        self.times.lower(stop, time);
    }
}
