//! The footpaths by the stop that they lead to, in one run.
ghost use Rattle.std.specs.Prelude.{◌≡◌, ◌<◌, [], ℕ, IfOk, length, slice_index_or};
ghost use Rattle.transfer_pack.specs.TurnedPaths.{turned_into};

use super::numbers::number;
use super::paths_into::PathsInto;
use std::alloc::Global;
use std::marker::Model;
use std::snapshot::Snapshot;
use tb_base::{Memory, Path, StopNo, Timetable};

/// For each stop the footpaths that lead to it, one stop's behind another's: those to stop q stand
/// from the place that `bounds` has at q up to the one that it has at q + 1. It remembers the rows
/// for contracts; that takes no room.
#[derive(Drop)]
pub struct PackedPaths {
    rows: Snapshot<PathsInto>,
    bounds: Vec<u32>,
    paths: Vec<Path>,
}

impl Model for PackedPaths {
    ghost use Rattle.std.specs.Prelude.{List, length};
    ghost use Rattle.tb_base.specs.declared.table.Path.{Path};
    ghost use Rattle.transfer_pack.specs.PackedRows.{ArePacked};

    ghost Value = { List (List Path) };

    ghost view = { λ p. p.rows.value };

    ghost invariant = { λ p. ArePacked p.rows.value (length p.rows.value) p.bounds.items
        p.paths.items };
}

impl PackedPaths {
    /// All footpaths of a timetable. Takes eight bytes a footpath and four a stop, and for the time
    /// being the memory of the rows. Refused only for want of memory.
    pub fn of(alloc: Global, table: &Timetable) -> Result<PackedPaths, Memory>
        ensures stops { IfOk result (λ p. length p ≡ length table.now.stops) }
        ensures rows { IfOk result (λ p. (q : ℕ) → q < length table.now.stops →
            slice_index_or p q []
            ≡ turned_into table.now.footpaths.paths q (length table.now.stops)) }
    {
        let rows = PathsInto::of(alloc, table)?;
        PackedPaths::pack(alloc, &rows)
    }

    // The same rows in one run.
    fn pack(alloc: Global, rows: &PathsInto) -> Result<PackedPaths, Memory>
        ensures { IfOk result (λ p. p ≡ rows.now) }
    {
        let mut bounds = Vec::new(alloc);
        let mut paths = Vec::new(alloc);
        bounds.push(0)?;
        for stop in 0..rows.len() {
            paths.extend_from_slice(rows.row(stop))?;
            bounds.push(number(paths.len())?)?;
        }
        Ok(PackedPaths {
            rows: Snapshot::of(rows),
            bounds,
            paths,
        })
    }

    /// The footpaths that lead to a stop.
    #[inline(always)]
    pub fn at(&self, stop: StopNo) -> &[Path]
        requires { stop < length self.now }
        ensures { result.now ≡ slice_index_or self.now stop [] }
    {
        let from = self.bounds[stop.index()] as usize;
        let to = self.bounds[stop.index() + 1] as usize;
        &self.paths[from..to]
    }
}
