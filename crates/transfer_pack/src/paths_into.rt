//! Footpaths by the stop that they lead to.
ghost use Rattle.std.specs.Prelude.{◌≡◌, ◌+◌, ◌<◌, ◌++◌, ◌∷◌, [], ℕ, List, All, IfOk, OnOk, length, map, replicate, set, slice_index_or, sum_by};
ghost use Rattle.tb_base.specs.TimetableData.{path_total};
ghost use Rattle.tb_base.specs.declared.table.Path.{Path};
ghost use Rattle.transfer_pack.specs.TurnedPaths.{turned, turned_into};

use std::alloc::Global;
use std::marker::Model;
use tb_base::{Memory, Path, StopNo, Timetable};

/// For each stop the footpaths that lead to it, each turned round: with the stop that it comes
/// from.
#[derive(Drop)]
pub struct PathsInto {
    rows: Vec<Vec<Path>>,
}

impl Model for PathsInto {
    ghost Value = { List (List Path) };

    ghost view = { λ r. map (λ v. v.items) r.rows.items };
}

impl PathsInto {
    // No footpath to any of so many stops.
    fn new(alloc: Global, stops: u32) -> Result<PathsInto, Memory>
        ensures { IfOk result (λ r. r ≡ replicate stops []) }
    {
        let mut rows: Vec<Vec<Path>> = Vec::new(alloc);
        for _stop in 0..stops {
            rows.push(Vec::new(alloc))?;
        }
        Ok(PathsInto { rows })
    }

    // Adds a footpath behind those that lead to a stop.
    fn add(&mut self, to: StopNo, path: Path) -> Result<(), Memory>
        requires { to < length self.old }
        ensures { OnOk result (self.new
            ≡ set self.old to (slice_index_or self.old to [] ++ path ∷ [])) }
    {
        let row = &mut self.rows[to.index()];
        match row.push(path) {
            Ok(()) => Ok(()),
            Err(_) => Err(Memory),
        }
    }

    // Adds the footpaths that leave a stop, turned round.
    fn add_turned(&mut self, p: StopNo, paths: &[Path]) -> Result<(), Memory>
        requires { All (λ f. f.to < length self.old) paths.now }
        ensures stops { OnOk result (length self.new ≡ length self.old) }
        ensures rows { OnOk result ((q : ℕ) → slice_index_or self.new q []
            ≡ slice_index_or self.old q [] ++ turned p q paths.now) }
        ensures total { OnOk result (sum_by (λ row. length row) self.new
            ≡ sum_by (λ row. length row) self.old + length paths.now) }
    {
        for path in paths {
            let back = Path {
                to: p,
                secs: path.secs,
            };
            self.add(path.to, back)?;
        }
        Ok(())
    }

    /// All footpaths of a timetable. Takes memory by their number and that of the stops. Refused
    /// only for want of memory.
    pub fn of(alloc: Global, table: &Timetable) -> Result<PathsInto, Memory>
        ensures stops { IfOk result (λ r. length r ≡ length table.now.stops) }
        ensures rows { IfOk result (λ r. (q : ℕ) → q < length table.now.stops →
            slice_index_or r q []
            ≡ turned_into table.now.footpaths.paths q (length table.now.stops)) }
        ensures total { IfOk result (λ r.
            sum_by (λ row. length row) r ≡ path_total table.now.footpaths) }
    {
        table.soundness();
        let mut rows = PathsInto::new(alloc, table.stop_count())?;
        for p in 0..table.stop_count() {
            rows.add_turned(StopNo(p), table.paths(StopNo(p)))?;
        }
        Ok(rows)
    }

    // How many stops there are.
    pub(crate) fn len(&self) -> usize
        ensures { result ≡ length self.now }
    {
        self.rows.len()
    }

    // The footpaths that lead to a stop.
    pub(crate) fn row(&self, stop: usize) -> &[Path]
        requires { stop < length self.now }
        ensures { result.now ≡ slice_index_or self.now stop [] }
    {
        self.rows[stop].as_slice()
    }

    /// One list a stop, by its number.
    pub fn into_rows(self) -> Vec<Vec<Path>>
        ensures { map (λ v. v.items) result.items ≡ self }
    {
        self.rows
    }
}
