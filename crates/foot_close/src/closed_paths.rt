//! Change times and footpaths of a closure.
ghost use Rattle.std.specs.Prelude.{◌≡◌, ◌<◌, ℕ, IfOk, length};
ghost use Rattle.footpaths.specs.Footpaths.{paths_of, paths_from};
ghost use Rattle.foot_close.specs.Shortest.{closure_of};
ghost use Rattle.foot_close.specs.Closing.{IsNear};

use crate::table::Table;
use footpaths::Paths;
use std::alloc::Global;
use tb_base::{Memory, Path, StopNo};

impl Table {
    // The change time of a stop.
    fn closed_change(&self, from: StopNo) -> Option<u32>
        requires from { from < length self.now.change }
        requires near { (q : ℕ) → IsNear (closure_of self.now) from q }
        ensures { result ≡ closure_of self.now from from }
    {
        for reached in self.row(from) {
            if reached.stop.index() == from.index() {
                return Some(reached.secs as u32);
            }
        }
        None
    }

    // The footpaths that leave a stop.
    fn closed_row(&self, alloc: Global, from: StopNo) -> Result<Vec<Path>, Memory>
        requires from { from < length self.now.change }
        requires near { (q : ℕ) → IsNear (closure_of self.now) from q }
        ensures { IfOk result (λ row. row.items
            ≡ paths_from (length self.now.change) (closure_of self.now) from) }
    {
        let mut row = Vec::new(alloc);
        for reached in self.row(from) {
            if from.index() != reached.stop.index() {
                let path = Path {
                    to: reached.stop,
                    secs: reached.secs as u32,
                };
                row.push(path)?;
            }
        }
        Ok(row)
    }

    /// The change times and footpaths of the closure.
    pub fn closed_paths(&self, alloc: Global) -> Result<Paths, Memory>
        requires { (p q : ℕ) → IsNear (closure_of self.now) p q }
        ensures { IfOk result (λ paths. paths
            ≡ paths_of (length self.now.change) (closure_of self.now)) }
    {
        let mut change = Vec::new(alloc);
        let mut paths: Vec<Vec<Path>> = Vec::new(alloc);
        for from in 0..self.stops() {
            change.push(self.closed_change(StopNo(from)))?;
            paths.push(self.closed_row(alloc, StopNo(from))?)?;
        }
        Ok(Paths { change, paths })
    }
}
