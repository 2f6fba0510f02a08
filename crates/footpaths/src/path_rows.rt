//! Footpaths by the stop that they leave.
ghost use Rattle.std.specs.Prelude.{◌≡◌, ◌<◌, ◌++◌, ◌∷◌, [], List, IfOk, OnOk, OnErr, length, map, replicate, set, min, sum_by, get_or};
ghost use Rattle.tb_base.specs.declared.table.Path.{Path};

use std::alloc::Global;
use std::marker::Model;
use tb_base::{Memory, Path};

fn empty_rows(alloc: Global, count: usize) -> Result<Vec<Vec<Path>>, Memory>
    ensures { IfOk result (λ rows. map (λ row. row.items) rows.items ≡ replicate count []) }
{
    let mut rows: Vec<Vec<Path>> = Vec::new(alloc);
    for _row in 0..count {
        if rows.push(Vec::new(alloc)).is_err() {
            return Err(Memory);
        }
    }
    Ok(rows)
}

fn push_to(rows: &mut Vec<Vec<Path>>, from: usize, path: Path) -> Result<(), Memory>
    requires { from < length rows.old.items }
    ensures added { OnOk result (map (λ row. row.items) rows.new.items
        ≡ set (map (λ row. row.items) rows.old.items) from
        (get_or (map (λ row. row.items) rows.old.items) from [] ++ path ∷ [])) }
    ensures memory { OnErr result
        (map (λ row. row.items) rows.new.items ≡ map (λ row. row.items) rows.old.items) }
{
    let row = &mut rows[from];
    match row.push(path) {
        Ok(()) => Ok(()),
        Err(_) => Err(Memory),
    }
}

/// For each stop the footpaths that leave it, and how many there are.
#[derive(Drop)]
pub struct PathRows {
    rows: Vec<Vec<Path>>,
    total: u64,
}

impl Model for PathRows {
    ghost use Rattle.std.specs.Prelude.{◌≡◌, List, map, length, min, sum_by};
    ghost use Rattle.tb_base.specs.declared.table.Path.{Path};

    ghost Value = { List (List Path) };

    ghost view = { λ r. map (λ row. row.items) r.rows.items };

    ghost invariant = { λ r. r.total
        ≡ min (sum_by (λ row. length {A = Path} row) (map (λ row. row.items) r.rows.items))
        18446744073709551615 };
}

impl PathRows {
    /// No footpath.
    pub fn new(alloc: Global, count: usize) -> Result<PathRows, Memory>
        ensures { IfOk result (λ rows. rows ≡ replicate count []) }
    {
        let rows = empty_rows(alloc, count)?;
        Ok(PathRows { rows, total: 0 })
    }

    /// One footpath more from a stop, after those that are there.
    pub fn add(&mut self, from: u32, path: Path) -> Result<(), Memory>
        requires { from < length self.old }
        ensures { OnOk result
            (self.new ≡ set self.old from (get_or self.old from [] ++ path ∷ [])) }
    {
        push_to(&mut self.rows, from as usize, path)?;
        self.total = self.total.saturating_add(1);
        Ok(())
    }

    /// How many footpaths there are, as far as a number tells.
    pub fn total(&self) -> u64
        ensures { result
            ≡ min (sum_by (λ row. length {A = Path} row) self.now) 18446744073709551615 }
    {
        self.total
    }

    /// The footpaths by the stop that they leave.
    pub fn into_rows(self) -> Vec<Vec<Path>>
        ensures { map (λ row. row.items) result.items ≡ self }
    {
        self.rows
    }
}
