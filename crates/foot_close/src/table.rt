//! What chains of given changes lead to from each stop.
ghost use Rattle.std.specs.Prelude.{◌≡◌, ◌<◌, ◌≤◌, MatchResult, filter_map, length, map};
ghost use Rattle.tb_base.specs.Soundness.{IsSoundFootpaths};
ghost use Rattle.tb_base.specs.Walking.{change_between};
ghost use Rattle.foot_close.specs.Searching.{reached_of};
ghost use Rattle.foot_close.specs.Shortest.{closure_of};
ghost use Rattle.foot_close.specs.Tables.{path_of, IsTable};
ghost use Rattle.foot_close.specs.Closing.{footpath_total, IsCloseRefused};

use crate::CloseFault;
use crate::search::{ChainSearch, Reached};
use footpaths::Paths;
use std::alloc::Global;
use std::marker::Model;
use tb_base::{Memory, StopNo};

// How many stops other than the first one chains lead to.
fn other_stops(row: &[Reached], from: StopNo) -> u32
    requires { length row.now ≤ 100000 }
    ensures { result ≡ length (filter_map (path_of from) row.now) }
{
    let mut count: u32 = 0;
    for reached in row {
        if from.index() != reached.stop.index() {
            count += 1;
        }
    }
    count
}

/// Given change times and footpaths, and for each stop those that chains lead to, in order.
#[derive(Drop)]
pub struct Table {
    given: Paths,
    rows: Vec<Vec<Reached>>,
}

impl Model for Table {
    ghost use Rattle.std.specs.Prelude.{map};
    ghost use Rattle.tb_base.specs.TimetableData.{FootpathData};
    ghost use Rattle.foot_close.specs.Tables.{IsTable};

    ghost Value = { FootpathData };

    ghost view = { λ t. t.given };

    ghost invariant = { λ t. IsTable t.given (map (λ row. row.items) t.rows.items) };
}

// What chains lead to from each stop, unless it is too much.
fn reach_all(alloc: Global, given: &Paths) -> Result<Vec<Vec<Reached>>, CloseFault>
    requires { IsSoundFootpaths given.now }
    ensures { MatchResult result
        (λ rows. IsTable given.now (map (λ row. row.items) rows.items)) (IsCloseRefused given.now) }
{
    let count = given.change.len();
    let mut search = ChainSearch::new(alloc, count)?;
    let mut rows: Vec<Vec<Reached>> = Vec::new(alloc);
    let mut total: u64 = 0;
    for from in 0..count as u32 {
        let row = search.reach_from(alloc, given, StopNo(from))?;
        total += u64::from(other_stops(&row, StopNo(from)));
        if total > 2_000_000 {
            return Err(CloseFault::TooMany);
        }
        if rows.push(row).is_err() {
            return Err(CloseFault::Memory);
        }
    }
    Ok(rows)
}

impl Table {
    /// The table of given change times and footpaths. Refused where there would be more than
    /// 2,000,000 footpaths.
    pub fn new(alloc: Global, given: Paths) -> Result<Table, CloseFault>
        requires { IsSoundFootpaths given }
        ensures { MatchResult result (λ table. table ≡ given) (IsCloseRefused given) }
    {
        match reach_all(alloc, &given) {
            Ok(rows) => Ok(Table { given, rows }),
            Err(fault) => Err(fault),
        }
    }

    /// What the given change times and footpaths keep, and that there are few enough after closing.
    pub fn soundness(&self)
        ensures sound { IsSoundFootpaths self.now }
        ensures few { footpath_total self.now (closure_of self.now) ≤ 2000000 }
    {
        let _ = &self.given;
    }

    /// How many stops there are.
    pub fn stops(&self) -> u32
        ensures { result ≡ length self.now.change }
    {
        self.given.change.len() as u32
    }

    /// The stops that chains lead to from one stop, in order, with the least seconds.
    pub fn row(&self, from: StopNo) -> &[Reached]
        requires { from < length self.now.change }
        ensures { result.now ≡ reached_of (length self.now.change) (closure_of self.now from) }
    {
        self.rows[from.index()].as_slice()
    }

    /// The seconds of the given change between two stops.
    pub fn given_secs(&self, from: StopNo, to: StopNo) -> Option<u32>
        requires { from < length self.now.change }
        ensures { result ≡ change_between self.now from to }
    {
        self.given.change_between(from, to)
    }
}
