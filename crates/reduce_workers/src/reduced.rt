ghost use Rattle.std.specs.Prelude.{◌≡◌, ◌+◌, ◌≤◌, ℕ, List, IfOk, OnErr, OnOk, length};
ghost use Rattle.tb_base.specs.TimetableData.{TimetableData};
ghost use Rattle.tb_base.specs.OutSets.{AreRowsOf, hops_at, row_of};
ghost use Rattle.tb_base.specs.Lines.{AreDividedInto};
ghost use Rattle.tb_base.specs.Sufficiency.{AreSufficient};
ghost use Rattle.tb_base.specs.Transfers.{kept_hops};
ghost use Rattle.transfer_pack.specs.Packed.{packed};
ghost use Rattle.reduce_workers.specs.Reductions.{reduced, reduced_from};

use line_split::Lines;
use std::alloc::Global;
use std::marker::Model;
use tb_base::{Memory, Timetable, Transfer};
use transfer_pack::Set;

/// The kept transfers of some trips in a row, one list a trip, each from the trip's last event
/// down; and how many candidates there are, how many of them are no U-turns, how many are kept, and
/// of how many trips.
#[derive(Drop)]
pub struct Reduced {
    pub rows: Vec<Vec<Transfer>>,
    pub generated: u64,
    pub after_uturn: u64,
    pub kept: u64,
    pub trips: u32,
}

impl Model for Reduced {
    ghost use Rattle.std.specs.Prelude.{map};
    ghost use Rattle.reduce_workers.specs.Reductions.{ReducedData};

    ghost Value = { ReducedData };

    ghost view = { λ r. record {
      rows = map (λ row. row.items) r.rows.items;
      generated = r.generated;
      after_uturn = r.after_uturn;
      kept = r.kept;
      trips = r.trips;
    } };
}

impl Reduced {
    /// Nothing of any trip. Takes no memory.
    pub fn new(alloc: Global) -> Reduced
        ensures { (T : TimetableData) (lines : List (List ℕ)) (first : ℕ) →
            result ≡ reduced_from T lines first 0 }
    {
        Reduced {
            rows: Vec::new(alloc),
            generated: 0,
            after_uturn: 0,
            kept: 0,
            trips: 0,
        }
    }

    /// Adds what the reduction makes of the trips that come next: no list is copied. Refused only
    /// for want of memory.
    pub fn append(&mut self, table: &Timetable, lines: &Lines, more: Reduced) -> Result<(), Memory>
        requires lines { lines.now.table ≡ table.now }
        requires before { self.old ≡ reduced_from table.now lines.now.lines 0 self.old.trips }
        requires more { more ≡ reduced_from table.now lines.now.lines self.old.trips more.trips }
        requires within { self.old.trips + more.trips ≤ length table.now.trips }
        ensures added { OnOk result
            (self.new ≡ reduced_from table.now lines.now.lines 0 (self.old.trips + more.trips)) }
        ensures refused { OnErr result (self.new ≡ self.old) }
    {
        table.soundness();
        lines.soundness();
        let Reduced {
            mut rows,
            generated,
            after_uturn,
            kept,
            trips,
        } = more;
        self.rows.append(&mut rows)?;
        self.generated += generated;
        self.after_uturn += after_uturn;
        self.kept += kept;
        self.trips += trips;
        Ok(())
    }

    /// The set of these transfers: one list a trip, of transfers from its events, whose hops it has
    /// in their order. If they are the kept ones, its hops are exactly the kept hops, and it is sufficient: a search over it finds
    /// all best values. Refused only for want of memory.
    pub fn into_set(self, alloc: Global, table: &Timetable) -> Result<Set, Memory>
        requires { AreRowsOf table.now self.rows }
        ensures table { IfOk result (λ set. set.table ≡ table.now) }
        ensures rows { IfOk result (λ set. (t i : ℕ) →
            packed set t i ≡ hops_at (row_of self.rows t) i) }
        ensures hops { IfOk result (λ set. (lines : List (List ℕ)) →
            AreDividedInto table.now lines → self ≡ reduced table.now lines →
            (t i : ℕ) → packed set t i ≡ kept_hops table.now lines t i) }
        ensures sufficient { IfOk result (λ set. (lines : List (List ℕ)) →
            AreDividedInto table.now lines → self ≡ reduced table.now lines →
            AreSufficient table.now (packed set)) }
    {
        table.soundness();
        Set::build(alloc, table, self.rows.as_slice())
    }
}
