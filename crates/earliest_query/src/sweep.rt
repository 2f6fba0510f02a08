ghost use Rattle.std.specs.Prelude.{◌≡◌, ◌<◌, [], ℤ, All, AllPairs, OnOk, length, pos, ◌≤ℤ◌};
ghost use Rattle.tb_base.specs.BestValues.{IsAttained, IsStep};
ghost use Rattle.tb_base.specs.Sufficiency.{AreSufficient};
ghost use Rattle.tb_base.specs.declared.query.Value.{Value as ValueData};
ghost use Rattle.tb_laws.specs.Pruning.{IsLate};
ghost use Rattle.segment_queue.specs.Queue.{Fits};
ghost use Rattle.segment_queue.specs.Traced.{IsTraced};
ghost use Rattle.earliest_query.specs.Sweeping.{IsKeptBeside, IsSweptSoFar, IsSweptTo, KeepsSegments, SweepData, values_with};

use super::all_rounds::keep;
use super::found::{drop_walks, take_hits};
use super::search::Search;
use super::swept_riding::segment_total;
use super::walks::{common_group, targets};
use segment_queue::{Desk, Levels, Look, Scan, Steps};
use std::alloc::Global;
use std::marker::Model;
use std::sync::ledger::Ledger;
use tb_base::{Memory, Query, Value};

/// A sweep over departures, from the last to the first: what it keeps beside its desk from one
/// time to the earlier next, which is marks by the number of rides, and the values found. It is
/// made once, and begun any number of times.
#[derive(Drop)]
pub struct Sweep {
    levels: Levels,
    values: Vec<Value>,
}

impl Model for Sweep {
    ghost use Rattle.earliest_query.specs.Sweeping.{SweepData};

    ghost Value = { SweepData };

    ghost view = { λ s. record { levels = s.levels; values = s.values.items } };
}

impl Sweep {
    /// A sweep that has found nothing.
    pub fn new(alloc: Global) -> Sweep
        ensures { result ≡ record { levels = []; values = [] } }
    {
        Sweep {
            levels: Levels::new(alloc),
            values: Vec::new(alloc),
        }
    }

    /// The values found: of the time that it has come down to, and of later times.
    pub fn values(&self) -> &[Value]
        ensures { result.now ≡ self.now.values }
    {
        self.values.as_slice()
    }

    /// Begins a sweep from the time of the query down: it empties the desk and the sweep. It needs
    /// memory for a mark for each trip; at a refusal the desk has no segments and no hits either,
    /// and still fits.
    pub fn begin<S: Scan>(
        &mut self,
        alloc: Global,
        scan: &S,
        query: &Query,
        desk: &mut Desk,
    ) -> Result<(), Memory>
        requires fits { Fits (S.net scan.now).table desk.old }
        ensures begun { OnOk result (IsSweptSoFar (S.net scan.now) query.now desk.new self.new) }
        ensures no_values { OnOk result (self.new.values ≡ []) }
        ensures no_segments { desk.new.segments ≡ [] }
        ensures no_hits { desk.new.hits ≡ [] }
        ensures fits { Fits (S.net scan.now).table desk.new }
    {
        scan.soundness();
        let shape = scan.shape();
        desk.begin(scan, query);
        self.values.clear();
        self.levels.begin(alloc, shape.trips)?;
        Ok(())
    }

    /// Comes down to the time of the query, which is no later than the time before. It leaves the
    /// hits of this time in the desk: for each journey that leaves no earlier, one of them or a
    /// value of before is no worse. Values that a hit is no worse than are let go, and segments stay
    /// as they are, before those of this time. It needs memory; at a refusal the desk still fits,
    /// and the sweep has to begin anew. No bound on steps is promised.
    pub fn ask<L: Ledger, S: Look<L>>(
        &mut self,
        alloc: Global,
        scan: &S,
        query: &Query,
        desk: &mut Desk,
        steps: &mut Steps<L>,
    ) -> Result<(), Memory>
        requires later { (later : ℤ) × (query.now.leave ≤ℤ later)
            × IsSweptSoFar (S.net scan.now) (record query.now { leave = later }) desk.old self.old }
        requires fits { Fits (S.net scan.now).table desk.old }
        requires origins { All (λ p. p < length (S.net scan.now).table.stops) query.now.from }
        requires leave { query.now.leave ≤ℤ pos 359999 }
        requires sufficient { AreSufficient (S.net scan.now).table (S.net scan.now).hops }
        ensures swept { OnOk result
            (IsSweptTo (S.net scan.now) query.now desk.new self.new.levels self.new.values) }
        ensures kept { OnOk result (KeepsSegments desk.old desk.new) }
        ensures traced { OnOk result (IsTraced (S.net scan.now).table query.now desk.new) }
        ensures stairs { OnOk result (AllPairs (λ h k. IsStep h.value k.value) desk.new.hits) }
        ensures found { OnOk result ((w : ValueData) →
            IsAttained (S.net scan.now).table query.now w →
            IsLate (values_with desk.new.hits self.old.values) w.arrive w.rides) }
        ensures let_go { OnOk result (All (IsKeptBeside desk.new.hits) self.new.values) }
        ensures fits { Fits (S.net scan.now).table desk.new }
    {
        scan.soundness();
        let groups = scan.groups();
        let search = Search {
            scan,
            query,
            groups,
            target_group: common_group(groups, targets(query)),
        };
        let from = segment_total(desk)?;
        drop_walks(&mut self.values);
        desk.clear_hits();
        let walk = search.walk_hit();
        keep(desk, walk, 0);
        search.start_level(desk, &mut self.levels, steps)?;
        search.ride_levels(
            alloc,
            desk,
            &mut self.levels,
            self.values.as_slice(),
            from,
            steps,
        )?;
        take_hits(&mut self.values, desk.hits())?;
        Ok(())
    }
}
