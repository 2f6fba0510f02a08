ghost use Rattle.std.specs.Prelude.{◌≡◌, ◌<◌, Bool, false, All, IfOk, length, map, pos, ◌≤ℤ◌};
ghost use Rattle.reach_all.specs.Spreading.{AreStarts};

use super::arrivals::Arrivals;
use super::walking::{alight, walk_all};
use earliest_query::{AtEvent, Search};
use segment_queue::{Scan, Segment, Visit};
use std::alloc::Global;
use tb_base::{Memory, Query, Value};

// The values that a search has found for each stop so far. Once memory was refused it takes no
// more.
#[derive(Drop)]
pub(crate) struct Offers {
    arrivals: Arrivals,
    refused: bool,
}

impl Offers {
    // The values of the walks from origins.
    pub(crate) fn new<S: Scan>(alloc: Global, scan: &S, query: &Query) -> Result<Offers, Memory>
        requires origins { All (λ p. p < length (S.net scan.now).table.stops) query.now.from }
        requires leave { query.now.leave ≤ℤ pos 359999 }
        ensures { IfOk result (λ offers. AreStarts (S.net scan.now).table query.now.from
            query.now.leave offers.arrivals) }
    {
        let mut arrivals = Arrivals::new(alloc, scan.shape().stops as usize)?;
        walk_all(scan, query, &mut arrivals)?;
        Ok(Offers {
            arrivals,
            refused: false,
        })
    }

    // The values by stops, unless memory was refused.
    pub(crate) fn into_rows(self) -> Result<Vec<Vec<Value>>, Memory>
        ensures { IfOk result (λ rows. (self.refused ≡ false)
            × (map (λ row. row.items) rows.items ≡ self.arrivals)) }
    {
        if self.refused {
            return Err(Memory);
        }
        Ok(self.arrivals.into_rows())
    }
}

impl<S: Scan> AtEvent<S> for Offers {
    ghost use Rattle.reach_all.specs.Spreading.{AreSpreadOrRefused, HoldsAlightingOrRefused};

    ghost is_ready = { λ o N Q round. AreSpreadOrRefused o.refused N.table Q round o.arrivals };

    ghost has_met = { λ o N t i round.
        HoldsAlightingOrRefused o.refused N.table o.arrivals t i round };

    // Offers what the event gives.
    fn meet(
        &mut self,
        search: &Search<'_, S>,
        _segment: &Segment,
        _at: u32,
        round: u32,
        visit: &Visit,
    ) {
        if self.refused {
            return;
        }
        let scan = search.scan;
        scan.soundness();
        let offered = alight(scan, &mut self.arrivals, visit, round);
        self.refused = offered.is_err();
    }
}
