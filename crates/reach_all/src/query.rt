ghost use Rattle.std.specs.Prelude.{◌≡◌, ◌+◌, ◌<◌, ◌≤◌, [], All, IfOk, length, map, pos, ◌≤ℤ◌};
ghost use Rattle.tb_base.specs.Sufficiency.{AreSufficient};
ghost use Rattle.segment_queue.specs.Queue.{Fits};
ghost use Rattle.earliest_query.specs.Choices.{search_looks};
ghost use Rattle.reach_all.specs.Reach.{IsReach};
ghost use Rattle.reach_all.specs.Spreading.{everywhere};

use super::offers::Offers;
use earliest_query::Search;
use segment_queue::{Desk, Look, Scan, Steps};
use std::alloc::Global;
use std::sync::ledger::Ledger;
use tb_base::{Memory, Query, Sec, StopNo, Value};

// A query without targets.
pub(crate) fn query_everywhere(alloc: Global, from: &[StopNo], leave: Sec) -> Result<Query, Memory>
    ensures { IfOk result (λ query. query ≡ everywhere from.now leave) }
{
    Ok(Query {
        from: Vec::from_slice(alloc, from)?,
        to: Vec::new(alloc),
        leave,
    })
}

// The best values to every stop, by a query without targets.
fn reach_from<L: Ledger, S: Look<L>>(
    alloc: Global,
    scan: &S,
    query: &Query,
    desk: &mut Desk,
    steps: &mut Steps<L>,
) -> Result<Vec<Vec<Value>>, Memory>
    requires fits { Fits (S.net scan.now).table desk.old }
    requires origins { All (λ p. p < length (S.net scan.now).table.stops) query.now.from }
    requires leave { query.now.leave ≤ℤ pos 359999 }
    requires no_target { query.now.to ≡ [] }
    requires sufficient { AreSufficient (S.net scan.now).table (S.net scan.now).hops }
    ensures reach { IfOk result (λ lists. IsReach (S.net scan.now).table query.now.from
        query.now.leave (map (λ list. list.items) lists.items)) }
    ensures fits { Fits (S.net scan.now).table desk.new }
    ensures steps { steps.new ≤ steps.old + search_looks (S.net scan.now) query.now.from }
{
    scan.soundness();
    let mut offers = Offers::new(alloc, scan, query)?;
    let groups = scan.groups();
    // There is no target, so any group is theirs: one that no stop is of spares looking for one.
    let search = Search {
        scan,
        query,
        groups,
        target_group: Some(u32::MAX),
    };
    search.run(desk, &mut offers, steps);
    offers.into_rows()
}

/// For each stop, by its number, the best values of the query with these origins, this time in
/// seconds since noon minus twelve hours, and that stop as the only target: by rides, smallest
/// first, and none where nothing leads to the stop. Any sufficient set of hops gives the same.
/// One search without targets serves all stops: what a ride gives is offered to the stop and to
/// those with a walk from there. It takes at most as many steps as there are events and, at the
/// stops with a walk from an origin, line indices, which is the bound of a search for one target.
/// Refused only for want of memory; the desk fits the scan afterwards, also then.
pub fn reach_all<L: Ledger, S: Look<L>>(
    alloc: Global,
    scan: &S,
    from: &[StopNo],
    leave: Sec,
    desk: &mut Desk,
    steps: &mut Steps<L>,
) -> Result<Vec<Vec<Value>>, Memory>
    requires fits { Fits (S.net scan.now).table desk.old }
    requires origins { All (λ p. p < length (S.net scan.now).table.stops) from.now }
    requires leave { leave ≤ℤ pos 359999 }
    requires sufficient { AreSufficient (S.net scan.now).table (S.net scan.now).hops }
    ensures reach { IfOk result (λ lists. IsReach (S.net scan.now).table from.now leave
        (map (λ list. list.items) lists.items)) }
    ensures fits { Fits (S.net scan.now).table desk.new }
    ensures steps { steps.new ≤ steps.old + search_looks (S.net scan.now) from.now }
{
    let query = query_everywhere(alloc, from, leave)?;
    reach_from(alloc, scan, &query, desk, steps)
}
