ghost use Rattle.std.specs.Prelude.{◌≡◌, List, ◌+◌, ◌<◌, ◌≤◌, All, length, map, pos, ◌≤ℤ◌};
ghost use Rattle.tb_base.specs.Sufficiency.{AreSufficient};
ghost use Rattle.tb_laws.specs.Pruning.{IsPrunedSearch};
ghost use Rattle.segment_queue.specs.Queue.{Fits, IsInStep};
ghost use Rattle.segment_queue.specs.Traced.{IsAnswered, round_segments};
ghost use Rattle.tb_base.specs.Search.{RoundSegment};
ghost use Rattle.earliest_query.specs.Choices.{search_looks};
ghost use Rattle.earliest_query.specs.Parts.{ArePartsOf};
ghost use Rattle.earliest_query.specs.UnderWay.{room_of};

use super::at_event::HitsAlone;
use super::search::Search;
use super::walks::{common_group, targets};
use segment_queue::{Desk, Look, Steps};
use std::sync::ledger::Ledger;
use tb_base::Query;

/// Searches over a set of hops that is sufficient, and leaves the answer in the desk: its hits have
/// exactly the best values of the query, and its segments go by hops of the set. First parts of the
/// segments are a search that goes on from everywhere but where it arrives no earlier than a hit
/// with no more rides; so for a query without targets the segments serve every stop, by the laws of
/// this crate. It takes no memory, and at most as many steps as there are events and, at the stops
/// with a walk from an origin, line indices.
pub fn earliest<L: Ledger, S: Look<L>>(
    scan: &S,
    query: &Query,
    desk: &mut Desk,
    steps: &mut Steps<L>,
)
    requires fits { Fits (S.net scan.now).table desk.old }
    requires origins { All (λ p. p < length (S.net scan.now).table.stops) query.now.from }
    requires leave { query.now.leave ≤ℤ pos 359999 }
    requires sufficient { AreSufficient (S.net scan.now).table (S.net scan.now).hops }
    ensures step { IsInStep (S.net scan.now) desk.new }
    ensures answered { IsAnswered (S.net scan.now) query.now desk.new }
    ensures searched { (parts : List RoundSegment)
        × ArePartsOf (round_segments desk.new.segments) parts
        × IsPrunedSearch (S.net scan.now).table (S.net scan.now).hops query.now.from
        query.now.leave (map (λ h. h.value) desk.new.hits) parts }
    ensures room { room_of desk.new ≡ room_of desk.old }
    ensures steps { steps.new ≤ steps.old + search_looks (S.net scan.now) query.now.from }
{
    scan.soundness();
    let groups = scan.groups();
    let search = Search {
        scan,
        query,
        groups,
        target_group: common_group(groups, targets(query)),
    };
    search.run(desk, &mut HitsAlone, steps);
}
