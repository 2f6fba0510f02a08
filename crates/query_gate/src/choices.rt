//! The best values of a query over any network whose hops suffice.
ghost use Rattle.std.specs.Prelude.{◌≡◌, ◌+◌, ◌<◌, ◌≤◌, ◌≤ℤ◌, All, IfOk, length, map, pos};
ghost use Rattle.tb_base.specs.BestValues.{ChoiceData};
ghost use Rattle.tb_base.specs.Sufficiency.{AreSufficient};
ghost use Rattle.segment_queue.specs.Queue.{Fits};
ghost use Rattle.segment_queue.specs.Traced.{IsAnswered};
ghost use Rattle.earliest_query.specs.Choices.{search_looks};
ghost use Rattle.query_gate.specs.Replies.{AreBestChoices};

use earliest_query::earliest;
use journey_unfold::choices;
use segment_queue::{Desk, Look, Steps};
use std::alloc::Global;
use std::sync::ledger::Ledger;
use tb_base::{Choice, Memory, Query, Timetable};

/// The best values in order, each with the legs of a journey that has it: by the shortest walks at
/// both ends, and with changes by hops of the network alone. Any sufficient hops give the same
/// values. The search takes no memory, since the desk was made to fit before; the list of choices
/// does. It looks at most as often as there are events and, at the stops with a walk from an
/// origin, line indices. Refused only for want of memory, and then the desk fits and is answered
/// still.
pub fn best_choices<L: Ledger, S: Look<L>>(
    alloc: Global,
    scan: &S,
    table: &Timetable,
    query: &Query,
    desk: &mut Desk,
    steps: &mut Steps<L>,
) -> Result<Vec<Choice>, Memory>
    requires table { (S.net scan.now).table ≡ table.now }
    requires fits { Fits table.now desk.old }
    requires origins { All (λ p. p < length table.now.stops) query.now.from }
    requires targets { All (λ p. p < length table.now.stops) query.now.to }
    requires leave { query.now.leave ≤ℤ pos 359999 }
    requires sufficient { AreSufficient table.now (S.net scan.now).hops }
    ensures best { IfOk result (λ cs. AreBestChoices (S.net scan.now) query.now cs.items) }
    ensures hits { IfOk result (λ cs.
        map ChoiceData.value cs.items ≡ map (λ h. h.value) desk.new.hits) }
    ensures fits { Fits table.now desk.new }
    ensures answered { IsAnswered (S.net scan.now) query.now desk.new }
    ensures looks { steps.new ≤ steps.old + search_looks (S.net scan.now) query.now.from }
{
    earliest(scan, query, desk, steps);
    choices(alloc, desk, table, query)
}
