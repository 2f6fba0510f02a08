//! The values that a search has found, each with the legs of a journey.
ghost use Rattle.std.specs.Prelude.{◌≡◌, ◌<◌, ℕ, List, All, IfOk, length, map};
ghost use Rattle.tb_base.specs.BestValues.{ChoiceData};
ghost use Rattle.tb_base.specs.JourneyRules.{SpellValue};
ghost use Rattle.tb_base.specs.declared.transfer.Hop.{Hop};
ghost use Rattle.segment_queue.specs.Traced.{IsTraced, LegsFollow, UsesHops};
ghost use Rattle.plain_rounds.specs.Shown.{SpellShortest};

use super::journey::unfold;
use segment_queue::Desk;
use std::alloc::Global;
use tb_base::{Choice, Memory, Query, Timetable};

/// The values of the hits of a traced desk in order, each with the legs of the hit's journey, by
/// the shortest walks at both ends. Where the segments go by hops of a set, the journeys change by
/// hops of that set. Of a desk that holds the answer to the query they are the best values, and the
/// network's hops are such a set. Refused only for want of memory.
pub fn choices(
    alloc: Global,
    desk: &Desk,
    table: &Timetable,
    query: &Query,
) -> Result<Vec<Choice>, Memory>
    requires origins { All (λ p. p < length table.now.stops) query.now.from }
    requires targets { All (λ p. p < length table.now.stops) query.now.to }
    requires traced { IsTraced table.now query.now desk.now }
    ensures values { IfOk result (λ cs.
        map ChoiceData.value cs.items ≡ map (λ h. h.value) desk.now.hits) }
    ensures journeys { IfOk result
        (λ cs. All (λ c. SpellValue table.now query.now (ChoiceData.legs c) (ChoiceData.value c))
        cs.items) }
    ensures walks { IfOk result
        (λ cs. All (λ c. SpellShortest table.now query.now (ChoiceData.legs c) (ChoiceData.value c))
        cs.items) }
    ensures hops { IfOk result (λ cs. (hops : ℕ → ℕ → List Hop) → UsesHops hops desk.now.segments →
        All (λ c. LegsFollow hops (ChoiceData.legs c)) cs.items) }
{
    let mut choices = Vec::new(alloc);
    for hit in desk.hits() {
        let legs = unfold(alloc, desk, hit, table, query)?;
        choices.push(Choice {
            value: hit.value,
            legs,
        })?;
    }
    Ok(choices)
}
