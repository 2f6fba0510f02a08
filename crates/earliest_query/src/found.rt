//! The values that a sweep has found.
ghost use Rattle.std.specs.Prelude.{◌≡◌, All, Contains, IsTrue, ◌↔◌, OnOk, filter, nat_lt};
ghost use Rattle.tb_laws.specs.Pruning.{AreCoveredBy};
ghost use Rattle.earliest_query.specs.Sweeping.{IsKeptBeside, values_with};
ghost use Rattle.earliest_query.specs.UnderWay.{IsHit};

use segment_queue::Hit;
use tb_base::{Memory, Value};

/// Lets the values without rides go.
pub(crate) fn drop_walks(values: &mut Vec<Value>)
    ensures { values.new.items ≡ filter (λ v. nat_lt 0 v.rides) values.old.items }
{
    values.retain(|value| 0 < value.rides);
}

// Whether some hit is no worse than a value.
fn is_beaten(hits: &[Hit], value: &Value) -> bool
    ensures { IsTrue result ↔ IsHit hits.now value.now }
{
    for hit in hits {
        if hit.value.arrive <= value.arrive && hit.value.rides <= value.rides {
            return true;
        }
    }
    false
}

/// Lets go the values that some hit is no worse than, and adds the values of the hits.
pub(crate) fn take_hits(values: &mut Vec<Value>, hits: &[Hit]) -> Result<(), Memory>
    ensures from { OnOk result (All (Contains (values_with hits.now values.old.items))
        values.new.items) }
    ensures covers { OnOk result (AreCoveredBy (values_with hits.now values.old.items)
        values.new.items) }
    ensures let_go { OnOk result (All (IsKeptBeside hits.now) values.new.items) }
{
    values.retain(|value| !is_beaten(hits, value));
    for hit in hits {
        values.push(hit.value)?;
    }
    Ok(())
}
