//! The best values to every stop, asked at once and one by one.
ghost use Rattle.std.specs.Prelude.{◌<◌, ◌≤ℤ◌, All, length, pos};

use super::tally::AnswersTally;
use crate::comparing::refused::{Difference, Refused, held};
use crate::ways::{asked_by_rounds, reached};
use edition_store::Edition;
use segment_queue::Desk;
use std::alloc::Global;
use tb_base::{Choice, Memory, Query, Sec, StopNo, Timetable, Value};

// The best choices to one stop, by plain rounds.
fn choices_to(
    alloc: Global,
    table: &Timetable,
    from: &[StopNo],
    leave: Sec,
    stop: u32,
) -> Result<Vec<Choice>, Memory>
    requires origins { All (λ p. p < length table.now.stops) from.now }
    requires leave { leave ≤ℤ pos 359999 }
    requires stop { stop < length table.now.stops }
{
    let query = Query {
        from: Vec::from_slice(alloc, from)?,
        to: vec![in alloc; StopNo(stop)]?,
        leave,
    };
    asked_by_rounds(alloc, table, &query)
}

// Whether choices have these values, in the same order.
fn have_values(choices: &[Choice], values: &[Value]) -> bool {
    choices
        .iter()
        .map(|choice| choice.value)
        .eq(values.iter().copied())
}

// The values of a stop, none where there is no such list.
fn values_of(lists: &[Vec<Value>], stop: u32) -> &[Value] {
    match lists.get(stop as usize) {
        Some(values) => values.as_slice(),
        None => &[],
    }
}

// Whether each list has the best values to its stop.
fn are_best(
    alloc: Global,
    table: &Timetable,
    from: &[StopNo],
    leave: Sec,
    lists: &[Vec<Value>],
) -> Result<bool, Memory>
    requires origins { All (λ p. p < length table.now.stops) from.now }
    requires leave { leave ≤ℤ pos 359999 }
{
    for stop in 0..table.stop_count() {
        let choices = choices_to(alloc, table, from, leave, stop)?;
        if !have_values(choices.as_slice(), values_of(lists, stop)) {
            return Ok(false);
        }
    }
    Ok(true)
}

/// Holds the best values to every stop against asking for each stop alone.
pub fn compare_reach(
    alloc: Global,
    edition: &Edition,
    desk: &mut Desk,
    from: &[StopNo],
    leave: Sec,
) -> Result<AnswersTally, Refused>
    requires origins { All (λ p. p < length edition.now.table.stops) from.now }
    requires leave { leave ≤ℤ pos 359999 }
{
    let lists = reached(alloc, edition, desk, from, leave)?;
    let count = lists.len() as u64;
    let best = are_best(alloc, edition.table(), from, leave, lists.as_slice());
    drop(lists);
    held(best?, Difference::Reach)?;
    Ok(AnswersTally {
        reached: count,
        ..AnswersTally::NOTHING
    })
}
