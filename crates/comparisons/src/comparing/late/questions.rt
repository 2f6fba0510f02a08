//! The answers over two editions.
ghost use Rattle.std.specs.Prelude.{◌<◌, ◌≤ℤ◌, pos, All, IsTrue, length};

use super::drawn::{DrawnQuestion, some_question};
use super::tally::AmendedTally;
use crate::comparing::answers::queries::{are_right, have_same_values};
use crate::comparing::refused::{Difference, Refused, held};
use crate::questions::query;
use crate::ways::searched;
use edition_store::Edition;
use feed_maker::Draw;
use segment_queue::Desk;
use std::alloc::Global;
use tb_base::{Choice, Memory, Query, Timetable};

// How much is asked over two editions.
const QUESTIONS: u32 = 12;

// Whether a timetable has the stops of a question.
fn has_stops(table: &Timetable, question: &DrawnQuestion) -> bool
    ensures from { IsTrue result → question.now.from < length table.now.stops }
    ensures to { IsTrue result → question.now.to < length table.now.stops }
{
    question.from.0 < table.stop_count() && question.to.0 < table.stop_count()
}

// The choices of a query over an edition, each of which is a journey with its value.
fn right_choices(
    alloc: Global,
    edition: &Edition,
    desk: &mut Desk,
    query: &Query,
) -> Result<Vec<Choice>, Refused>
    requires origins { All (λ p. p < length edition.now.table.stops) query.now.from }
    requires targets { All (λ p. p < length edition.now.table.stops) query.now.to }
    requires time { query.now.leave ≤ℤ pos 359999 }
{
    let choices = searched(alloc, edition, desk, query)?;
    let refused = match are_right(alloc, edition.table(), query, choices.as_slice()) {
        Ok(true) => return Ok(choices),
        Ok(false) => Refused::Differs(Difference::Values),
        Err(Memory) => Refused::Memory,
    };
    drop(choices);
    Err(refused)
}

// The same for a question. None where the edition lacks one of its stops.
fn choices_of(
    alloc: Global,
    edition: &Edition,
    desk: &mut Desk,
    question: &DrawnQuestion,
) -> Result<Vec<Choice>, Refused> {
    let table = edition.table();
    if !has_stops(table, question) {
        return Ok(Vec::new(alloc));
    }
    let query = query(alloc, table, question.from.0, question.to.0, question.leave)?;
    let choices = right_choices(alloc, edition, desk, &query);
    drop(query);
    choices
}

// Whether a question has these values over an edition, in the same order.
fn has_values(
    alloc: Global,
    edition: &Edition,
    desk: &mut Desk,
    question: &DrawnQuestion,
    choices: &[Choice],
) -> Result<bool, Refused> {
    let others = choices_of(alloc, edition, desk, question)?;
    let same = have_same_values(choices, others.as_slice());
    drop(others);
    Ok(same)
}

// Holds the best values of a question over two editions against one another.
fn compare_values(
    alloc: Global,
    one: &Edition,
    other: &Edition,
    desk: &mut Desk,
    question: &DrawnQuestion,
    tally: &mut AmendedTally,
) -> Result<(), Refused> {
    let choices = choices_of(alloc, one, desk, question)?;
    let values = choices.len();
    let same = has_values(alloc, other, desk, question, choices.as_slice());
    drop(choices);
    held(same?, Difference::Values)?;
    tally.add_query(values);
    Ok(())
}

/// Holds the best values of some questions over two editions against one another.
pub fn compare_answers(
    alloc: Global,
    one: &Edition,
    other: &Edition,
    desk: &mut Desk,
    draw: &mut Draw,
    tally: &mut AmendedTally,
) -> Result<(), Refused> {
    for _turn in 0..QUESTIONS {
        if let Some(question) = some_question(draw, one.table()) {
            compare_values(alloc, one, other, desk, &question, tally)?;
        }
    }
    Ok(())
}
