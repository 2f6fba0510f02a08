//! The best values of a query, by the search and by plain rounds.
ghost use Rattle.std.specs.Prelude.{◌<◌, ◌≤◌, ◌≤ℤ◌, pos, All, length};

use super::claims::{claim, judged_claims, verdict_on};
use super::tally::AnswersTally;
use crate::comparing::refused::{Difference, Refused, held};
use crate::ways::{asked_by_rounds, searched};
use edition_store::Edition;
use journey_read::Verdict;
use segment_queue::Desk;
use std::alloc::Global;
use tb_base::{Choice, Memory, Query, Timetable};

/// Whether the choices have the same values in the same order.
pub fn have_same_values(one: &[Choice], other: &[Choice]) -> bool {
    one.len() == other.len()
        && one
            .iter()
            .zip(other.iter())
            .all(|(c, d)| c.value == d.value)
}

// Whether a choice is a journey with its value.
fn is_right(
    alloc: Global,
    table: &Timetable,
    query: &Query,
    choice: &Choice,
) -> Result<bool, Memory>
    requires origins { All (λ p. p < length table.now.stops) query.now.from }
    requires time { query.now.leave ≤ℤ pos 359999 }
{
    let claimed = claim(alloc, choice.value, choice.legs.as_slice())?;
    Ok(verdict_on(table, query, &claimed) == Some(Verdict::Yes))
}

/// Whether each choice is a journey with its value.
pub fn are_right(
    alloc: Global,
    table: &Timetable,
    query: &Query,
    choices: &[Choice],
) -> Result<bool, Memory>
    requires origins { All (λ p. p < length table.now.stops) query.now.from }
    requires time { query.now.leave ≤ℤ pos 359999 }
{
    for choice in choices {
        if !is_right(alloc, table, query, choice)? {
            return Ok(false);
        }
    }
    Ok(true)
}

// Holds choices of a query against one another: they have the same values, each a journey.
fn compare_choices(
    alloc: Global,
    table: &Timetable,
    query: &Query,
    one: &[Choice],
    other: &[Choice],
) -> Result<(), Refused>
    requires origins { All (λ p. p < length table.now.stops) query.now.from }
    requires time { query.now.leave ≤ℤ pos 359999 }
{
    held(have_same_values(one, other), Difference::Values)?;
    held(are_right(alloc, table, query, one)?, Difference::Values)?;
    held(are_right(alloc, table, query, other)?, Difference::Values)
}

// Holds the choices of the search against those of plain rounds.
fn compare_search(
    alloc: Global,
    edition: &Edition,
    desk: &mut Desk,
    query: &Query,
    plain: &[Choice],
) -> Result<(), Refused>
    requires origins { All (λ p. p < length edition.now.table.stops) query.now.from }
    requires targets { All (λ p. p < length edition.now.table.stops) query.now.to }
    requires time { query.now.leave ≤ℤ pos 359999 }
{
    let searched = searched(alloc, edition, desk, query)?;
    compare_choices(alloc, edition.table(), query, searched.as_slice(), plain)
}

// Holds the choices of plain rounds, the best, against the search, and claims that differ from one
// of them in one field against the rules.
fn compare_plain(
    alloc: Global,
    edition: &Edition,
    desk: &mut Desk,
    query: &Query,
    best: &[Choice],
) -> Result<AnswersTally, Refused>
    requires origins { All (λ p. p < length edition.now.table.stops) query.now.from }
    requires targets { All (λ p. p < length edition.now.table.stops) query.now.to }
    requires time { query.now.leave ≤ℤ pos 359999 }
{
    compare_search(alloc, edition, desk, query, best)?;
    match judged_claims(alloc, edition.table(), query, best)? {
        None => Err(Refused::Differs(Difference::Claims)),
        Some(claims) => Ok(AnswersTally {
            queries: 1,
            values: best.len() as u64,
            claims: claims as u64,
            ..AnswersTally::NOTHING
        }),
    }
}

/// Holds the best values of a query against plain rounds, and claims that differ from a choice in
/// one field against the rules.
pub fn compare_values(
    alloc: Global,
    edition: &Edition,
    desk: &mut Desk,
    query: &Query,
) -> Result<AnswersTally, Refused>
    requires origins { All (λ p. p < length edition.now.table.stops) query.now.from }
    requires targets { All (λ p. p < length edition.now.table.stops) query.now.to }
    requires time { query.now.leave ≤ℤ pos 359999 }
{
    let plain = asked_by_rounds(alloc, edition.table(), query)?;
    compare_plain(alloc, edition, desk, query, plain.as_slice())
}
