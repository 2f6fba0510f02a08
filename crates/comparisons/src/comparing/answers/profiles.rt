//! The profile of a window, and the best values asked at each of its seconds.
ghost use Rattle.std.specs.Prelude.{◌<◌, ◌≤◌, ◌≤ℤ◌, pos, All, length};

use super::tally::AnswersTally;
use crate::comparing::refused::{Difference, Refused, held};
use crate::ways::{asked_by_rounds, offers_of};
use edition_store::Edition;
use segment_queue::Desk;
use std::alloc::Global;
use tb_base::{Choice, Memory, Offer, Query, Sec, Slot, Timetable, Value, Window};

/// The seconds of a window between two stops: a quarter of an hour.
pub const SECONDS: u32 = 900;

// The values with rides among those of choices.
fn ridden_among(alloc: Global, choices: &[Choice]) -> Result<Vec<Value>, Memory> {
    let values = choices.iter().map(|choice| choice.value);
    Ok(values.filter(|value| value.rides > 0).collect(alloc)?)
}

// The best values with rides of a query, by plain rounds.
fn ridden_values(alloc: Global, table: &Timetable, query: &Query) -> Result<Vec<Value>, Memory>
    requires origins { All (λ p. p < length table.now.stops) query.now.from }
    requires targets { All (λ p. p < length table.now.stops) query.now.to }
    requires time { query.now.leave ≤ℤ pos 359999 }
{
    let choices = asked_by_rounds(alloc, table, query)?;
    ridden_among(alloc, choices.as_slice())
}

// Whether no later value arrives no later with no more rides.
fn is_new(value: Value, later: &[Value]) -> bool {
    !later.iter().any(|other| other.arrive <= value.arrive && other.rides <= value.rides)
}

// Adds the slots that leave at a time: of its best values those that no value of a second later is
// as good as.
fn add_slots(
    slots: &mut Vec<Slot>,
    leave: Sec,
    values: &[Value],
    later: &[Value],
) -> Result<(), Memory> {
    for value in values {
        if is_new(*value, later) {
            slots.push(Slot {
                leave,
                arrive: value.arrive,
                rides: value.rides,
            })?;
        }
    }
    Ok(())
}

// The best values with rides of a window's query at a time.
fn values_at(
    alloc: Global,
    table: &Timetable,
    window: &Window,
    leave: Sec,
) -> Result<Vec<Value>, Memory>
    requires origins { All (λ p. p < length table.now.stops) window.now.from }
    requires targets { All (λ p. p < length table.now.stops) window.now.to }
    requires time { leave ≤ℤ pos 359999 }
{
    let query = Query {
        from: Vec::from_slice(alloc, window.from.as_slice())?,
        to: Vec::from_slice(alloc, window.to.as_slice())?,
        leave,
    };
    ridden_values(alloc, table, &query)
}

// The slots of a window, second by second from its end.
fn slots_by_seconds(
    alloc: Global,
    table: &Timetable,
    window: &Window,
    seconds: u32,
) -> Result<Vec<Slot>, Memory>
    requires origins { All (λ p. p < length table.now.stops) window.now.from }
    requires targets { All (λ p. p < length table.now.stops) window.now.to }
    requires last { window.now.last ≤ℤ pos 359998 }
    requires seconds { seconds ≤ 86400 }
{
    let mut slots = Vec::new(alloc);
    let mut later = values_at(alloc, table, window, window.last + 1)?;
    for back in 0..seconds {
        let leave = window.last.saturating_sub(back as i32);
        let values = values_at(alloc, table, window, leave)?;
        add_slots(&mut slots, leave, values.as_slice(), later.as_slice())?;
        later = values;
    }
    Ok(slots)
}

// Whether offers have these slots, in the same order.
fn have_slots(offers: &[Offer], slots: &[Slot]) -> bool {
    offers
        .iter()
        .map(|offer| offer.slot)
        .eq(slots.iter().copied())
}

/// Holds the profile of a window of so many seconds against asking at each of them.
pub fn compare_slots(
    alloc: Global,
    edition: &Edition,
    desk: &mut Desk,
    window: &Window,
    seconds: u32,
) -> Result<AnswersTally, Refused>
    requires origins { All (λ p. p < length edition.now.table.stops) window.now.from }
    requires targets { All (λ p. p < length edition.now.table.stops) window.now.to }
    requires last { window.now.last ≤ℤ pos 359998 }
    requires seconds { seconds ≤ 86400 }
{
    let asked = slots_by_seconds(alloc, edition.table(), window, seconds)?;
    let offers = offers_of(alloc, edition, desk, window)?;
    let same = have_slots(offers.as_slice(), asked.as_slice());
    drop(offers);
    held(same, Difference::Slots)?;
    Ok(AnswersTally {
        windows: 1,
        slots: asked.len() as u64,
        ..AnswersTally::NOTHING
    })
}
