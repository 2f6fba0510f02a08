//! What is answered, and its text.
ghost use Rattle.std.specs.Prelude.{◌≡◌, IfOk, codes};
ghost use Rattle.query_gate.specs.Replies.{HaveNumbers, deferred_text, reply_text};

use answer_text::{choices_text, offers_text, unknown_text};
use arrive_by::{Departure, departures_text};
use reach_all::{TravelTimes, reach_text, times_text};
use std::alloc::Global;
use tb_base::{Choice, Memory, Name, Offer, Timetable, Value};

/// What is answered to a question.
#[derive(Drop)]
pub enum Reply {
    /// The best values, fewest rides first, each with a journey.
    Values(Vec<Choice>),
    /// The slots of a profile, last departure first, each with a journey.
    Slots(Vec<Offer>),
    /// The latest departures, fewest rides first, each with a journey.
    Departures(Vec<Departure>),
    /// The best values to each stop, by its number.
    Reached(Vec<Vec<Value>>),
    /// What the travel times to each stop are.
    Times(TravelTimes),
    /// The first name that no stop and no station has.
    UnknownStop(Name),
    /// The edition with this number or a later one was asked for, and isn't there yet.
    Deferred(u32),
    /// Latest departures were asked of an edition that has no mirror.
    NoMirror,
}

// `no mirror`.
fn no_mirror_text(alloc: Global) -> Result<Vec<u8>, Memory>
    ensures { IfOk result (λ v. v.items ≡ codes "no mirror\n") }
{
    Ok(Vec::from_slice(alloc, b"no mirror\n")?)
}

// `deferred N`.
fn deferred_text(alloc: Global, number: u32) -> Result<Vec<u8>, Memory>
    ensures { IfOk result (λ v. v.items ≡ deferred_text number) }
{
    match format!(in alloc; "deferred {number}\n") {
        Ok(text) => Ok(text.into_bytes()),
        Err(_) => Err(Memory),
    }
}

/// The lines of a reply over a timetable. Its one refusal is want of memory, which may come at any
/// time.
pub fn reply_text(alloc: Global, table: &Timetable, reply: &Reply) -> Result<Vec<u8>, Memory>
    requires { HaveNumbers table.now reply.now }
    ensures { IfOk result (λ v. v.items ≡ reply_text table.now reply.now) }
{
    match reply {
        Reply::Values(choices) => choices_text(alloc, table, choices.as_slice()),
        Reply::Slots(offers) => offers_text(alloc, table, offers.as_slice()),
        Reply::Departures(departures) => departures_text(alloc, table, departures.as_slice()),
        Reply::Reached(lists) => reach_text(alloc, table, lists.as_slice()),
        Reply::Times(travel) => times_text(alloc, table, travel),
        Reply::UnknownStop(name) => unknown_text(alloc, name.bytes()),
        Reply::Deferred(number) => deferred_text(alloc, *number),
        Reply::NoMirror => no_mirror_text(alloc),
    }
}
