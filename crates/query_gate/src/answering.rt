//! Answers to questions about the network of a day.
ghost use Rattle.std.specs.Prelude.{◌≡◌, ◌<◌, ◌≤ℤ◌, IfOk, pos};
ghost use Rattle.answer_text.specs.Questions.{AreDepartureTimes, HasTimes, IsArrivalTime};
ghost use Rattle.answer_text.specs.declared.question.Question.TheVariants as question;
ghost use Rattle.edition_store.specs.Editions.{net_of};
ghost use Rattle.edition_store.specs.Mirror.{IsMirror};
ghost use Rattle.query_gate.specs.Questions.{Serves};
ghost use Rattle.query_gate.specs.Replies.{HaveNumbers, IsReply, LeavesAnswered, over};

use crate::between::{Between, stops_between};
use crate::offers::best_offers;
use crate::reply::Reply;
use answer_text::Question;
use arrive_by::{Arrival, latest};
use earliest_query::earliest;
use edition_store::Network;
use journey_unfold::choices;
use reach_all::{Departures, reach_all, travel_times};
use segment_queue::{Desk, Steps};
use std::alloc::Global;
use std::marker::Brand;
use std::sync::ledger::{Blank, Ledger};
use tb_base::{Memory, Name, Query, Sec, Timetable, Window};

// The reply to a question for the best values, on a ledger that nobody else counts in.
fn values_between<L: Ledger>(
    alloc: Global,
    network: &Network,
    desk: &mut Desk,
    from: &Name,
    to: &Name,
    leave: Sec,
    blank: Blank,
) -> Result<Reply, Memory>
    requires name { blank.name ≡ L.name }
    requires parts { blank.parts ≡ L.parts }
    requires some { 0 < L.parts }
    requires time { leave ≤ℤ pos 359999 }
    ensures reply { IfOk result
        (IsReply (net_of network.now) (question.Ask from.now to.now leave)) }
    ensures numbers { IfOk result (HaveNumbers network.now.table) }
    ensures desk { IfOk result (λ reply.
        LeavesAnswered (net_of network.now) (question.Ask from.now to.now leave) reply desk.new) }
{
    network.soundness();
    let table = network.table();
    match stops_between(alloc, table, from.bytes(), to.bytes())? {
        Between::Unknown(name) => Ok(Reply::UnknownStop(Name::new(alloc, name)?)),
        Between::Stops(from, to) => {
            let query = Query { from, to, leave };
            desk.make_room(network)?;
            let mut steps = Steps::<L>::new(blank);
            earliest(network, &query, desk, &mut steps);
            let choices = choices(alloc, desk, table, &query)?;
            Ok(Reply::Values(choices))
        }
    }
}

// The reply to a question for a profile, on a ledger that nobody else counts in.
fn slots_between<L: Ledger>(
    alloc: Global,
    network: &Network,
    desk: &mut Desk,
    from: &Name,
    to: &Name,
    first: Sec,
    last: Sec,
    blank: Blank,
) -> Result<Reply, Memory>
    requires name { blank.name ≡ L.name }
    requires parts { blank.parts ≡ L.parts }
    requires some { 0 < L.parts }
    requires time { last ≤ℤ pos 359999 }
    ensures reply { IfOk result
        (IsReply (net_of network.now) (question.Profile from.now to.now first last)) }
    ensures numbers { IfOk result (HaveNumbers network.now.table) }
{
    network.soundness();
    let table = network.table();
    match stops_between(alloc, table, from.bytes(), to.bytes())? {
        Between::Unknown(name) => Ok(Reply::UnknownStop(Name::new(alloc, name)?)),
        Between::Stops(from, to) => {
            let window = Window {
                from,
                to,
                first,
                last,
            };
            desk.make_room(network)?;
            let mut steps = Steps::<L>::new(blank);
            let offers = best_offers(alloc, network, table, &window, desk, &mut steps)?;
            Ok(Reply::Slots(offers))
        }
    }
}

// The reply to a question for the latest departures, by the network of the mirror.
fn departures_between(
    alloc: Global,
    table: &Timetable,
    mirrored: &Network,
    desk: &mut Desk,
    from: &Name,
    to: &Name,
    arrive: Sec,
) -> Result<Reply, Memory>
    requires mirror { IsMirror table.now mirrored.now.table }
    requires time { IsArrivalTime arrive }
    ensures reply { IfOk result (IsReply (over table.now mirrored.now)
        (question.Latest from.now to.now arrive)) }
    ensures numbers { IfOk result (HaveNumbers table.now) }
{
    match stops_between(alloc, table, from.bytes(), to.bytes())? {
        Between::Unknown(name) => Ok(Reply::UnknownStop(Name::new(alloc, name)?)),
        Between::Stops(from, to) => {
            let arrival = Arrival {
                from,
                to,
                by: arrive,
            };
            let departures = latest(alloc, mirrored, table, &arrival, desk)?;
            Ok(Reply::Departures(departures))
        }
    }
}

// The reply to a question for every stop, on a ledger that nobody else counts in.
fn values_from<L: Ledger>(
    alloc: Global,
    network: &Network,
    desk: &mut Desk,
    from: &Name,
    leave: Sec,
    blank: Blank,
) -> Result<Reply, Memory>
    requires name { blank.name ≡ L.name }
    requires parts { blank.parts ≡ L.parts }
    requires some { 0 < L.parts }
    requires time { leave ≤ℤ pos 359999 }
    ensures reply { IfOk result (IsReply (net_of network.now) (question.Reach from.now leave)) }
    ensures numbers { IfOk result (HaveNumbers network.now.table) }
{
    network.soundness();
    let table = network.table();
    let Some(origin) = table.place(from.bytes()) else {
        return Ok(Reply::UnknownStop(Name::new(alloc, from.bytes())?));
    };
    let origins = table.place_stops(alloc, origin)?;
    desk.make_room(network)?;
    let mut steps = Steps::<L>::new(blank);
    let lists = reach_all(alloc, network, origins.as_slice(), leave, desk, &mut steps)?;
    Ok(Reply::Reached(lists))
}

// The reply to a question for travel times, on a ledger that nobody else counts in.
fn times_from<L: Ledger>(
    alloc: Global,
    network: &Network,
    desk: &mut Desk,
    from: &Name,
    departures: &Departures,
    rides: Option<u32>,
    blank: Blank,
) -> Result<Reply, Memory>
    requires name { blank.name ≡ L.name }
    requires parts { blank.parts ≡ L.parts }
    requires some { 0 < L.parts }
    requires times { AreDepartureTimes departures.now.first departures.now.last
        departures.now.step }
    ensures reply { IfOk result (IsReply (net_of network.now) (question.Times from.now
        departures.now.first departures.now.last departures.now.step rides)) }
    ensures numbers { IfOk result (HaveNumbers network.now.table) }
{
    network.soundness();
    let table = network.table();
    let Some(origin) = table.place(from.bytes()) else {
        return Ok(Reply::UnknownStop(Name::new(alloc, from.bytes())?));
    };
    let origins = table.place_stops(alloc, origin)?;
    desk.make_room(network)?;
    let mut steps = Steps::<L>::new(blank);
    let travel = travel_times(
        alloc,
        network,
        origins.as_slice(),
        departures,
        rides,
        desk,
        &mut steps,
    )?;
    Ok(Reply::Times(travel))
}

/// Answers a question about a timetable by a network that serves it: that of the timetable, or for
/// the latest departures that of its mirror. `UnknownStop` comes exactly where no stop and no
/// station has a name of the question, the origin's tried first; `Deferred` and `NoMirror` never.
/// After `Values` the desk holds the answer, whose hits have these values. The desk may have served
/// any network before; it is made to fit. Refused only for want of memory.
pub fn answer(
    alloc: Global,
    table: &Timetable,
    network: &Network,
    desk: &mut Desk,
    question: &Question,
) -> Result<Reply, Memory>
    requires times { HasTimes question.now }
    requires serves { Serves table.now network.now.table question.now }
    ensures reply { IfOk result (IsReply (over table.now network.now) question.now) }
    ensures numbers { IfOk result (HaveNumbers table.now) }
    ensures desk { IfOk result (λ reply.
        LeavesAnswered (over table.now network.now) question.now reply desk.new) }
{
    match question {
        Question::Ask { from, to, leave } => {
            values_between::<Brand>(alloc, network, desk, from, to, *leave, Blank::new(1))
        }
        Question::Profile {
            from,
            to,
            first,
            last,
        } => slots_between::<Brand>(alloc, network, desk, from, to, *first, *last, Blank::new(1)),
        Question::Latest { from, to, arrive } => {
            departures_between(alloc, table, network, desk, from, to, *arrive)
        }
        Question::Reach { from, leave } => {
            values_from::<Brand>(alloc, network, desk, from, *leave, Blank::new(1))
        }
        Question::Times {
            from,
            first,
            last,
            step,
            rides,
        } => {
            let departures = Departures {
                first: *first,
                last: *last,
                step: *step,
            };
            times_from::<Brand>(
                alloc,
                network,
                desk,
                from,
                &departures,
                *rides,
                Blank::new(1),
            )
        }
    }
}
