//! Texts over a timetable, without lines and transfers.
ghost use Rattle.std.specs.Prelude.{◌≤ℤ◌, IfOk, pos, true};
ghost use Rattle.answer_text.specs.declared.question.Question.TheVariants as question;
ghost use Rattle.query_gate.specs.Replies.{HaveNumbers};
ghost use Rattle.router_cli.specs.Answers.{IsDirectText, IsInquiryText, IsQuery, IsRoundsReply, ShowsReply};

use answer_json::{Frame, shown_arrival, shown_unknown};
use command_line::Inquiry;
use plain_rounds::{direct, plain_ask};
use query_gate::{Between, Reply, shown_reply, stops_between};
use std::alloc::Global;
use tb_base::{Memory, Name, Query, Sec, Timetable};

/// The query between two named places of a timetable, or the name that is no place.
pub(crate) enum Asked<'a> {
    Query(Query),
    Unknown(&'a [u8]),
}

/// The query between two named places.
pub(crate) fn query_of<'a>(
    alloc: Global,
    table: &Timetable,
    from: &'a [u8],
    to: &'a [u8],
    leave: Sec,
) -> Result<Asked<'a>, Memory>
    ensures { IfOk result (IsQuery table.now from.now to.now leave) }
{
    match stops_between(alloc, table, from, to)? {
        Between::Unknown(name) => Ok(Asked::Unknown(name)),
        Between::Stops(from, to) => Ok(Asked::Query(Query { from, to, leave })),
    }
}

/// The earliest arrival by one ride.
pub(crate) fn direct_text(
    alloc: Global,
    json: bool,
    table: &Timetable,
    inquiry: &Inquiry,
) -> Result<Vec<u8>, Memory>
    ensures { IfOk result (λ text.
        IsInquiryText json table.now IsDirectText inquiry.now text.items) }
{
    match query_of(alloc, table, inquiry.from, inquiry.to, inquiry.time)? {
        Asked::Unknown(name) => shown_unknown(alloc, json, name),
        Asked::Query(query) => shown_arrival(alloc, json, direct(table, &query)),
    }
}

// The best values between two named places, each with a journey, round by round.
fn rounds_reply(
    alloc: Global,
    table: &Timetable,
    from: &Name,
    to: &Name,
    leave: Sec,
) -> Result<Reply, Memory>
    requires { leave ≤ℤ pos 359999 }
    ensures reply { IfOk result (IsRoundsReply table.now from.now to.now leave) }
    ensures numbers { IfOk result (HaveNumbers table.now) }
{
    table.soundness();
    match query_of(alloc, table, from.bytes(), to.bytes(), leave)? {
        Asked::Unknown(name) => Ok(Reply::UnknownStop(Name::new(alloc, name)?)),
        Asked::Query(query) => {
            let choices = plain_ask(alloc, table, &query)?;
            Ok(Reply::Values(choices))
        }
    }
}

/// The reply to a question for the best values, round by round.
pub(crate) fn rounds_text(
    alloc: Global,
    json: bool,
    table: &Timetable,
    from: &Name,
    to: &Name,
    leave: Sec,
) -> Result<Vec<u8>, Memory>
    requires { leave ≤ℤ pos 359999 }
    ensures { IfOk result (λ text. ShowsReply json table.now true
        (question.Ask from.now to.now leave) text.items) }
{
    let reply = rounds_reply(alloc, table, from, to, leave)?;
    let text = shown_reply(alloc, json, Frame::Lines, table, &reply);
    drop(reply);
    text
}
