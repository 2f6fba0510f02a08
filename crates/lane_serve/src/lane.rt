//! One lane.
ghost use Rattle.std.specs.Prelude.{◌≡◌, ◌<◌, ◌≤◌, ◌+◌, ◌-◌, All, List, true, length, IfOk};
ghost use Rattle.history.specs.Lists.{Extends, StartsWith};
ghost use Rattle.edition_store.specs.Editions.{EditionData};
ghost use Rattle.query_gate.specs.Callers.{HasLegNumbersIn};
ghost use Rattle.query_gate.specs.Said.{IsAskable};
ghost use Rattle.lane_serve.specs.Lanes.{IsRequestAnswered, IsClosing, IsLaneRun, IsReplyOf, is_due, to_close};

use answer_json::Frame;
use edition_store::{Last, Naming};
use query_gate::{Answer, Caller, Line, shown_reply};
use std::alloc::Global;
use std::marker::Model;
use tb_base::{Gate, Memory, Name, Work};

/// The reply to a request: the request's number in its lane, from 1; the number of the edition that
/// it was answered by, from 1; and the reply's lines, or as JSON its member.
#[derive(Drop)]
pub struct ReplyText {
    pub line: u32,
    pub edition: u32,
    pub text: Name,
}

/// A lane's name, and replies to requests of it, in order.
#[derive(Drop)]
pub struct LaneReport {
    pub name: Name,
    pub replies: Vec<ReplyText>,
}

impl Model for LaneReport {
    ghost use Rattle.lane_serve.specs.Lanes.{ReportData};

    ghost Value = { ReportData };

    ghost view = { λ r. record { name = r.name; replies = r.replies.items } };
}

// An answer to request k of a lane, as it is told.
fn told<J: Naming>(
    alloc: Global,
    k: u32,
    request: &Line,
    answer: &Answer<J>,
) -> Result<ReplyText, Memory>
    requires reply { IsReplyOf answer.now.pinned.list (length answer.now.pinned.list) request.now
        answer.now.reply }
    requires numbers { HasLegNumbersIn answer.now.pinned.list (length answer.now.pinned.list)
        answer.now.reply }
    ensures line { IfOk result (λ r. r.line ≡ k) }
    ensures edition { IfOk result (λ r. r.edition ≡ length answer.now.pinned.list) }
    ensures right { IfOk result (IsRequestAnswered answer.now.pinned.list request.now) }
{
    let edition = answer.pinned.edition();
    let text = shown_reply(
        alloc,
        request.json,
        Frame::Array,
        edition.table(),
        &answer.reply,
    )?;
    Ok(ReplyText {
        line: k,
        edition: answer.pinned.number(),
        text: Name::new(alloc, text.as_slice())?,
    })
}

// The reply to request k of a lane, by the last edition of the list that the caller then keeps.
fn answer<J: Naming>(
    alloc: Global,
    caller: &mut Caller<J>,
    k: u32,
    request: &Line,
) -> Result<ReplyText, Memory>
    requires { IsAskable request.now }
    ensures line { IfOk result (λ r. r.line ≡ k) }
    ensures edition { IfOk result (λ r. r.edition ≡ length caller.new.kept.list) }
    ensures right { IfOk result (IsRequestAnswered caller.new.kept.list request.now) }
    ensures later { Extends caller.new.kept caller.old.kept }
    ensures last { caller.old.kept.closed ≡ true → caller.new.kept ≡ caller.old.kept }
{
    match caller.answer(alloc, request.since, &request.question) {
        Ok(answer) => {
            let reply = told(alloc, k, request, &answer);
            drop(answer);
            reply
        }
        Err(Memory) => Err(Memory),
    }
}

/// Answers the requests of a lane in order. The replies are a lane's run over the list that the
/// caller keeps afterwards, and over each longer one; none is of an earlier edition than the last
/// one that the caller kept before. Waits for nobody but the gate. Its one refusal is want of
/// memory, which may come at any time. That the gate is told of each request, before it is asked
/// and when it is answered, is tested and in no clause.
pub fn run_lane<J: Naming, G: Gate>(
    alloc: Global,
    gate: &G,
    lane: u32,
    caller: &mut Caller<J>,
    requests: &[Line],
) -> Result<Vec<ReplyText>, Memory>
    requires few { length requests.now ≤ 20000 }
    requires times { All IsAskable requests.now }
    ensures run { IfOk result (λ v. IsLaneRun caller.new.kept.list requests.now v.items) }
    ensures longer { IfOk result (λ v. (es : List EditionData) →
        StartsWith es caller.new.kept.list → IsLaneRun es requests.now v.items) }
    ensures known { IfOk result (λ v.
        All (λ (r : ReplyText). length caller.old.kept.list ≤ r.edition) v.items) }
    ensures later { Extends caller.new.kept caller.old.kept }
{
    let mut replies = Vec::new(alloc);
    for i in 0..requests.len() {
        let line = i as u32;
        gate.begin(Work::Request { lane, line });
        let reply = answer(alloc, caller, line + 1, &requests[i]);
        gate.done(Work::Request { lane, line });
        let Ok(()) = replies.push(reply?) else {
            return Err(Memory);
        };
    }
    Ok(replies)
}

// Whether request k is answered once more: the first one, and each that was deferred.
fn is_due(k: u32, request: &Line, reply: &ReplyText) -> bool
    ensures { result ≡ is_due k request.now reply.now }
{
    k == 1 || reply.edition < request.since
}

/// Answers the first request of a lane and each that was deferred once more, by the last edition.
/// Where it isn't refused, the caller then keeps the whole list. Waits for nobody. Its one refusal
/// is want of memory, which may come at any time.
pub fn close_lane<J: Naming>(
    alloc: Global,
    caller: &mut Caller<J>,
    last: &Last<J>,
    requests: &[Line],
    replies: &[ReplyText],
) -> Result<Vec<ReplyText>, Memory>
    requires few { length requests.now ≤ 20000 }
    requires times { All IsAskable requests.now }
    requires replies { length replies.now ≡ length requests.now }
    ensures closing { IfOk result
        (λ v. IsClosing last.now (to_close 1 requests.now replies.now) v.items) }
    ensures later { Extends caller.new.kept caller.old.kept }
    ensures whole { IfOk result (λ _.
        caller.new.kept ≡ record { list = last.now; closed = true }) }
{
    caller.learn_last(last)?;
    let mut closing = Vec::new(alloc);
    for i in 0..requests.len() {
        let k = i as u32 + 1;
        if is_due(k, &requests[i], &replies[i]) {
            let reply = answer(alloc, caller, k, &requests[i])?;
            let Ok(()) = closing.push(reply) else {
                return Err(Memory);
            };
        }
    }
    Ok(closing)
}
