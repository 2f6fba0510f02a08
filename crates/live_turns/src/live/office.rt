//! Who answers the lines of a turn: all by one edition.
ghost use Rattle.std.specs.Prelude.{◌≡◌, IfOk, OnOk, ◌<◌, All, vec_len, length};
ghost use Rattle.query_gate.specs.Callers.{IsEditionOf};
ghost use Rattle.edition_store.specs.Editions.{EditionData};
ghost use Rattle.query_gate.specs.Dealing.{AreReplies};
ghost use Rattle.live_turns.specs.LiveLines.{HasWantedTimes};
ghost use Rattle.live_turns.specs.LiveReplies.{IsReplyTo, IsWantedBy};
ghost use Rattle.query_gate.specs.Said.{IsAskable};

use crate::live::saying::{Asked, Wanted};
use crate::live::telling;
use answer_json::Frame;
use edition_store::{Edition, Naming, Pinned};
use query_gate::{Line, Office, answer_all, reply_by, shown_reply};
use segment_queue::Desk;
use std::alloc::Global;
use std::mem;
use std::thread::Threads;
use tb_base::{Gate, Memory, Work};

// Who answers by one edition, of this number: the gate is told of each request, and replies are
// shown as JSON or as lines.
#[derive(Drop)]
struct Bureau<'a, G> {
    gate: &'a G,
    json: bool,
    number: u32,
    edition: &'a Edition,
}

// The text of the reply of an edition to a request in line k.
fn reply_to(
    alloc: Global,
    json: bool,
    number: u32,
    edition: &Edition,
    desk: &mut Desk,
    k: u64,
    request: &Line,
) -> Result<Vec<u8>, Memory>
    requires { IsAskable request.now }
    ensures { IfOk result
        (λ v. IsReplyTo json number edition.now k request.now v.items) }
{
    let reply = reply_by(
        alloc,
        number,
        edition,
        desk,
        request.since,
        &request.question,
    )?;
    let body = shown_reply(alloc, json, Frame::Array, edition.table(), &reply)?;
    telling::answered(alloc, json, k, number, body.as_slice())
}

// What a gate is told of a request in line k, as far as its number goes.
fn request_work(k: u64) -> Work {
    let line = k.saturating_sub(1).min(u64::from(u32::MAX)) as u32;
    Work::Request { lane: 0, line }
}

impl<'a, G: Gate> Office<Asked, Desk, Vec<u8>> for Bureau<'a, G> {
    ghost use Rattle.live_turns.specs.LiveLines.{HasWantedTimes};
    ghost use Rattle.live_turns.specs.LiveReplies.{IsWantedBy};

    ghost may = { λ b asked. HasWantedTimes asked.wanted };

    ghost right = { λ b asked v.
        IsWantedBy b.json b.number b.edition.now asked.number asked.wanted v.items };

    fn reply(&self, alloc: Global, desk: &mut Desk, asked: &Asked) -> Result<Vec<u8>, Memory> {
        let k = asked.number;
        match &asked.wanted {
            Wanted::Nothing => Ok(Vec::new(alloc)),
            Wanted::Reply(request) => {
                self.gate.begin(request_work(k));
                let text = reply_to(
                    alloc,
                    self.json,
                    self.number,
                    self.edition,
                    desk,
                    k,
                    request,
                );
                self.gate.done(request_work(k));
                text
            }
            Wanted::Queued(word) => telling::queued(alloc, self.json, k, word.bytes()),
            Wanted::BadLine => telling::bad_line(alloc, self.json, k),
            Wanted::BadTime => telling::bad_time(alloc, self.json, k),
        }
    }
}

// The texts of the right replies by the last edition of a pinned list, in order: the lanes, of
// which there is one at each desk, answer at once where threads can be started. With a refusal the
// desks are gone.
pub(crate) fn answer_asked<J: Naming, G: Gate, R: Threads + Sync>(
    rt: &R,
    alloc: Global,
    gate: &G,
    json: bool,
    pinned: &Pinned<J>,
    desks: &mut Vec<Desk>,
    asked: &[Asked],
) -> Result<Vec<Vec<u8>>, Memory>
    requires desks { 0 < vec_len desks.old }
    requires times { All (λ (a : Asked). HasWantedTimes a.wanted) asked.now }
    ensures desks { OnOk result (vec_len desks.new ≡ vec_len desks.old) }
    ensures replies { IfOk result (λ texts. (e : EditionData)
        × IsEditionOf pinned.now.list (length pinned.now.list) e
        × AreReplies (λ (a : Asked) v.
        IsWantedBy json (length pinned.now.list) e a.number a.wanted v.items)
        asked.now texts.items) }
{
    let bureau = Bureau {
        gate,
        json,
        number: pinned.number(),
        edition: pinned.edition(),
    };
    let own = mem::replace(desks, Vec::new(alloc));
    match answer_all(rt, alloc, &bureau, own, asked) {
        Ok((back, texts)) => {
            *desks = back;
            Ok(texts)
        }
        Err(Memory) => Err(Memory),
    }
}
