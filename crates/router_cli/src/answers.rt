//! The text of an answer over a timetable.
ghost use Rattle.std.specs.Prelude.{◌≡◌, IfOk, false, true};
ghost use Rattle.answer_text.specs.Questions.{HasTimes, needs_mirror};
ghost use Rattle.query_gate.specs.Questions.{Serves};
ghost use Rattle.tb_base.specs.Workers.{AreWorkers};
ghost use Rattle.router_cli.specs.Answers.{IsAnswer, ShowsReply};

use crate::over_table::{direct_text, rounds_text};
use answer_json::Frame;
use answer_text::Question;
use command_line::{Command, DayRequest};
use edition_build::{build, build_mirror, report};
use edition_store::Network;
use query_gate::shown_reply;
use segment_queue::Desk;
use std::alloc::Global;
use std::thread::Threads;
use tb_base::{Gate, Memory, Timetable};

// The reply to a question about a timetable, by a network that serves it.
fn text_by(
    alloc: Global,
    json: bool,
    table: &Timetable,
    network: &Network,
    question: &Question,
) -> Result<Vec<u8>, Memory>
    requires times { HasTimes question.now }
    requires serves { Serves table.now network.now.table question.now }
    ensures { IfOk result (λ text. ShowsReply json table.now false question.now text.items) }
{
    network.soundness();
    let mut desk = Desk::new(alloc);
    let answered = query_gate::answer(alloc, table, network, &mut desk, question);
    drop(desk);
    let reply = answered?;
    let text = shown_reply(alloc, json, Frame::Lines, table, &reply);
    drop(reply);
    text
}

// The reply to a question that is answered by the mirror of a timetable.
fn mirror_text<G: Gate, R: Threads + Sync>(
    rt: &R,
    alloc: Global,
    json: bool,
    table: &Timetable,
    question: &Question,
    workers: u32,
    gate: &G,
) -> Result<Vec<u8>, Memory>
    requires workers { AreWorkers workers }
    requires times { HasTimes question.now }
    requires mirror { needs_mirror question.now ≡ true }
    ensures { IfOk result (λ text. ShowsReply json table.now false question.now text.items) }
{
    let mirrored = build_mirror(rt, alloc, table, workers, gate)?;
    let text = text_by(alloc, json, table, mirrored.network(), question);
    drop(mirrored);
    text
}

/// What is written for a request over the timetable of its day. Where transfers are reduced, the
/// gate is told of the pieces.
pub(crate) fn answer<G: Gate, R: Threads + Sync>(
    rt: &R,
    alloc: Global,
    table: Timetable,
    request: &DayRequest,
    gate: &G,
) -> Result<Vec<u8>, Memory>
    ensures { IfOk result (λ text. IsAnswer table request.now text.items) }
{
    let workers = request.workers;
    let json = request.json;
    match &request.command {
        Command::Direct(inquiry) => {
            let text = direct_text(alloc, json, &table, inquiry);
            drop(table);
            text
        }
        Command::Question(question) => match question {
            Question::Ask { from, to, leave } if request.plain => {
                let text = rounds_text(alloc, json, &table, from, to, *leave);
                drop(table);
                text
            }
            _ if question.needs_mirror() => {
                let text = mirror_text(rt, alloc, json, &table, question, workers, gate);
                drop(table);
                text
            }
            _ => {
                let edition = build(rt, alloc, table, workers, gate)?;
                let text = text_by(alloc, json, edition.table(), edition.network(), question);
                drop(edition);
                text
            }
        },
        Command::Build { list } => {
            let text = report(rt, alloc, json, &table, *list, workers, gate);
            drop(table);
            text
        }
    }
}
