//! What the program writes about a made city.
ghost use Rattle.std.specs.Prelude.{◌≡◌, ◌<◌, ◌≤ℤ◌, All, IfOk, false, length, pos};
ghost use Rattle.tb_base.specs.Lines.{AreLines};
ghost use Rattle.feed_maker.specs.City.{city};
ghost use Rattle.edition_store.specs.Editions.{EditionData, net_of};
ghost use Rattle.query_gate.specs.Replies.{AreBestChoices};
ghost use Rattle.reduce_workers.specs.Reductions.{reduced};
ghost use Rattle.edition_build.specs.Reports.{IsReport};
ghost use Rattle.command_line.specs.Cities.{IsSide};
ghost use Rattle.tb_base.specs.Workers.{AreWorkers};
ghost use Rattle.router_cli.specs.Answers.{ShowsKept};
ghost use Rattle.router_cli.specs.Cities.{IsCityText, corner_query};

use answer_json::{shown_build, shown_choices};
use edition_build::{assemble, counts_of};
use edition_store::{Edition, Network};
use feed_maker::city;
use line_split::{Lines, split};
use query_gate::best_choices;
use reduce_workers::{Reduced, reduce_all};
use segment_queue::{Desk, Steps};
use std::alloc::Global;
use std::marker::Brand;
use std::sync::ledger::{Blank, Ledger};
use std::thread::Threads;
use tb_base::{Choice, Gate, Memory, Query, StopNo, Timetable};

// The report on a timetable, and its edition.
struct Built {
    report: Vec<u8>,
    edition: Edition,
}

// What is built of a timetable with its lines and what the reduction made of its transfers.
fn built_of(
    alloc: Global,
    json: bool,
    table: Timetable,
    lines: Lines,
    transfers: Reduced,
) -> Result<Built, Memory>
    requires lines { lines.table ≡ table }
    requires are_lines { AreLines table lines.lines }
    requires transfers { transfers ≡ reduced table lines.lines }
    ensures report { IfOk result (λ b. IsReport json table false b.report.items) }
    ensures edition { IfOk result (λ b. EditionData.table b.edition ≡ table) }
{
    match shown_build(alloc, json, &table, counts_of(&lines, &transfers)) {
        Ok(report) => match assemble(alloc, table, lines, transfers) {
            Ok(edition) => Ok(Built { report, edition }),
            Err(Memory) => Err(Memory),
        },
        Err(Memory) => {
            drop(table);
            drop(lines);
            drop(transfers);
            Err(Memory)
        }
    }
}

// What is built of a timetable with its lines.
fn build_over<G: Gate, R: Threads + Sync>(
    rt: &R,
    alloc: Global,
    json: bool,
    table: Timetable,
    lines: Lines,
    workers: u32,
    gate: &G,
) -> Result<Built, Memory>
    requires workers { AreWorkers workers }
    requires lines { lines.table ≡ table }
    requires are_lines { AreLines table lines.lines }
    ensures report { IfOk result (λ b. IsReport json table false b.report.items) }
    ensures edition { IfOk result (λ b. EditionData.table b.edition ≡ table) }
{
    match reduce_all(rt, alloc, &table, &lines, workers, gate) {
        Ok(transfers) => built_of(alloc, json, table, lines, transfers),
        Err(Memory) => {
            drop(table);
            drop(lines);
            Err(Memory)
        }
    }
}

// What is built of a timetable.
fn build<G: Gate, R: Threads + Sync>(
    rt: &R,
    alloc: Global,
    json: bool,
    table: Timetable,
    workers: u32,
    gate: &G,
) -> Result<Built, Memory>
    requires { AreWorkers workers }
    ensures report { IfOk result (λ b. IsReport json table false b.report.items) }
    ensures edition { IfOk result (λ b. EditionData.table b.edition ≡ table) }
{
    match split(alloc, &table) {
        Ok(lines) => build_over(rt, alloc, json, table, lines, workers, gate),
        Err(Memory) => {
            drop(table);
            Err(Memory)
        }
    }
}

// From the first corner to the last, at 07:00:00.
fn corner_query(alloc: Global, side: u32) -> Result<Query, Memory>
    requires { IsSide side }
    ensures { IfOk result (λ query. query ≡ corner_query side) }
{
    let last = side - 1;
    Ok(Query {
        from: vec![in alloc; StopNo(0)]?,
        to: vec![in alloc; StopNo(last * side + last)]?,
        leave: 25_200,
    })
}

// The best values of a query, each with a journey, in a desk that needn't have room and on a ledger
// that nobody else counts in.
fn choices_in<L: Ledger>(
    alloc: Global,
    network: &Network,
    query: &Query,
    desk: &mut Desk,
    blank: Blank,
) -> Result<Vec<Choice>, Memory>
    requires name { blank.name ≡ L.name }
    requires parts { blank.parts ≡ L.parts }
    requires some { 0 < L.parts }
    requires origins { All (λ p. p < length network.now.table.stops) query.now.from }
    requires targets { All (λ p. p < length network.now.table.stops) query.now.to }
    requires leave { query.now.leave ≤ℤ pos 359999 }
    ensures { IfOk result (λ cs. AreBestChoices (net_of network.now) query.now cs.items) }
{
    network.soundness();
    desk.make_room(network)?;
    let mut steps = Steps::<L>::new(blank);
    best_choices(alloc, network, network.table(), query, desk, &mut steps)
}

// The best values from the first corner to the last.
fn corner_text(alloc: Global, json: bool, edition: &Edition, side: u32) -> Result<Vec<u8>, Memory>
    requires side { IsSide side }
    requires city { edition.now.table ≡ city side }
    ensures { IfOk result (λ text. ShowsKept json (city side) (corner_query side) text.items) }
{
    edition.soundness();
    let query = corner_query(alloc, side)?;
    let mut desk = Desk::new(alloc);
    let network = edition.network();
    let found = choices_in::<Brand>(alloc, network, &query, &mut desk, Blank::new(1));
    drop(desk);
    let choices = found?;
    shown_choices(alloc, json, edition.table(), choices.as_slice())
}

/// The report on a city, and the best values between two of its corners. Its own work ends; it
/// joins the workers that it starts.
pub(crate) fn city_text<G: Gate, R: Threads + Sync>(
    rt: &R,
    alloc: Global,
    json: bool,
    side: u32,
    workers: u32,
    gate: &G,
) -> Result<Vec<u8>, Memory>
    requires side { IsSide side }
    requires workers { AreWorkers workers }
    ensures { IfOk result (λ text. IsCityText json side text.items) }
{
    let table = city(alloc, side)?;
    let Built { report, edition } = build(rt, alloc, json, table, workers, gate)?;
    let shown = corner_text(alloc, json, &edition, side);
    drop(edition);
    let choices = shown?;
    let mut text = report;
    text.extend_from_slice(choices.as_slice())?;
    Ok(text)
}
