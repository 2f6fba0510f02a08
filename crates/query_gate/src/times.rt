//! Travel times to every stop as JSON.
ghost use Rattle.std.specs.Prelude.{◌≡◌, ◌++◌, ◌<◌, ◌≤◌, OnOk, drop, length};
ghost use Rattle.tb_base.specs.Transfers.{numbers_below};
ghost use Rattle.answer_json.specs.Frames.{followers};
ghost use Rattle.query_gate.specs.Json.{figures_json, stop_json, times_json};

use answer_json::{Frame, add_travel};
use answer_text::Text;
use reach_all::{Figures, TravelTimes};
use tb_base::{Memory, StopNo, Timetable};

// Adds a stop with so many departures and its figures.
fn add_figures(
    text: &mut Text,
    table: &Timetable,
    departures: u32,
    stop: StopNo,
    figures: &Figures,
) -> Result<(), Memory>
    requires { stop < length table.now.stops }
    ensures { OnOk result (text.new
        ≡ text.old ++ figures_json table.now departures stop figures.now) }
{
    add_travel(
        text,
        table,
        stop,
        figures.reached,
        departures,
        &figures.times(),
    )
}

// Adds a stop.
fn add_stop(
    text: &mut Text,
    table: &Timetable,
    departures: u32,
    figures: &[Figures],
    stop: StopNo,
) -> Result<(), Memory>
    requires stop { stop < length table.now.stops }
    requires each_stop { length figures.now ≡ length table.now.stops }
    ensures { OnOk result (text.new
        ≡ text.old ++ stop_json table.now departures figures.now stop) }
{
    add_figures(text, table, departures, stop, &figures[stop.index()])
}

// Adds the stops behind the first.
#[tactic(auto, using(answer_json::proofs::Numbers::followers_more))]
fn add_later_stops(
    text: &mut Text,
    frame: Frame,
    table: &Timetable,
    departures: u32,
    figures: &[Figures],
) -> Result<(), Memory>
    requires some { 0 < length table.now.stops }
    requires each_stop { length figures.now ≡ length table.now.stops }
    ensures { OnOk result (text.new ≡ text.old
        ++ followers frame (stop_json table.now departures figures.now)
        (drop 1 (numbers_below (length table.now.stops)))) }
{
    for stop in 1..table.stop_count() {
        text.add(frame.between())?;
        add_stop(text, table, departures, figures, StopNo(stop))?;
    }
    Ok(())
}

// Adds each stop, by its number.
#[tactic(auto, using(answer_json::proofs::Numbers::framed_none))]
fn add_stops(
    text: &mut Text,
    frame: Frame,
    table: &Timetable,
    departures: u32,
    figures: &[Figures],
) -> Result<(), Memory>
    requires { length figures.now ≡ length table.now.stops }
    ensures { OnOk result (text.new
        ≡ text.old ++ times_json frame table.now departures figures.now) }
{
    if table.stop_count() == 0 {
        return text.add(frame.nothing());
    }
    text.add(frame.opening())?;
    add_stop(text, table, departures, figures, StopNo(0))?;
    add_later_stops(text, frame, table, departures, figures)?;
    text.add(frame.closing())
}

// Adds each stop with its travel times.
pub(crate) fn add_times(
    text: &mut Text,
    frame: Frame,
    table: &Timetable,
    travel: &TravelTimes,
) -> Result<(), Memory>
    requires { length travel.now.figures.items ≡ length table.now.stops }
    ensures { OnOk result (text.new
        ≡ text.old ++ times_json frame table.now travel.now.departures travel.now.figures.items) }
{
    add_stops(
        text,
        frame,
        table,
        travel.departures,
        travel.figures.as_slice(),
    )
}
