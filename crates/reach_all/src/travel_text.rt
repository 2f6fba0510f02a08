//! Travel times to every stop as a text.
ghost use Rattle.std.specs.Prelude.{◌≡◌, ◌++◌, ◌<◌, IfOk, OnOk, flat_map, length};
ghost use Rattle.answer_text.specs.Journeys.{stop_name};
ghost use Rattle.reach_all.specs.TimesText.{duration_text, figures_at, figures_text, times_line, times_text};

use crate::figures::Figures;
use crate::text::name_of;
use crate::travelling::TravelTimes;
use answer_text::Text;
use std::alloc::Global;
use tb_base::{Memory, Sec, StopNo, Timetable};

// Adds a travel time, or `-` where there is none.
fn add_duration(text: &mut Text, time: Option<Sec>) -> Result<(), Memory>
    ensures { OnOk result (text.new ≡ text.old ++ duration_text time) }
{
    match time {
        Some(time) => {
            text.add(b" ")?;
            text.time(time)
        }
        None => text.add(b" -"),
    }
}

// Adds travel times.
fn add_durations(text: &mut Text, times: &[Option<Sec>]) -> Result<(), Memory>
    ensures { OnOk result (text.new ≡ text.old ++ flat_map duration_text times.now) }
{
    for time in times {
        add_duration(text, *time)?;
    }
    Ok(())
}

// Adds the figures of a stop over so many departures.
fn add_figures(text: &mut Text, figures: &Figures, departures: u32) -> Result<(), Memory>
    ensures { OnOk result (text.new ≡ text.old ++ figures_text departures figures.now) }
{
    text.add(b" ")?;
    text.number(figures.reached)?;
    text.add(b"/")?;
    text.number(departures)?;
    add_durations(text, &figures.times())
}

// Adds the line of a stop.
fn add_line(
    text: &mut Text,
    table: &Timetable,
    figures: &[Figures],
    departures: u32,
    stop: StopNo,
) -> Result<(), Memory>
    requires stop { stop < length table.now.stops }
    requires each_stop { length figures.now ≡ length table.now.stops }
    ensures { OnOk result (text.new
        ≡ text.old ++ times_line table.now departures figures.now stop) }
{
    text.add(name_of(table, stop))?;
    add_figures(text, &figures[stop.index()], departures)?;
    text.add(b"\n")
}

// The lines of all stops.
fn lines_text(
    alloc: Global,
    table: &Timetable,
    figures: &[Figures],
    departures: u32,
) -> Result<Vec<u8>, Memory>
    requires { length figures.now ≡ length table.now.stops }
    ensures { IfOk result (λ text. text.items ≡ times_text table.now departures figures.now) }
{
    let mut text = Text::new(alloc);
    for stop in 0..table.stop_count() {
        add_line(&mut text, table, figures, departures, StopNo(stop))?;
    }
    Ok(text.into_bytes())
}

/// One line for each stop, by its number: its name, ` N/M`, where N of M departures reach it, and
/// then the least, the 5th, 25th, 50th, 75th and 95th percentile and the greatest of its travel
/// times, each after a space, as hours, minutes and seconds, or `-` where there is none. There are
/// figures for each stop.
pub fn times_text(alloc: Global, table: &Timetable, travel: &TravelTimes) -> Result<Vec<u8>, Memory>
    requires { length travel.now.figures.items ≡ length table.now.stops }
    ensures { IfOk result (λ text. text.items
        ≡ times_text table.now travel.now.departures travel.now.figures.items) }
{
    lines_text(alloc, table, travel.figures.as_slice(), travel.departures)
}
