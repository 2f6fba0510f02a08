//! Travel times to a stop as JSON.
ghost use Rattle.std.specs.Prelude.{◌≡◌, ◌++◌, ◌<◌, OnOk, length};
ghost use Rattle.answer_json.specs.Frames.{followers, framed};
ghost use Rattle.answer_json.specs.Travel.{duration_json, travel_json};
ghost use Rattle.answer_json.specs.declared.frame.Frame.TheVariants as frame;

use crate::journeys::add_stop;
use answer_text::Text;
use tb_base::{Memory, Sec, StopNo, Timetable};

// Adds a travel time in seconds, or `null` where there is none.
fn add_duration(text: &mut Text, time: Option<Sec>) -> Result<(), Memory>
    ensures { OnOk result (text.new ≡ text.old ++ duration_json time) }
{
    match time {
        Some(time) => text.seconds(time),
        None => text.add(b"null"),
    }
}

// Adds travel times that follow others.
fn add_later_durations(text: &mut Text, times: &[Option<Sec>]) -> Result<(), Memory>
    ensures { OnOk result (text.new ≡ text.old ++ followers frame.Array duration_json times.now) }
{
    for time in times {
        text.add(b",")?;
        add_duration(text, *time)?;
    }
    Ok(())
}

// Adds the array of some travel times.
fn add_durations(text: &mut Text, times: &[Option<Sec>]) -> Result<(), Memory>
    ensures { OnOk result (text.new ≡ text.old ++ framed frame.Array duration_json times.now) }
{
    match times {
        [] => text.add(b"[]"),
        [time, rest @ ..] => {
            text.add(b"[")?;
            add_duration(text, *time)?;
            add_later_durations(text, rest)?;
            text.add(b"]")
        }
    }
}

/// Adds a stop that so many of some departures reach, with travel times, as `[STOP,N,M,[TIME,..]]`:
/// each time is a number of seconds, or `null` where there is none. No part has a name, as where
/// values to each stop are written.
pub fn add_travel(
    text: &mut Text,
    table: &Timetable,
    stop: StopNo,
    reached: u32,
    departures: u32,
    times: &[Option<Sec>],
) -> Result<(), Memory>
    requires { stop < length table.now.stops }
    ensures { OnOk result (text.new
        ≡ text.old ++ travel_json table.now stop reached departures times.now) }
{
    text.add(b"[")?;
    add_stop(text, table, stop)?;
    text.add(b",")?;
    text.number(reached)?;
    text.add(b",")?;
    text.number(departures)?;
    text.add(b",")?;
    add_durations(text, times)?;
    text.add(b"]")
}
