//! The best values to every stop as a text.
ghost use Rattle.std.specs.Prelude.{◌≡◌, ◌++◌, ◌<◌, IfOk, OnOk, length, map};
ghost use Rattle.answer_text.specs.Journeys.{stop_name};
ghost use Rattle.reach_all.specs.Reach.{values_at};
ghost use Rattle.reach_all.specs.Text.{reach_text, stop_line, value_text, values_text};

use answer_text::Text;
use std::alloc::Global;
use tb_base::{Memory, StopNo, Timetable, Value};

// Adds a value.
fn add_value(text: &mut Text, value: &Value) -> Result<(), Memory>
    ensures { OnOk result (text.new ≡ text.old ++ value_text value.now) }
{
    text.add(b" ")?;
    text.time(value.arrive)?;
    text.add(b"/")?;
    text.number(value.rides)
}

// Adds the values of a stop.
fn add_values(text: &mut Text, values: &[Value]) -> Result<(), Memory>
    ensures { OnOk result (text.new ≡ text.old ++ values_text values.now) }
{
    if values.is_empty() {
        return text.add(b" -");
    }
    for value in values {
        add_value(text, value)?;
    }
    Ok(())
}

// The name of a stop.
pub(crate) fn name_of(table: &Timetable, stop: StopNo) -> &[u8]
    requires { stop < length table.now.stops }
    ensures { result.now ≡ stop_name table.now stop }
{
    let stop = table.stop(stop);
    stop.name.bytes()
}

// The values of a stop.
fn values_of(lists: &[Vec<Value>], stop: StopNo) -> &[Value]
    requires { stop < length lists.now }
    ensures { result.now ≡ values_at (map (λ list. list.items) lists.now) stop }
{
    lists[stop.index()].as_slice()
}

// Adds the line of a stop.
fn add_line(
    text: &mut Text,
    table: &Timetable,
    lists: &[Vec<Value>],
    stop: StopNo,
) -> Result<(), Memory>
    requires stop { stop < length table.now.stops }
    requires each_stop { length lists.now ≡ length table.now.stops }
    ensures { OnOk result (text.new
        ≡ text.old ++ stop_line table.now (map (λ list. list.items) lists.now) stop) }
{
    text.add(name_of(table, stop))?;
    add_values(text, values_of(lists, stop))?;
    text.add(b"\n")
}

/// One line for each stop, by its number: its name, then for each of its values a space and
/// `TIME/N`, the arrival and the number of rides, or a space and `-` where there is none. There is
/// one list of values a stop.
pub fn reach_text(alloc: Global, table: &Timetable, lists: &[Vec<Value>]) -> Result<Vec<u8>, Memory>
    requires { length lists.now ≡ length table.now.stops }
    ensures { IfOk result (λ text. text.items
        ≡ reach_text table.now (map (λ list. list.items) lists.now)) }
{
    let mut text = Text::new(alloc);
    for stop in 0..table.stop_count() {
        add_line(&mut text, table, lists, StopNo(stop))?;
    }
    Ok(text.into_bytes())
}
