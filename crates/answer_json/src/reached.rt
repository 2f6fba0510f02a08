//! The best values to every stop as JSON.
ghost use Rattle.std.specs.Prelude.{◌≡◌, ◌++◌, ◌<◌, ◌≤◌, [], OnOk, flat_map, length, map, slice_index_or};
ghost use Rattle.std.specs.Fmt.{decimal, signed_decimal};
ghost use Rattle.tb_base.specs.Transfers.{numbers_below};
ghost use Rattle.answer_json.specs.Frames.{followers, framed};
ghost use Rattle.answer_json.specs.Reached.{behind_name, between_names, from_name, reach_json, time_json, to_next_name, triple_json, value_json};
ghost use Rattle.answer_json.specs.declared.frame.Frame.TheVariants as frame;

use crate::frame::{Frame, add_moment};
use crate::journeys::stop_name;
use crate::strings::{add_content, add_count};
use answer_text::Text;
use tb_base::{Memory, Sec, StopNo, Timetable, Value};

/// Adds a value as `{"arrive":TIME,"arrive_seconds":N,"rides":N}`.
pub fn add_value(text: &mut Text, value: &Value) -> Result<(), Memory>
    ensures { OnOk result (text.new ≡ text.old ++ value_json value.now) }
{
    text.add(b"{")?;
    add_moment(text, b"arrive", value.arrive)?;
    add_count(text, b"rides", value.rides)?;
    text.add(b"}")
}

// Adds a number of rides, which is mostly one digit.
fn add_rides(text: &mut Text, rides: u32) -> Result<(), Memory>
    ensures { OnOk result (text.new ≡ text.old ++ decimal rides) }
{
    if rides < 10 {
        text.add(&[b'0' + rides as u8])
    } else {
        text.number(rides)
    }
}

// The digits of a number that has five.
#[tactic(auto, using(crate::proofs::Digits::decimal_of_five))]
fn five_digits(n: u32) -> [u8; 5]
    requires least { 10000 ≤ n }
    requires most { n < 100000 }
    ensures { result ≡ decimal n }
{
    let tens = n / 10;
    let hundreds = tens / 10;
    let thousands = hundreds / 10;
    [
        b'0' + (thousands / 10) as u8,
        b'0' + (thousands % 10) as u8,
        b'0' + (hundreds % 10) as u8,
        b'0' + (tens % 10) as u8,
        b'0' + (n % 10) as u8,
    ]
}

// Adds seconds, which most times of a day have in five digits.
fn add_seconds(text: &mut Text, time: Sec) -> Result<(), Memory>
    ensures { OnOk result (text.new ≡ text.old ++ signed_decimal time) }
{
    if time < 10_000 || time >= 100_000 {
        return text.seconds(time);
    }
    let digits = five_digits(time.unsigned_abs());
    text.add(&digits)
}

// Adds a time as `"HH:MM:SS",SECONDS`.
fn add_time(text: &mut Text, time: Sec) -> Result<(), Memory>
    ensures { OnOk result (text.new ≡ text.old ++ time_json time) }
{
    text.add(b"\"")?;
    text.time(time)?;
    text.add(b"\",")?;
    add_seconds(text, time)
}

// Adds a value as `["HH:MM:SS",SECONDS,RIDES]`.
fn add_triple(text: &mut Text, value: &Value) -> Result<(), Memory>
    ensures { OnOk result (text.new ≡ text.old ++ triple_json value.now) }
{
    text.add(b"[")?;
    add_time(text, value.arrive)?;
    text.add(b",")?;
    add_rides(text, value.rides)?;
    text.add(b"]")
}

// Adds values that follow others.
fn add_later_values(text: &mut Text, values: &[Value]) -> Result<(), Memory>
    ensures { OnOk result (text.new ≡ text.old ++ followers frame.Array triple_json values.now) }
{
    for value in values {
        text.add(b",")?;
        add_triple(text, value)?;
    }
    Ok(())
}

// Adds the array of some values.
fn add_values(text: &mut Text, values: &[Value]) -> Result<(), Memory>
    ensures { OnOk result (text.new ≡ text.old ++ framed frame.Array triple_json values.now) }
{
    match values {
        [] => text.add(b"[]"),
        [value, rest @ ..] => {
            text.add(b"[")?;
            add_triple(text, value)?;
            add_later_values(text, rest)?;
            text.add(b"]")
        }
    }
}

// The values of a stop.
fn values_of(lists: &[Vec<Value>], stop: StopNo) -> &[Value]
    requires { stop < length lists.now }
    ensures { result.now ≡ slice_index_or (map (λ list. list.items) lists.now) stop [] }
{
    lists[stop.index()].as_slice()
}

// What stands between the names of two stops where the first has no values.
fn between_names_alone(frame: Frame) -> &'static [u8]
    ensures { result.now ≡ between_names frame [] }
{
    match frame {
        Frame::Lines => b"\",[]]\n[\"".as_slice(),
        Frame::Array => b"\",[]],[\"".as_slice(),
    }
}

// Adds what stands behind the name of a stop.
fn add_behind_name(text: &mut Text, values: &[Value]) -> Result<(), Memory>
    ensures { OnOk result (text.new ≡ text.old ++ behind_name values.now) }
{
    text.add(b"\",")?;
    add_values(text, values)?;
    text.add(b"]")
}

// Adds what stands between the names of two stops, the first of which has these values. Without
// values this is one piece: a reply can have tens of thousands of such stops.
fn add_between_names(text: &mut Text, frame: Frame, values: &[Value]) -> Result<(), Memory>
    ensures { OnOk result (text.new ≡ text.old ++ between_names frame values.now) }
{
    if values.is_empty() {
        return text.add(between_names_alone(frame));
    }
    add_behind_name(text, values)?;
    text.add(frame.between())?;
    text.add(b"[\"")
}

// Adds a stop without the `["` before its name, up to the name of the next stop.
fn add_to_next_name(
    text: &mut Text,
    frame: Frame,
    table: &Timetable,
    lists: &[Vec<Value>],
    stop: StopNo,
) -> Result<(), Memory>
    requires stop { stop < length table.now.stops }
    requires each_stop { length lists.now ≡ length table.now.stops }
    ensures { OnOk result (text.new ≡ text.old
        ++ to_next_name frame table.now (map (λ list. list.items) lists.now) stop) }
{
    add_content(text, stop_name(table, stop))?;
    add_between_names(text, frame, values_of(lists, stop))
}

// Adds the last stop without the `["` before its name.
fn add_from_name(
    text: &mut Text,
    table: &Timetable,
    lists: &[Vec<Value>],
    stop: StopNo,
) -> Result<(), Memory>
    requires stop { stop < length table.now.stops }
    requires each_stop { length lists.now ≡ length table.now.stops }
    ensures { OnOk result (text.new
        ≡ text.old ++ from_name table.now (map (λ list. list.items) lists.now) stop) }
{
    add_content(text, stop_name(table, stop))?;
    add_behind_name(text, values_of(lists, stop))
}

// Adds the stops before one, from the name of the first up to the name of that one.
fn add_earlier_stops(
    text: &mut Text,
    frame: Frame,
    table: &Timetable,
    lists: &[Vec<Value>],
    last: StopNo,
) -> Result<(), Memory>
    requires last { last < length table.now.stops }
    requires each_stop { length lists.now ≡ length table.now.stops }
    ensures { OnOk result (text.new ≡ text.old
        ++ flat_map (to_next_name frame table.now (map (λ list. list.items) lists.now))
        (numbers_below last)) }
{
    for stop in 0..last.0 {
        add_to_next_name(text, frame, table, lists, StopNo(stop))?;
    }
    Ok(())
}

/// Adds each stop, by its number, as `[STOP,[VALUE,..]]`, each of its values as
/// `["HH:MM:SS",SECONDS,RIDES]`: a network has tens of thousands of stops, and with a name at each
/// part this would be four times as long. There is one list of values a stop.
#[tactic(auto, using(crate::proofs::Numbers::framed_none))]
pub fn add_reach(
    text: &mut Text,
    frame: Frame,
    table: &Timetable,
    lists: &[Vec<Value>],
) -> Result<(), Memory>
    requires { length lists.now ≡ length table.now.stops }
    ensures { OnOk result (text.new
        ≡ text.old ++ reach_json frame table.now (map (λ list. list.items) lists.now)) }
{
    let count = table.stop_count();
    if count == 0 {
        return text.add(frame.nothing());
    }
    let last = StopNo(count - 1);
    text.add(frame.opening())?;
    text.add(b"[\"")?;
    add_earlier_stops(text, frame, table, lists, last)?;
    add_from_name(text, table, lists, last)?;
    text.add(frame.closing())
}
