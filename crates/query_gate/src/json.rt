//! Replies as JSON.
ghost use Rattle.std.specs.Prelude.{◌≡◌, ◌++◌, All, IfOk, OnOk};
ghost use Rattle.tb_base.specs.JourneyRules.{HasNumbers};
ghost use Rattle.arrive_by.specs.Latest.{DepartureData};
ghost use Rattle.answer_json.specs.Frames.{followers};
ghost use Rattle.answer_json.specs.Journeys.{unknown_member};
ghost use Rattle.query_gate.specs.Json.{before_values, deferred_member, departure_value, departures_json, lone_member, no_mirror_member, reply_json, shown_reply};
ghost use Rattle.query_gate.specs.Replies.{HaveNumbers};

use crate::reply::{Reply, reply_text};
use crate::times::add_times;
use answer_json::{Frame, add_choices, add_departure, add_offers, add_reach, add_unknown};
use answer_text::Text;
use arrive_by::Departure;
use std::alloc::Global;
use tb_base::{Memory, Timetable};

// Adds a departure.
fn add_one(text: &mut Text, table: &Timetable, departure: &Departure) -> Result<(), Memory>
    requires { All (HasNumbers table.now) departure.now.legs }
    ensures { OnOk result (text.new ≡ text.old ++ departure_value table.now departure.now) }
{
    add_departure(
        text,
        table,
        departure.leave,
        departure.rides,
        departure.legs.as_slice(),
    )
}

// Adds departures that follow others.
fn add_later_departures(
    text: &mut Text,
    frame: Frame,
    table: &Timetable,
    departures: &[Departure],
) -> Result<(), Memory>
    requires { All (λ d. All (HasNumbers table.now) (DepartureData.legs d)) departures.now }
    ensures { OnOk result (text.new
        ≡ text.old ++ followers frame (departure_value table.now) departures.now) }
{
    for departure in departures {
        text.add(frame.between())?;
        add_one(text, table, departure)?;
    }
    Ok(())
}

// Adds departures.
fn add_departures(
    text: &mut Text,
    frame: Frame,
    table: &Timetable,
    departures: &[Departure],
) -> Result<(), Memory>
    requires { All (λ d. All (HasNumbers table.now) (DepartureData.legs d)) departures.now }
    ensures { OnOk result (text.new ≡ text.old ++ departures_json frame table.now departures.now) }
{
    match departures {
        [] => text.add(frame.nothing()),
        [departure, rest @ ..] => {
            text.add(frame.opening())?;
            add_one(text, table, departure)?;
            add_later_departures(text, frame, table, rest)?;
            text.add(frame.closing())
        }
    }
}

// Adds what stands before values.
fn add_before(text: &mut Text, frame: Frame) -> Result<(), Memory>
    ensures { OnOk result (text.new ≡ text.old ++ before_values frame) }
{
    match frame {
        Frame::Lines => Ok(()),
        Frame::Array => text.add(b"\"values\":"),
    }
}

// Adds that a name is no place.
fn add_no_place(text: &mut Text, frame: Frame, name: &[u8]) -> Result<(), Memory>
    ensures { OnOk result (text.new ≡ text.old ++ lone_member frame (unknown_member name.now)) }
{
    match frame {
        Frame::Lines => {
            text.add(b"{")?;
            add_unknown(text, name)?;
            text.add(b"}\n")
        }
        Frame::Array => add_unknown(text, name),
    }
}

// Adds that a later edition is asked for, as a member.
fn add_deferred_member(text: &mut Text, number: u32) -> Result<(), Memory>
    ensures { OnOk result (text.new ≡ text.old ++ deferred_member number) }
{
    text.add(b"\"deferred\":")?;
    text.number(number)
}

// Adds that a later edition is asked for.
fn add_deferred(text: &mut Text, frame: Frame, number: u32) -> Result<(), Memory>
    ensures { OnOk result (text.new ≡ text.old ++ lone_member frame (deferred_member number)) }
{
    match frame {
        Frame::Lines => {
            text.add(b"{")?;
            add_deferred_member(text, number)?;
            text.add(b"}\n")
        }
        Frame::Array => add_deferred_member(text, number),
    }
}

// Adds that the edition has no mirror.
fn add_no_mirror(text: &mut Text, frame: Frame) -> Result<(), Memory>
    ensures { OnOk result (text.new ≡ text.old ++ lone_member frame no_mirror_member) }
{
    match frame {
        Frame::Lines => text.add(b"{\"no_mirror\":true}\n"),
        Frame::Array => text.add(b"\"no_mirror\":true"),
    }
}

// Adds a reply.
fn add_reply(text: &mut Text, frame: Frame, table: &Timetable, reply: &Reply) -> Result<(), Memory>
    requires { HaveNumbers table.now reply.now }
    ensures { OnOk result (text.new ≡ text.old ++ reply_json frame table.now reply.now) }
{
    match reply {
        Reply::Values(choices) => {
            add_before(text, frame)?;
            add_choices(text, frame, table, choices.as_slice())
        }
        Reply::Slots(offers) => {
            add_before(text, frame)?;
            add_offers(text, frame, table, offers.as_slice())
        }
        Reply::Departures(departures) => {
            add_before(text, frame)?;
            add_departures(text, frame, table, departures.as_slice())
        }
        Reply::Reached(lists) => {
            add_before(text, frame)?;
            add_reach(text, frame, table, lists.as_slice())
        }
        Reply::Times(travel) => {
            add_before(text, frame)?;
            add_times(text, frame, table, travel)
        }
        Reply::UnknownStop(name) => add_no_place(text, frame, name.bytes()),
        Reply::Deferred(number) => add_deferred(text, frame, *number),
        Reply::NoMirror => add_no_mirror(text, frame),
    }
}

/// A reply over a timetable as JSON: a line for each of its values, or that it has none; or the
/// same as one member of an object, with the values as an array. Its one refusal is want of memory,
/// which may come at any time.
pub fn reply_json(
    alloc: Global,
    frame: Frame,
    table: &Timetable,
    reply: &Reply,
) -> Result<Vec<u8>, Memory>
    requires { HaveNumbers table.now reply.now }
    ensures { IfOk result (λ v. v.items ≡ reply_json frame table.now reply.now) }
{
    let mut text = Text::new(alloc);
    add_reply(&mut text, frame, table, reply)?;
    Ok(text.into_bytes())
}

/// A reply over a timetable as JSON, in this frame, or as a text. Its one refusal is want of
/// memory, which may come at any time.
pub fn shown_reply(
    alloc: Global,
    json: bool,
    frame: Frame,
    table: &Timetable,
    reply: &Reply,
) -> Result<Vec<u8>, Memory>
    requires { HaveNumbers table.now reply.now }
    ensures { IfOk result (λ v. v.items ≡ shown_reply json frame table.now reply.now) }
{
    if json {
        reply_json(alloc, frame, table, reply)
    } else {
        reply_text(alloc, table, reply)
    }
}
