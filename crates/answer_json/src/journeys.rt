//! Journeys as JSON.
ghost use Rattle.std.specs.Prelude.{◌≡◌, ◌++◌, ◌<◌, All, IfOk, OnOk, length};
ghost use Rattle.tb_base.specs.TimetableData.{events_of};
ghost use Rattle.tb_base.specs.BestValues.{ChoiceData};
ghost use Rattle.tb_base.specs.Profiles.{OfferData};
ghost use Rattle.tb_base.specs.JourneyRules.{HasNumbers};
ghost use Rattle.answer_text.specs.Journeys.{stop_name, trip_name};
ghost use Rattle.answer_json.specs.Frames.{day_json, day_member, followers, string_json};
ghost use Rattle.answer_json.specs.Journeys.{alighting_json, arrival_json, boarding_json, choice_json, choices_json, departure_json, leg_json, legs_json, offer_json, offers_json, place_json, ride_json, rides_json, unknown_json, unknown_member, walk_json};
ghost use Rattle.answer_json.specs.declared.frame.Frame.TheVariants as frame;

use crate::frame::{Frame, add_moment};
use crate::strings::{add_count, add_member, add_string};
use answer_text::Text;
use std::alloc::Global;
use tb_base::{
    Choice, Leg, Memory, Offer, Sec, ServiceDay, Slot, StopNo, Timetable, TripNo, Value,
};

// The name of a stop.
pub(crate) fn stop_name(table: &Timetable, p: StopNo) -> &[u8]
    requires { p < length table.now.stops }
    ensures { result.now ≡ stop_name table.now p }
{
    let stop = table.stop(p);
    stop.name.bytes()
}

// Adds the name of a stop.
pub(crate) fn add_stop(text: &mut Text, table: &Timetable, p: StopNo) -> Result<(), Memory>
    requires { p < length table.now.stops }
    ensures { OnOk result (text.new ≡ text.old ++ string_json (stop_name table.now p)) }
{
    add_string(text, stop_name(table, p))
}

// The name of a trip.
fn trip_name(table: &Timetable, t: TripNo) -> &[u8]
    requires { t < length table.now.trips }
    ensures { result.now ≡ trip_name table.now t }
{
    let trip = table.trip(t);
    trip.name.bytes()
}

// The member of a service day, in days after the date: nothing where it is the date.
fn day_member(day: ServiceDay) -> &'static [u8]
    ensures { result.now ≡ day_member day }
{
    match day {
        ServiceDay::Before => b",\"day\":-1",
        ServiceDay::Date => b"",
        ServiceDay::After => b",\"day\":1",
        ServiceDay::SecondAfter => b",\"day\":2",
    }
}

// Adds the service day of a trip, where that isn't the date.
fn add_day(text: &mut Text, table: &Timetable, t: TripNo) -> Result<(), Memory>
    requires { t < length table.now.trips }
    ensures { OnOk result (text.new ≡ text.old ++ day_json table.now t) }
{
    let trip = table.trip(t);
    text.add(day_member(trip.day))
}

// Adds the name of a trip, and its service day where that isn't the date.
pub(crate) fn add_trip(text: &mut Text, table: &Timetable, t: TripNo) -> Result<(), Memory>
    requires { t < length table.now.trips }
    ensures { OnOk result (text.new
        ≡ text.old ++ (string_json (trip_name table.now t) ++ day_json table.now t)) }
{
    add_string(text, trip_name(table, t))?;
    add_day(text, table, t)
}

// Adds a walk.
fn add_walk(
    text: &mut Text,
    table: &Timetable,
    from: StopNo,
    to: StopNo,
    secs: u32,
) -> Result<(), Memory>
    requires from { from < length table.now.stops }
    requires to { to < length table.now.stops }
    ensures { OnOk result (text.new ≡ text.old ++ walk_json table.now from to secs) }
{
    text.add(b"{\"from\":")?;
    add_stop(text, table, from)?;
    add_member(text, b"to", stop_name(table, to))?;
    add_count(text, b"seconds", secs)?;
    text.add(b"}")
}

// Adds the name of a stop, and a time under its name.
fn add_place(
    text: &mut Text,
    table: &Timetable,
    p: StopNo,
    name: &[u8],
    time: Sec,
) -> Result<(), Memory>
    requires { p < length table.now.stops }
    ensures { OnOk result (text.new ≡ text.old ++ place_json table.now p name.now time) }
{
    add_stop(text, table, p)?;
    text.add(b",")?;
    add_moment(text, name, time)
}

// Adds where and when one boards.
fn add_boarding(text: &mut Text, table: &Timetable, trip: TripNo, at: u32) -> Result<(), Memory>
    requires trip { trip < length table.now.trips }
    requires at { at < length (events_of table.now trip) }
    ensures { OnOk result (text.new ≡ text.old ++ boarding_json table.now trip at) }
{
    let event = table.event(trip, at);
    text.add(b",\"from\":")?;
    add_place(text, table, event.stop, b"departure", event.dep)
}

// Adds where and when one alights.
fn add_alighting(text: &mut Text, table: &Timetable, trip: TripNo, at: u32) -> Result<(), Memory>
    requires trip { trip < length table.now.trips }
    requires at { at < length (events_of table.now trip) }
    ensures { OnOk result (text.new ≡ text.old ++ alighting_json table.now trip at) }
{
    let event = table.event(trip, at);
    text.add(b",\"to\":")?;
    add_place(text, table, event.stop, b"arrival", event.arr)
}

// Adds a ride.
fn add_ride(
    text: &mut Text,
    table: &Timetable,
    trip: TripNo,
    board: u32,
    alight: u32,
) -> Result<(), Memory>
    requires trip { trip < length table.now.trips }
    requires board { board < length (events_of table.now trip) }
    requires alight { alight < length (events_of table.now trip) }
    ensures { OnOk result (text.new ≡ text.old ++ ride_json table.now trip board alight) }
{
    text.add(b"{\"trip\":")?;
    add_trip(text, table, trip)?;
    add_boarding(text, table, trip, board)?;
    add_alighting(text, table, trip, alight)?;
    text.add(b"}")
}

// Adds a leg.
fn add_leg(text: &mut Text, table: &Timetable, leg: Leg) -> Result<(), Memory>
    requires { HasNumbers table.now leg }
    ensures { OnOk result (text.new ≡ text.old ++ leg_json table.now leg) }
{
    match leg {
        Leg::Walk { from, to, secs } => add_walk(text, table, from, to, secs),
        Leg::Ride {
            trip,
            board,
            alight,
        } => add_ride(text, table, trip, board, alight),
    }
}

// Adds legs that follow others.
fn add_later_legs(text: &mut Text, table: &Timetable, legs: &[Leg]) -> Result<(), Memory>
    requires { All (HasNumbers table.now) legs.now }
    ensures { OnOk result (text.new
        ≡ text.old ++ followers frame.Array (leg_json table.now) legs.now) }
{
    for leg in legs {
        text.add(b",")?;
        add_leg(text, table, *leg)?;
    }
    Ok(())
}

// Adds the array of some legs.
fn add_legs(text: &mut Text, table: &Timetable, legs: &[Leg]) -> Result<(), Memory>
    requires { All (HasNumbers table.now) legs.now }
    ensures { OnOk result (text.new ≡ text.old ++ legs_json table.now legs.now) }
{
    match legs {
        [] => text.add(b"[]"),
        [leg, rest @ ..] => {
            text.add(b"[")?;
            add_leg(text, table, *leg)?;
            add_later_legs(text, table, rest)?;
            text.add(b"]")
        }
    }
}

// Adds the number of rides and the legs, with which the value of a journey ends.
fn add_rides(text: &mut Text, table: &Timetable, rides: u32, legs: &[Leg]) -> Result<(), Memory>
    requires { All (HasNumbers table.now) legs.now }
    ensures { OnOk result (text.new ≡ text.old ++ rides_json table.now rides legs.now) }
{
    add_count(text, b"rides", rides)?;
    text.add(b",\"legs\":")?;
    add_legs(text, table, legs)?;
    text.add(b"}")
}

// Adds a choice.
fn add_choice(text: &mut Text, table: &Timetable, choice: &Choice) -> Result<(), Memory>
    requires { All (HasNumbers table.now) choice.now.legs }
    ensures { OnOk result (text.new ≡ text.old ++ choice_json table.now choice.now) }
{
    let Value { arrive, rides } = choice.value;
    text.add(b"{")?;
    add_moment(text, b"arrive", arrive)?;
    add_rides(text, table, rides, choice.legs.as_slice())
}

// Adds choices that follow others.
fn add_later_choices(
    text: &mut Text,
    frame: Frame,
    table: &Timetable,
    choices: &[Choice],
) -> Result<(), Memory>
    requires { All (λ c. All (HasNumbers table.now) (ChoiceData.legs c)) choices.now }
    ensures { OnOk result (text.new
        ≡ text.old ++ followers frame (choice_json table.now) choices.now) }
{
    for choice in choices {
        text.add(frame.between())?;
        add_choice(text, table, choice)?;
    }
    Ok(())
}

/// Adds each choice as `{"arrive":TIME,"arrive_seconds":N,"rides":N,"legs":[..]}`, a walk among
/// its legs as `{"from":STOP,"to":STOP,"seconds":N}`, a ride as `{"trip":TRIP,"from":STOP,
/// "departure":TIME,"departure_seconds":N,"to":STOP,"arrival":TIME,"arrival_seconds":N}`, with
/// `"day":N` behind a trip whose service day is N days after the date, where that is -1, 1 or 2.
/// The numbers of the legs exist in the timetable, and each ride alights behind where it boards.
pub fn add_choices(
    text: &mut Text,
    frame: Frame,
    table: &Timetable,
    choices: &[Choice],
) -> Result<(), Memory>
    requires { All (λ c. All (HasNumbers table.now) (ChoiceData.legs c)) choices.now }
    ensures { OnOk result (text.new ≡ text.old ++ choices_json frame table.now choices.now) }
{
    match choices {
        [] => text.add(frame.nothing()),
        [choice, rest @ ..] => {
            text.add(frame.opening())?;
            add_choice(text, table, choice)?;
            add_later_choices(text, frame, table, rest)?;
            text.add(frame.closing())
        }
    }
}

// Adds an offer.
fn add_offer(text: &mut Text, table: &Timetable, offer: &Offer) -> Result<(), Memory>
    requires { All (HasNumbers table.now) offer.now.legs }
    ensures { OnOk result (text.new ≡ text.old ++ offer_json table.now offer.now) }
{
    let Slot {
        leave,
        arrive,
        rides,
    } = offer.slot;
    text.add(b"{")?;
    add_moment(text, b"leave", leave)?;
    text.add(b",")?;
    add_moment(text, b"arrive", arrive)?;
    add_rides(text, table, rides, offer.legs.as_slice())
}

// Adds offers that follow others.
fn add_later_offers(
    text: &mut Text,
    frame: Frame,
    table: &Timetable,
    offers: &[Offer],
) -> Result<(), Memory>
    requires { All (λ o. All (HasNumbers table.now) (OfferData.legs o)) offers.now }
    ensures { OnOk result (text.new
        ≡ text.old ++ followers frame (offer_json table.now) offers.now) }
{
    for offer in offers {
        text.add(frame.between())?;
        add_offer(text, table, offer)?;
    }
    Ok(())
}

/// Adds each offer as `{"leave":TIME,"leave_seconds":N,"arrive":TIME,"arrive_seconds":N,"rides":N,
/// "legs":[..]}`, its legs as those of a choice. The numbers of the legs exist in the timetable,
/// and each ride alights behind where it boards.
pub fn add_offers(
    text: &mut Text,
    frame: Frame,
    table: &Timetable,
    offers: &[Offer],
) -> Result<(), Memory>
    requires { All (λ o. All (HasNumbers table.now) (OfferData.legs o)) offers.now }
    ensures { OnOk result (text.new ≡ text.old ++ offers_json frame table.now offers.now) }
{
    match offers {
        [] => text.add(frame.nothing()),
        [offer, rest @ ..] => {
            text.add(frame.opening())?;
            add_offer(text, table, offer)?;
            add_later_offers(text, frame, table, rest)?;
            text.add(frame.closing())
        }
    }
}

/// Adds a departure as `{"leave":TIME,"leave_seconds":N,"rides":N,"legs":[..]}`, its legs as those
/// of a choice. The numbers of the legs exist in the timetable, and each ride alights behind where
/// it boards.
pub fn add_departure(
    text: &mut Text,
    table: &Timetable,
    leave: Sec,
    rides: u32,
    legs: &[Leg],
) -> Result<(), Memory>
    requires { All (HasNumbers table.now) legs.now }
    ensures { OnOk result (text.new ≡ text.old ++ departure_json table.now leave rides legs.now) }
{
    text.add(b"{")?;
    add_moment(text, b"leave", leave)?;
    add_rides(text, table, rides, legs)
}

/// `{"arrive":TIME,"arrive_seconds":N}`, or `{"arrive":null}` where there is no journey; a line.
pub fn arrival_json(alloc: Global, arrival: Option<Sec>) -> Result<Vec<u8>, Memory>
    ensures { IfOk result (λ v. v.items ≡ arrival_json arrival) }
{
    let mut text = Text::new(alloc);
    match arrival {
        Some(time) => {
            text.add(b"{")?;
            add_moment(&mut text, b"arrive", time)?;
            text.add(b"}\n")?;
        }
        None => text.add(b"{\"arrive\":null}\n")?,
    }
    Ok(text.into_bytes())
}

/// Adds `"unknown_stop":NAME`, a member of an object.
pub fn add_unknown(text: &mut Text, name: &[u8]) -> Result<(), Memory>
    ensures { OnOk result (text.new ≡ text.old ++ unknown_member name.now) }
{
    text.add(b"\"unknown_stop\":")?;
    add_string(text, name)
}

/// `{"unknown_stop":NAME}`, a line.
pub fn unknown_json(alloc: Global, name: &[u8]) -> Result<Vec<u8>, Memory>
    ensures { IfOk result (λ v. v.items ≡ unknown_json name.now) }
{
    let mut text = Text::new(alloc);
    text.add(b"{")?;
    add_unknown(&mut text, name)?;
    text.add(b"}\n")?;
    Ok(text.into_bytes())
}
