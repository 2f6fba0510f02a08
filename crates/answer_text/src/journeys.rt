//! Journeys as texts.
ghost use Rattle.std.specs.Prelude.{◌≡◌, ◌++◌, ◌<◌, All, IfOk, OnOk, codes, length};
ghost use Rattle.tb_base.specs.TimetableData.{events_of};
ghost use Rattle.tb_base.specs.BestValues.{ChoiceData};
ghost use Rattle.tb_base.specs.Profiles.{OfferData};
ghost use Rattle.tb_base.specs.JourneyRules.{HasNumbers};
ghost use Rattle.answer_text.specs.Journeys.{stop_name, trip_name, place_text, ride_mark, trip_day, walk_text, ride_words, ride_text, leg_text, legs_text, journey_text, choice_text, choices_text, leave_text, offer_text, offers_text, arrival_text, unknown_text};

use crate::text::Text;
use std::alloc::Global;
use tb_base::{
    Choice, Event, Leg, Memory, Offer, Sec, ServiceDay, Slot, StopNo, Timetable, TripNo, Value,
};

/// The line that stands for no choice at all.
pub const NO_JOURNEY: &[u8] = b"no journey\n";

/// The service day of a trip.
pub(crate) fn trip_day(table: &Timetable, t: TripNo) -> ServiceDay
    requires { t < length table.now.trips }
    ensures { result ≡ trip_day table.now t }
{
    let trip = table.trip(t);
    trip.day
}

// What stands behind a ride on a trip of a service day.
fn ride_mark(day: ServiceDay) -> &'static [u8]
    ensures { result.now ≡ ride_mark day }
{
    match day {
        ServiceDay::Before => b" day-before",
        ServiceDay::Date => b"",
        ServiceDay::After => b" day-after",
        ServiceDay::SecondAfter => b" day+2",
    }
}

impl Text {
    // Adds the name of a stop, behind a space.
    fn stop(&mut self, table: &Timetable, p: StopNo) -> Result<(), Memory>
        requires { p < length table.now.stops }
        ensures { OnOk result (self.new ≡ self.old ++ (codes " " ++ stop_name table.now p)) }
    {
        let stop = table.stop(p);
        self.add(b" ")?;
        self.add(stop.name.bytes())
    }

    // Adds the name of a trip.
    pub(crate) fn trip(&mut self, table: &Timetable, t: TripNo) -> Result<(), Memory>
        requires { t < length table.now.trips }
        ensures { OnOk result (self.new ≡ self.old ++ trip_name table.now t) }
    {
        let trip = table.trip(t);
        self.add(trip.name.bytes())
    }

    // Adds the name of a stop and a time, each behind a space.
    fn place(&mut self, table: &Timetable, p: StopNo, time: Sec) -> Result<(), Memory>
        requires { p < length table.now.stops }
        ensures { OnOk result (self.new ≡ self.old ++ place_text table.now p time) }
    {
        self.stop(table, p)?;
        self.add(b" ")?;
        self.time(time)
    }

    // Adds where and when an event is boarded.
    fn boarding(&mut self, table: &Timetable, event: &Event) -> Result<(), Memory>
        requires { event.now.stop < length table.now.stops }
        ensures { OnOk result (self.new
            ≡ self.old ++ place_text table.now event.now.stop event.now.dep) }
    {
        self.place(table, event.stop, event.dep)
    }

    // Adds where and when an event is left.
    fn alighting(&mut self, table: &Timetable, event: &Event) -> Result<(), Memory>
        requires { event.now.stop < length table.now.stops }
        ensures { OnOk result (self.new
            ≡ self.old ++ place_text table.now event.now.stop event.now.arr) }
    {
        self.place(table, event.stop, event.arr)
    }

    // Adds the line of a walk.
    fn walk(&mut self, table: &Timetable, from: StopNo, to: StopNo, secs: u32) -> Result<(), Memory>
        requires from { from < length table.now.stops }
        requires to { to < length table.now.stops }
        ensures { OnOk result (self.new ≡ self.old ++ walk_text table.now from to secs) }
    {
        self.add(b"  walk")?;
        self.stop(table, from)?;
        self.stop(table, to)?;
        self.add(b" ")?;
        self.number(secs)?;
        self.add(b"\n")
    }

    // Adds where and when a ride begins and ends.
    fn ride_words(
        &mut self,
        table: &Timetable,
        trip: TripNo,
        board: u32,
        alight: u32,
    ) -> Result<(), Memory>
        requires trip { trip < length table.now.trips }
        requires board { board < length (events_of table.now trip) }
        requires alight { alight < length (events_of table.now trip) }
        ensures { OnOk result (self.new ≡ self.old ++ ride_words table.now trip board alight) }
    {
        let boarded = table.event(trip, board);
        let left = table.event(trip, alight);
        self.add(b"  ride ")?;
        self.trip(table, trip)?;
        self.boarding(table, &boarded)?;
        self.alighting(table, &left)
    }

    // Adds the line of a ride.
    fn ride(
        &mut self,
        table: &Timetable,
        trip: TripNo,
        board: u32,
        alight: u32,
    ) -> Result<(), Memory>
        requires trip { trip < length table.now.trips }
        requires board { board < length (events_of table.now trip) }
        requires alight { alight < length (events_of table.now trip) }
        ensures { OnOk result (self.new ≡ self.old ++ ride_text table.now trip board alight) }
    {
        self.ride_words(table, trip, board, alight)?;
        self.add(ride_mark(trip_day(table, trip)))?;
        self.add(b"\n")
    }

    // Adds the line of a leg.
    fn leg(&mut self, table: &Timetable, leg: Leg) -> Result<(), Memory>
        requires { HasNumbers table.now leg }
        ensures { OnOk result (self.new ≡ self.old ++ leg_text table.now leg) }
    {
        match leg {
            Leg::Walk { from, to, secs } => self.walk(table, from, to, secs),
            Leg::Ride {
                trip,
                board,
                alight,
            } => self.ride(table, trip, board, alight),
        }
    }

    /// Adds one line a leg, in order: `  walk STOP STOP SECONDS`, or
    /// `  ride TRIP STOP DEPARTURE STOP ARRIVAL`, followed by ` day-before`, ` day-after` or
    /// ` day+2` where the trip's service day isn't the date. The numbers of the legs exist in the
    /// timetable, and each ride alights behind where it boards.
    pub fn legs(&mut self, table: &Timetable, legs: &[Leg]) -> Result<(), Memory>
        requires { All (HasNumbers table.now) legs.now }
        ensures { OnOk result (self.new ≡ self.old ++ legs_text table.now legs.now) }
    {
        for leg in legs {
            self.leg(table, *leg)?;
        }
        Ok(())
    }

    // Adds the lines of a journey, with its arrival and its number of rides.
    fn journey(
        &mut self,
        table: &Timetable,
        arrive: Sec,
        rides: u32,
        legs: &[Leg],
    ) -> Result<(), Memory>
        requires { All (HasNumbers table.now) legs.now }
        ensures { OnOk result (self.new
            ≡ self.old ++ journey_text table.now arrive rides legs.now) }
    {
        self.add(b"arrive ")?;
        self.time(arrive)?;
        self.add(b" rides ")?;
        self.number(rides)?;
        self.add(b"\n")?;
        self.legs(table, legs)
    }

    // Adds the lines of a choice.
    fn choice(&mut self, table: &Timetable, choice: &Choice) -> Result<(), Memory>
        requires { All (HasNumbers table.now) choice.now.legs }
        ensures { OnOk result (self.new ≡ self.old ++ choice_text table.now choice.now) }
    {
        let Value { arrive, rides } = choice.value;
        self.journey(table, arrive, rides, choice.legs.as_slice())
    }

    // Adds when an offer leaves.
    fn leave(&mut self, time: Sec) -> Result<(), Memory>
        ensures { OnOk result (self.new ≡ self.old ++ leave_text time) }
    {
        self.add(b"leave ")?;
        self.time(time)?;
        self.add(b" ")
    }

    // Adds the lines of an offer.
    fn offer(&mut self, table: &Timetable, offer: &Offer) -> Result<(), Memory>
        requires { All (HasNumbers table.now) offer.now.legs }
        ensures { OnOk result (self.new ≡ self.old ++ offer_text table.now offer.now) }
    {
        let Slot {
            leave,
            arrive,
            rides,
        } = offer.slot;
        self.leave(leave)?;
        self.journey(table, arrive, rides, offer.legs.as_slice())
    }
}

/// Each choice as `arrive TIME rides N` and its legs, or `no journey` where there is none.
/// The numbers of the legs exist in the timetable, and each ride alights behind where it boards.
pub fn choices_text(alloc: Global, table: &Timetable, choices: &[Choice]) -> Result<Vec<u8>, Memory>
    requires { All (λ c. All (HasNumbers table.now) (ChoiceData.legs c)) choices.now }
    ensures { IfOk result (λ v. v.items ≡ choices_text table.now choices.now) }
{
    let mut text = Text::new(alloc);
    if choices.is_empty() {
        text.add(NO_JOURNEY)?;
    }
    for choice in choices {
        text.choice(table, choice)?;
    }
    Ok(text.into_bytes())
}

/// Each offer as `leave TIME arrive TIME rides N` and its legs, or `no journey` where there is
/// none. The numbers of the legs exist in the timetable, and each ride alights behind where it
/// boards.
pub fn offers_text(alloc: Global, table: &Timetable, offers: &[Offer]) -> Result<Vec<u8>, Memory>
    requires { All (λ o. All (HasNumbers table.now) (OfferData.legs o)) offers.now }
    ensures { IfOk result (λ v. v.items ≡ offers_text table.now offers.now) }
{
    let mut text = Text::new(alloc);
    if offers.is_empty() {
        text.add(NO_JOURNEY)?;
    }
    for offer in offers {
        text.offer(table, offer)?;
    }
    Ok(text.into_bytes())
}

/// `arrive TIME`, or `no journey`.
pub fn arrival_text(alloc: Global, arrival: Option<Sec>) -> Result<Vec<u8>, Memory>
    ensures { IfOk result (λ v. v.items ≡ arrival_text arrival) }
{
    let mut text = Text::new(alloc);
    match arrival {
        Some(time) => {
            text.add(b"arrive ")?;
            text.time(time)?;
            text.add(b"\n")?;
        }
        None => text.add(NO_JOURNEY)?,
    }
    Ok(text.into_bytes())
}

/// `unknown stop NAME`.
pub fn unknown_text(alloc: Global, name: &[u8]) -> Result<Vec<u8>, Memory>
    ensures { IfOk result (λ v. v.items ≡ unknown_text name.now) }
{
    let mut text = Text::new(alloc);
    text.add(b"unknown stop ")?;
    text.add(name)?;
    text.add(b"\n")?;
    Ok(text.into_bytes())
}
