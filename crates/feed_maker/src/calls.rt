//! Trips that look random, as rows of trips.txt and stop_times.txt.
ghost use Rattle.std.specs.Prelude.{◌<◌, ◌≤◌};

use super::draw::Draw;
use std::alloc::{AllocError, Global};

/// A time, in seconds from noon minus twelve hours, as a feed writes it.
pub fn clock(alloc: Global, secs: u32) -> Result<String, AllocError> {
    format!(in alloc; "{}:{:02}:{:02}", secs / 3600, secs / 60 % 60, secs % 60)
}

/// A call of a pattern: where, whether one may not board or not alight there, and the seconds of
/// the way to the next.
#[derive(Clone, Copy)]
pub struct Call {
    stop: u32,
    closed_to_board: bool,
    closed_to_alight: bool,
    secs: u32,
}

fn drawn_call(draw: &mut Draw, stops: u32) -> Call
    requires { 0 < stops }
    ensures { result.secs ≤ 600 }
{
    Call {
        stop: draw.below(stops),
        closed_to_board: draw.one_in(9),
        closed_to_alight: draw.one_in(9),
        secs: (draw.below(10) + 1) * 60,
    }
}

/// The calls of a pattern, two to six, at some of so many platforms.
pub fn drawn_calls(alloc: Global, draw: &mut Draw, stops: u32) -> Result<Vec<Call>, AllocError>
    requires { 0 < stops }
{
    let mut calls = Vec::new(alloc);
    for _call in 0..draw.below(5) + 2 {
        calls.push(drawn_call(draw, stops))?;
    }
    Ok(calls)
}

/// A call of a trip, which arrives there so many seconds after its first arrival, and waits there
/// for so many.
#[derive(Clone, Copy)]
pub struct TimedCall {
    call: Call,
    pub after: u32,
    pub wait: u32,
}

/// The calls of a trip over those of its pattern. It stops for a minute at some of them, and at
/// times is slow.
pub fn timed_calls(
    alloc: Global,
    draw: &mut Draw,
    calls: &[Call],
) -> Result<Vec<TimedCall>, AllocError> {
    let mut timed = Vec::new(alloc);
    let mut after: u32 = 0;
    let slow = if draw.one_in(4) { 60 } else { 0 };
    for call in calls {
        let wait = if draw.one_in(4) { 60 } else { 0 };
        timed.push(TimedCall {
            call: *call,
            after,
            wait,
        })?;
        after = after
            .saturating_add(wait)
            .saturating_add(call.secs)
            .saturating_add(slow);
    }
    Ok(timed)
}

// The row of a call of a trip whose first arrival is at a time.
fn time_row(
    alloc: Global,
    trip: &str,
    row: usize,
    timed: TimedCall,
    first: u32,
) -> Result<String, AllocError> {
    let time = first.saturating_add(timed.after);
    let arrival = clock(alloc, time)?;
    let departure = clock(alloc, time.saturating_add(timed.wait))?;
    let pickup = u32::from(timed.call.closed_to_board);
    let drop_off = u32::from(timed.call.closed_to_alight);
    let stop = timed.call.stop;
    format!(in alloc; "{trip},{row},P{stop},{arrival},{departure},{pickup},{drop_off}\n")
}

/// Trips and their times, as trips.txt and stop_times.txt.
#[derive(Drop)]
pub struct Trips {
    pub trips: String,
    pub times: String,
}

impl Trips {
    /// The headers alone.
    pub fn new(alloc: Global) -> Result<Trips, AllocError> {
        let times =
            "trip_id,stop_sequence,stop_id,arrival_time,departure_time,pickup_type,drop_off_type\n";
        Ok(Trips {
            trips: String::from_str(alloc, "service_id,trip_id\n")?,
            times: String::from_str(alloc, times)?,
        })
    }

    /// A trip of a service whose first arrival is at a time.
    pub fn add(
        &mut self,
        alloc: Global,
        service: &str,
        trip: &str,
        calls: &[TimedCall],
        first: u32,
    ) -> Result<(), AllocError> {
        for (row, timed) in calls.iter().enumerate() {
            let text = time_row(alloc, trip, row, *timed, first)?;
            self.times.push_str(text.as_str())?;
        }
        self.trips
            .push_str(format!(in alloc; "{service},{trip}\n")?.as_str())
    }
}
