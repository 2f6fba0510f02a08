//! Updates of trips and questions that are drawn by numbers that look random.
use feed_maker::Draw;
use late_edit::{Cancel, Late, Skip, Update};
use std::alloc::Global;
use tb_base::{Memory, Name, Sec, ServiceDay, StopNo, Timetable, Trip, TripNo};

// A name that no trip has.
const NOBODY: &[u8] = b"nobody";

/// From where to where, and not before when, in seconds from noon minus twelve hours.
#[derive(Clone, Copy)]
pub struct DrawnQuestion {
    pub from: StopNo,
    pub to: StopNo,
    pub leave: Sec,
}

// By how many seconds: up to ten minutes, early or late, at times a day or a second more.
fn some_seconds(draw: &mut Draw) -> Sec {
    let second = draw.below(2) as i32;
    let minutes = draw.below(11) as i32 * 60;
    let secs = if draw.one_in(20) { 86_400 } else { minutes };
    let late = secs.saturating_add(second);
    if draw.one_in(3) {
        0i32.saturating_sub(late)
    } else {
        late
    }
}

// One of the events of a trip, or at times one that isn't there.
fn some_event(draw: &mut Draw, trip: &Trip) -> u32 {
    let events = u32::try_from(trip.events.len()).unwrap_or(0);
    if events == 0 || draw.one_in(20) {
        events.saturating_add(draw.below(2))
    } else {
        draw.below(events)
    }
}

// The name of a trip, at times one that no trip has.
fn some_name(alloc: Global, draw: &mut Draw, trip: &Trip) -> Result<Name, Memory> {
    if draw.one_in(25) {
        Name::new(alloc, NOBODY)
    } else {
        Name::new(alloc, trip.name.bytes())
    }
}

// The service day of a trip, or at times any.
fn some_day(draw: &mut Draw, trip: &Trip) -> ServiceDay {
    if !draw.one_in(25) {
        return trip.day;
    }
    match draw.below(4) {
        0 => ServiceDay::Before,
        1 => ServiceDay::Date,
        2 => ServiceDay::After,
        _ => ServiceDay::SecondAfter,
    }
}

// A late of a trip, at times with a name that no trip has, or with any day.
fn some_late(alloc: Global, draw: &mut Draw, trip: &Trip, line: u32) -> Result<Late, Memory> {
    Ok(Late {
        line,
        trip: some_name(alloc, draw, trip)?,
        day: some_day(draw, trip),
        from: some_event(draw, trip),
        secs: some_seconds(draw),
    })
}

// The late that takes another one back.
fn taken_back(alloc: Global, late: &Late, line: u32) -> Result<Late, Memory> {
    Ok(Late {
        line,
        trip: Name::new(alloc, late.trip.bytes())?,
        day: late.day,
        from: late.from,
        secs: 0i32.saturating_sub(late.secs),
    })
}

// A trip that is cancelled, at times with a name that no trip has, or with any day.
fn some_cancel(alloc: Global, draw: &mut Draw, trip: &Trip, line: u32) -> Result<Cancel, Memory> {
    Ok(Cancel {
        line,
        trip: some_name(alloc, draw, trip)?,
        day: some_day(draw, trip),
    })
}

// A stop that a trip skips, at times with a name that no trip has, or with any day.
fn some_skip(alloc: Global, draw: &mut Draw, trip: &Trip, line: u32) -> Result<Skip, Memory> {
    Ok(Skip {
        line,
        trip: some_name(alloc, draw, trip)?,
        day: some_day(draw, trip),
        at: some_event(draw, trip),
    })
}

// Adds a late of a trip, and at times one that takes it back.
fn add_lates(
    alloc: Global,
    draw: &mut Draw,
    trip: &Trip,
    line: u32,
    updates: &mut Vec<Update>,
) -> Result<(), Memory> {
    let late = some_late(alloc, draw, trip, line)?;
    if draw.one_in(5) {
        let back = taken_back(alloc, &late, line.saturating_add(1))?;
        updates.push(Update::Late(late))?;
        updates.push(Update::Late(back))?;
    } else {
        updates.push(Update::Late(late))?;
    }
    Ok(())
}

// Adds what is said of a trip: it is late, or it is cancelled, or it skips a stop.
fn add_updates(
    alloc: Global,
    draw: &mut Draw,
    trip: &Trip,
    turn: u32,
    updates: &mut Vec<Update>,
) -> Result<(), Memory> {
    let line = turn.saturating_mul(2).saturating_add(1);
    if draw.one_in(6) {
        updates.push(Update::Cancel(some_cancel(alloc, draw, trip, line)?))?;
    } else if draw.one_in(4) {
        updates.push(Update::Skip(some_skip(alloc, draw, trip, line)?))?;
    } else {
        add_lates(alloc, draw, trip, line, updates)?;
    }
    Ok(())
}

/// None to four updates of trips of a timetable; some lates are taken back by another one. A trip
/// may be named more than once.
pub fn some_updates(
    alloc: Global,
    draw: &mut Draw,
    table: &Timetable,
) -> Result<Vec<Update>, Memory> {
    let mut updates = Vec::new(alloc);
    for turn in 0..draw.below(5) {
        if table.trip_count() == 0 {
            return Ok(updates);
        }
        let trip = TripNo(draw.below(table.trip_count()));
        add_updates(alloc, draw, table.trip(trip), turn, &mut updates)?;
    }
    Ok(updates)
}

// A time up to ten minutes before the first departure of some trip.
fn some_time(draw: &mut Draw, table: &Timetable) -> Sec {
    let early = draw.below(10) as i32 * 60;
    if table.trip_count() == 0 {
        return 0;
    }
    let trip = TripNo(draw.below(table.trip_count()));
    match table.events(trip).first() {
        Some(event) => event.dep.saturating_sub(early),
        None => 0,
    }
}

/// A question between two stops of a timetable, none where it has no stop.
pub fn some_question(draw: &mut Draw, table: &Timetable) -> Option<DrawnQuestion> {
    if table.stop_count() == 0 {
        return None;
    }
    Some(DrawnQuestion {
        from: StopNo(draw.below(table.stop_count())),
        to: StopNo(draw.below(table.stop_count())),
        leave: some_time(draw, table),
    })
}
