//! Many random questions over one day of a feed inside one process, for measuring.
//!
//! The method `search` asks for the best values between pairs of stops, drawn by a generator with a
//! fixed seed, at random times of the day, by a search over the kept transfers; `plain` asks the
//! same round by round. It is written how many choices were found, and the sum of their arrivals,
//! so both can be compared. `profile` asks for profiles of 24 hours instead, and the same is
//! written of their slots; `reach` for the best values from a stop to every stop; `times` for the
//! travel times from a stop to every stop over sixty departures of an hour, of which the sum of the
//! least ones is written; `latest` for the
//! latest departures by a time of the day, of which the sum of the departures is written. By `pin`
//! one seat of a store pins the day's edition so often, by `publish` so many stores of one seat are
//! given 99 more shares of it each; it is written how often, and the sum of the numbers. The
//! processor time of that alone, without reading the feed and making its edition, is written to
//! standard error.
mod arrivals;
mod asking;
mod drawn;
mod found;
pub mod method;
mod queries;
mod reaches;
mod stores;
mod travels;
mod watch;

use crate::building::{built, mirror_built};
use crate::stopped::Stopped;
use arrivals::by_arrivals;
use asking::by_asking;
use edition_store::Edition;
use found::Found;
use method::{Asking, Measurement, Method, Storing};
use queries::by_rounds;
use segment_queue::Desk;
use std::alloc::Global;
use std::rt::Files;
use std::sync::Wait;
use std::thread::Threads;
use std::time::CpuClock;
use stores::{by_pins, by_publications};
use tb_base::{Memory, Timetable};
use watch::Watch;

// What is found, and the microseconds of processor time that finding it took.
#[derive(Clone, Copy)]
struct Measured {
    found: Found,
    micros: u128,
}

// What was found since a moment.
fn measured_since(
    rt: &impl CpuClock,
    since: Watch,
    found: Result<Found, Memory>,
) -> Result<Measured, Memory> {
    let micros = since.micros(rt);
    Ok(Measured {
        found: found?,
        micros,
    })
}

// Asks over a timetable alone.
fn measured_rounds(
    rt: &impl CpuClock,
    alloc: Global,
    table: &Timetable,
    count: u32,
) -> Result<Measured, Memory> {
    let since = Watch::start(rt);
    measured_since(rt, since, by_rounds(alloc, table, count))
}

// Asks over the edition of the mirror.
fn measured_arrivals<R: Threads + Sync + CpuClock>(
    rt: &R,
    alloc: Global,
    table: &Timetable,
    desk: &mut Desk,
    count: u32,
) -> Result<Measured, Memory> {
    match mirror_built(rt, alloc, table) {
        Ok(mirrored) => {
            let since = Watch::start(rt);
            let found = by_arrivals(alloc, &mirrored, table, desk, count);
            let measured = measured_since(rt, since, found);
            drop(mirrored);
            measured
        }
        Err(Memory) => Err(Memory),
    }
}

// Asks over the edition.
fn measured_asking<R: Threads + Sync + CpuClock>(
    rt: &R,
    alloc: Global,
    table: Timetable,
    asking: Asking,
    desk: &mut Desk,
    count: u32,
) -> Result<Measured, Memory> {
    match built(rt, alloc, table) {
        Ok(edition) => {
            let since = Watch::start(rt);
            let found = by_asking(alloc, &edition, asking, desk, count);
            let measured = measured_since(rt, since, found);
            drop(edition);
            measured
        }
        Err(Memory) => Err(Memory),
    }
}

fn stored<R: Wait>(
    rt: &R,
    alloc: Global,
    edition: Edition,
    storing: Storing,
    count: u32,
) -> Result<Found, Memory> {
    match storing {
        Storing::Pin => by_pins(rt, alloc, edition, count),
        Storing::Publish => by_publications(rt, alloc, edition, count),
    }
}

// Goes through stores of the edition.
fn measured_storing<R: Threads + Wait + Sync + CpuClock>(
    rt: &R,
    alloc: Global,
    table: Timetable,
    storing: Storing,
    count: u32,
) -> Result<Measured, Memory> {
    match built(rt, alloc, table) {
        Ok(edition) => {
            let since = Watch::start(rt);
            measured_since(rt, since, stored(rt, alloc, edition, storing, count))
        }
        Err(Memory) => Err(Memory),
    }
}

// What is measured over a timetable.
fn measured_over<R: Threads + Wait + Sync + CpuClock>(
    rt: &R,
    alloc: Global,
    table: Timetable,
    method: Method,
    desk: &mut Desk,
    count: u32,
) -> Result<Measured, Memory> {
    match method {
        Method::Plain => {
            let measured = measured_rounds(rt, alloc, &table, count);
            drop(table);
            measured
        }
        Method::Latest => {
            let measured = measured_arrivals(rt, alloc, &table, desk, count);
            drop(table);
            measured
        }
        Method::OverEdition(asking) => measured_asking(rt, alloc, table, asking, desk, count),
        Method::OverStore(storing) => measured_storing(rt, alloc, table, storing, count),
    }
}

// Writes what was measured.
fn write(rt: &(impl Print + Eprint), measured: Result<Measured, Memory>) -> Result<(), Stopped> {
    match measured {
        Ok(Measured { found, micros }) => {
            let _ = println!(rt; "choices {} arrivals {}", found.choices, found.arrivals);
            let _ = eprintln!(rt; "processor microseconds {micros}");
            Ok(())
        }
        Err(Memory) => Err(Stopped::Memory),
    }
}

/// Measures, and writes what was found.
pub fn measure<R: Threads + Wait + Sync + Files + CpuClock + Print + Eprint>(
    rt: &R,
    alloc: Global,
    measurement: &Measurement<'_>,
    desk: &mut Desk,
) -> Result<(), Stopped> {
    let Measurement {
        method,
        count,
        feed,
    } = measurement;
    match feed.timetable(rt, alloc) {
        Ok(table) => {
            let measured = measured_over(rt, alloc, table, *method, desk, *count);
            write(rt, measured)
        }
        Err(stopped) => Err(stopped),
    }
}
