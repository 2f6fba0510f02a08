//! The program `comparisons`: ways to a result held against one another, and questions measured,
//! part by part.
//!
//! `comparisons PART..` goes through its parts, each a word:
//!
//! - `answers:COUNT` holds ways to an answer against one another over small feeds that look random,
//!   and over two that are made by hand;
//! - `between:DIR@DATE` holds them against one another over one day of a feed, between all of its
//!   stops;
//! - `late:COUNT` holds editions that late trips amend against editions that are built anew;
//! - `callers:DIR@DATE:DIR@DATE` writes what callers are told of one day, and of another one that is
//!   published then;
//! - `METHOD:COUNT:DIR@DATE` measures so many random questions over one day of a feed.
//!
//! A COUNT of feeds is one of seeds, from 1 on, or from the one that stands behind, as in
//! `late:40:7`. One desk serves all parts. It stands on what answers and holds editions, not on the
//! program `router`. What was compared is written, and where something is wrong that too, with
//! status 1. Nothing is promised of the program but that it is safe and ends.
#![tactic(auto)]

mod building;
mod callers;
mod comparing;
mod feed_day;
mod made;
mod measuring;
mod part;
mod questions;
mod reading;
mod stopped;
mod ways;

use callers::{tell, tell_alone};
use comparing::{compare, compare_between};
use feed_day::FeedDay;
use feed_maker::words_of;
use measuring::measure;
use part::{Part, parts_of};
use segment_queue::Desk;
use std::alloc::Global;
use std::process::ExitCode;
use std::rt::Files;
use std::sync::Wait;
use std::thread::Threads;
use std::time::CpuClock;
use stopped::Stopped;

fn tell_both<R: Threads + Wait + Sync + Files + Print + Eprint>(
    rt: &R,
    alloc: Global,
    first: &FeedDay<'_>,
    second: &FeedDay<'_>,
) -> Result<(), Stopped> {
    tell(rt, alloc, first, second)?;
    tell_alone(rt, alloc, first)
}

fn try_part<R: Threads + Wait + Sync + Files + CpuClock + Print + Eprint>(
    rt: &R,
    alloc: Global,
    part: &Part<'_>,
    desk: &mut Desk,
) -> Result<(), Stopped> {
    match part {
        Part::Compared(comparison) => compare(rt, alloc, *comparison, desk),
        Part::Between(feed) => compare_between(rt, alloc, feed, desk),
        Part::Told(first, second) => tell_both(rt, alloc, first, second),
        Part::Measured(measurement) => measure(rt, alloc, measurement, desk),
    }
}

// Tries one part after the other with one desk.
fn try_parts<R: Threads + Wait + Sync + Files + CpuClock + Print + Eprint>(
    rt: &R,
    alloc: Global,
    parts: &[Part<'_>],
    desk: &mut Desk,
) -> Result<(), Stopped> {
    for part in parts {
        try_part(rt, alloc, part, desk)?;
    }
    Ok(())
}

// Tries all parts.
fn try_all<R: Threads + Wait + Sync + Files + CpuClock + Print + Eprint>(
    rt: &R,
    alloc: Global,
    parts: &[Part<'_>],
) -> Result<(), Stopped> {
    let mut desk = Desk::new(alloc);
    let tried = try_parts(rt, alloc, parts, &mut desk);
    drop(desk);
    tried
}

// Says with which number to end.
fn code_of<R: Threads + Wait + Sync + Files + CpuClock + Print + Eprint>(
    rt: &R,
    alloc: Global,
    words: &[String],
) -> u8 {
    let Some(parts) = parts_of(alloc, words) else {
        return write_usage(rt);
    };
    match try_all(rt, alloc, parts.as_slice()) {
        Ok(()) => 0,
        Err(stopped) => {
            if stopped == Stopped::Memory {
                let _ = eprintln!(rt; "comparisons: out of memory");
            }
            stopped.code()
        }
    }
}

// Writes how the program is used, and says with which number to end then.
fn write_usage(rt: &impl Eprint) -> u8 {
    let _ = eprintln!(rt;
        "usage: comparisons PART.. (COMPARISON:COUNT[:SEED], between:DAY, callers:DAY:DAY, METHOD:COUNT:DAY)"
    );
    let _ = eprintln!(rt; "DAY: DIR@DATE");
    let _ = eprintln!(rt; "COMPARISON: answers|late");
    let _ = eprintln!(rt; "METHOD: search|plain|profile|reach|latest|pin|publish");
    2
}

fn main(rt: HostRuntime) -> ExitCode {
    let code = match words_of(&rt) {
        Some(words) => code_of(&rt, rt.alloc(), words.as_slice()),
        None => write_usage(&rt),
    };
    ExitCode::from(code)
}
