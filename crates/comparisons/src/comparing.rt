//! Ways to a result, each held against another, over small feeds, most of which look random.
mod answers;
mod feed;
mod late;
mod refused;
mod same_hops;

use crate::feed_day::FeedDay;
use crate::stopped::Stopped;
use feed_maker::Seeds;
use refused::{Ended, Refused};
use segment_queue::Desk;
use std::alloc::Global;
use std::rt::Files;
use std::thread::Threads;

/// What is compared, and over which feeds that look random.
#[derive(Clone, Copy)]
pub enum Comparison {
    /// Ways to an answer.
    Answers(Seeds),
    /// Editions that late trips amend, and editions that are built anew.
    Late(Seeds),
}

// Compares, and writes what was compared.
fn compared<R: Threads + Sync + Print>(
    rt: &R,
    alloc: Global,
    comparison: Comparison,
    desk: &mut Desk,
) -> Result<(), Ended> {
    match comparison {
        Comparison::Answers(seeds) => answers::compare(rt, alloc, seeds, desk),
        Comparison::Late(seeds) => late::compare(rt, alloc, seeds, desk),
    }
}

// Writes where a comparison ended early.
fn stopped(rt: &impl Print, ended: Ended) -> Stopped {
    if let Refused::Memory = ended.refused {
        return Stopped::Memory;
    }
    let _ = println!(rt; "{ended:?}");
    Stopped::Wrong
}

/// Compares over all feeds with one desk, and writes what was compared, or where the first
/// difference is.
pub fn compare<R: Threads + Sync + Print>(
    rt: &R,
    alloc: Global,
    comparison: Comparison,
    desk: &mut Desk,
) -> Result<(), Stopped> {
    match compared(rt, alloc, comparison, desk) {
        Ok(()) => Ok(()),
        Err(ended) => Err(stopped(rt, ended)),
    }
}

/// Compares ways to an answer over a day of a feed, between all of its stops, and writes what was
/// compared, or what differs.
pub fn compare_between<R: Threads + Sync + Files + Print + Eprint>(
    rt: &R,
    alloc: Global,
    feed: &FeedDay<'_>,
    desk: &mut Desk,
) -> Result<(), Stopped> {
    let table = feed.timetable(rt, alloc)?;
    match answers::compare_between(rt, alloc, table, desk) {
        Ok(()) => Ok(()),
        Err(ended) => Err(stopped(rt, ended)),
    }
}
