//! Editions that are amended by late trips, held against editions that are built anew.
//!
//! Over each feed that looks random there are some lists of late trips: early and late by seconds,
//! minutes and a day, several of one trip, some that take another one back, trips of other service
//! days, and some with a name or an event that isn't there. An amended edition has the trips,
//! lines and kept transfers of the one that is built anew on the amended timetable, and its number
//! of touched trips is what counting them one by one gives; or both are refused for the same fault.
//! Some questions asked over both have the same best values, each with a journey that has it. In
//! the end the edition that was amended is the one of its day as before.
mod drawn;
mod parts;
mod questions;
mod tally;
mod touched;
mod trial;

use crate::comparing::refused::{Ended, FeedName};
use feed_maker::Seeds;
use segment_queue::Desk;
use std::alloc::Global;
use std::thread::Threads;
use tally::AmendedTally;
use trial::try_seed;

// Compares over the feed of a seed.
fn try_feed<R: Threads + Sync>(
    rt: &R,
    alloc: Global,
    desk: &mut Desk,
    seed: u32,
    tally: &mut AmendedTally,
) -> Result<(), Ended> {
    match try_seed(rt, alloc, desk, seed, tally) {
        Ok(()) => Ok(()),
        Err(refused) => Err(Ended {
            feed: FeedName::Late(seed),
            refused,
        }),
    }
}

// Compares over the feeds, one after another.
fn try_feeds<R: Threads + Sync>(
    rt: &R,
    alloc: Global,
    seeds: Seeds,
    desk: &mut Desk,
    tally: &mut AmendedTally,
) -> Result<(), Ended> {
    for turn in 0..seeds.count {
        try_feed(rt, alloc, desk, seeds.seed(turn), tally)?;
    }
    Ok(())
}

/// Compares over the feeds with one desk, and writes what was compared.
pub fn compare<R: Threads + Sync + Print>(
    rt: &R,
    alloc: Global,
    seeds: Seeds,
    desk: &mut Desk,
) -> Result<(), Ended> {
    let mut tally = AmendedTally::NOTHING;
    try_feeds(rt, alloc, seeds, desk, &mut tally)?;
    tally.write(rt);
    Ok(())
}
