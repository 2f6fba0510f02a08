//! Ways to an answer, each held against another.
//!
//! The packed set of hops is held against the plain one; the search over kept transfers against the
//! plain rounds; the profile of a window against asking at each of its seconds; the latest
//! departures by a time against the profile of all times before; the best values to every stop
//! against asking for each alone; travel times over several departures against asking at each:
//! over the two feeds that are made by hand, between
//! all of their stops, and over feeds that look random. Beside each of these is another with trips
//! by frequency and trips of the day before; the same is compared over it, and best values and
//! profiles between all of its stops are held against those over the same trips written out a day
//! later. The legs of each choice are judged as a claim, and so are claims that differ from one in
//! a single field.
mod arriving;
mod between_all;
mod claims;
mod drawn;
mod hops;
mod profiles;
pub mod queries;
mod reaching;
mod tally;
mod travelling;
mod trial;
mod twins;

use crate::comparing::refused::{Ended, FeedName, MadeFeed, Refused};
use between_all::{try_between, try_made};
use feed_maker::Seeds;
use segment_queue::Desk;
use std::alloc::Global;
use std::thread::Threads;
use tally::AnswersTally;
use tb_base::Timetable;
use trial::try_seed;
use twins::try_twins;

// Adds what was compared over a feed, or says over which feed it ended early.
fn add(
    tally: &mut AnswersTally,
    feed: FeedName,
    compared: Result<AnswersTally, Refused>,
) -> Result<(), Ended> {
    match compared {
        Ok(other) => {
            tally.add(other);
            Ok(())
        }
        Err(refused) => Err(Ended { feed, refused }),
    }
}

// Compares over all feeds.
fn try_feeds<R: Threads + Sync>(
    rt: &R,
    alloc: Global,
    seeds: Seeds,
    desk: &mut Desk,
) -> Result<AnswersTally, Ended> {
    let mut tally = AnswersTally::NOTHING;
    for feed in [MadeFeed::Town, MadeFeed::Ring] {
        let compared = try_made(rt, alloc, feed, desk);
        add(&mut tally, FeedName::Made(feed), compared)?;
    }
    for turn in 0..seeds.count {
        let seed = seeds.seed(turn);
        let compared = try_seed(rt, alloc, desk, seed);
        add(&mut tally, FeedName::Seed(seed), compared)?;
        let compared = try_twins(rt, alloc, desk, seed);
        add(&mut tally, FeedName::Twins(seed), compared)?;
    }
    Ok(tally)
}

/// Compares over a timetable, between all of its stops, and writes what was compared.
pub fn compare_between<R: Threads + Sync + Print>(
    rt: &R,
    alloc: Global,
    table: Timetable,
    desk: &mut Desk,
) -> Result<(), Ended> {
    let mut tally = AnswersTally::NOTHING;
    let compared = try_between(rt, alloc, table, desk);
    add(&mut tally, FeedName::OfDay, compared)?;
    tally.write(rt);
    Ok(())
}

/// Compares over all feeds with one desk, and writes what was compared.
pub fn compare<R: Threads + Sync + Print>(
    rt: &R,
    alloc: Global,
    seeds: Seeds,
    desk: &mut Desk,
) -> Result<(), Ended> {
    try_feeds(rt, alloc, seeds, desk)?.write(rt);
    Ok(())
}
