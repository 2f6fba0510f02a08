//! Small feeds that look random, of which one file is broken, and what the program says of each.
//! Each other one has trips by frequency, trips of the day before and a calendar.txt.
//!
//! Each feed is broken many times: a byte of a file changed, dropped or doubled, the file cut,
//! another file's bytes in its place, or its rows turned round. Over each the program is asked for
//! the best values by both ways and over two service days, a profile, the latest departures, the
//! best values and the travel times to every stop, travel times from two origins, and the kept
//! transfers. Each ends with an answer, or with a status that names a fault of the feed and nothing
//! written; all with the same one; both ways show the same best values, and the order of rows
//! changes none. Each best value that is written as JSON is a true claim when it is read again. With
//! `--lenient` there is an answer, or a fault that no row bears; and a check tells no fault exactly
//! where there is an answer without it.
mod asking;
mod breaks;
mod lenient;
mod refused;
mod trial;

use crate::stopped::Stopped;
use feed_maker::Seeds;
use refused::{Ended, Refused};
use std::alloc::Global;
use std::sync::Wait;
use std::thread::Threads;
use trial::{BrokenTally, try_seed};

fn try_feeds<R: Threads + Wait + Sync>(
    rt: &R,
    alloc: Global,
    seeds: Seeds,
) -> Result<BrokenTally, Ended> {
    let mut tally = BrokenTally::NOTHING;
    for turn in 0..seeds.count {
        let seed = seeds.seed(turn);
        match try_seed(rt, alloc, seed) {
            Ok(other) => tally.add(other),
            Err(refused) => return Err(Ended { seed, refused }),
        }
    }
    Ok(tally)
}

// Writes what was tried.
fn write(rt: &impl Print, tally: BrokenTally) {
    let BrokenTally {
        broken,
        answered,
        left_out,
        whole,
    } = tally;
    let refused = broken.wrapping_sub(answered);
    let _ = print!(rt; "broken feeds {broken} answered {answered} refused {refused}");
    let _ = println!(rt; " with rows left out {left_out} checks without a fault {whole}");
}

// Writes where trying them ended early.
fn stopped(rt: &impl Print, ended: Ended) -> Stopped {
    if let Refused::Memory = ended.refused {
        return Stopped::Memory;
    }
    let _ = println!(rt; "{ended:?}");
    Stopped::Wrong
}

/// Breaks feeds, and writes what was tried, or the first that is wrong.
pub fn try_broken<R: Threads + Wait + Sync + Print>(
    rt: &R,
    alloc: Global,
    seeds: Seeds,
) -> Result<(), Stopped> {
    match try_feeds(rt, alloc, seeds) {
        Ok(tally) => {
            write(rt, tally);
            Ok(())
        }
        Err(ended) => Err(stopped(rt, ended)),
    }
}
