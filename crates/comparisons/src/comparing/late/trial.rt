//! A feed that looks random, updates of its trips, and what is compared over each list of them.
use super::drawn::some_updates;
use super::parts::compare_editions;
use super::questions::compare_answers;
use super::tally::AmendedTally;
use super::touched::compare_touched;
use crate::building::built;
use crate::comparing::feed::edition_of;
use crate::comparing::refused::{Difference, Refused, held};
use crate::reading::Reading;
use edition_store::Edition;
use feed_maker::{Draw, Files, small_feed};
use late_edit::{Amended, LateFault, Update, amend, amended};
use segment_queue::Desk;
use std::alloc::Global;
use std::thread::Threads;
use tb_base::{Horizon, Memory};

// How many lists of updates are tried over each feed.
const LISTS: u32 = 8;

// The day before the one that is read, and the two after it: 1, 3 and 4 March 2026.
const OTHER_DAYS: &[u8] = b"S,20260301,1\nS,20260303,1\nS,20260304,1\n";

// Lets the trips of a feed run on the other days, too.
fn add_other_days(files: &mut Files) -> Result<(), Memory> {
    for (path, bytes) in files.iter_mut() {
        if path.as_str().ends_with("calendar_dates.txt") {
            bytes.extend_from_slice(OTHER_DAYS)?;
        }
    }
    Ok(())
}

// One to three service days.
fn some_horizon(draw: &mut Draw) -> Horizon {
    match draw.below(3) {
        0 => Horizon::OneDay,
        1 => Horizon::TwoDays,
        _ => Horizon::ThreeDays,
    }
}

// Why a list of updates that is refused for nothing else ends a comparison.
fn refusal(refused: tb_base::Refused<LateFault>) -> Refused {
    match refused {
        tb_base::Refused::Fault(_) => Refused::Differs(Difference::Fault),
        tb_base::Refused::Memory => Refused::Memory,
    }
}

// The edition that is built anew on the timetable of another one, amended by updates.
fn built_anew<R: Threads + Sync>(
    rt: &R,
    alloc: Global,
    old: &Edition,
    updates: &[Update],
) -> Result<Edition, Refused> {
    match amended(alloc, old.table(), updates) {
        Ok(table) => Ok(built(rt, alloc, table)?),
        Err(refused) => Err(refusal(refused)),
    }
}

// Holds that a timetable can't be amended by updates for the same fault.
fn compare_faults(
    alloc: Global,
    old: &Edition,
    updates: &[Update],
    fault: LateFault,
    tally: &mut AmendedTally,
) -> Result<(), Refused> {
    match amended(alloc, old.table(), updates) {
        Ok(table) => {
            drop(table);
            Err(Refused::Differs(Difference::Fault))
        }
        Err(tb_base::Refused::Fault(other)) => {
            held(fault == other, Difference::Fault)?;
            tally.refused.add(fault)
        }
        Err(tb_base::Refused::Memory) => Err(Refused::Memory),
    }
}

// Holds an amended edition against the one that is built anew, part by part.
fn compare_parts(
    alloc: Global,
    old: &Edition,
    found: &Amended,
    anew: &Edition,
    tally: &mut AmendedTally,
) -> Result<(), Refused> {
    let new = &found.edition;
    compare_editions(new, anew)?;
    let moved = compare_touched(alloc, old, new, found.redone)?;
    if moved == 0 {
        tally.unmoved = tally.unmoved.wrapping_add(1);
    }
    tally.add_amended(found.redone, new.kept());
    Ok(())
}

// Holds an amended edition against the one that is built anew, part by part and by questions.
fn compare_amended(
    alloc: Global,
    old: &Edition,
    found: &Amended,
    anew: &Edition,
    desk: &mut Desk,
    draw: &mut Draw,
    tally: &mut AmendedTally,
) -> Result<(), Refused> {
    compare_parts(alloc, old, found, anew, tally)?;
    compare_answers(alloc, &found.edition, anew, desk, draw, tally)
}

// Builds the edition anew, and compares.
fn try_amended<R: Threads + Sync>(
    rt: &R,
    alloc: Global,
    old: &Edition,
    updates: &[Update],
    found: &Amended,
    desk: &mut Desk,
    draw: &mut Draw,
    tally: &mut AmendedTally,
) -> Result<(), Refused> {
    match built_anew(rt, alloc, old, updates) {
        Ok(anew) => {
            let compared = compare_amended(alloc, old, found, &anew, desk, draw, tally);
            drop(anew);
            compared
        }
        Err(refused) => Err(refused),
    }
}

// Amends an edition by updates, and compares.
fn try_updates<R: Threads + Sync>(
    rt: &R,
    alloc: Global,
    old: &Edition,
    updates: &[Update],
    desk: &mut Desk,
    draw: &mut Draw,
    tally: &mut AmendedTally,
) -> Result<(), Refused> {
    match amend(alloc, old, updates) {
        Ok(found) => {
            let compared = try_amended(rt, alloc, old, updates, &found, desk, draw, tally);
            drop(found);
            compared
        }
        Err(tb_base::Refused::Fault(fault)) => compare_faults(alloc, old, updates, fault, tally),
        Err(tb_base::Refused::Memory) => Err(Refused::Memory),
    }
}

// Amends an edition by updates of its trips, and compares.
fn try_list<R: Threads + Sync>(
    rt: &R,
    alloc: Global,
    old: &Edition,
    desk: &mut Desk,
    draw: &mut Draw,
    tally: &mut AmendedTally,
) -> Result<(), Refused> {
    let updates = some_updates(alloc, draw, old.table())?;
    tally.lists = tally.lists.wrapping_add(1);
    let compared = try_updates(rt, alloc, old, updates.as_slice(), desk, draw, tally);
    drop(updates);
    compared
}

// Amends an edition by some lists of updates, one after another.
fn try_lists<R: Threads + Sync>(
    rt: &R,
    alloc: Global,
    old: &Edition,
    desk: &mut Desk,
    draw: &mut Draw,
    tally: &mut AmendedTally,
) -> Result<(), Refused> {
    for _turn in 0..LISTS {
        try_list(rt, alloc, old, desk, draw, tally)?;
    }
    Ok(())
}

// Holds an edition, after it is amended by lists of updates, against what it was.
fn try_edition<R: Threads + Sync>(
    rt: &R,
    alloc: Global,
    old: &Edition,
    aside: &Edition,
    desk: &mut Desk,
    draw: &mut Draw,
    tally: &mut AmendedTally,
) -> Result<(), Refused> {
    try_lists(rt, alloc, old, desk, draw, tally)?;
    compare_editions(old, aside)?;
    compare_answers(alloc, old, aside, desk, draw, tally)?;
    tally.feeds = tally.feeds.wrapping_add(1);
    Ok(())
}

// Sets a second edition of the same day aside, and compares.
fn try_beside<R: Threads + Sync>(
    rt: &R,
    alloc: Global,
    old: &Edition,
    desk: &mut Desk,
    draw: &mut Draw,
    tally: &mut AmendedTally,
) -> Result<(), Refused> {
    match built_anew(rt, alloc, old, &[]) {
        Ok(aside) => {
            let compared = try_edition(rt, alloc, old, &aside, desk, draw, tally);
            drop(aside);
            compared
        }
        Err(refused) => Err(refused),
    }
}

// The edition of a feed.
fn edition<R: Threads + Sync>(rt: &R, alloc: Global, draw: &mut Draw) -> Result<Edition, Refused> {
    let mut files = small_feed(alloc, draw)?;
    add_other_days(&mut files)?;
    let reading = Reading::drawn(draw).up_to(some_horizon(draw));
    edition_of(rt, alloc, files, reading)
}

/// Compares over the feed of a seed. In the end its edition is still the one of its timetable.
pub fn try_seed<R: Threads + Sync>(
    rt: &R,
    alloc: Global,
    desk: &mut Desk,
    seed: u32,
    tally: &mut AmendedTally,
) -> Result<(), Refused> {
    let mut draw = Draw::new(seed as u64);
    match edition(rt, alloc, &mut draw) {
        Ok(old) => {
            let compared = try_beside(rt, alloc, &old, desk, &mut draw, tally);
            drop(old);
            compared
        }
        Err(refused) => Err(refused),
    }
}
