//! The editions of feeds.
use super::refused::Refused;
use crate::building::built;
use crate::reading::{Reading, timetable_of};
use edition_store::Edition;
use feed_maker::Files;
use std::alloc::Global;
use std::thread::Threads;

/// The edition of a feed's files.
pub fn edition_of<R: Threads + Sync>(
    rt: &R,
    alloc: Global,
    files: Files,
    reading: Reading,
) -> Result<Edition, Refused> {
    let table = timetable_of(alloc, files, reading)?;
    Ok(built(rt, alloc, table)?)
}
