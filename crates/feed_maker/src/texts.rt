//! Feeds as texts.
use std::alloc::{AllocError, Global};
use tb_base::Memory;

/// The files of a folder by their paths.
pub type Files = Vec<(String, Vec<u8>)>;

/// The folder that the files stand in.
pub const MADE_FOLDER: &str = "made";

// The day that the service S runs on: 2 March 2026.
const DATES: &str = "service_id,date,exception_type\nS,20260302,1\n";

// The days of each service: S runs on that day, B on the day before, E on both.
const DATES_OF_TWO_DAYS: &str =
    "service_id,date,exception_type\nS,20260302,1\nB,20260301,1\nE,20260301,1\nE,20260302,1\n";

/// The texts of a feed. Each of its trips has the service S, which runs on one day; in a feed of
/// two days B, which runs on the day before, or E, which runs on both, are others.
#[derive(Clone, Copy)]
pub struct Feed<'a> {
    /// stops.txt.
    pub stops: &'a str,
    /// trips.txt.
    pub trips: &'a str,
    /// stop_times.txt.
    pub times: &'a str,
    /// transfers.txt.
    pub transfers: &'a str,
}

fn file(alloc: Global, name: &str, text: &str) -> Result<(String, Vec<u8>), AllocError> {
    let bytes = text.as_bytes();
    Ok((
        format!(in alloc; "{MADE_FOLDER}/{name}")?,
        bytes.to_vec(alloc)?,
    ))
}

fn files_on(alloc: Global, dates: &str, feed: Feed<'_>) -> Result<Files, AllocError> {
    let mut files = Vec::new(alloc);
    files.push(file(alloc, "stops.txt", feed.stops)?)?;
    files.push(file(alloc, "calendar_dates.txt", dates)?)?;
    files.push(file(alloc, "trips.txt", feed.trips)?)?;
    files.push(file(alloc, "stop_times.txt", feed.times)?)?;
    files.push(file(alloc, "transfers.txt", feed.transfers)?)?;
    Ok(files)
}

/// The files of a feed.
pub fn files(alloc: Global, feed: Feed<'_>) -> Result<Files, Memory> {
    Ok(files_on(alloc, DATES, feed)?)
}

/// The files of a feed of two days with this frequencies.txt.
pub fn files_of_two_days(
    alloc: Global,
    feed: Feed<'_>,
    frequencies: &str,
) -> Result<Files, Memory> {
    let mut files = files_on(alloc, DATES_OF_TWO_DAYS, feed)?;
    files.push(file(alloc, "frequencies.txt", frequencies)?)?;
    Ok(files)
}
