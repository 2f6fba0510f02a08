//! Feeds of the machine's folder `feeds`.

use super::untried::Untried;
use std::alloc::{AllocError, Global};
use std::rt;
use tb_base::HashKey;
use tb_io::{HostFolder, take_file};

/// The files of a folder by their paths.
pub type Files = Vec<(String, Vec<u8>)>;

// The most bytes of a file.
const MOST: u64 = 1_000_000;

// The files that a feed can have.
const NAMES: [&str; 7] = [
    "stops.txt",
    "calendar.txt",
    "calendar_dates.txt",
    "trips.txt",
    "stop_times.txt",
    "transfers.txt",
    "frequencies.txt",
];

/// Whether a feed can have a file of this name.
pub fn is_file(name: &str) -> bool {
    NAMES.iter().any(|file| *file == name)
}

/// A file of the machine, where it is there.
pub fn host_file<R: rt::Files>(
    rt: &R,
    alloc: Global,
    path: &str,
) -> Result<Option<Vec<u8>>, Untried> {
    let mut folder = HostFolder::new(rt, HashKey::known());
    match take_file(alloc, &mut folder, path, MOST) {
        Ok(taken) => Ok(taken),
        Err(_) => Err(Untried::NoFile),
    }
}

// Adds a file of a feed where it is there, and says whether it is.
fn add_file<R: rt::Files>(
    rt: &R,
    alloc: Global,
    name: &str,
    file: &str,
    files: &mut Files,
) -> Result<bool, Untried> {
    let path = format!(in alloc; "feeds/{name}/{file}")?;
    match host_file(rt, alloc, path.as_str())? {
        Some(bytes) => {
            files.push((format!(in alloc; "{name}/{file}")?, bytes))?;
            Ok(true)
        }
        None => Ok(false),
    }
}

/// Adds the files of a feed, and says how many it has.
pub fn add_feed<R: rt::Files>(
    rt: &R,
    alloc: Global,
    name: &str,
    files: &mut Files,
) -> Result<usize, Untried> {
    let mut count: usize = 0;
    for file in NAMES {
        if add_file(rt, alloc, name, file, files)? {
            count = count.saturating_add(1);
        }
    }
    Ok(count)
}

/// Adds copies of files.
pub fn add_copies(
    alloc: Global,
    from: &[(String, Vec<u8>)],
    files: &mut Files,
) -> Result<(), AllocError> {
    for (path, bytes) in from {
        let path = String::from_str(alloc, path.as_str())?;
        files.push((path, bytes.as_slice().to_vec(alloc)?))?;
    }
    Ok(())
}
