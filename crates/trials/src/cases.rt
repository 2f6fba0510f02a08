//! Cases in plain files, each of which says what `router` answers over a feed.
//!
//! The cases of a file are read, and the feeds that they name; each feed is put into a folder in
//! memory, and `route` is asked what each case asks. A line is written for each case, under one
//! that came out otherwise what came. `CaseLine` says how a case is written.
mod case;
pub mod ending;
mod endless;
pub mod feeds;
mod holding;
mod line;
pub mod question;
mod reader;
mod shown;
pub mod trial;
mod untried;
mod watched;

use crate::stopped::Stopped;
use case::Case;
use feeds::host_file;
use reader::cases_of;
use std::alloc::Global;
use std::rt::Files;
use std::str;
use std::sync::Wait;
use std::thread::Threads;
use trial::{CaseTally, try_case};
use untried::Untried;

// Tries cases, one after another.
fn try_all<R: Threads + Wait + Sync + Print>(
    rt: &R,
    alloc: Global,
    cases: &[Case],
    tally: &mut CaseTally,
) -> Result<(), Untried> {
    for case in cases {
        try_case(rt, alloc, case, tally)?;
    }
    Ok(())
}

// Tries the cases of a text.
fn try_text<R: Threads + Wait + Sync + Files + Print>(
    rt: &R,
    alloc: Global,
    bytes: &[u8],
    tally: &mut CaseTally,
) -> Result<(), Untried> {
    let Ok(text) = str::from_utf8(bytes) else {
        return Err(Untried::NoText);
    };
    let cases = cases_of(rt, alloc, text)?;
    let tried = try_all(rt, alloc, cases.as_slice(), tally);
    drop(cases);
    tried
}

// Tries the cases of a file.
fn try_file<R: Threads + Wait + Sync + Files + Print>(
    rt: &R,
    alloc: Global,
    path: &str,
    tally: &mut CaseTally,
) -> Result<(), Untried> {
    let Some(bytes) = host_file(rt, alloc, path)? else {
        return Err(Untried::NoFile);
    };
    try_text(rt, alloc, bytes.as_slice(), tally)
}

/// Tries the cases of a file, and writes how each came out, or why the file can't be tried.
pub fn try_cases<R: Threads + Wait + Sync + Files + Print + Eprint>(
    rt: &R,
    alloc: Global,
    path: &str,
    tally: &mut CaseTally,
) -> Result<(), Stopped> {
    match try_file(rt, alloc, path, tally) {
        Ok(()) => Ok(()),
        Err(Untried::Memory) => Err(Stopped::Memory),
        Err(untried) => {
            let _ = eprintln!(rt; "trials: {path}: {untried}");
            Err(Stopped::Untried)
        }
    }
}
