//! The program `trials`: the program's answers tried, part by part.
//!
//! `trials PART..` goes through its parts, each a word:
//!
//! - `FILE` tries the cases of a file, each of which says what `router` answers over a feed;
//! - `broken:COUNT` breaks small feeds that look random, and asks over them.
//!
//! A COUNT of feeds is one of seeds, from 1 on, or from the one that stands behind, as in
//! `broken:40:7`. What was tried is written, and where something is wrong that too, with status 1;
//! the number of cases comes last. Nothing is promised of the program but that it is safe and ends.
#![tactic(auto)]

mod broken;
mod cases;
mod part;
mod stopped;

use broken::try_broken;
use cases::trial::CaseTally;
use cases::try_cases;
use feed_maker::words_of;
use part::{Part, parts_of};
use std::alloc::Global;
use std::process::ExitCode;
use std::rt::Files;
use std::sync::Wait;
use std::thread::Threads;
use stopped::Stopped;

fn try_part<R: Threads + Wait + Sync + Files + Print + Eprint>(
    rt: &R,
    alloc: Global,
    part: Part<'_>,
    tally: &mut CaseTally,
) -> Result<(), Stopped> {
    match part {
        Part::Cases(path) => try_cases(rt, alloc, path, tally),
        Part::Broken(seeds) => try_broken(rt, alloc, seeds),
    }
}

// Tries one part after the other. It gives the cases that were tried.
fn try_parts<R: Threads + Wait + Sync + Files + Print + Eprint>(
    rt: &R,
    alloc: Global,
    parts: &[Part<'_>],
) -> Result<CaseTally, Stopped> {
    let mut tally = CaseTally::NOTHING;
    for part in parts {
        try_part(rt, alloc, *part, &mut tally)?;
    }
    Ok(tally)
}

// Tries all parts, and says at the end how many cases there were.
fn try_all<R: Threads + Wait + Sync + Files + Print + Eprint>(
    rt: &R,
    alloc: Global,
    parts: &[Part<'_>],
) -> Result<(), Stopped> {
    try_parts(rt, alloc, parts)?.write(rt)
}

// Says with which number to end.
fn code_of<R: Threads + Wait + Sync + Files + Print + Eprint>(
    rt: &R,
    alloc: Global,
    words: &[String],
) -> u8 {
    let Some(parts) = parts_of(alloc, words) else {
        return write_usage(rt);
    };
    match try_all(rt, alloc, parts.as_slice()) {
        Ok(()) => 0,
        Err(stopped) => {
            if stopped == Stopped::Memory {
                let _ = eprintln!(rt; "trials: out of memory");
            }
            stopped.code()
        }
    }
}

// Writes how the program is used, and says with which number to end then.
fn write_usage(rt: &impl Eprint) -> u8 {
    let _ = eprintln!(rt; "usage: trials PART.. (FILE, broken:COUNT[:SEED])");
    2
}

fn main(rt: HostRuntime) -> ExitCode {
    let code = match words_of(&rt) {
        Some(words) => code_of(&rt, rt.alloc(), words.as_slice()),
        None => write_usage(&rt),
    };
    ExitCode::from(code)
}
