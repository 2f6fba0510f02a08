//! Feeds that look random, of which one file is broken, and what is asked over each.
ghost use Rattle.std.specs.Prelude.{◌<◌};

use super::asking::{AskedCommand, PlatformQuestion, command_ending, ending_with};
use super::breaks::{Break, Broken, broken_files, some_broken};
use super::lenient::{LenientEnds, lenient_ends};
use crate::broken::refused::Refused;
use crate::cases::ending::Ending;
use feed_maker::{Draw, Files, MADE_FOLDER, small_feed, twin_feed};
use std::alloc::{AllocError, Global};
use std::sync::Wait;
use std::thread::Threads;
use tb_base::Memory;

// How often a feed is broken.
const BREAKS: u32 = 16;

// What is asked after `Ask`, and held against how that ended.
const FURTHER: [AskedCommand; 8] = [
    AskedCommand::PlainAsk,
    AskedCommand::TwoDaysAsk,
    AskedCommand::Profile,
    AskedCommand::Latest,
    AskedCommand::Reach,
    AskedCommand::Times,
    AskedCommand::Matrix,
    AskedCommand::Build,
];

// A calendar.txt that says of the service E what calendar_dates.txt says of it: it runs on both days.
const CALENDAR: &str =
    "service_id,monday,tuesday,wednesday,thursday,friday,saturday,sunday,start_date,end_date\nE,1,1,1,1,1,1,1,20260301,20260302\n";

/// What was tried.
#[derive(Clone, Copy)]
pub struct BrokenTally {
    /// Feeds of which one file is broken.
    pub broken: u64,
    /// Those of them that have an answer all the same.
    pub answered: u64,
    /// Those that have one where rows are left out.
    pub left_out: u64,
    /// Those of which a check tells no fault.
    pub whole: u64,
}

impl BrokenTally {
    /// Nothing yet.
    pub const NOTHING: BrokenTally = BrokenTally {
        broken: 0,
        answered: 0,
        left_out: 0,
        whole: 0,
    };

    /// Adds what else was tried.
    pub fn add(&mut self, other: BrokenTally) {
        self.broken = self.broken.wrapping_add(other.broken);
        self.answered = self.answered.wrapping_add(other.answered);
        self.left_out = self.left_out.wrapping_add(other.left_out);
        self.whole = self.whole.wrapping_add(other.whole);
    }
}

/// What is wrong with how the program ended.
#[derive(Clone, Copy, Debug)]
pub enum Wrong {
    /// The feed as it was made has no answer.
    NoAnswer,
    /// A command ended with neither an answer nor a fault of the feed.
    Unsound(AskedCommand),
    /// A command ended with another status than `Ask`.
    OtherStatus(AskedCommand),
    /// Both ways to the best values show different ones.
    OtherValues,
    /// The order of a file's rows changed the best values.
    OrderMatters,
    /// A journey that is written as JSON is none when it is read again.
    NotReadBack,
    /// What comes with `--lenient` doesn't fit what comes without it.
    NotLenient,
    /// A check doesn't fit either.
    NotChecked,
}

// Whether a line of JSON claims a journey with its value.
fn is_read_back<R: Threads + Wait + Sync>(
    rt: &R,
    alloc: Global,
    files: &[(String, Vec<u8>)],
    question: PlatformQuestion,
    line: &str,
) -> Result<bool, Memory> {
    let verdict = ending_with(rt, alloc, files, question, AskedCommand::JsonVerify, line)?;
    let is_valid = verdict.answer() == "{\"valid\":true}\n";
    drop(verdict);
    Ok(is_valid)
}

// Whether each line of an answer does.
fn are_read_back<R: Threads + Wait + Sync>(
    rt: &R,
    alloc: Global,
    files: &[(String, Vec<u8>)],
    question: PlatformQuestion,
    written: &Ending,
) -> Result<bool, Memory> {
    for line in written.answer().lines() {
        if !is_read_back(rt, alloc, files, question, line)? {
            return Ok(false);
        }
    }
    Ok(written.is_answer())
}

// What is wrong with the best values as JSON, where there are some.
fn wrong_as_json<R: Threads + Wait + Sync>(
    rt: &R,
    alloc: Global,
    files: &[(String, Vec<u8>)],
    question: PlatformQuestion,
) -> Result<Option<Wrong>, Memory> {
    let written = command_ending(rt, alloc, files, question, AskedCommand::JsonAsk)?;
    let read_back = are_read_back(rt, alloc, files, question, &written);
    drop(written);
    Ok(if read_back? {
        None
    } else {
        Some(Wrong::NotReadBack)
    })
}

// What is wrong with how a further command ends, beside the first.
fn wrong_with(came: &Ending, first: &Ending, command: AskedCommand) -> Option<Wrong> {
    if !came.is_sound() {
        return Some(Wrong::Unsound(command));
    }
    if !came.has_status_of(first) {
        return Some(Wrong::OtherStatus(command));
    }
    if command == AskedCommand::PlainAsk && !came.has_values_of(first) {
        return Some(Wrong::OtherValues);
    }
    None
}

// What is wrong with how the first command ended, or a further one ends.
fn wrong_among<R: Threads + Wait + Sync>(
    rt: &R,
    alloc: Global,
    files: &[(String, Vec<u8>)],
    question: PlatformQuestion,
    first: &Ending,
) -> Result<Option<Wrong>, Memory> {
    if !first.is_sound() {
        return Ok(Some(Wrong::Unsound(AskedCommand::Ask)));
    }
    for command in FURTHER.iter() {
        let came = command_ending(rt, alloc, files, question, *command)?;
        let wrong = wrong_with(&came, first, *command);
        drop(came);
        if wrong.is_some() {
            return Ok(wrong);
        }
    }
    if first.has_journeys() {
        return wrong_as_json(rt, alloc, files, question);
    }
    Ok(None)
}

// How the first command ends over files, where nothing is wrong with any.
fn sound_ending<R: Threads + Wait + Sync>(
    rt: &R,
    alloc: Global,
    files: &[(String, Vec<u8>)],
    question: PlatformQuestion,
    broken: Option<Broken>,
) -> Result<Ending, Refused> {
    let first = command_ending(rt, alloc, files, question, AskedCommand::Ask)?;
    let refused = match wrong_among(rt, alloc, files, question, &first) {
        Ok(None) => return Ok(first),
        Ok(Some(wrong)) => Refused::Found(wrong, broken),
        Err(Memory) => Refused::Memory,
    };
    drop(first);
    Err(refused)
}

// Holds how the first command ends over files of which one is broken against how it ended before.
fn compared(came: &Ending, whole: &Ending, broken: Broken) -> Result<(), Refused> {
    let same = came.has_status_of(whole) && came.has_values_of(whole);
    if broken.how == Break::Turned && !same {
        return Err(Refused::Found(Wrong::OrderMatters, Some(broken)));
    }
    Ok(())
}

// What was tried over files, where the first command and what is asked beside it ended so.
fn tally_of(came: &Ending, beside: LenientEnds) -> BrokenTally {
    BrokenTally {
        broken: 1,
        answered: u64::from(came.is_answer()),
        left_out: u64::from(beside.is_left_out),
        whole: u64::from(beside.is_whole),
    }
}

// Holds how the first command ends over files of which one is broken against how it ended before,
// and against how a check ends, and what is asked with `--lenient`.
fn held_against<R: Threads + Wait + Sync>(
    rt: &R,
    alloc: Global,
    files: &[(String, Vec<u8>)],
    question: PlatformQuestion,
    broken: Broken,
    whole: &Ending,
    came: &Ending,
) -> Result<BrokenTally, Refused> {
    compared(came, whole, broken)?;
    let beside = lenient_ends(rt, alloc, files, question, broken, came)?;
    Ok(tally_of(came, beside))
}

// Tries files of which one is broken. They were answered so before.
fn try_broken<R: Threads + Wait + Sync>(
    rt: &R,
    alloc: Global,
    files: &[(String, Vec<u8>)],
    question: PlatformQuestion,
    broken: Broken,
    whole: &Ending,
) -> Result<BrokenTally, Refused> {
    let came = sound_ending(rt, alloc, files, question, Some(broken))?;
    let held = held_against(rt, alloc, files, question, broken, whole, &came);
    drop(came);
    held
}

// Breaks files, and tries them.
fn try_break<R: Threads + Wait + Sync>(
    rt: &R,
    alloc: Global,
    files: &[(String, Vec<u8>)],
    question: PlatformQuestion,
    broken: Broken,
    whole: &Ending,
) -> Result<BrokenTally, Refused> {
    let files = broken_files(alloc, files, broken)?;
    let tried = try_broken(rt, alloc, files.as_slice(), question, broken, whole);
    drop(files);
    tried
}

// Breaks files often, and tries them each time.
fn try_breaks<R: Threads + Wait + Sync>(
    rt: &R,
    alloc: Global,
    files: &[(String, Vec<u8>)],
    question: PlatformQuestion,
    whole: &Ending,
    draw: &mut Draw,
) -> Result<BrokenTally, Refused> {
    if !whole.is_answer() {
        return Err(Refused::Found(Wrong::NoAnswer, None));
    }
    let mut tally = BrokenTally::NOTHING;
    for _turn in 0..BREAKS {
        let broken = some_broken(draw, files);
        tally.add(try_break(rt, alloc, files, question, broken, whole)?);
    }
    Ok(tally)
}

// Tries files, whole and broken.
fn try_files<R: Threads + Wait + Sync>(
    rt: &R,
    alloc: Global,
    files: &[(String, Vec<u8>)],
    draw: &mut Draw,
) -> Result<BrokenTally, Refused> {
    let question = PlatformQuestion::some(draw);
    let whole = sound_ending(rt, alloc, files, question, None)?;
    let tried = try_breaks(rt, alloc, files, question, &whole, draw);
    drop(whole);
    tried
}

// Adds the calendar.txt.
fn add_calendar(alloc: Global, files: &mut Files) -> Result<(), AllocError> {
    let path = format!(in alloc; "{MADE_FOLDER}/calendar.txt")?;
    let rows = CALENDAR.as_bytes();
    files.push((path, rows.to_vec(alloc)?))?;
    Ok(())
}

// The files of a seed. Those of each other one have trips by frequency, trips of the day before and a
// calendar.txt.
fn files_of(alloc: Global, seed: u32, draw: &mut Draw) -> Result<Files, Memory> {
    if seed % 2 == 1 {
        return small_feed(alloc, draw);
    }
    let mut files = twin_feed(alloc, draw)?;
    add_calendar(alloc, &mut files)?;
    Ok(files)
}

/// Tries the feed of a seed.
pub fn try_seed<R: Threads + Wait + Sync>(
    rt: &R,
    alloc: Global,
    seed: u32,
) -> Result<BrokenTally, Refused> {
    let mut draw = Draw::new(seed as u64);
    let files = files_of(alloc, seed, &mut draw)?;
    let tried = try_files(rt, alloc, files.as_slice(), &mut draw);
    drop(files);
    tried
}
