//! What a case asks of the timetable of a day that no command of the program shows.
ghost use Rattle.std.specs.Prelude.{◌<◌, ◌≤◌, ◌-◌, ◌^◌, IfSome, length};

use super::ending::{Ending, ending_of};
use gtfs_rows::number_of;
use router_cli::Status;
use service_day::day_of;
use std::alloc::{AllocError, Global};
use tb_base::{Horizon, Memory, StopNo, Timetable};
use tb_io::MemFolder;
use trip_table::{DayFault, Options, read_day};

// The number behind a word.
fn number_after(words: &[String], name: &str) -> Option<u32> {
    let mut is_next = false;
    for word in words {
        if is_next {
            return number_of(word.as_bytes());
        }
        is_next = word.as_str() == name;
    }
    None
}

// A word behind feed and day.
#[derive(Clone, Copy)]
enum Word {
    // Behind which a number stands.
    Named,
    Close,
    // At most a day.
    Seconds,
}

fn word_of(text: &str) -> Option<Word> {
    match text {
        "change" | "station" => Some(Word::Named),
        "close" => Some(Word::Close),
        _ => match number_of(text.as_bytes()) {
            Some(secs) if secs <= 86_400 => Some(Word::Seconds),
            _ => None,
        },
    }
}

// Whether the words behind feed and day are options, each with its number of seconds.
fn are_options(words: &[String]) -> bool {
    let mut wants_number = false;
    for word in words.iter().skip(2) {
        match word_of(word.as_str()) {
            Some(Word::Named) if !wants_number => wants_number = true,
            Some(Word::Seconds) if wants_number => wants_number = false,
            Some(Word::Close) if !wants_number => {}
            _ => return false,
        }
    }
    !wants_number
}

// What the words say of footpaths, as `change 30 station 90 close`. Seconds are at most a day.
fn options_of(words: &[String]) -> Options
    ensures change { result.change ≤ 86400 }
    ensures station { IfSome result.station (λ secs. secs ≤ 86400) }
{
    let station = match number_after(words, "station") {
        Some(secs) => Some(secs.min(86_400)),
        None => None,
    };
    Options {
        change: number_after(words, "change").unwrap_or(0).min(86_400),
        station,
        close: words.iter().any(|word| word.as_str() == "close"),
        horizon: Horizon::OneDay,
        lenient: false,
    }
}

// Adds the id of a stop and a space.
fn add_id(text: &mut Vec<u8>, table: &Timetable, p: u32) -> Result<(), AllocError>
    requires { p < length table.now.stops }
{
    text.extend_from_slice(table.stop(StopNo(p)).name.bytes())?;
    text.push(b' ')?;
    Ok(())
}

// Adds a line on the change between two stops, or within one where it doesn't take what it mostly
// does.
fn add_change(
    alloc: Global,
    text: &mut Vec<u8>,
    table: &Timetable,
    p: u32,
    q: u32,
    mostly: u32,
) -> Result<(), AllocError>
    requires from { p < length table.now.stops }
    requires to { q < length table.now.stops }
{
    let secs = match table.change(StopNo(p), StopNo(q)) {
        Some(secs) if p == q && secs == mostly => return Ok(()),
        Some(secs) => format!(in alloc; "{secs}\n")?,
        None if p == q => String::from_str(alloc, "none\n")?,
        None => return Ok(()),
    };
    add_id(text, table, p)?;
    add_id(text, table, q)?;
    text.extend_from_slice(secs.as_bytes())?;
    Ok(())
}

// A line `FROM TO SECONDS` for each footpath, and one for each stop whose change time isn't the one
// that is mostly had.
fn paths_text(alloc: Global, table: &Timetable, mostly: u32) -> Result<Vec<u8>, AllocError> {
    let mut text = Vec::new(alloc);
    for p in 0..table.stop_count() {
        for q in 0..table.stop_count() {
            add_change(alloc, &mut text, table, p, q, mostly)?;
        }
    }
    Ok(text)
}

// What is shown of the timetable of a day, where it can be had.
fn shown_of(
    alloc: Global,
    read: Result<Timetable, DayFault>,
    mostly: u32,
) -> Result<Ending, Memory> {
    match read {
        Ok(table) => {
            let text = paths_text(alloc, &table, mostly);
            drop(table);
            ending_of(alloc, false, &[], &Status::Done, text?.as_slice())
        }
        Err(DayFault::Feed(fault)) => ending_of(
            alloc,
            false,
            &[],
            &Status::FeedRefused(fault),
            &[],
        ),
        Err(DayFault::ReadFault) => ending_of(alloc, false, &[], &Status::ReadFault, &[]),
        Err(DayFault::Memory) => Err(Memory),
    }
}

/// The change times and footpaths of the timetable of a day, or why there is none: `DIR DATE change
/// SECONDS station SECONDS close`, the last three where they are wanted.
pub fn shown_paths(
    alloc: Global,
    folder: &mut MemFolder,
    words: &[String],
) -> Result<Ending, Memory>
    requires { folder.old.calls.faults < 2 ^ 64 - 1 }
{
    let (Some(dir), Some(date)) = (words.first(), words.get(1)) else {
        return ending_of(alloc, false, &[], &Status::Usage, &[]);
    };
    let Ok(day) = day_of(date.as_bytes()) else {
        return ending_of(alloc, false, &[], &Status::Usage, &[]);
    };
    if !are_options(words) {
        return ending_of(alloc, false, &[], &Status::Usage, &[]);
    }
    let options = options_of(words);
    let read = read_day(alloc, folder, dir.as_str(), &day, &options);
    shown_of(alloc, read, options.change)
}
