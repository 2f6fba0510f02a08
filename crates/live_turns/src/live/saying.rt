//! What lines say.
ghost use Rattle.std.specs.Prelude.{◌≡◌, IfOk, MatchOption, false, true};
ghost use Rattle.std.specs.Str.{is_utf8};
ghost use Rattle.live_turns.specs.LiveLines.{HasSaidTimes, as_in_script, counted, item_between, item_of_word, late_item, late_item_of_text, late_of, live_said, publish_of, requested_live, words_say};
ghost use Rattle.query_gate.specs.Said.{IsAskable, SaysTimes};

use edition_build::{FeedDay, ItemSource, LateFile, PlanItem};
use query_gate::{Line, Said, said_of};
use service_day::day_of;
use std::alloc::Global;
use std::str;
use tb_base::{Memory, Name};
use text_lines::line_words;

/// How lines are read and replies are shown: whether as JSON, in place of lines, and whether
/// editions have their mirrors.
#[derive(Clone, Copy)]
pub struct LiveMode {
    pub json: bool,
    pub mirrored: bool,
}

// What a line says.
#[derive(Drop)]
pub(crate) enum Saying {
    // It has no words.
    Nothing,
    Request(Line),
    // An item is to be published.
    Publish(PlanItem),
    BadLine,
    BadTime,
}

// What is wanted by a line, once its item was given away.
#[derive(Drop)]
pub(crate) enum Wanted {
    Nothing,
    Reply(Line),
    // To be told that the item of this word will be published.
    Queued(Name),
    BadLine,
    BadTime,
}

// What is wanted by a line, with its number.
#[derive(Drop)]
pub(crate) struct Asked {
    pub number: u64,
    pub wanted: Wanted,
}

impl Saying {
    // By how much the line moves the number of the next one on.
    pub(crate) fn count(&self) -> u64
        ensures { result ≡ counted self.now }
    {
        match self {
            Saying::Nothing => 0,
            Saying::Request(_) | Saying::Publish(_) | Saying::BadLine | Saying::BadTime => 1,
        }
    }
}

// Bytes that are text.
fn text_of(bytes: &[u8]) -> Option<&str>
    ensures { MatchOption result (is_utf8 bytes.now ≡ false)
        (λ text. (is_utf8 bytes.now ≡ true) × (text.now ≡ bytes.now)) }
{
    match str::from_utf8(bytes) {
        Ok(text) => Some(text),
        Err(_) => None,
    }
}

// The item of a directory and a date, which this word names.
fn item_between(
    alloc: Global,
    word: &str,
    dir: &str,
    date: &str,
) -> Result<Option<PlanItem>, Memory>
    ensures { IfOk result (λ item. item ≡ item_between word.now dir.now date.now) }
{
    if dir.is_empty() {
        return Ok(None);
    }
    match day_of(date.as_bytes()) {
        Ok(day) => Ok(Some(PlanItem {
            word: String::from_str(alloc, word)?,
            source: ItemSource::Day(FeedDay {
                dir: String::from_str(alloc, dir)?,
                day,
            }),
        })),
        Err(_) => Ok(None),
    }
}

// The item that `DIR@DATE` names.
fn item_of_word(alloc: Global, word: &[u8]) -> Result<Option<PlanItem>, Memory>
    ensures { IfOk result (λ item. item ≡ item_of_word word.now) }
{
    let Some(text) = text_of(word) else {
        return Ok(None);
    };
    match text.rsplit_once('@') {
        Some((dir, date)) => item_between(alloc, text, dir, date),
        None => Ok(None),
    }
}

// DIR@DATE.
fn publish_of(alloc: Global, words: &[Name]) -> Result<Saying, Memory>
    ensures { IfOk result (λ saying. saying ≡ publish_of words.now) }
{
    match words {
        [word] => match item_of_word(alloc, word.bytes())? {
            Some(item) => Ok(Saying::Publish(item)),
            None => Ok(Saying::BadLine),
        },
        _ => Ok(Saying::BadLine),
    }
}

// The item of a file that amends the last day, where its path isn't empty.
fn late_item_of_text(alloc: Global, path: &str) -> Result<Option<PlanItem>, Memory>
    ensures { IfOk result (λ item. item ≡ late_item_of_text path.now) }
{
    if path.is_empty() {
        return Ok(None);
    }
    let mut word = String::from_str(alloc, "late:")?;
    word.push_str(path)?;
    Ok(Some(PlanItem {
        word,
        source: ItemSource::Late(LateFile {
            path: String::from_str(alloc, path)?,
        }),
    }))
}

// The item of a file that amends the last day, where its path is text and not empty.
fn late_item(alloc: Global, path: &[u8]) -> Result<Option<PlanItem>, Memory>
    ensures { IfOk result (λ item. item ≡ late_item path.now) }
{
    match text_of(path) {
        Some(text) => late_item_of_text(alloc, text),
        None => Ok(None),
    }
}

// FILE.
fn late_of(alloc: Global, words: &[Name]) -> Result<Saying, Memory>
    ensures { IfOk result (λ saying. saying ≡ late_of words.now) }
{
    match words {
        [path] => match late_item(alloc, path.bytes())? {
            Some(item) => Ok(Saying::Publish(item)),
            None => Ok(Saying::BadLine),
        },
        _ => Ok(Saying::BadLine),
    }
}

// A request, where there is a mirror for one that needs it.
fn requested(mode: LiveMode, request: Line) -> Saying
    requires { IsAskable request }
    ensures said { result ≡ requested_live mode request }
    ensures times { HasSaidTimes result }
{
    if mode.mirrored || !request.question.needs_mirror() {
        Saying::Request(request)
    } else {
        Saying::BadLine
    }
}

// What a line of a script says here.
fn as_in_script(mode: LiveMode, said: Option<Said>) -> Saying
    requires { SaysTimes said }
    ensures said { result ≡ as_in_script mode said }
    ensures times { HasSaidTimes result }
{
    match said {
        None | Some(Said::Lane(_)) => Saying::BadLine,
        Some(Said::Nothing) => Saying::Nothing,
        Some(Said::Request(None)) => Saying::BadTime,
        Some(Said::Request(Some(request))) => requested(mode, request),
    }
}

// What words say.
fn words_say(alloc: Global, mode: LiveMode, words: &[Name]) -> Result<Saying, Memory>
    ensures said { IfOk result (λ saying. saying ≡ words_say mode words.now) }
    ensures times { IfOk result HasSaidTimes }
{
    match words {
        [] => Ok(Saying::Nothing),
        [word, rest @ ..] => {
            if word.bytes() == b"publish".as_slice() {
                publish_of(alloc, rest)
            } else if word.bytes() == b"late".as_slice() {
                late_of(alloc, rest)
            } else {
                Ok(as_in_script(mode, said_of(alloc, mode.json, words)?))
            }
        }
    }
}

// What a line says.
pub(crate) fn live_said(alloc: Global, mode: LiveMode, line: &[u8]) -> Result<Saying, Memory>
    ensures said { IfOk result (λ saying. saying ≡ live_said mode line.now) }
    ensures times { IfOk result HasSaidTimes }
{
    match line_words(alloc, line)? {
        Some(words) => words_say(alloc, mode, words.as_slice()),
        None => Ok(Saying::BadLine),
    }
}
