//! Questions about the network of a day.
ghost use Rattle.std.specs.Prelude.{◌≡◌, ◌≤◌, ◌≤ℤ◌, IfOk, pos};
ghost use Rattle.gtfs_rows.specs.Numbers.{IsFileTime};
ghost use Rattle.tb_base.specs.Refusals.{Yields};
ghost use Rattle.answer_text.specs.Questions.{HasTimes, IsArrivalTime, IsStep, arrival_time, ask_of, last_departure, latest_of, limit_of, most_rides, needs_mirror, profile_of, question_of, reach_of, rides_asked, step_of, times_asked, word_time};

use gtfs_rows::{number_of, time_of};
use std::alloc::Global;
use tb_base::{Name, Refused, Sec};

// The latest time by which one can be asked to arrive: 75:59:59.
const LAST_ARRIVAL: Sec = 273_599;

// The most seconds from one departure to the next, and the most departures behind the first.
const MOST_STEP: u32 = 3600;

const MOST_LATER: u32 = 1439;

/// A question about the network of a day. The names are those of stops or stations; times are in
/// seconds since noon minus twelve hours.
#[derive(Drop)]
pub enum Question {
    /// For every best trade-off between early arrival and few rides, where one leaves no earlier.
    Ask {
        from: Name,
        to: Name,
        leave: Sec,
    },
    /// For every best departure within a window, both ends counted.
    Profile {
        from: Name,
        to: Name,
        first: Sec,
        last: Sec,
    },
    /// For every best trade-off between late departure and few rides, where one arrives by a time.
    Latest {
        from: Name,
        to: Name,
        arrive: Sec,
    },
    /// The same as `Ask`, to every stop.
    Reach {
        from: Name,
        leave: Sec,
    },
    /// For how long it takes to every stop at each of several departures: the first, and one every
    /// `step` seconds from it on, up to the last; with at most `rides` rides if that is given.
    Times {
        from: Name,
        first: Sec,
        last: Sec,
        step: u32,
        rides: Option<u32>,
    },
}

impl Question {
    /// Whether it is answered by the mirror of a timetable, in which time runs backwards.
    pub fn needs_mirror(&self) -> bool
        ensures { result ≡ needs_mirror self.now }
    {
        match self {
            Question::Latest { .. } => true,
            Question::Ask { .. }
            | Question::Profile { .. }
            | Question::Reach { .. }
            | Question::Times { .. } => false,
        }
    }
}

/// Why words are no question.
#[derive(Debug, Clone, Copy, PartialEq, Eq)]
pub enum QuestionFault {
    /// The first word names no kind of question, the number of words is another one, or a word that
    /// is no name and no time isn't what belongs in its place.
    BadForm,
    /// A time isn't one, or is a later one than can be asked for; or the last of several departures
    /// is before the first.
    BadTime,
}

// The time that a word writes.
fn word_time(word: &Name) -> Result<Sec, Refused<QuestionFault>>
    ensures reads { Yields result (λ time. time) (word_time word.now) }
    ensures time { IfOk result IsFileTime }
{
    match time_of(word.bytes()) {
        Some(time) => Ok(time),
        None => Err(Refused::Fault(QuestionFault::BadTime)),
    }
}

// A time, where one can be asked to arrive by it.
fn arrival_time(time: Sec) -> Result<Sec, Refused<QuestionFault>>
    requires { pos 0 ≤ℤ time }
    ensures reads { Yields result (λ time. time) (arrival_time time) }
    ensures time { IfOk result IsArrivalTime }
{
    if time <= LAST_ARRIVAL {
        Ok(time)
    } else {
        Err(Refused::Fault(QuestionFault::BadTime))
    }
}

// FROM TO TIME.
fn ask_of(alloc: Global, words: &[Name]) -> Result<Question, Refused<QuestionFault>>
    ensures reads { Yields result (λ question. question) (ask_of words.now) }
    ensures times { IfOk result HasTimes }
{
    if words.len() != 3 {
        return Err(Refused::Fault(QuestionFault::BadForm));
    }
    let leave = word_time(&words[2])?;
    let from = Name::new(alloc, words[0].bytes())?;
    let to = Name::new(alloc, words[1].bytes())?;
    Ok(Question::Ask { from, to, leave })
}

// FROM TO FIRST LAST.
fn profile_of(alloc: Global, words: &[Name]) -> Result<Question, Refused<QuestionFault>>
    ensures reads { Yields result (λ question. question) (profile_of words.now) }
    ensures times { IfOk result HasTimes }
{
    if words.len() != 4 {
        return Err(Refused::Fault(QuestionFault::BadForm));
    }
    let first = word_time(&words[2])?;
    let last = word_time(&words[3])?;
    let from = Name::new(alloc, words[0].bytes())?;
    let to = Name::new(alloc, words[1].bytes())?;
    Ok(Question::Profile {
        from,
        to,
        first,
        last,
    })
}

// FROM TO TIME, which is by when to arrive.
fn latest_of(alloc: Global, words: &[Name]) -> Result<Question, Refused<QuestionFault>>
    ensures reads { Yields result (λ question. question) (latest_of words.now) }
    ensures times { IfOk result HasTimes }
{
    if words.len() != 3 {
        return Err(Refused::Fault(QuestionFault::BadForm));
    }
    let arrive = arrival_time(word_time(&words[2])?)?;
    let from = Name::new(alloc, words[0].bytes())?;
    let to = Name::new(alloc, words[1].bytes())?;
    Ok(Question::Latest { from, to, arrive })
}

// FROM TIME.
fn reach_of(alloc: Global, words: &[Name]) -> Result<Question, Refused<QuestionFault>>
    ensures reads { Yields result (λ question. question) (reach_of words.now) }
    ensures times { IfOk result HasTimes }
{
    if words.len() != 2 {
        return Err(Refused::Fault(QuestionFault::BadForm));
    }
    let leave = word_time(&words[1])?;
    let from = Name::new(alloc, words[0].bytes())?;
    Ok(Question::Reach { from, leave })
}

// The seconds from one departure to the next that a word writes.
fn step_of(word: &Name) -> Result<u32, Refused<QuestionFault>>
    ensures reads { Yields result (λ step. step) (step_of word.now) }
    ensures step { IfOk result IsStep }
{
    match number_of(word.bytes()) {
        Some(step) if 1 <= step && step <= MOST_STEP => Ok(step),
        _ => Err(Refused::Fault(QuestionFault::BadForm)),
    }
}

// The most rides that a word writes.
fn most_rides(word: &Name) -> Result<Option<u32>, Refused<QuestionFault>>
    ensures { Yields result (λ rides. rides) (most_rides word.now) }
{
    match number_of(word.bytes()) {
        Some(rides) => Ok(Some(rides)),
        None => Err(Refused::Fault(QuestionFault::BadForm)),
    }
}

// `rides N`.
fn limit_of(word: &Name, number: &Name) -> Result<Option<u32>, Refused<QuestionFault>>
    ensures { Yields result (λ rides. rides) (limit_of word.now number.now) }
{
    if word.bytes() == b"rides".as_slice() {
        most_rides(number)
    } else {
        Err(Refused::Fault(QuestionFault::BadForm))
    }
}

// No words, or `rides N`.
fn rides_of(words: &[Name]) -> Result<Option<u32>, Refused<QuestionFault>>
    ensures { Yields result (λ rides. rides) (rides_asked words.now) }
{
    match words {
        [] => Ok(None),
        [word, number] => limit_of(word, number),
        _ => Err(Refused::Fault(QuestionFault::BadForm)),
    }
}

// A last departure, where it isn't before the first one and there aren't too many.
fn last_departure(first: Sec, step: u32, last: Sec) -> Result<Sec, Refused<QuestionFault>>
    requires first { IsFileTime first }
    requires step { step ≤ 3600 }
    ensures reads { Yields result (λ time. time) (last_departure first step last) }
    ensures some { IfOk result (λ time. first ≤ℤ time) }
    ensures same { IfOk result (λ time. time ≡ last) }
{
    let latest = first + (MOST_LATER * step) as i32;
    if first <= last && last <= latest {
        Ok(last)
    } else {
        Err(Refused::Fault(QuestionFault::BadTime))
    }
}

// FROM FIRST LAST STEP, and nothing or `rides N`.
fn times_of(alloc: Global, words: &[Name]) -> Result<Question, Refused<QuestionFault>>
    ensures reads { Yields result (λ question. question) (times_asked words.now) }
    ensures times { IfOk result HasTimes }
{
    let [from, first, last, step, rest @ ..] = words else {
        return Err(Refused::Fault(QuestionFault::BadForm));
    };
    let rides = rides_of(rest)?;
    let step = step_of(step)?;
    let first = word_time(first)?;
    let last = last_departure(first, step, word_time(last)?)?;
    let from = Name::new(alloc, from.bytes())?;
    Ok(Question::Times {
        from,
        first,
        last,
        step,
        rides,
    })
}

/// What words ask, or exactly why they ask nothing: `ask FROM TO TIME`, `profile FROM TO FIRST
/// LAST`, `latest FROM TO TIME`, `reach FROM TIME`, or `times FROM FIRST LAST STEP` with or without
/// `rides N`, the first of them being `kind`. A time is read by `time_of`; one by which to arrive is
/// at most 75:59:59. A step is 1 to 3,600 seconds, and there are at most 1,440 departures.
pub fn question_of(
    alloc: Global,
    kind: &[u8],
    words: &[Name],
) -> Result<Question, Refused<QuestionFault>>
    ensures reads { Yields result (λ question. question) (question_of kind.now words.now) }
    ensures times { IfOk result HasTimes }
{
    if kind == b"ask".as_slice() {
        ask_of(alloc, words)
    } else if kind == b"profile".as_slice() {
        profile_of(alloc, words)
    } else if kind == b"latest".as_slice() {
        latest_of(alloc, words)
    } else if kind == b"reach".as_slice() {
        reach_of(alloc, words)
    } else if kind == b"times".as_slice() {
        times_of(alloc, words)
    } else {
        Err(Refused::Fault(QuestionFault::BadForm))
    }
}
