//! What the words of a line say of a trip.
ghost use Rattle.std.specs.Prelude.{◌≡◌, ◌<◌, ◌≤ℤ◌, IfOk, IfSome, option_map, pos};
ghost use Rattle.gtfs_rows.specs.Numbers.{number_of};
ghost use Rattle.late_edit.specs.Updates.{cancel_said, late_before_said, late_by, late_said, move_of, skip_said, update_of};

use crate::late::{Cancel, Late, Skip};
use crate::update::Update;
use gtfs_rows::number_of;
use std::alloc::Global;
use tb_base::{Memory, Name, Sec, ServiceDay};

// The number that one to nine digits write.
fn nine_digits(text: &[u8]) -> Option<u32>
    ensures number { result ≡ number_of text.now }
    ensures most { IfSome result (λ n. n < 1000000000) }
{
    number_of(text)
}

// As many seconds as one to nine digits write.
fn seconds_of(text: &[u8]) -> Option<Sec>
    ensures seconds { result ≡ option_map pos (number_of text.now) }
    ensures least { IfSome result (λ s. pos 0 ≤ℤ s) }
    ensures most { IfSome result (λ s. s ≤ℤ pos 999999999) }
{
    match nine_digits(text) {
        Some(secs) => Some(secs as Sec),
        None => None,
    }
}

// By how many seconds: 1 to 9 digits, behind a minus sign or not.
fn move_of(text: &[u8]) -> Option<Sec>
    ensures { result ≡ move_of text.now }
{
    match text {
        [] => None,
        [sign, digits @ ..] => {
            if *sign == b'-' {
                Some(-seconds_of(digits)?)
            } else {
                seconds_of(text)
            }
        }
    }
}

// TRIP EVENT SECS, of the trips of a service day.
fn late_by(
    alloc: Global,
    line: u32,
    day: ServiceDay,
    trip: &Name,
    event: &Name,
    secs: &Name,
) -> Result<Option<Update>, Memory>
    ensures { IfOk result (λ u. u ≡ late_by line day trip.now event.now secs.now) }
{
    let (Some(from), Some(secs)) = (number_of(event.bytes()), move_of(secs.bytes())) else {
        return Ok(None);
    };
    Ok(Some(Update::Late(Late {
        line,
        trip: Name::new(alloc, trip.bytes())?,
        day,
        from,
        secs,
    })))
}

// TRIP EVENT SECS and its day.
fn late_said(alloc: Global, line: u32, words: &[Name]) -> Result<Option<Update>, Memory>
    ensures { IfOk result (λ u. u ≡ late_said line words.now) }
{
    let [trip, event, secs, words @ ..] = words else {
        return Ok(None);
    };
    match ServiceDay::by_words(words) {
        Some(day) => late_by(alloc, line, day, trip, event, secs),
        None => Ok(None),
    }
}

// TRIP EVENT SECS of the day before.
fn late_before_said(alloc: Global, line: u32, words: &[Name]) -> Result<Option<Update>, Memory>
    ensures { IfOk result (λ u. u ≡ late_before_said line words.now) }
{
    let [trip, event, secs] = words else {
        return Ok(None);
    };
    late_by(alloc, line, ServiceDay::Before, trip, event, secs)
}

// TRIP and its day.
fn cancel_said(alloc: Global, line: u32, words: &[Name]) -> Result<Option<Update>, Memory>
    ensures { IfOk result (λ u. u ≡ cancel_said line words.now) }
{
    let [trip, words @ ..] = words else {
        return Ok(None);
    };
    let Some(day) = ServiceDay::by_words(words) else {
        return Ok(None);
    };
    Ok(Some(Update::Cancel(Cancel {
        line,
        trip: Name::new(alloc, trip.bytes())?,
        day,
    })))
}

// TRIP EVENT and its day.
fn skip_said(alloc: Global, line: u32, words: &[Name]) -> Result<Option<Update>, Memory>
    ensures { IfOk result (λ u. u ≡ skip_said line words.now) }
{
    let [trip, event, words @ ..] = words else {
        return Ok(None);
    };
    let (Some(day), Some(at)) = (ServiceDay::by_words(words), number_of(event.bytes())) else {
        return Ok(None);
    };
    Ok(Some(Update::Skip(Skip {
        line,
        trip: Name::new(alloc, trip.bytes())?,
        day,
        at,
    })))
}

/// What a line says of a trip: `late TRIP EVENT SECS`, `cancel TRIP` or `skip TRIP EVENT`, each with
/// `day-before`, `day-after` or `day+2` behind it or not, or `late-before TRIP EVENT SECS`.
pub(crate) fn update_of(alloc: Global, line: u32, words: &[Name]) -> Result<Option<Update>, Memory>
    ensures { IfOk result (λ u. u ≡ update_of line words.now) }
{
    match words {
        [] => Ok(None),
        [word, rest @ ..] => {
            if word.bytes() == b"late".as_slice() {
                late_said(alloc, line, rest)
            } else if word.bytes() == b"late-before".as_slice() {
                late_before_said(alloc, line, rest)
            } else if word.bytes() == b"cancel".as_slice() {
                cancel_said(alloc, line, rest)
            } else if word.bytes() == b"skip".as_slice() {
                skip_said(alloc, line, rest)
            } else {
                Ok(None)
            }
        }
    }
}
