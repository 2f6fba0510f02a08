//! What is asked of many origins over one day of a feed.
ghost use Rattle.std.specs.Prelude.{◌≡◌, ◌∷◌, [], IfOk, IfSome, codes, map};
ghost use Rattle.command_line.specs.DayCommands.{question_from};
ghost use Rattle.command_line.specs.Matrices.{HasDepartures, departing_from, departing_of, matrix_request, matrix_request_from, origins_named};
ghost use Rattle.command_line.specs.Settings.{AreSettings};

use crate::request::{Departing, MatrixRequest, OriginsNamed, PlannedFile};
use crate::settings::Settings;
use answer_text::{Question, question_of};
use service_day::day_of;
use std::alloc::Global;
use tb_base::{Memory, Name, Refused};

// An empty name, and words as names behind it.
fn names_behind(alloc: Global, words: &[&str]) -> Result<Vec<Name>, Memory>
    ensures { IfOk result (λ names. names.items ≡ [] ∷ map (λ word. word.now) words.now) }
{
    let mut names = Vec::new(alloc);
    names.push(Name::new(alloc, b"")?)?;
    for word in words {
        names.push(Name::new(alloc, word.as_bytes())?)?;
    }
    Ok(names)
}

// What a question for travel times says of departures.
fn departing_of(question: &Question) -> Option<Departing>
    ensures { result ≡ departing_of (Some question.now) }
{
    match question {
        Question::Times {
            first,
            last,
            step,
            rides,
            ..
        } => Some(Departing {
            first: *first,
            last: *last,
            step: *step,
            rides: *rides,
        }),
        _ => None,
    }
}

// FIRST LAST STEP, and nothing or `rides N`.
fn departing_from(alloc: Global, words: &[&str]) -> Result<Option<Departing>, Memory>
    ensures departing { IfOk result (λ departing.
        departing ≡ departing_from (map (λ word. word.now) words.now)) }
    ensures times { IfOk result (λ departing. IfSome departing HasDepartures) }
{
    let names = names_behind(alloc, words)?;
    match question_of(alloc, b"times", names.as_slice()) {
        Ok(question) => {
            let departing = departing_of(&question);
            drop(question);
            Ok(departing)
        }
        Err(Refused::Fault(_)) => Ok(None),
        Err(Refused::Memory) => Err(Memory),
    }
}

// What names the origins.
fn origins_named(file: &str) -> OriginsNamed<'_>
    ensures { result ≡ origins_named file.now }
{
    if file == "-" {
        OriginsNamed::Source
    } else {
        OriginsNamed::File(PlannedFile { path: file })
    }
}

// A request by the folder, the date, the file, and the words behind them.
fn matrix_request<'a>(
    alloc: Global,
    settings: Settings,
    dir: &'a str,
    date: &str,
    file: &'a str,
    words: &[&'a str],
) -> Result<Option<MatrixRequest<'a>>, Memory>
    requires { AreSettings settings }
    ensures { IfOk result (λ request. request ≡ matrix_request settings dir.now date.now file.now
        (map (λ word. word.now) words.now)) }
{
    let Ok(day) = day_of(date.as_bytes()) else {
        return Ok(None);
    };
    match departing_from(alloc, words)? {
        Some(departing) => Ok(Some(MatrixRequest {
            options: settings.options,
            workers: settings.workers,
            json: settings.json,
            csv: settings.csv,
            dir,
            day,
            origins: origins_named(file),
            departing,
        })),
        None => Ok(None),
    }
}

/// A request by the words DIR DATE FILE FIRST LAST STEP, and nothing or `rides N`.
pub(crate) fn matrix_request_from<'a>(
    alloc: Global,
    settings: Settings,
    words: &[&'a str],
) -> Result<Option<MatrixRequest<'a>>, Memory>
    requires { AreSettings settings }
    ensures { IfOk result (λ request.
        request ≡ matrix_request_from settings (map (λ word. word.now) words.now)) }
{
    match words {
        [dir, date, file, words @ ..] => matrix_request(alloc, settings, dir, date, file, words),
        _ => Ok(None),
    }
}
