//! What the words of a command line mean.
ghost use Rattle.std.specs.Prelude.{◌≡◌, IfOk, map, string_bytes};
ghost use Rattle.clap.specs.Words.{found_of, rows_of};
ghost use Rattle.command_line.specs.Requests.{asks_json, json_word, request_by, request_from, request_named, request_of};
ghost use Rattle.command_line.specs.Settings.{AreSettings};

use crate::arguments::router_arguments;
use crate::check::check_request_from;
use crate::city::city_request;
use crate::day::day_request_from;
use crate::late_trips::late_request_from;
use crate::matrix::matrix_request_from;
use crate::plan::{live_request, serve_request};
use crate::request::Request;
use crate::settings::{Settings, settings_given};
use crate::verification::verify_request_from;
use clap::ArgMatches;
use clap::error::ErrorKind;
use std::alloc::Global;
use tb_base::Memory;

// A request by the command's name and the words behind it.
fn request_named<'a>(
    alloc: Global,
    settings: Settings,
    name: &str,
    words: &[&'a str],
) -> Result<Option<Request<'a>>, Memory>
    requires { AreSettings settings }
    ensures { IfOk result (λ request.
        request ≡ request_named settings name.now (map (λ word. word.now) words.now)) }
{
    match name {
        "serve" => match serve_request(alloc, settings, words)? {
            Some(request) => Ok(Some(Request::Serve(request))),
            None => Ok(None),
        },
        "live" => match live_request(alloc, settings, words)? {
            Some(request) => Ok(Some(Request::Live(request))),
            None => Ok(None),
        },
        "matrix" => match matrix_request_from(alloc, settings, words)? {
            Some(request) => Ok(Some(Request::Matrix(request))),
            None => Ok(None),
        },
        "city" => match city_request(settings, words) {
            Some(request) => Ok(Some(Request::City(request))),
            None => Ok(None),
        },
        "verify" => match verify_request_from(settings, words) {
            Some(request) => Ok(Some(Request::Verify(request))),
            None => Ok(None),
        },
        "check" => match check_request_from(settings, words) {
            Some(request) => Ok(Some(Request::Check(request))),
            None => Ok(None),
        },
        "late" => match late_request_from(settings, words) {
            Some(request) => Ok(Some(Request::Late(request))),
            None => Ok(None),
        },
        _ => match day_request_from(alloc, settings, name, words)? {
            Some(request) => Ok(Some(Request::Day(request))),
            None => Ok(None),
        },
    }
}

// A request by the words that are neither options nor their values.
fn request_from<'a>(
    alloc: Global,
    settings: Settings,
    words: &[&'a str],
) -> Result<Option<Request<'a>>, Memory>
    requires { AreSettings settings }
    ensures { IfOk result (λ request.
        request ≡ request_from settings (map (λ word. word.now) words.now)) }
{
    match words {
        [name, words @ ..] => request_named(alloc, settings, name, words),
        [] => Ok(None),
    }
}

// A request by what is given for each argument.
fn request_by<'a>(alloc: Global, matches: &ArgMatches<'a>) -> Result<Option<Request<'a>>, Memory>
    ensures { IfOk result (λ request. request ≡ request_by (rows_of (found_of matches.now))) }
{
    let Some(settings) = settings_given(matches) else {
        return Ok(None);
    };
    request_from(alloc, settings, matches.get_strs("words").unwrap_or(&[]))
}

// Whether a word tells that JSON is asked for, or that it isn't.
fn json_word(word: &str) -> Option<bool>
    ensures { result ≡ json_word word.now }
{
    match word {
        "--json" => Some(true),
        "--" => Some(false),
        _ => None,
    }
}

/// Whether the words ask for JSON: `--json` is among them, before `--`. So it is of words that have
/// no meaning, too.
pub fn asks_json(words: &[String]) -> bool
    ensures { result ≡ asks_json (map string_bytes words.now) }
{
    for word in words {
        if let Some(asked) = json_word(word.as_str()) {
            return asked;
        }
    }
    false
}

/// What the words mean, the program's name left out: `COMMAND WORDS` with the options `--change
/// SECS`, `--station SECS`, `--days N`, `--workers N`, `--lanes N` and the flags `--close`,
/// `--lenient`, `--plain`, `--mirror`, `--json` and `--csv`, each at most once and anywhere before
/// `--`; behind `--` every word is taken as it is. The commands are `check DIR DATE`, `direct DIR
/// DATE FROM TO TIME`, `ask DIR DATE FROM TO TIME`, `profile DIR DATE FROM TO FIRST LAST`, `latest
/// DIR DATE FROM TO TIME`, `reach DIR DATE FROM TIME`, `build DIR DATE`, `build DIR DATE list`,
/// `verify DIR DATE FROM TO TIME`, `late DIR DATE FILE FROM TO TIME`, `matrix DIR DATE FILE FIRST
/// LAST STEP` with or without `rides N`, `serve DIR@DATE ..` and `live DIR@DATE ..` of 1 to 100
/// days, and `city N` of 2 to 40 rows. `None` comes exactly where the words have no meaning,
/// `Memory` only for want of it.
pub fn request_of<'a>(alloc: Global, words: &'a [String]) -> Result<Option<Request<'a>>, Memory>
    ensures { IfOk result (λ request. request ≡ request_of (map string_bytes words.now)) }
{
    let Ok(arguments) = router_arguments(alloc) else {
        return Err(Memory);
    };
    match arguments.try_get_matches_from(words) {
        Ok(matches) => request_by(alloc, &matches),
        Err(e) if e.kind() == ErrorKind::OutOfMemory => Err(Memory),
        Err(_) => Ok(None),
    }
}
