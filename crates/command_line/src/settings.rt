//! What the options of a command line say.
ghost use Rattle.std.specs.Prelude.{◌≡◌, ◌<◌, ◌≤◌, IfSome, option_map};
ghost use Rattle.clap.specs.Words.{first_of, found_of, rows_of};
ghost use Rattle.gtfs_rows.specs.Fields.{secs_of};
ghost use Rattle.footpaths.specs.Limits.{AreWithinADay};
ghost use Rattle.tb_base.specs.Workers.{AreWorkers};
ghost use Rattle.command_line.specs.declared.settings.TheConstants.{LONGEST_WALK};
ghost use Rattle.command_line.specs.Settings.{AreLanes, AreSettings, change_given, horizon_given, horizon_of, is_given, lanes_given, options_given, settings_given, station_given, thread_count, workers_given};

use clap::ArgMatches;
use footpaths::Options;
use gtfs_rows::number_of;
use tb_base::Horizon;

/// The longest walk or change that an option can name, in seconds: a day.
pub const LONGEST_WALK: u32 = 86_400;

/// How many workers there are where none are given.
pub const DEFAULT_WORKERS: u32 = 4;

/// How many lanes there are where none are given.
pub const DEFAULT_LANES: u32 = 4;

/// What all options say. None has an effect where the command doesn't use it.
#[derive(Clone, Copy)]
pub(crate) struct Settings {
    pub options: Options,
    /// How many workers reduce the transfers: 1 to 64.
    pub workers: u32,
    /// How many lanes answer the requests that come: 1 to 64.
    pub lanes: u32,
    /// Round by round, in place of the search over the kept transfers.
    pub plain: bool,
    /// Each edition has a mirror, over which latest departures are asked for.
    pub mirror: bool,
    /// Answers as JSON, in place of texts.
    pub json: bool,
    /// The rows of a matrix as CSV.
    pub csv: bool,
}

// Seconds of a walk or a change.
fn secs_of(text: &str) -> Option<u32>
    ensures secs { result ≡ secs_of text.now }
    ensures most { IfSome result (λ secs. secs ≤ LONGEST_WALK) }
{
    match number_of(text.as_bytes()) {
        Some(secs) if secs <= LONGEST_WALK => Some(secs),
        _ => None,
    }
}

// From 1 to 64 threads.
fn thread_count(text: &str) -> Option<u32>
    ensures count { result ≡ thread_count text.now }
    ensures some { IfSome result (λ count. 0 < count) }
    ensures most { IfSome result (λ count. count ≤ 64) }
{
    match number_of(text.as_bytes()) {
        Some(count) if 0 < count && count <= 64 => Some(count),
        _ => None,
    }
}

// The default change time: 0 seconds where none is given.
fn change_given(text: Option<&str>) -> Option<u32>
    ensures secs { result ≡ change_given (option_map (λ t. t.now) text.entry) }
    ensures most { IfSome result (λ secs. secs ≤ LONGEST_WALK) }
{
    match text {
        None => Some(0),
        Some(text) => secs_of(text),
    }
}

// The seconds between platforms of one station: none where none are given.
fn station_given(text: Option<&str>) -> Option<Option<u32>>
    ensures secs { result ≡ station_given (option_map (λ t. t.now) text.entry) }
    ensures most { IfSome result (λ station. IfSome station (λ secs. secs ≤ LONGEST_WALK)) }
{
    match text {
        None => Some(None),
        Some(text) => Some(Some(secs_of(text)?)),
    }
}

// The number of workers.
fn workers_given(text: Option<&str>) -> Option<u32>
    ensures count { result ≡ workers_given (option_map (λ t. t.now) text.entry) }
    ensures within { IfSome result AreWorkers }
{
    match text {
        None => Some(DEFAULT_WORKERS),
        Some(text) => thread_count(text),
    }
}

// The number of lanes.
fn lanes_given(text: Option<&str>) -> Option<u32>
    ensures count { result ≡ lanes_given (option_map (λ t. t.now) text.entry) }
    ensures within { IfSome result AreLanes }
{
    match text {
        None => Some(DEFAULT_LANES),
        Some(text) => thread_count(text),
    }
}

// The first value that is given for an argument.
fn value_of<'a>(matches: &ArgMatches<'a>, name: &str) -> Option<&'a str>
    ensures { option_map (λ text. text.now) result
        ≡ first_of name.now (rows_of (found_of matches.now)) }
{
    matches.get_str(name)
}

// Whether a flag was given.
fn is_given(matches: &ArgMatches<'_>, name: &str) -> bool
    ensures { result ≡ is_given name.now (rows_of (found_of matches.now)) }
{
    match value_of(matches, name) {
        None => false,
        Some(text) => text == "true",
    }
}

// From so many service days a timetable has all trips: 1 to 3.
fn horizon_of(days: u32) -> Option<Horizon>
    ensures { result ≡ horizon_of days }
{
    match days {
        1 => Some(Horizon::OneDay),
        2 => Some(Horizon::TwoDays),
        3 => Some(Horizon::ThreeDays),
        _ => None,
    }
}

// The horizon: one day where none is given.
fn horizon_given(text: Option<&str>) -> Option<Horizon>
    ensures { result ≡ horizon_given (option_map (λ t. t.now) text.entry) }
{
    match text {
        None => Some(Horizon::OneDay),
        Some(text) => horizon_of(number_of(text.as_bytes())?),
    }
}

// How a timetable is made of a feed.
fn options_given(matches: &ArgMatches<'_>) -> Option<Options>
    ensures options { result ≡ options_given (rows_of (found_of matches.now)) }
    ensures within { IfSome result AreWithinADay }
{
    let change = change_given(value_of(matches, "change"))?;
    let station = station_given(value_of(matches, "station"))?;
    let horizon = horizon_given(value_of(matches, "days"))?;
    Some(Options {
        change,
        station,
        close: is_given(matches, "close"),
        horizon,
        lenient: is_given(matches, "lenient"),
    })
}

/// What all options say, by what is given for each.
pub(crate) fn settings_given(matches: &ArgMatches<'_>) -> Option<Settings>
    ensures settings { result ≡ settings_given (rows_of (found_of matches.now)) }
    ensures within { IfSome result AreSettings }
{
    let options = options_given(matches)?;
    let workers = workers_given(value_of(matches, "workers"))?;
    let lanes = lanes_given(value_of(matches, "lanes"))?;
    Some(Settings {
        options,
        workers,
        lanes,
        plain: is_given(matches, "plain"),
        mirror: is_given(matches, "mirror"),
        json: is_given(matches, "json"),
        csv: is_given(matches, "csv"),
    })
}
