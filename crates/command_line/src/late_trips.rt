//! What is asked about a day amended by late trips.
ghost use Rattle.std.specs.Prelude.{◌≡◌, map};
ghost use Rattle.command_line.specs.LateTrips.{late_request, late_request_from};
ghost use Rattle.command_line.specs.Settings.{AreSettings};

use crate::day::inquiry_from;
use crate::request::LateRequest;
use crate::settings::Settings;
use service_day::day_of;

// A request by the folder, the date, the file, and the words FROM TO TIME behind them.
fn late_request<'a>(
    settings: Settings,
    dir: &'a str,
    date: &str,
    file: &'a str,
    words: &[&'a str],
) -> Option<LateRequest<'a>>
    requires { AreSettings settings }
    ensures { result ≡ late_request settings dir.now date.now file.now
        (map (λ word. word.now) words.now) }
{
    let inquiry = inquiry_from(words)?;
    let Ok(day) = day_of(date.as_bytes()) else {
        return None;
    };
    Some(LateRequest {
        options: settings.options,
        workers: settings.workers,
        json: settings.json,
        dir,
        day,
        file,
        inquiry,
    })
}

/// A request by the words DIR DATE FILE FROM TO TIME.
pub(crate) fn late_request_from<'a>(
    settings: Settings,
    words: &[&'a str],
) -> Option<LateRequest<'a>>
    requires { AreSettings settings }
    ensures { result ≡ late_request_from settings (map (λ word. word.now) words.now) }
{
    match words {
        [dir, date, file, words @ ..] => late_request(settings, dir, date, file, words),
        _ => None,
    }
}
