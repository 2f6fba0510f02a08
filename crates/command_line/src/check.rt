//! What is asked about all faults of a feed.
ghost use Rattle.std.specs.Prelude.{◌≡◌, map};
ghost use Rattle.command_line.specs.Checks.{check_request, check_request_from};
ghost use Rattle.command_line.specs.Settings.{AreSettings};

use crate::request::CheckRequest;
use crate::settings::Settings;
use service_day::day_of;

// A request by the folder and the date.
fn check_request<'a>(settings: Settings, dir: &'a str, date: &str) -> Option<CheckRequest<'a>>
    requires { AreSettings settings }
    ensures { result ≡ check_request settings dir.now date.now }
{
    let Ok(day) = day_of(date.as_bytes()) else {
        return None;
    };
    Some(CheckRequest {
        options: settings.options,
        json: settings.json,
        dir,
        day,
    })
}

/// A request by the words DIR DATE.
pub(crate) fn check_request_from<'a>(
    settings: Settings,
    words: &[&'a str],
) -> Option<CheckRequest<'a>>
    requires { AreSettings settings }
    ensures { result ≡ check_request_from settings (map (λ word. word.now) words.now) }
{
    match words {
        [dir, date] => check_request(settings, dir, date),
        _ => None,
    }
}
