//! What is asked about a claimed journey.
ghost use Rattle.std.specs.Prelude.{◌≡◌, map};
ghost use Rattle.command_line.specs.Settings.{AreSettings};
ghost use Rattle.command_line.specs.Verifications.{verify_request, verify_request_from};

use crate::day::inquiry_from;
use crate::request::VerifyRequest;
use crate::settings::Settings;
use service_day::day_of;

// A request by the folder, the date, and the words FROM TO TIME behind them.
fn verify_request<'a>(
    settings: Settings,
    dir: &'a str,
    date: &str,
    words: &[&'a str],
) -> Option<VerifyRequest<'a>>
    requires { AreSettings settings }
    ensures { result ≡ verify_request settings dir.now date.now (map (λ word. word.now) words.now) }
{
    let inquiry = inquiry_from(words)?;
    let Ok(day) = day_of(date.as_bytes()) else {
        return None;
    };
    Some(VerifyRequest {
        options: settings.options,
        json: settings.json,
        dir,
        day,
        inquiry,
    })
}

/// A request by the words DIR DATE FROM TO TIME.
pub(crate) fn verify_request_from<'a>(
    settings: Settings,
    words: &[&'a str],
) -> Option<VerifyRequest<'a>>
    requires { AreSettings settings }
    ensures { result ≡ verify_request_from settings (map (λ word. word.now) words.now) }
{
    match words {
        [dir, date, words @ ..] => verify_request(settings, dir, date, words),
        _ => None,
    }
}
