//! What is asked about a made city.
ghost use Rattle.std.specs.Prelude.{◌≡◌, IfSome, map};
ghost use Rattle.command_line.specs.Cities.{IsSide, city_request, side_of};
ghost use Rattle.command_line.specs.Settings.{AreSettings};

use crate::request::CityRequest;
use crate::settings::Settings;
use gtfs_rows::number_of;

/// The fewest rows that a made city has.
pub const FEWEST_ROWS: u32 = 2;

/// The most rows that a made city has.
pub const MOST_ROWS: u32 = 40;

// From 2 to 40 rows and columns.
fn side_of(word: &str) -> Option<u32>
    ensures side { result ≡ side_of word.now }
    ensures within { IfSome result IsSide }
{
    match number_of(word.as_bytes()) {
        Some(side) if FEWEST_ROWS <= side && side <= MOST_ROWS => Some(side),
        _ => None,
    }
}

/// A request by the word N.
pub(crate) fn city_request(settings: Settings, words: &[&str]) -> Option<CityRequest>
    requires { AreSettings settings }
    ensures { result ≡ city_request settings (map (λ word. word.now) words.now) }
{
    match words {
        [word] => Some(CityRequest {
            side: side_of(word)?,
            workers: settings.workers,
            json: settings.json,
        }),
        _ => None,
    }
}
