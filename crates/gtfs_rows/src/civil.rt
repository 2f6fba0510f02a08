//! Dates in text.
ghost use Rattle.std.specs.Prelude.{◌≡◌, ◌<◌, IfSome, true};
ghost use Rattle.gtfs_rows.specs.Dates.{date_of, is_date};

use crate::numbers::number_of;
use jiff::civil::Date;

// Whether the year, month and day that the digits of a number write are those of a date.
fn is_date(number: u32) -> bool
    requires { number < 100_000_000 }
    ensures { result ≡ is_date number }
{
    let year = (number / 10_000) as i16;
    let month = (number / 100 % 100) as i8;
    let day = (number % 100) as i8;
    year >= 1 && Date::new(year, month, day).is_ok()
}

/// The date that eight digits YYYYMMDD write, as the number of these digits: a day of the Gregorian
/// calendar in the years 0001 to 9999. `None` for every other text.
pub fn date_of(text: &[u8]) -> Option<u32>
    ensures date { result ≡ date_of text.now }
    ensures known { IfSome result (λ number. is_date number ≡ true) }
{
    if text.len() != 8 {
        return None;
    }
    let number = number_of(text)?;
    if is_date(number) { Some(number) } else { None }
}
