//! Times as the program shows them.
ghost use Rattle.std.specs.Prelude.{◌≡◌, ◌<◌, ◌≤◌, IfSome};
ghost use Rattle.gtfs_rows.specs.Numbers.{after_hours, sixtieth};
ghost use Rattle.journey_read.specs.Times.{HoursAre, at_most, seconds_of, shown_time_of};

use tb_base::Sec;

const DAY: u32 = 86_400;

const LATEST: u32 = 446_399;

const HOURS: u32 = 200;

// How many hours the digits count, or 200 where they count more.
fn hours_of(digits: &[u8]) -> Option<u32>
    ensures { HoursAre digits.now result }
{
    let mut hours: u32 = 0;
    for digit in digits {
        if !digit.is_ascii_digit() {
            return None;
        }
        hours = (hours * 10 + (*digit - b'0') as u32).min(HOURS);
    }
    Some(hours)
}

// Two digits below 60.
fn sixtieth(tens: u8, ones: u8) -> Option<u32>
    ensures number { result ≡ sixtieth tens ones }
    ensures small { IfSome result (λ n. n < 60) }
{
    if tens.is_ascii_digit() && ones.is_ascii_digit() && tens <= b'5' {
        Some((tens - b'0') as u32 * 10 + (ones - b'0') as u32)
    } else {
        None
    }
}

// `:MM:SS`, in seconds.
fn after_hours(text: &[u8]) -> Option<u32>
    ensures seconds { result ≡ after_hours text.now }
    ensures small { IfSome result (λ secs. secs < 3600) }
{
    match text {
        [b':', m, n, b':', s, t] => {
            let minutes = sixtieth(*m, *n)?;
            let seconds = sixtieth(*s, *t)?;
            Some(minutes * 60 + seconds)
        }
        _ => None,
    }
}

// The seconds that a text shows, where they are at most so many.
fn seconds_within(text: &[u8], most: u32) -> Option<u32>
    requires { most ≤ 446399 }
    ensures seconds { result ≡ at_most most (seconds_of text.now) }
    ensures few { IfSome result (λ secs. secs ≤ 446399) }
{
    if text.len() < 8 {
        return None;
    }
    let (hours, rest) = text.split_at(text.len() - 6);
    let hours = hours_of(hours)?;
    let seconds = after_hours(rest)?;
    let all = hours * 3600 + seconds;
    if all <= most { Some(all) } else { None }
}

/// The time that a text shows: hours in two or more digits, minutes and seconds, with a minus sign
/// before them where it is before the service day. From -86,400 to 446,399 seconds; `None` for
/// every other text.
pub(crate) fn shown_time_of(text: &[u8]) -> Option<Sec>
    ensures { result ≡ shown_time_of text.now }
{
    match text {
        [b'-', rest @ ..] => {
            let before = seconds_within(rest, DAY)?;
            Some(-(before as Sec))
        }
        _ => {
            let time = seconds_within(text, LATEST)?;
            Some(time as Sec)
        }
    }
}
