//! Numbers and times in text.
ghost use Rattle.std.specs.Prelude.{◌≡◌, ◌≤◌, ◌<◌, ◌+◌, ◌-◌, ◌*◌, ◌∷◌, [], MatchOption, IfSome, Some, length, pos, option_map, IsTrue};
ghost use Rattle.std.specs.Str.Parse.{digits_value};
ghost use Rattle.std.specs.Int.{IsInRange};
ghost use Rattle.gtfs_rows.specs.Numbers.{IsNumber, IsClock, number_of, sixtieth, clock_of, time_of, time_secs};

use std::simd::prelude::*;
use tb_base::Sec;

// The number that one to nine digits write.
fn numeral_of(text: &[u8]) -> Option<u32>
    ensures { MatchOption result (¬ (IsNumber text.now))
        (λ n. IsNumber text.now × (n ≡ digits_value 10 text.now)) }
{
    if text.is_empty() || text.len() > 9 {
        return None;
    }
    let mut number: u32 = 0;
    for byte in text {
        if !byte.is_ascii_digit() {
            return None;
        }
        number = number * 10 + (*byte - b'0') as u32;
    }
    Some(number)
}

/// The number that one to nine digits write.
pub fn number_of(text: &[u8]) -> Option<u32>
    ensures number { result ≡ number_of text.now }
    ensures two_digits { length text.now ≤ 2 → IfSome result (λ n. n < 100) }
    ensures eight_digits { length text.now ≤ 8 → IfSome result (λ n. n < 100_000_000) }
{
    numeral_of(text)
}

// Two digits below 60.
fn sixtieth(tens: u8, ones: u8) -> Option<u32>
    ensures number { result ≡ sixtieth tens ones }
    ensures small { IfSome result (λ n. n < 60) }
{
    if tens >= b'0' && tens <= b'5' && ones.is_ascii_digit() {
        Some((tens as u32 - 48) * 10 + (ones as u32 - 48))
    } else {
        None
    }
}

// The number that two digits write.
fn hundredth(tens: u8, ones: u8) -> Option<u32>
    ensures number { result ≡ number_of (tens ∷ ones ∷ []) }
    ensures small { IfSome result (λ n. n < 100) }
{
    if tens.is_ascii_digit() && ones.is_ascii_digit() {
        Some((tens as u32 - 48) * 10 + (ones as u32 - 48))
    } else {
        None
    }
}

// The seconds of a time by its digits: two of hours, two of minutes, two of seconds.
fn clock_secs(h: u8, i: u8, m: u8, n: u8, s: u8, t: u8) -> Option<u32>
    ensures time { option_map pos result
        ≡ clock_of (h ∷ i ∷ []) (58 ∷ m ∷ n ∷ 58 ∷ s ∷ t ∷ []) }
    ensures small { IfSome result (λ secs. secs ≤ 359_999) }
{
    let hours = hundredth(h, i)?;
    let minutes = sixtieth(m, n)?;
    let seconds = sixtieth(s, t)?;
    Some(hours * 3600 + minutes * 60 + seconds)
}

// Whether eight bytes write a time.
fn is_clock(text: &[u8]) -> bool
    requires { length text.now ≡ 8 }
    ensures { IsTrue result → IsClock text.now }
{
    let above = u8x8::from_slice(text) - u8x8::from_array(*b"00:00:00");
    above
        .simd_le(u8x8::from_array([9, 9, 0, 5, 9, 0, 5, 9]))
        .all()
}

// The number that two digits write.
fn two_digits(tens: u8, ones: u8) -> u32
    requires tens { IsInRange 48 57 tens }
    requires ones { IsInRange 48 57 ones }
    ensures { result ≡ (tens - 48) * 10 + (ones - 48) }
{
    (tens as u32 - 48) * 10 + (ones as u32 - 48)
}

// The seconds of eight bytes that write a time.
fn eight_secs(text: &[u8]) -> u32
    requires eight { length text.now ≡ 8 }
    requires clock { IsClock text.now }
    ensures time { Some (pos result) ≡ time_of text.now }
    ensures small { result ≤ 359_999 }
{
    let hours = two_digits(text[0], text[1]);
    let minutes = two_digits(text[3], text[4]);
    let seconds = two_digits(text[6], text[7]);
    hours * 3600 + (minutes * 60 + seconds)
}

/// The same as [`time_of`], as a number of seconds.
pub(crate) fn time_secs(text: &[u8]) -> Option<u32>
    ensures secs { result ≡ time_secs text.now }
    ensures time { option_map pos result ≡ time_of text.now }
    ensures small { IfSome result (λ secs. secs ≤ 359_999) }
{
    if text.len() == 8 && is_clock(text) {
        return Some(eight_secs(text));
    }
    match text {
        [h, i, b':', m, n, b':', s, t] => clock_secs(*h, *i, *m, *n, *s, *t),
        [h, b':', m, n, b':', s, t] => clock_secs(b'0', *h, *m, *n, *s, *t),
        _ => None,
    }
}

/// The time that a text writes: hours in one or two digits, then `:MM:SS`. In seconds from noon
/// minus twelve hours, from 0 to 359,999. `None` for every other text.
pub fn time_of(text: &[u8]) -> Option<Sec>
    ensures { result ≡ time_of text.now }
{
    match time_secs(text) {
        Some(secs) => Some(secs as i32),
        None => None,
    }
}
