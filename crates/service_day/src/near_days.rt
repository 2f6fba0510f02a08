//! The days near a day.
ghost use Rattle.std.specs.Prelude.{◌≡◌, ◌≤◌, ◌<◌, true, IfSome, MatchOption, ◌-ℤ◌, ◌+ℤ◌, pos};
ghost use Rattle.gtfs_rows.specs.Dates.{day_number, is_date};
ghost use Rattle.service_day.specs.NearDays.{day_after, day_before, first_of, last_of};

use jiff_core::civil::days_in_month;

// The last day of a month.
fn last_of(year: u32, month: u32) -> u32
    requires { (year ≤ 9999) × (month ≤ 12) }
    ensures { result ≡ last_of year month }
{
    year * 10_000 + month * 100 + days_in_month(year as i16, month as u8) as u32
}

/// The day before a day, both as the numbers that their eight digits write.
pub(crate) fn date_before(date: u32) -> Option<u32>
    requires { is_date date ≡ true }
    ensures before { result ≡ day_before date }
    ensures known { IfSome result (λ day. is_date day ≡ true) }
    ensures number { MatchOption result (date ≡ 10101)
        (λ day. day_number day ≡ day_number date -ℤ pos 1) }
{
    let year = date / 10_000;
    let month = date / 100 % 100;
    if date % 100 > 1 {
        return Some(date - 1);
    }
    if month > 1 {
        return Some(last_of(year, month - 1));
    }
    if year > 1 {
        return Some(last_of(year - 1, 12));
    }
    None
}

// The first day of a month.
fn first_of(year: u32, month: u32) -> u32
    requires { (year ≤ 9999) × (month ≤ 12) }
    ensures { result ≡ first_of year month }
{
    year * 10_000 + month * 100 + 1
}

/// The day after a day, both as the numbers that their eight digits write.
pub(crate) fn date_after(date: u32) -> Option<u32>
    requires { is_date date ≡ true }
    ensures after { result ≡ day_after date }
    ensures known { IfSome result (λ day. is_date day ≡ true) }
    ensures number { MatchOption result (date ≡ 99991231)
        (λ day. day_number day ≡ day_number date +ℤ pos 1) }
{
    let year = date / 10_000;
    let month = date / 100 % 100;
    let last = last_of(year, month);
    if date < last {
        return Some(date + 1);
    }
    if month < 12 {
        return Some(first_of(year, month + 1));
    }
    if year < 9999 {
        return Some(first_of(year + 1, 1));
    }
    None
}
