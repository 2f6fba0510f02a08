//! Days of service.
ghost use Rattle.std.specs.Prelude.{◌≡◌, ◌<◌, true, Some, None, MatchResult, MatchOption, ◌-ℤ◌, ◌+ℤ◌, pos};
ghost use Rattle.gtfs_rows.specs.Dates.{date_of, day_number, is_date, weekday_of};
ghost use Rattle.service_day.specs.NearDays.{date_of_day, day_after, day_before};

use crate::near_days::{date_after, date_before};
use gtfs_rows::date_of;
use jiff::civil;
use std::marker::Model;
use tb_base::ServiceDay;

/// A day of the Gregorian calendar in the years 0001 to 9999, seen as the number that its eight
/// digits YYYYMMDD write.
#[derive(Debug, Drop)]
pub struct Day {
    date: u32,
    number: i32,
    weekday: u8,
}

impl Model for Day {
    ghost use Rattle.std.specs.Prelude.{ℕ, ◌≡◌, true};
    ghost use Rattle.gtfs_rows.specs.Dates.{day_number, is_date, weekday_of};
    ghost use Rattle.service_day.specs.KnownDay.{IsKnown};

    ghost Value = { ℕ };

    ghost view = { λ d. d.date };

    ghost invariant = { λ d. IsKnown d.date d.number d.weekday };
}

/// The text names no day.
#[derive(Debug, Clone, Copy, PartialEq, Eq)]
pub struct BadDate;

impl Day {
    // The day with these digits.
    fn of(date: u32) -> Day
        requires { is_date date ≡ true }
        ensures { result ≡ date }
    {
        let year = (date / 10_000) as i16;
        let month = (date / 100 % 100) as i8;
        let day = (date % 100) as i8;
        let civil = civil::date(year, month, day);
        Day {
            date,
            number: civil.to_plain().to_unix_epoch_day(),
            weekday: civil.weekday().to_monday_zero_offset() as u8,
        }
    }

    /// The number of the day: 0 for 1 January 1970, and one more for each day after it.
    pub fn number(&self) -> i32
        ensures { result ≡ day_number self.now }
    {
        self.number
    }

    /// The day of the week, from 0 for Monday to 6 for Sunday.
    pub fn weekday(&self) -> u8
        ensures weekday { result ≡ weekday_of self.now }
        ensures below { result < 7 }
    {
        self.weekday
    }

    /// The number that the day's eight digits YYYYMMDD write.
    pub fn date(&self) -> u32
        ensures date { result ≡ self.now }
        ensures known { is_date self.now ≡ true }
    {
        self.date
    }

    /// The day before: `None` for 1 January of the year 1 alone. No memory is taken.
    pub fn before(&self) -> Option<Day>
        ensures before { result ≡ day_before self.now }
        ensures number { MatchOption result (self.now ≡ 10101)
            (λ day. day_number day ≡ day_number self.now -ℤ pos 1) }
    {
        match date_before(self.date) {
            Some(date) => Some(Day::of(date)),
            None => None,
        }
    }

    /// The day after: `None` for 31 December of the year 9999 alone. No memory is taken.
    pub fn after(&self) -> Option<Day>
        ensures after { result ≡ day_after self.now }
        ensures number { MatchOption result (self.now ≡ 99991231)
            (λ day. day_number day ≡ day_number self.now +ℤ pos 1) }
    {
        match date_after(self.date) {
            Some(date) => Some(Day::of(date)),
            None => None,
        }
    }

    /// The date of a service day of the timetable of this day: `None` where the years 1 to 9999 have
    /// no such date. No memory is taken.
    pub fn of_service_day(&self, day: ServiceDay) -> Option<Day>
        ensures { result ≡ date_of_day day self.now }
    {
        match day {
            ServiceDay::Before => self.before(),
            ServiceDay::Date => Some(Day::of(self.date)),
            ServiceDay::After => self.after(),
            ServiceDay::SecondAfter => match self.after() {
                Some(after) => after.after(),
                None => None,
            },
        }
    }
}

/// The day that eight digits YYYYMMDD write. Every other text is refused.
pub fn day_of(text: &[u8]) -> Result<Day, BadDate>
    ensures { MatchResult result (λ day. date_of text.now ≡ Some day)
        (λ _. date_of text.now ≡ None) }
{
    match date_of(text) {
        Some(date) => Ok(Day::of(date)),
        None => Err(BadDate),
    }
}
