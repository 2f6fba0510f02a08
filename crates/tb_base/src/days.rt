//! The service days whose trips a timetable has.
ghost use Rattle.std.specs.Prelude.{◌≡◌};
ghost use Rattle.tb_base.specs.ServiceDays.{days_after, seconds_after, same_day, day_named, day_by, other_days};

use super::table::Name;

/// The service day of a trip, as seen from the date of its timetable. Times are those of the date:
/// a trip of the day after has its own times plus 24 hours.
#[derive(Clone, Copy, Debug, PartialEq, Eq)]
pub enum ServiceDay {
    /// The day before the date: the trip goes on past midnight.
    Before,
    /// The date itself.
    Date,
    /// The day after the date.
    After,
    /// The second day after the date.
    SecondAfter,
}

impl ServiceDay {
    /// How many days it is after the date: -1, 0, 1 or 2.
    pub fn days_after(self) -> i32
        ensures { result ≡ days_after self }
    {
        match self {
            ServiceDay::Before => -1,
            ServiceDay::Date => 0,
            ServiceDay::After => 1,
            ServiceDay::SecondAfter => 2,
        }
    }

    /// The seconds that its times gain when they are told as times of the date: 86,400 a day.
    pub fn seconds_after(self) -> i32
        ensures { result ≡ seconds_after self }
    {
        match self {
            ServiceDay::Before => -86_400,
            ServiceDay::Date => 0,
            ServiceDay::After => 86_400,
            ServiceDay::SecondAfter => 172_800,
        }
    }

    /// The service day that a word names: `day-before`, `day-after` or `day+2`.
    pub fn named(word: &[u8]) -> Option<ServiceDay>
        ensures { result ≡ day_named word.now }
    {
        if word == b"day-before".as_slice() {
            Some(ServiceDay::Before)
        } else if word == b"day-after".as_slice() {
            Some(ServiceDay::After)
        } else if word == b"day+2".as_slice() {
            Some(ServiceDay::SecondAfter)
        } else {
            None
        }
    }

    /// The service day that the words behind a trip name: the date itself where there are none.
    pub fn by_words(words: &[Name]) -> Option<ServiceDay>
        ensures { result ≡ day_by words.now }
    {
        match words {
            [] => Some(ServiceDay::Date),
            [word] => ServiceDay::named(word.bytes()),
            _ => None,
        }
    }

    /// Whether it is the same day as another one.
    pub fn is(self, other: ServiceDay) -> bool
        ensures { result ≡ same_day self other }
    {
        self.days_after() == other.days_after()
    }
}

/// From how many service days a timetable has all trips, its date being the first.
#[derive(Clone, Copy, Debug, PartialEq, Eq)]
pub enum Horizon {
    OneDay,
    TwoDays,
    ThreeDays,
}

const BEFORE: [ServiceDay; 1] = [ServiceDay::Before];

const AFTER: [ServiceDay; 2] = [ServiceDay::After, ServiceDay::Before];

const TWO_AFTER: [ServiceDay; 3] = [
    ServiceDay::After,
    ServiceDay::SecondAfter,
    ServiceDay::Before,
];

impl Horizon {
    /// The service days whose trips a timetable has behind those of its date, in the order in which
    /// it has them: the days after the date, and then the day before.
    pub fn other_days(self) -> &'static [ServiceDay]
        ensures { result.now ≡ other_days self }
    {
        match self {
            Horizon::OneDay => &BEFORE,
            Horizon::TwoDays => &AFTER,
            Horizon::ThreeDays => &TWO_AFTER,
        }
    }
}
