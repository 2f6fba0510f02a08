//! Judging a claim.
ghost use Rattle.std.specs.Prelude.{◌≡◌, ◌+◌, ◌-◌, ◌<◌, ◌^◌, ◌↔◌, ◌≤ℤ◌, All, Decides, length, pos};
ghost use Rattle.tb_base.specs.JourneyRules.{SpellValue};
ghost use Rattle.journey_read.specs.Known.{IsKnownLeg};
ghost use Rattle.journey_read.specs.Judging.{IsVerdict, GoesOn, rides_on, time_after, value_after};
ghost use Rattle.journey_read.specs.declared.verdict.Verdict.TheVariants as verdict;

use crate::claim::Claimed;
use crate::rules::fault;
use tb_base::{Leg, Query, RuleBroken, Sec, Timetable, Value};

/// What is said of a claim.
#[derive(Debug, Clone, Copy, PartialEq, Eq)]
pub enum Verdict {
    /// It is a journey with that value.
    Yes,
    /// The first rule that its legs break.
    Broken(RuleBroken),
    /// It is a journey, with this other value.
    OtherValue(Value),
}

// The value of a way without legs.
fn without_legs(query: &Query) -> Value
    ensures { result ≡ record { arrive = query.now.leave; rides = 0 } }
{
    Value {
        arrive: query.leave,
        rides: 0,
    }
}

// The value of a way with one more leg.
fn with_leg(table: &Timetable, value: &Value, leg: &Leg) -> Value
    requires leg { IsKnownLeg table.now leg.now }
    requires time { time_after table.now value.now.arrive leg.now ≤ℤ pos 446399 }
    requires rides { value.now.rides < 2 ^ 32 - 1 }
    ensures arrive { result.arrive ≡ time_after table.now value.now.arrive leg.now }
    ensures rides { result.rides ≡ value.now.rides + rides_on leg.now }
{
    match leg {
        Leg::Walk { secs, .. } => Value {
            arrive: value.arrive + *secs as Sec,
            rides: value.rides,
        },
        Leg::Ride { trip, alight, .. } => Value {
            arrive: table.event(*trip, *alight).arr,
            rides: value.rides + 1,
        },
    }
}

// The value of the way that legs go from the asked time on.
fn value_of(table: &Timetable, query: &Query, legs: &[Leg]) -> Value
    requires legs { GoesOn table.now query.now.leave legs.now }
    requires count { length legs.now < 2 ^ 32 }
    ensures { result ≡ value_after table.now query.now.leave 0 legs.now }
{
    let mut value = without_legs(query);
    for leg in legs {
        value = with_leg(table, &value, leg);
    }
    value
}

// Whether two values are one.
fn same_value(one: &Value, other: &Value) -> bool
    ensures { Decides result (one.now ≡ other.now) }
{
    one.arrive == other.arrive && one.rides == other.rides
}

// What is said of a value and legs that are claimed.
fn verdict_on(table: &Timetable, query: &Query, claimed: &Value, legs: &[Leg]) -> Verdict
    requires origins { All (λ p. p < length table.now.stops) query.now.from }
    requires leave { query.now.leave ≤ℤ pos 359999 }
    requires count { length legs.now < 2 ^ 32 }
    ensures verdict { IsVerdict table.now query.now
        (record { value = claimed.now; legs = legs.now }) result }
    ensures yes { (result ≡ verdict.Yes)
        ↔ SpellValue table.now query.now legs.now claimed.now }
{
    table.soundness();
    if let Some(broken) = fault(table, query, legs) {
        return Verdict::Broken(broken);
    }
    let value = value_of(table, query, legs);
    if same_value(&value, claimed) {
        Verdict::Yes
    } else {
        Verdict::OtherValue(value)
    }
}

/// Whether a claim is right: `Broken` with the first rule that its legs break, `OtherValue` with
/// the journey's own value where they spell a journey that leaves no earlier than asked and has
/// another value than the claimed one, else `Yes`. A walk's value is taken at the asked time.
pub fn judge(table: &Timetable, query: &Query, claimed: &Claimed) -> Verdict
    requires origins { All (λ p. p < length table.now.stops) query.now.from }
    requires leave { query.now.leave ≤ℤ pos 359999 }
    requires count { length claimed.now.legs < 2 ^ 32 }
    ensures verdict { IsVerdict table.now query.now claimed.now result }
    ensures yes { (result ≡ verdict.Yes)
        ↔ SpellValue table.now query.now claimed.now.legs claimed.now.value }
{
    verdict_on(table, query, &claimed.value, claimed.legs.as_slice())
}
