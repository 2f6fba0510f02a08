//! The rules of a journey, at one leg.
ghost use Rattle.std.specs.Prelude.{◌≡◌, ◌<◌, ◌≤◌, ◌↔◌, ◌+ℤ◌, ◌-ℤ◌, ◌≤ℤ◌, pos, negsuc, IsTrue, IfNone, IsSomeAnd, MatchOption, length};
ghost use Rattle.std.specs.Bool.{OnTrue};
ghost use Rattle.std.specs.Option.{option_copied};
ghost use Rattle.journey_read.specs.Known.{IsKnown, IsKnownLeg, IsShortLeg};
ghost use Rattle.tb_base.specs.JourneyRules.{AlightsAllowed, BeginsAtOrigin, BoardsAllowed, BreaksRule, ChangesInTime, EndsAtTarget, FollowsNoWalk, HasNumbers, IsFootpathLeg, IsOnFoot, Joins, KeepsRule, LeavesInTime, end_of, start_of};
ghost use Rattle.tb_base.specs.TimetableData.{events_of};
ghost use Rattle.tb_base.specs.Walking.{change};
ghost use Rattle.tb_base.specs.declared.rule.Rule.{Rule};

use tb_base::{Event, Leg, Query, Rule, StopNo, Timetable, TripNo};

// Whether the numbers of a leg exist.
fn has_numbers(table: &Timetable, leg: &Leg) -> bool
    ensures { IsTrue result ↔ HasNumbers table.now leg.now }
{
    match leg {
        Leg::Walk { from, to, .. } => {
            from.index() < table.stop_count() as usize && to.index() < table.stop_count() as usize
        }
        Leg::Ride {
            trip,
            board,
            alight,
        } => has_ride(table, *trip, *board, *alight),
    }
}

fn has_ride(table: &Timetable, trip: TripNo, board: u32, alight: u32) -> bool
    ensures { IsTrue result ↔ ((trip < length table.now.trips) × (board < alight)
        × (alight < length (events_of table.now trip))) }
{
    if trip.index() >= table.trip_count() as usize {
        return false;
    }
    board < alight && (alight as usize) < table.trip(trip).events.len()
}

// Where a leg begins.
fn start_of(table: &Timetable, leg: &Leg) -> StopNo
    requires { HasNumbers table.now leg.now }
    ensures { result ≡ start_of table.now leg.now }
{
    match leg {
        Leg::Walk { from, .. } => *from,
        Leg::Ride { trip, board, .. } => table.event(*trip, *board).stop,
    }
}

// Where a leg ends.
fn end_of(table: &Timetable, leg: &Leg) -> StopNo
    requires { HasNumbers table.now leg.now }
    ensures { result ≡ end_of table.now leg.now }
{
    match leg {
        Leg::Walk { to, .. } => *to,
        Leg::Ride { trip, alight, .. } => table.event(*trip, *alight).stop,
    }
}

fn is_on_foot(leg: &Leg) -> bool
    ensures { IsTrue result ↔ IsOnFoot leg.now }
{
    matches!(leg, Leg::Walk { .. })
}

// Whether a leg is no walk behind a walk.
fn follows_no_walk(previous: Option<&Leg>, leg: &Leg) -> bool
    ensures { IsTrue result ↔ FollowsNoWalk (option_copied previous.entry) leg.now }
{
    match previous {
        None => true,
        Some(last) => !(is_on_foot(last) && is_on_foot(leg)),
    }
}

// Whether a leg is a ride, or a footpath to another stop with its seconds.
fn is_footpath_leg(table: &Timetable, leg: &Leg) -> bool
    requires { HasNumbers table.now leg.now }
    ensures footpath { IsTrue result ↔ IsFootpathLeg table.now leg.now }
    ensures short { OnTrue result (IsShortLeg leg.now) }
{
    match leg {
        Leg::Walk { from, to, secs } => from.index() != to.index()
            && table.walk(*from, *to) == Some(*secs),
        Leg::Ride { .. } => true,
    }
}

fn may_board(table: &Timetable, leg: &Leg) -> bool
    requires { HasNumbers table.now leg.now }
    ensures { IsTrue result ↔ BoardsAllowed table.now leg.now }
{
    match leg {
        Leg::Walk { .. } => true,
        Leg::Ride { trip, board, .. } => table.event(*trip, *board).board,
    }
}

fn may_alight(table: &Timetable, leg: &Leg) -> bool
    requires { HasNumbers table.now leg.now }
    ensures { IsTrue result ↔ AlightsAllowed table.now leg.now }
{
    match leg {
        Leg::Walk { .. } => true,
        Leg::Ride { trip, alight, .. } => table.event(*trip, *alight).alight,
    }
}

// Whether a leg is not the first, or begins at an origin.
fn begins_at_origin(
    table: &Timetable,
    origins: &[StopNo],
    previous: Option<&Leg>,
    leg: &Leg,
) -> bool
    requires { HasNumbers table.now leg.now }
    ensures { IsTrue result ↔ BeginsAtOrigin table.now origins.now (option_copied previous.entry)
        leg.now }
{
    match previous {
        None => origins.contains(&start_of(table, leg)),
        Some(_) => true,
    }
}

// Whether a walk before an event can begin no earlier than asked.
fn can_walk_to(query: &Query, secs: u32, next: &Event) -> bool
    requires secs { secs ≤ 86400 }
    requires departure { negsuc 86399 ≤ℤ next.now.dep }
    ensures { IsTrue result ↔ query.now.leave ≤ℤ (next.now.dep -ℤ pos secs) }
{
    query.leave <= next.dep - secs as i32
}

// Whether the first ride leaves no earlier than asked.
fn leaves_in_time(
    table: &Timetable,
    query: &Query,
    previous: Option<&Leg>,
    earlier: Option<&Leg>,
    leg: &Leg,
) -> bool
    requires previous { IsKnown table.now (option_copied previous) }
    requires leg { HasNumbers table.now leg.now }
    ensures { IsTrue result
        ↔ LeavesInTime table.now query.now.leave (option_copied previous.entry)
        (option_copied earlier.entry) leg.now }
{
    let Leg::Ride { trip, board, .. } = leg else {
        return true;
    };
    let next = table.event(*trip, *board);
    match previous {
        None => query.leave <= next.dep,
        Some(Leg::Ride { .. }) => true,
        Some(Leg::Walk { secs, .. }) => match earlier {
            None => can_walk_to(query, *secs, &next),
            Some(_) => true,
        },
    }
}

// Whether a leg is the first, or begins where the one before it ended.
fn joins(table: &Timetable, previous: Option<&Leg>, leg: &Leg) -> bool
    requires previous { IsKnown table.now (option_copied previous) }
    requires leg { HasNumbers table.now leg.now }
    ensures { IsTrue result ↔ Joins table.now (option_copied previous.entry) leg.now }
{
    match previous {
        None => true,
        Some(last) => end_of(table, last).index() == start_of(table, leg).index(),
    }
}

// Whether one can change from an event to another in time.
fn can_change(table: &Timetable, from: &Event, to: &Event) -> bool
    requires from { from.now.stop < length table.now.stops }
    requires to { to.now.stop < length table.now.stops }
    requires arrival { from.now.arr ≤ℤ pos 359999 }
    ensures { IsTrue result
        ↔ IsSomeAnd (change table.now from.now.stop to.now.stop) (λ secs.
        (from.now.arr +ℤ pos secs) ≤ℤ to.now.dep) }
{
    match table.change(from.stop, to.stop) {
        Some(secs) => from.arr + secs as i32 <= to.dep,
        None => false,
    }
}

// Whether a ride behind an earlier ride leaves no earlier than the change allows.
fn changes_in_time(
    table: &Timetable,
    previous: Option<&Leg>,
    earlier: Option<&Leg>,
    leg: &Leg,
) -> bool
    requires previous { IsKnown table.now (option_copied previous) }
    requires earlier { IsKnown table.now (option_copied earlier) }
    requires leg { HasNumbers table.now leg.now }
    ensures { IsTrue result ↔ ChangesInTime table.now (option_copied previous.entry)
        (option_copied earlier.entry) leg.now }
{
    let Leg::Ride { trip, board, .. } = leg else {
        return true;
    };
    let next = table.event(*trip, *board);
    match previous {
        None => true,
        Some(Leg::Ride { trip, alight, .. }) => {
            can_change(table, &table.event(*trip, *alight), &next)
        }
        Some(Leg::Walk { secs, .. }) => match earlier {
            Some(Leg::Ride { trip, alight, .. }) => {
                table.event(*trip, *alight).arr + *secs as i32 <= next.dep
            }
            _ => true,
        },
    }
}

// Whether a leg is not the last, or ends at a target.
fn ends_at_target(table: &Timetable, targets: &[StopNo], leg: &Leg, after: &[Leg]) -> bool
    requires { HasNumbers table.now leg.now }
    ensures { IsTrue result ↔ EndsAtTarget table.now targets.now leg.now after.now }
{
    match after {
        [] => targets.contains(&end_of(table, leg)),
        [_, ..] => true,
    }
}

/// The first rule that a leg breaks, with the two legs before it and those behind it.
pub(crate) fn broken_rule(
    table: &Timetable,
    query: &Query,
    previous: Option<&Leg>,
    earlier: Option<&Leg>,
    leg: &Leg,
    after: &[Leg],
) -> Option<Rule>
    requires previous { IsKnown table.now (option_copied previous) }
    requires earlier { IsKnown table.now (option_copied earlier) }
    ensures rule { MatchOption result
        ((rule : Rule) → KeepsRule table.now query.now (option_copied previous.entry)
        (option_copied earlier.entry) leg.now after.now rule)
        (BreaksRule table.now query.now (option_copied previous.entry)
        (option_copied earlier.entry) leg.now after.now) }
    ensures known { IfNone result (IsKnownLeg table.now leg.now) }
{
    if !has_numbers(table, leg) {
        return Some(Rule::BadNumber);
    }
    if !follows_no_walk(previous, leg) {
        return Some(Rule::TwoWalks);
    }
    if !is_footpath_leg(table, leg) {
        return Some(Rule::NoWalk);
    }
    if !may_board(table, leg) {
        return Some(Rule::NoBoarding);
    }
    if !may_alight(table, leg) {
        return Some(Rule::NoAlighting);
    }
    if !begins_at_origin(table, query.from.as_slice(), previous, leg) {
        return Some(Rule::WrongStart);
    }
    if !leaves_in_time(table, query, previous, earlier, leg) {
        return Some(Rule::TooEarly);
    }
    if !joins(table, previous, leg) {
        return Some(Rule::Apart);
    }
    if !changes_in_time(table, previous, earlier, leg) {
        return Some(Rule::TooLate);
    }
    if !ends_at_target(table, query.to.as_slice(), leg, after) {
        return Some(Rule::WrongEnd);
    }
    None
}
