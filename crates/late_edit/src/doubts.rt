//! Where it isn't plain that the lines that are boarded at a stop are the same in two timetables.
ghost use Rattle.std.specs.Prelude.{◌≡◌, ◌+◌, ◌<◌, ◌≤◌, ◌++◌, ◌∷◌, [], All, IfOk, None, OnOk, false, length, map, take};
ghost use Rattle.std.specs.Bool.{OnTrue};
ghost use Rattle.line_split.specs.Layout.{IsBoarding};
ghost use Rattle.late_edit.specs.Doubts.{AreAllDoubts, AreDoubts, AreDoubtsAt, ArePassed, IsAlike};
ghost use Rattle.late_edit.specs.Touched.{has_other_events};

use crate::compared::Compared;
use crate::lined_timetable::LinedTimetable;
use line_split::Boarding;
use std::alloc::Global;
use tb_base::{LineNo, Memory, StopNo, TripNo};

/// A line that is boarded at a stop in the first timetable, and one in the second, or one of these
/// alone: a transfer onto the one may be another than onto the other.
#[derive(Clone, Copy)]
pub(crate) struct Doubt {
    pub(crate) old: Option<Boarding>,
    pub(crate) new: Option<Boarding>,
}

// Whether two trips are one, which has the same events in both timetables.
fn is_same_trip(compared: &Compared<'_>, old: TripNo, new: TripNo) -> bool
    ensures { OnTrue result ((old ≡ new)
        × (has_other_events compared.now.before.table compared.now.after.table old ≡ false)) }
{
    old.index() == new.index() && !compared.has_other_events(old)
}

// Whether the trips of two lines are the same, and have the same events in both timetables.
fn are_same_trips(compared: &Compared<'_>, old: &[TripNo], new: &[TripNo]) -> bool
    ensures { OnTrue result ((old.now ≡ new.now) × All (λ u.
        has_other_events compared.now.before.table compared.now.after.table u ≡ false) old.now) }
{
    if old.len() != new.len() {
        return false;
    }
    for i in 0..old.len() {
        if !is_same_trip(compared, old[i], new[i]) {
            return false;
        }
    }
    true
}

// Whether a line is boarded at the same index in both timetables, with the same trips.
fn are_alike(compared: &Compared<'_>, old: &Boarding, new: &Boarding) -> bool
    requires old { IsBoarding compared.now.before.table compared.now.before.lines old.now }
    requires new { IsBoarding compared.now.after.table compared.now.after.lines new.now }
    ensures { OnTrue result
        (IsAlike compared.now.before compared.now.after old.now new.now) }
{
    let before = compared.before().trips(old.line);
    let after = compared.after().trips(new.line);
    old.at == new.at && are_same_trips(compared, before, after)
}

// Whether a line of the one timetable seems to be there in the other.
fn stays(one: &LinedTimetable<'_>, other: &LinedTimetable<'_>, line: LineNo) -> bool
    requires { line < length one.now.lines }
{
    let trips = one.trips(line);
    match trips {
        [] => false,
        [first, ..] => other.trips_beside(*first) == trips,
    }
}

// Which of two boardings that aren't alike has none beside it. It is a guess, on which no proof rests.
enum Lone {
    Old,
    New,
    Neither,
}

// Guesses which of two boardings that aren't alike has none beside it.
fn guess_lone(compared: &Compared<'_>, old: &Boarding, new: &Boarding) -> Lone
    requires old { IsBoarding compared.now.before.table compared.now.before.lines old.now }
    requires new { IsBoarding compared.now.after.table compared.now.after.lines new.now }
{
    let (before, after) = (compared.before(), compared.after());
    let old_stays = stays(before, after, old.line);
    let new_stays = stays(after, before, new.line);
    match (old_stays, new_stays) {
        (false, true) => Lone::Old,
        (true, false) => Lone::New,
        _ => Lone::Neither,
    }
}

// Adds a doubt.
fn add(doubts: &mut Vec<Doubt>, old: Option<Boarding>, new: Option<Boarding>) -> Result<(), Memory>
    ensures { OnOk result
        (doubts.new.items ≡ doubts.old.items ++ record { old = old; new = new } ∷ []) }
{
    doubts.push(Doubt { old, new })?;
    Ok(())
}

// Passes the next boarding of one row or of both, and adds a doubt unless they are alike. Tells how
// many of each are passed then.
fn pass_next(
    doubts: &mut Vec<Doubt>,
    compared: &Compared<'_>,
    old: &[Boarding],
    new: &[Boarding],
    passed: (usize, usize),
) -> Result<(usize, usize), Memory>
    requires old { All (IsBoarding compared.now.before.table compared.now.before.lines) old.now }
    requires new { All (IsBoarding compared.now.after.table compared.now.after.lines) new.now }
    requires old_left { passed.0 < length old.now }
    requires new_left { passed.1 < length new.now }
    requires doubts { ArePassed compared.now.before compared.now.after old.now new.now
        doubts.old.items passed }
    ensures doubts { IfOk result (ArePassed compared.now.before compared.now.after old.now new.now
        doubts.new.items) }
    ensures more { IfOk result (λ now. passed.0 + passed.1 < now.0 + now.1) }
{
    let (i, j) = passed;
    if are_alike(compared, &old[i], &new[j]) {
        return Ok((i + 1, j + 1));
    }
    match guess_lone(compared, &old[i], &new[j]) {
        Lone::Old => {
            add(doubts, Some(old[i]), None)?;
            Ok((i + 1, j))
        }
        Lone::New => {
            add(doubts, None, Some(new[j]))?;
            Ok((i, j + 1))
        }
        Lone::Neither => {
            add(doubts, Some(old[i]), Some(new[j]))?;
            Ok((i + 1, j + 1))
        }
    }
}

// Passes boardings until none is left of one of two rows.
fn pass_both(
    doubts: &mut Vec<Doubt>,
    compared: &Compared<'_>,
    old: &[Boarding],
    new: &[Boarding],
) -> Result<(usize, usize), Memory>
    requires fresh { doubts.old.items ≡ [] }
    requires old { All (IsBoarding compared.now.before.table compared.now.before.lines) old.now }
    requires new { All (IsBoarding compared.now.after.table compared.now.after.lines) new.now }
    ensures { IfOk result (ArePassed compared.now.before compared.now.after old.now new.now
        doubts.new.items) }
{
    let mut passed = (0, 0);
    while passed.0 < old.len() && passed.1 < new.len() {
        passed = pass_next(doubts, compared, old, new, passed)?;
    }
    Ok(passed)
}

// Passes what is left of two rows: one boarding after another is in doubt alone.
fn pass_rest(
    doubts: &mut Vec<Doubt>,
    compared: &Compared<'_>,
    old: &[Boarding],
    new: &[Boarding],
    passed: (usize, usize),
) -> Result<(), Memory>
    requires old { All (IsBoarding compared.now.before.table compared.now.before.lines) old.now }
    requires new { All (IsBoarding compared.now.after.table compared.now.after.lines) new.now }
    requires doubts { ArePassed compared.now.before compared.now.after old.now new.now
        doubts.old.items passed }
    ensures { OnOk result (AreDoubts compared.now.before compared.now.after old.now new.now
        doubts.new.items) }
{
    for i in passed.0..old.len() {
        add(doubts, Some(old[i]), None)?;
    }
    for j in passed.1..new.len() {
        add(doubts, None, Some(new[j]))?;
    }
    Ok(())
}

// The doubts at a stop.
fn doubts_at(alloc: Global, compared: &Compared<'_>, stop: StopNo) -> Result<Vec<Doubt>, Memory>
    requires { stop < length compared.now.before.table.stops }
    ensures { IfOk result (λ doubts.
        AreDoubtsAt compared.now.before compared.now.after stop doubts.items) }
{
    compared.soundness();
    let old = compared.before().boardings(stop);
    let new = compared.after().boardings(stop);
    let mut doubts = Vec::new(alloc);
    let passed = pass_both(&mut doubts, compared, old, new)?;
    pass_rest(&mut doubts, compared, old, new, passed)?;
    Ok(doubts)
}

/// For each stop the doubts there.
pub(crate) fn all_doubts(alloc: Global, compared: &Compared<'_>) -> Result<Vec<Vec<Doubt>>, Memory>
    ensures { IfOk result (λ rows. AreAllDoubts compared.now.before compared.now.after
        (map (λ row. row.items) rows.items)) }
{
    let mut rows = Vec::new(alloc);
    for number in 0..compared.before().table().stop_count() {
        let doubts = doubts_at(alloc, compared, StopNo(number))?;
        rows.push(doubts)?;
    }
    Ok(rows)
}
