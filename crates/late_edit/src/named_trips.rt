//! The trips that updates name.
ghost use Rattle.std.specs.Prelude.{◌≡◌, ◌<◌, ℕ, IfOk, IfSome, false, length, map, slice_index_or, true};
ghost use Rattle.late_edit.specs.Amended.{trip_named};
ghost use Rattle.late_edit.specs.Finding.{HaveNames, MarksNamed};

use crate::first_trips::FirstTrips;
use crate::update::Update;
use std::alloc::Global;
use tb_base::{HashKey, Memory, NameIndex, Timetable};

// The names of the trips that updates name, hashed by the key.
fn names_of(alloc: Global, key: HashKey, updates: &[Update]) -> Result<NameIndex, Memory>
    ensures { IfOk result (HaveNames updates.now) }
{
    let mut names = NameIndex::new(alloc, key);
    for update in updates {
        let _fresh = names.add(alloc, update.trip().bytes())?;
    }
    Ok(names)
}

// For each update the trip that it names, by the first trips of their names.
fn found_by(
    alloc: Global,
    table: &Timetable,
    names: &NameIndex,
    updates: &[Update],
) -> Result<Vec<Option<u32>>, Memory>
    requires { HaveNames updates.now names.now }
    ensures { IfOk result (λ named.
        named.items ≡ map (trip_named table.now.trips) updates.now) }
{
    let first = FirstTrips::of(alloc, table, names)?;
    let mut named = Vec::new(alloc);
    for update in updates {
        named.push(first.find(update.day(), update.trip().bytes()))?;
    }
    drop(first);
    Ok(named)
}

/// For each update the number of the trip that it names, the first one of its name and day, where
/// there is one. Takes time by the numbers of trips and updates, and memory by that of updates.
pub(crate) fn named_trips(
    alloc: Global,
    table: &Timetable,
    updates: &[Update],
) -> Result<Vec<Option<u32>>, Memory>
    ensures { IfOk result (λ named.
        named.items ≡ map (trip_named table.now.trips) updates.now) }
{
    let names = names_of(alloc, table.key(), updates)?;
    let named = found_by(alloc, table, &names, updates);
    drop(names);
    named
}

// Marks a trip, where there is one.
fn mark(marks: &mut [bool], named: Option<u32>)
    ensures long { length marks.new ≡ length marks.old }
    ensures kept { (t : ℕ) → slice_index_or marks.old t false ≡ true →
        slice_index_or marks.new t false ≡ true }
    ensures marked { IfSome named (λ t. t < length marks.old →
        slice_index_or marks.new t false ≡ true) }
{
    let Some(trip) = named else {
        return;
    };
    if (trip as usize) < marks.len() {
        marks[trip as usize] = true;
    }
}

/// For each of so many trips a mark, which it has where an update names it.
pub(crate) fn named_marks(
    alloc: Global,
    count: u32,
    named: &[Option<u32>],
) -> Result<Vec<bool>, Memory>
    ensures { IfOk result (λ marks. MarksNamed count named.now marks.items) }
{
    let mut marks = Vec::new(alloc);
    marks.resize(count as usize, false)?;
    for one in 0..named.len() {
        mark(marks.as_mut_slice(), named[one]);
    }
    Ok(marks)
}
