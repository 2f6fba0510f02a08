//! The turns in which rows of stops.txt lack their parents.
ghost use Rattle.std.specs.Prelude.{◌≡◌, ◌+◌, ◌<◌, ◌≤◌, ◌==◌, ℕ, All, IfOk, if◌then◌else◌, length, map, min, slice_index};
ghost use Rattle.footpaths.specs.Stops.{stop_id};
ghost use Rattle.trip_table.specs.Turns.{base_of, bases_of, steps_to, turn_of};

use gtfs_rows::StopRow;
use std::alloc::Global;
use tb_base::{Memory, NameIndex};

// The place of a row's parent among so many ids, their number where it isn't there, and one more
// where the row names none.
fn base_of(known: &NameIndex, count: usize, row: &StopRow) -> usize
    requires count { count ≡ length known.now }
    requires few { count ≤ 100000 }
    ensures { result ≡ base_of known.now row.now }
{
    let parent = row.parent.bytes();
    if parent.is_empty() {
        return count + 1;
    }
    match known.find(parent) {
        Some(place) => place,
        None => count,
    }
}

// The same for the place of each row; the two places past the rows lead to themselves.
fn bases_of(alloc: Global, known: &NameIndex, rows: &[StopRow]) -> Result<Vec<usize>, Memory>
    requires known { known.now ≡ map stop_id rows.now }
    requires few { length rows.now ≤ 100000 }
    ensures { IfOk result (λ bases. bases.items ≡ bases_of rows.now) }
{
    let count = rows.len();
    let mut bases: Vec<usize> = Vec::new(alloc);
    for row in rows {
        bases.push(base_of(known, count, row))?;
    }
    bases.push(count)?;
    bases.push(count + 1)?;
    Ok(bases)
}

// One step from each place but the last one.
fn one_step(alloc: Global, places: usize, last: usize) -> Result<Vec<usize>, Memory>
    requires { last < places }
    ensures long { IfOk result (λ steps. length steps.items ≡ places) }
    ensures steps { IfOk result
        (λ steps. (i : ℕ) → i < places → slice_index steps.items i ≡ (if i == last then 0 else 1)) }
{
    let mut steps = vec![in alloc; 1; places]?;
    steps[last] = 0;
    Ok(steps)
}

// Where twice as many steps lead.
fn twice_as_far(alloc: Global, far: &[usize]) -> Result<Vec<usize>, Memory>
    requires { All (λ place. place < length far.now) far.now }
    ensures { IfOk result
        (λ farther. farther.items ≡ map (λ place. slice_index far.now place) far.now) }
{
    let mut farther: Vec<usize> = Vec::new(alloc);
    for place in far {
        farther.push(far[*place])?;
    }
    Ok(farther)
}

// Twice as many steps: those to a place, and those from it.
fn twice_as_many(alloc: Global, far: &[usize], steps: &[usize]) -> Result<Vec<usize>, Memory>
    requires long { length steps.now ≡ length far.now }
    requires within { All (λ place. place < length far.now) far.now }
    requires few { All (λ most. most ≤ 100000) steps.now }
    ensures long { IfOk result (λ more. length more.items ≡ length far.now) }
    ensures more { IfOk result
        (λ more. (i : ℕ) → i < length far.now →
        slice_index more.items i
        ≡ slice_index steps.now i + slice_index steps.now (slice_index far.now i)) }
{
    let mut more: Vec<usize> = Vec::new(alloc);
    for i in 0..far.len() {
        more.push(steps[i] + steps[far[i]])?;
    }
    Ok(more)
}

// How many steps it takes from each place to the last one, or any number from the last place's own
// on where they are no fewer. Each round looks twice as far.
fn steps_to(alloc: Global, bases: &[usize], last: usize) -> Result<Vec<usize>, Memory>
    requires within { All (λ place. place < length bases.now) bases.now }
    requires last { last < length bases.now }
    requires stays { slice_index bases.now last ≡ last }
    requires few { last ≤ 100000 }
    ensures long { IfOk result (λ steps. length steps.items ≡ length bases.now) }
    ensures steps { IfOk result
        (λ steps. (i : ℕ) → i < length bases.now →
        min last (slice_index steps.items i) ≡ steps_to bases.now last last i) }
{
    let mut far = bases.to_vec(alloc)?;
    let mut steps = one_step(alloc, bases.len(), last)?;
    let mut reach: usize = 1;
    while reach < last {
        steps = twice_as_many(alloc, far.as_slice(), steps.as_slice())?;
        far = twice_as_far(alloc, far.as_slice())?;
        reach *= 2;
    }
    Ok(steps)
}

// The smaller of the steps from a place and their limit.
fn turn_at(steps: &[usize], base: usize, limit: usize) -> u32
    requires base { base < length steps.now }
    requires limit { limit ≤ 100000 }
    ensures { result ≡ min limit (slice_index steps.now base) }
{
    let most = steps[base];
    if most < limit {
        most as u32
    } else {
        limit as u32
    }
}

/// The turn, from 0, in which each row lacks its parent, where those that do are left out in turn;
/// the number of rows where it never does.
pub fn turns_of(alloc: Global, known: &NameIndex, rows: &[StopRow]) -> Result<Vec<u32>, Memory>
    requires known { known.now ≡ map stop_id rows.now }
    requires few { length rows.now ≤ 100000 }
    ensures { IfOk result (λ turns. turns.items ≡ map (turn_of rows.now) rows.now) }
{
    let count = rows.len();
    let bases = bases_of(alloc, known, rows)?;
    let steps = steps_to(alloc, bases.as_slice(), count)?;
    let mut turns: Vec<u32> = Vec::new(alloc);
    for i in 0..count {
        turns.push(turn_at(steps.as_slice(), bases[i], count))?;
    }
    Ok(turns)
}
