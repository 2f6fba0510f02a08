//! For each trip its line from it on, as a run of one vector.
ghost use Rattle.std.specs.Prelude.{◌≡◌, ◌+◌, ◌<◌, ◌^◌, [], ℕ, IfOk, flat_map, length, map, slice_index_or};
ghost use Rattle.std.specs.List.{range_with_len};
ghost use Rattle.line_split.specs.Layout.{IsRunFrom, order_start};
ghost use Rattle.line_split.specs.LinesOf.{StandsAt};

use super::nested::Nested;
use std::alloc::Global;
use tb_base::{LineNo, Memory, TripNo};

/// All trips, line after line, and for each trip where its line from it on begins and ends there.
pub(crate) fn onward_of(
    alloc: Global,
    lines: &Nested<TripNo>,
    places: &[(LineNo, u32)],
) -> Result<(Vec<TripNo>, Vec<(u32, u32)>), Memory>
    requires stand { (t : ℕ) → t < length places.now →
        StandsAt lines.now t (slice_index_or places.now t (0, 0)) }
    requires fits { length (flat_map (λ line. line) lines.now) < 2 ^ 32 }
    ensures length { IfOk result (λ all. length all.1.items ≡ length places.now) }
    ensures runs { IfOk result (λ all. (t : ℕ) → t < length places.now →
        IsRunFrom lines.now all.0.items t (slice_index_or all.1.items t (0, 0))) }
{
    let (starts, in_order) = in_one(alloc, lines)?;
    let mut runs = Vec::new(alloc);
    for place in places {
        runs.push(run_of(lines, starts.as_slice(), *place))?;
    }
    Ok((in_order, runs))
}

// The run of a trip that stands on a line at a place, where lines begin at these starts.
fn run_of(lines: &Nested<TripNo>, starts: &[usize], place: (LineNo, u32)) -> (u32, u32)
    requires line { place.0 < length lines.now }
    requires place { place.1 < length (slice_index_or lines.now place.0 []) }
    requires starts { starts.now
        ≡ map (order_start lines.now) (range_with_len 0 (length lines.now)) }
    requires fits { length (flat_map (λ line. line) lines.now) < 2 ^ 32 }
    ensures from { result.0 ≡ order_start lines.now place.0 + place.1 }
    ensures to { result.1
        ≡ order_start lines.now place.0 + length (slice_index_or lines.now place.0 []) }
{
    let line = place.0.index();
    let start = starts[line];
    let end = start + lines.row(line).len();
    (start as u32 + place.1, end as u32)
}

// The trips of all lines, one line behind the other, behind the places where each line begins.
fn in_one(alloc: Global, lines: &Nested<TripNo>) -> Result<(Vec<usize>, Vec<TripNo>), Memory>
    ensures starts { IfOk result (λ all. all.0.items
        ≡ map (order_start lines.now) (range_with_len 0 (length lines.now))) }
    ensures trips { IfOk result (λ all. all.1.items ≡ flat_map (λ line. line) lines.now) }
{
    let mut starts = Vec::new(alloc);
    let mut trips = Vec::new(alloc);
    for line in 0..lines.len() {
        starts.push(trips.len())?;
        trips.extend_from_slice(lines.row(line))?;
    }
    Ok((starts, trips))
}
