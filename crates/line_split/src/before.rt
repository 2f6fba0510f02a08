//! For each trip the one just before it on its line.
ghost use Rattle.std.specs.Prelude.{◌≡◌, ◌<◌, [], ℕ, IfOk, length, map, slice_index_or};
ghost use Rattle.line_split.specs.LinesOf.{StandsAt, trip_before};

use super::nested::Nested;
use std::alloc::Global;
use tb_base::{LineNo, Memory, TripNo};

/// For each of these places of trips the trip just before on the line, where there is one.
pub(crate) fn befores_of(
    alloc: Global,
    lines: &Nested<TripNo>,
    places: &[(LineNo, u32)],
) -> Result<Vec<Option<TripNo>>, Memory>
    requires { (t : ℕ) → t < length places.now →
        StandsAt lines.now t (slice_index_or places.now t (0, 0)) }
    ensures { IfOk result (λ all. all.items ≡ map (trip_before lines.now) places.now) }
{
    let mut before = Vec::new(alloc);
    for place in places {
        before.push(before_of(lines, *place))?;
    }
    Ok(before)
}

// The trip just before a place of a line.
fn before_of(lines: &Nested<TripNo>, place: (LineNo, u32)) -> Option<TripNo>
    requires line { place.0 < length lines.now }
    requires place { place.1 < length (slice_index_or lines.now place.0 []) }
    ensures { result ≡ trip_before lines.now place }
{
    let row = lines.row(place.0.index());
    if place.1 == 0 {
        return None;
    }
    Some(row[place.1 as usize - 1])
}
