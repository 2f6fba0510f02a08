//! The line of each trip, and the trip's place in it.
ghost use Rattle.std.specs.Prelude.{◌≡◌, ◌<◌, ◌^◌, ℕ, [], All, IfOk, length, slice_index_or};
ghost use Rattle.line_split.specs.LinesOf.{StandsAt};
ghost use Rattle.line_split.specs.Places.{NotesLine};

use super::nested::Nested;
use std::alloc::Global;
use tb_base::{LineNo, Memory, TripNo};

/// For each of so many trips its line and its place in it, counted from 0.
pub(crate) fn places_of(
    alloc: Global,
    count: u32,
    lines: &Nested<TripNo>,
) -> Result<Vec<(LineNo, u32)>, Memory>
    requires fits { length lines.now < 2 ^ 32 }
    requires rows { All (λ line. length line < 2 ^ 32) lines.now }
    requires trips { All (λ line. All (λ t. t < count) line) lines.now }
    ensures length { IfOk result (λ places. length places.items ≡ count) }
    ensures places { IfOk result (λ places. (l k : ℕ) → l < length lines.now →
        k < length (slice_index_or lines.now l []) →
        StandsAt lines.now (slice_index_or (slice_index_or lines.now l []) k 0)
        (slice_index_or places.items (slice_index_or (slice_index_or lines.now l []) k 0) (0, 0))) }
{
    let mut places = Vec::new(alloc);
    places.resize(count as usize, (LineNo(0), 0))?;
    for line in 0..lines.len() {
        note_line(places.as_mut_slice(), LineNo(line as u32), lines.row(line));
    }
    Ok(places)
}

// Notes the place of each trip of a line.
fn note_line(places: &mut [(LineNo, u32)], line: LineNo, trips: &[TripNo])
    requires fits { length trips.now < 2 ^ 32 }
    requires trips { All (λ t. t < length places.old) trips.now }
    ensures { NotesLine line trips.now (length trips.now) places.old places.new }
{
    for place in 0..trips.len() {
        places[trips[place].index()] = (line, place as u32);
    }
}
