//! The stops from which a change leads to a stop with doubts, and the lines that call at one.
ghost use Rattle.std.specs.Prelude.{◌≡◌, ◌<◌, ◌||◌, ℕ, [], All, IfOk, false, length, map, slice_index_or};
ghost use Rattle.std.specs.List.{list_any};
ghost use Rattle.tb_base.specs.Soundness.{IsSoundPath};
ghost use Rattle.line_split.specs.LinesOf.{line_events};
ghost use Rattle.late_edit.specs.Doubts.{MarksDoubts, MarksLines, MarksNear, calls_near};

use crate::doubts::Doubt;
use crate::lined_timetable::LinedTimetable;
use std::alloc::Global;
use tb_base::{Event, LineNo, Memory, Path, StopNo, Timetable};

// For each stop whether it has doubts.
fn doubtful_stops(alloc: Global, doubts: &[Vec<Doubt>]) -> Result<Vec<bool>, Memory>
    ensures { IfOk result (λ marks. MarksDoubts (map (λ row. row.items) doubts.now) marks.items) }
{
    let mut marks = Vec::new(alloc);
    for row in doubts {
        marks.push(!row.as_slice().is_empty())?;
    }
    Ok(marks)
}

// Whether one of the footpaths leads to a marked stop.
fn lead_to(paths: &[Path], marks: &[bool]) -> bool
    requires { (p : ℕ) × All (IsSoundPath (length marks.now) p) paths.now }
    ensures { result ≡ list_any (λ f. slice_index_or marks.now f.to false) paths.now }
{
    paths.iter().any(|path| marks[path.to.index()])
}

// Whether a stop is marked, or one that a footpath from it leads to.
fn is_near(table: &Timetable, marks: &[bool], stop: StopNo) -> bool
    requires marks { length marks.now ≡ length table.now.stops }
    requires stop { stop < length table.now.stops }
    ensures { result ≡ (slice_index_or marks.now stop false
        || list_any (λ f. slice_index_or marks.now f.to false)
        (slice_index_or table.now.footpaths.paths stop [])) }
{
    marks[stop.index()] || lead_to(table.paths(stop), marks)
}

/// For each stop a mark, which it has where a change from it leads to a stop with doubts.
pub(crate) fn near_stops(
    alloc: Global,
    table: &Timetable,
    doubts: &[Vec<Doubt>],
) -> Result<Vec<bool>, Memory>
    requires { length doubts.now ≡ length table.now.stops }
    ensures { IfOk result
        (λ near. MarksNear table.now (map (λ row. row.items) doubts.now) near.items) }
{
    table.soundness();
    let marks = doubtful_stops(alloc, doubts)?;
    let mut near = Vec::new(alloc);
    near.reserve(table.stop_count() as usize)?;
    for number in 0..table.stop_count() {
        near.push(is_near(table, marks.as_slice(), StopNo(number)))?;
    }
    Ok(near)
}

/// Whether a stop is marked.
pub(crate) fn is_marked(marks: &[bool], stop: StopNo) -> bool
    requires { stop < length marks.now }
    ensures { result ≡ slice_index_or marks.now stop false }
{
    marks[stop.index()]
}

// Whether one of these events is at a marked stop.
fn calls_near(marks: &[bool], events: &[Event]) -> bool
    requires { All (λ e. e.stop < length marks.now) events.now }
    ensures { result ≡ calls_near marks.now events.now }
{
    events.iter().any(|event| marks[event.stop.index()])
}

// Whether a line calls at a marked stop.
fn is_line_near(lined: &LinedTimetable<'_>, marks: &[bool], line: LineNo) -> bool
    requires marks { length marks.now ≡ length lined.now.table.stops }
    requires line { line < length lined.now.lines }
    ensures { result ≡ calls_near marks.now
        (line_events lined.now.table (slice_index_or lined.now.lines line [])) }
{
    calls_near(marks, lined.line_events(line))
}

/// For each line a mark, which it has where it calls at a marked stop.
pub(crate) fn near_lines(
    alloc: Global,
    lined: &LinedTimetable<'_>,
    marks: &[bool],
) -> Result<Vec<bool>, Memory>
    requires { length marks.now ≡ length lined.now.table.stops }
    ensures { IfOk result (λ near. MarksLines lined.now marks.now near.items) }
{
    let mut near = Vec::new(alloc);
    near.reserve(lined.line_count() as usize)?;
    for number in 0..lined.line_count() {
        near.push(is_line_near(lined, marks, LineNo(number)))?;
    }
    Ok(near)
}
