ghost use Rattle.std.specs.Prelude.{◌≡◌, ◌<◌, ◌≤◌, IfOk};
ghost use Rattle.edition_build.specs.Reports.{IsReport, counts_of};

use answer_json::{shown_build, shown_build_list};
use answer_text::BuildCounts;
use line_split::{Lines, split};
use reduce_workers::{Reduced, reduce_all};
use std::alloc::Global;
use std::thread::Threads;
use tb_base::{Gate, Memory, Timetable};

/// How many lines there are, and the counts of the reduction.
pub fn counts_of(lines: &Lines, reduced: &Reduced) -> BuildCounts
    ensures { result ≡ counts_of lines.now.lines reduced.now }
{
    BuildCounts {
        lines: lines.count(),
        generated: reduced.generated,
        after_uturn: reduced.after_uturn,
        kept: reduced.kept,
    }
}

/// The report on what is built of a timetable: `stops N trips N events N footpaths N`, and
/// `lines N generated N after_uturn N kept N`; with a list, `TRIP@I TRIP@J` for each kept transfer
/// besides, trip after trip, each trip's from its last event down; or the same as JSON. So many
/// workers reduce the transfers, at least one and at most 64; the gate is told of their pieces. The
/// text is the same for every number of them. Refused only for want of memory.
pub fn report<G: Gate, R: Threads + Sync>(
    rt: &R,
    alloc: Global,
    json: bool,
    table: &Timetable,
    list: bool,
    workers: u32,
    gate: &G,
) -> Result<Vec<u8>, Memory>
    requires some { 0 < workers }
    requires most { workers ≤ 64 }
    ensures { IfOk result (λ text. IsReport json table.now list text.items) }
{
    let lines = split(alloc, table)?;
    let Ok(reduced) = reduce_all(rt, alloc, table, &lines, workers, gate) else {
        drop(lines);
        return Err(Memory);
    };
    let counts = counts_of(&lines, &reduced);
    drop(lines);
    if list {
        let text = shown_build_list(alloc, json, table, counts, reduced.rows.as_slice());
        drop(reduced);
        text
    } else {
        drop(reduced);
        shown_build(alloc, json, table, counts)
    }
}
