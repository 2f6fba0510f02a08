ghost use Rattle.std.specs.Prelude.{◌≡◌, ◌<◌, ◌≤◌, IfOk, IsSome};
ghost use Rattle.edition_store.specs.Editions.{EditionData};
ghost use Rattle.edition_store.specs.Mirror.{IsMirror};
ghost use Rattle.reduce_workers.specs.Reductions.{reduced};

use edition_store::{Edition, Shared, mirror};
use line_split::{Lines, split};
use reduce_workers::{Reduced, reduce_all};
use std::alloc::Global;
use std::thread::Threads;
use tb_base::{Gate, Memory, Timetable};

/// The edition of a timetable with its lines and what the reduction made of its transfers.
/// Refused only for want of memory; all three are dropped then.
pub fn assemble(
    alloc: Global,
    table: Timetable,
    lines: Lines,
    transfers: Reduced,
) -> Result<Edition, Memory>
    requires lines { lines.table ≡ table }
    requires transfers { transfers ≡ reduced table lines.lines }
    ensures table { IfOk result (λ e. EditionData.table e ≡ table) }
    ensures lines { IfOk result (λ e. EditionData.lines e ≡ lines.lines) }
    ensures kept { IfOk result (λ e. EditionData.kept e ≡ transfers.kept) }
{
    reduce_workers::laws::kept_rows();
    table.soundness();
    lines.soundness();
    let kept = transfers.kept;
    match transfers.into_set(alloc, &table) {
        Ok(set) => Edition::with_set(alloc, table, lines, set, kept),
        Err(Memory) => {
            drop(table);
            drop(lines);
            Err(Memory)
        }
    }
}

// The edition of a timetable with its lines.
fn build_over<G: Gate, R: Threads + Sync>(
    rt: &R,
    alloc: Global,
    table: Timetable,
    lines: Lines,
    workers: u32,
    gate: &G,
) -> Result<Edition, Memory>
    requires some { 0 < workers }
    requires most { workers ≤ 64 }
    requires lines { lines.table ≡ table }
    ensures { IfOk result (λ e. EditionData.table e ≡ table) }
{
    match reduce_all(rt, alloc, &table, &lines, workers, gate) {
        Ok(transfers) => assemble(alloc, table, lines, transfers),
        Err(Memory) => {
            drop(table);
            drop(lines);
            Err(Memory)
        }
    }
}

/// The edition of a timetable. So many workers reduce its transfers, at least one and at most 64;
/// the gate is told of their pieces. Every number of workers gives the same network. Refused only
/// for want of memory; the timetable is dropped then.
pub fn build<G: Gate, R: Threads + Sync>(
    rt: &R,
    alloc: Global,
    table: Timetable,
    workers: u32,
    gate: &G,
) -> Result<Edition, Memory>
    requires some { 0 < workers }
    requires most { workers ≤ 64 }
    ensures { IfOk result (λ e. EditionData.table e ≡ table) }
{
    match split(alloc, &table) {
        Ok(lines) => build_over(rt, alloc, table, lines, workers, gate),
        Err(Memory) => {
            drop(table);
            Err(Memory)
        }
    }
}

/// The edition of a timetable, to be shared; see `build`.
pub fn build_edition<G: Gate, R: Threads + Sync>(
    rt: &R,
    alloc: Global,
    table: Timetable,
    workers: u32,
    gate: &G,
) -> Result<Shared, Memory>
    requires some { 0 < workers }
    requires most { workers ≤ 64 }
    ensures { IfOk result (λ e. EditionData.table e ≡ table) }
{
    match build(rt, alloc, table, workers, gate) {
        Ok(edition) => Shared::new(alloc, edition),
        Err(Memory) => Err(Memory),
    }
}

/// The edition of the mirror of a timetable, in which time runs backwards; see `build`.
pub fn build_mirror<G: Gate, R: Threads + Sync>(
    rt: &R,
    alloc: Global,
    table: &Timetable,
    workers: u32,
    gate: &G,
) -> Result<Edition, Memory>
    requires some { 0 < workers }
    requires most { workers ≤ 64 }
    ensures { IfOk result (λ e. IsMirror table.now (EditionData.table e)) }
{
    let mirrored = mirror(alloc, table)?;
    build(rt, alloc, mirrored, workers, gate)
}

/// The edition of a timetable with the network of its mirror, so that it can be asked for latest
/// departures as well; see `build`.
pub fn build_mirrored<G: Gate, R: Threads + Sync>(
    rt: &R,
    alloc: Global,
    table: Timetable,
    workers: u32,
    gate: &G,
) -> Result<Edition, Memory>
    requires some { 0 < workers }
    requires most { workers ≤ 64 }
    ensures table { IfOk result (λ e. EditionData.table e ≡ table) }
    ensures mirror { IfOk result (λ e. IsSome (EditionData.mirror e)) }
{
    match build_mirror(rt, alloc, &table, workers, gate) {
        Ok(mirror) => match build(rt, alloc, table, workers, gate) {
            Ok(edition) => Ok(edition.with_mirror(mirror.into_network())),
            Err(Memory) => {
                drop(mirror);
                Err(Memory)
            }
        },
        Err(Memory) => {
            drop(table);
            Err(Memory)
        }
    }
}
