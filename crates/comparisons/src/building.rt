//! Editions, made by two workers.
ghost use Rattle.std.specs.Prelude.{IfOk};
ghost use Rattle.edition_store.specs.Editions.{EditionData};
ghost use Rattle.edition_store.specs.Mirror.{IsMirror};

use edition_build::{build, build_mirror};
use edition_store::Edition;
use std::alloc::Global;
use std::thread::Threads;
use tb_base::{IdleGate, Memory, Timetable};

const WORKERS: u32 = 2;

/// The edition of a timetable.
pub fn built<R: Threads + Sync>(
    rt: &R,
    alloc: Global,
    table: Timetable,
) -> Result<Edition, Memory> {
    build(rt, alloc, table, WORKERS, &IdleGate)
}

/// The edition of the mirror of a timetable.
pub fn mirror_built<R: Threads + Sync>(
    rt: &R,
    alloc: Global,
    table: &Timetable,
) -> Result<Edition, Memory>
    ensures { IfOk result (λ e. IsMirror table.now (EditionData.table e)) }
{
    build_mirror(rt, alloc, table, WORKERS, &IdleGate)
}
