//! An edition is amended by what is said of its trips.
ghost use Rattle.std.specs.Prelude.{◌≡◌, ℕ, IfErr, IfOk, None, length, map};
ghost use Rattle.tb_base.specs.Refusals.{Yields};
ghost use Rattle.tb_base.specs.Transfers.{kept_hops};
ghost use Rattle.transfer_pack.specs.Packed.{packed};
ghost use Rattle.edition_store.specs.Editions.{EditionData, kept_count};
ghost use Rattle.late_edit.specs.Amended.{amended, trip_named};
ghost use Rattle.late_edit.specs.Amending.{edition_lines};
ghost use Rattle.late_edit.specs.Finding.{MarksNamed};
ghost use Rattle.late_edit.specs.Updates.{IsOfUpdateAlone};
ghost use Rattle.late_edit.specs.Updated.{IsUpdated};
ghost use Rattle.late_edit.specs.Touched.{MarksOthers, touched_count};

use crate::amended_table::amended_by;
use crate::late::LateFault;
use crate::named_trips::{named_marks, named_trips};
use crate::rows::Rows;
use crate::update::Update;
use edition_store::Edition;
use line_split::{Lines, split_again};
use std::alloc::Global;
use tb_base::{Memory, Refused, Timetable};
use transfer_pack::Set;

/// An amended edition, which has no mirror, and how many trips are touched.
#[derive(Drop)]
pub struct Amended {
    pub edition: Edition,
    pub redone: u32,
}

// The set of the kept transfers of a timetable, how many they are, and how many trips are touched.
struct Kept {
    set: Set,
    kept: u64,
    redone: u32,
}

// The kept transfers of a timetable with its lines, in which marked trips may have other events than
// in that of an edition.
fn kept_of(
    alloc: Global,
    old: &Edition,
    table: &Timetable,
    lines: &Lines,
    others: &[bool],
) -> Result<Kept, Memory>
    requires lines { lines.now.table ≡ table.now }
    requires updated { IsUpdated old.now.table table.now }
    requires others { MarksOthers old.now.table table.now others.now }
    ensures table { IfOk result (λ k. k.set.table ≡ table.now) }
    ensures hops { IfOk result (λ k. (t i : ℕ) →
        packed k.set t i ≡ kept_hops table.now lines.now.lines t i) }
    ensures kept { IfOk result (λ k. k.kept ≡ kept_count table.now lines.now.lines) }
    ensures redone { IfOk result (λ k. k.redone ≡ touched_count (edition_lines old.now) lines.now) }
{
    crate::laws::untouched_kept();
    table.soundness();
    lines.soundness();
    let rows = Rows::of(alloc, old, table, lines, others)?;
    let set = Set::rebuild(
        alloc,
        table,
        old.set(),
        rows.touched.as_slice(),
        rows.rows.as_slice(),
    )?;
    Ok(Kept {
        set,
        kept: rows.kept,
        redone: rows.redone,
    })
}

// The edition of a timetable with its lines, in which marked trips may have other events than in
// that of an edition, and how many trips are touched.
fn amended_over(
    alloc: Global,
    old: &Edition,
    table: Timetable,
    lines: Lines,
    others: &[bool],
) -> Result<Amended, Memory>
    requires lines { lines.table ≡ table }
    requires updated { IsUpdated old.now.table table }
    requires others { MarksOthers old.now.table table others.now }
    ensures table { IfOk result (λ a. EditionData.table a.edition ≡ table) }
    ensures redone { IfOk result
        (λ a. a.redone ≡ touched_count (edition_lines old.now) (edition_lines a.edition)) }
    ensures mirror { IfOk result (λ a. EditionData.mirror a.edition ≡ None) }
{
    match kept_of(alloc, old, &table, &lines, others) {
        Ok(Kept { set, kept, redone }) => {
            let edition = Edition::with_set(alloc, table, lines, set, kept)?;
            Ok(Amended { edition, redone })
        }
        Err(Memory) => {
            drop(table);
            drop(lines);
            Err(Memory)
        }
    }
}

// The same by updates that name these trips, which are marked.
fn amend_named(
    alloc: Global,
    old: &Edition,
    updates: &[Update],
    named: &[Option<u32>],
    marks: &[bool],
) -> Result<Amended, Refused<LateFault>>
    requires named { named.now ≡ map (trip_named old.now.table.trips) updates.now }
    requires marks { MarksNamed (length old.now.table.trips) named.now marks.now }
    ensures table { Yields result (λ a. EditionData.table a.edition)
        (amended old.now.table updates.now) }
    ensures own { IfErr result IsOfUpdateAlone }
    ensures redone { IfOk result
        (λ a. a.redone ≡ touched_count (edition_lines old.now) (edition_lines a.edition)) }
    ensures mirror { IfOk result (λ a. EditionData.mirror a.edition ≡ None) }
{
    let table = amended_by(alloc, old.table(), updates, named)?;
    match split_again(alloc, old.table(), old.lines(), &table, marks) {
        Ok(lines) => Ok(amended_over(alloc, old, table, lines, marks)?),
        Err(Memory) => {
            drop(table);
            Err(Refused::Memory)
        }
    }
}

/// The edition of the timetable of an edition, amended by updates, and how many trips are touched by
/// that; or exactly the first fault of an update, and none of a file. It starts no thread and waits for
/// nobody.
pub fn amend(
    alloc: Global,
    old: &Edition,
    updates: &[Update],
) -> Result<Amended, Refused<LateFault>>
    ensures table { Yields result (λ a. EditionData.table a.edition)
        (amended old.now.table updates.now) }
    ensures own { IfErr result IsOfUpdateAlone }
    ensures redone { IfOk result
        (λ a. a.redone ≡ touched_count (edition_lines old.now) (edition_lines a.edition)) }
    ensures mirror { IfOk result (λ a. EditionData.mirror a.edition ≡ None) }
{
    let table = old.table();
    let named = named_trips(alloc, table, updates)?;
    let marks = named_marks(alloc, table.trip_count(), named.as_slice())?;
    let amended = amend_named(alloc, old, updates, named.as_slice(), marks.as_slice());
    drop(marks);
    drop(named);
    amended
}
