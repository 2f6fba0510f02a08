//! How the items of a plan are read and built.
ghost use Rattle.std.specs.Prelude.{◌≡◌, ◌+◌, ◌<◌, ◌-◌, ◌^◌, IfErr, IfOk, Some, option_to_list, true};
ghost use Rattle.edition_store.specs.Editions.{EditionData};
ghost use Rattle.late_edit.specs.Amended.{amended};
ghost use Rattle.late_edit.specs.Amending.{edition_lines};
ghost use Rattle.late_edit.specs.Touched.{touched_count};
ghost use Rattle.tb_base.specs.Refusals.{Yields};
ghost use Rattle.tb_base.specs.Workers.{AreWorkers};
ghost use Rattle.edition_build.specs.Plans.{HasDayOutcome, HasLateOutcome, HasMirror, HasOutcome, HasStopped, IsAmendedEdition, IsEditionOfDay, IsGoodBuilding, IsNoDay, IsNotAmended, amended_outcome_of, outcome_of};

use crate::building::{build_edition, build_mirror, build_mirrored};
use crate::plan::{FeedDay, ItemSource, LateFile, Outcome, PlanItem};
use edition_store::{Edition, Shared};
use footpaths::Options;
use late_edit::{Amended, LateFault, LateTaken, Update, amend, take_late};
use std::alloc::Global;
use std::thread::Threads;
use tb_base::{Gate, Memory, Refused, Timetable};
use tb_io::Folder;
use trip_table::{DayFault, read_asked_day};

/// How the items of a plan are read and built: what is said of the footpaths of feeds, how many
/// workers share the reduction of transfers, 1 to 64, and whether editions have their mirrors.
#[derive(Clone, Copy)]
pub struct Building {
    pub options: Options,
    pub workers: u32,
    pub mirrored: bool,
}

/// Why a plan isn't followed to its end.
#[derive(Drop)]
pub enum PlanEnd {
    /// The folder could not be read.
    ReadFault,
    /// Want of memory.
    Memory,
}

/// The outcome of an item, and its edition, where it has one, which is to be published.
#[derive(Drop)]
pub struct Found {
    pub outcome: Outcome,
    pub edition: Option<Shared>,
}

// The edition of a timetable, with its mirror where it is wanted.
fn edition_of<G: Gate, R: Threads + Sync>(
    rt: &R,
    alloc: Global,
    gate: &G,
    building: Building,
    table: Timetable,
) -> Result<Shared, Memory>
    requires { IsGoodBuilding building }
    ensures table { IfOk result (λ e. EditionData.table e ≡ table) }
    ensures mirror { IfOk result (HasMirror building.mirrored) }
{
    if !building.mirrored {
        return build_edition(rt, alloc, table, building.workers, gate);
    }
    match build_mirrored(rt, alloc, table, building.workers, gate) {
        Ok(edition) => Shared::new(alloc, edition),
        Err(Memory) => Err(Memory),
    }
}

/// The edition of a day of a feed, read as the options ask for it, or the fault for which the feed is
/// refused.
pub fn build_day<F: Folder, G: Gate, R: Threads + Sync>(
    rt: &R,
    alloc: Global,
    gate: &G,
    building: Building,
    folder: &mut F,
    feed: &FeedDay,
) -> Result<Shared, DayFault>
    requires building { IsGoodBuilding building }
    requires count { F.faults folder.old < 2 ^ 64 - 1 }
    ensures files { F.files folder.new ≡ F.files folder.old }
    ensures faults { IfOk result (λ _. F.faults folder.new ≡ F.faults folder.old) }
    ensures refused { IfErr result (IsNoDay (F.files folder.old) building.options feed.now
        (F.faults folder.old) (F.faults folder.new)) }
    ensures built { IfOk result (IsEditionOfDay (F.files folder.old) building.options
        building.mirrored feed.now) }
{
    let mut left = Vec::new(alloc);
    let read = read_asked_day(
        alloc,
        folder,
        feed.dir.as_str(),
        &feed.day,
        &building.options,
        &mut left,
    );
    drop(left);
    match read {
        Ok(table) => match edition_of(rt, alloc, gate, building, table) {
            Ok(edition) => {
                edition.edition().soundness();
                Ok(edition)
            }
            Err(Memory) => Err(DayFault::Memory),
        },
        Err(fault) => Err(fault),
    }
}

// An amended edition with the network of its mirror.
fn with_mirror<G: Gate, R: Threads + Sync>(
    rt: &R,
    alloc: Global,
    gate: &G,
    workers: u32,
    edition: Edition,
) -> Result<Edition, Memory>
    requires { AreWorkers workers }
    ensures table { IfOk result (λ e. EditionData.table e ≡ edition.table) }
    ensures lines { IfOk result (λ e. EditionData.lines e ≡ edition.lines) }
    ensures mirror { IfOk result (HasMirror true) }
{
    match build_mirror(rt, alloc, edition.table(), workers, gate) {
        Ok(mirror) => Ok(edition.with_mirror(mirror.into_network())),
        Err(Memory) => {
            drop(edition);
            Err(Memory)
        }
    }
}

// An edition amended by updates, with its mirror where it is wanted.
fn amended_edition<G: Gate, R: Threads + Sync>(
    rt: &R,
    alloc: Global,
    gate: &G,
    building: Building,
    day: &Edition,
    updates: &[Update],
) -> Result<Amended, Refused<LateFault>>
    requires { IsGoodBuilding building }
    ensures table { Yields result (λ a. EditionData.table a.edition)
        (amended day.now.table updates.now) }
    ensures redone { IfOk result
        (λ a. a.redone ≡ touched_count (edition_lines day.now) (edition_lines a.edition)) }
    ensures mirror { IfOk result (λ a. HasMirror building.mirrored a.edition) }
{
    let amended = amend(alloc, day, updates)?;
    if !building.mirrored {
        return Ok(amended);
    }
    let Amended { edition, redone } = amended;
    let edition = with_mirror(rt, alloc, gate, building.workers, edition)?;
    Ok(Amended { edition, redone })
}

// The edition of a day amended by what a file says, or the first fault of the file or of an update.
fn build_amended<F: Folder, G: Gate, R: Threads + Sync>(
    rt: &R,
    alloc: Global,
    gate: &G,
    building: Building,
    folder: &mut F,
    day: &Edition,
    file: &LateFile,
) -> Result<Amended, LateTaken>
    requires building { IsGoodBuilding building }
    requires count { F.faults folder.old < 2 ^ 64 - 1 }
    ensures files { F.files folder.new ≡ F.files folder.old }
    ensures faults { IfOk result (λ _. F.faults folder.new ≡ F.faults folder.old) }
    ensures refused { IfErr result (IsNotAmended (F.files folder.old) day.now.table file.now
        (F.faults folder.old) (F.faults folder.new)) }
    ensures built { IfOk result (λ a. IsAmendedEdition (F.files folder.old) building.mirrored day.now
        file.now a.edition) }
    ensures redone { IfOk result
        (λ a. a.redone ≡ touched_count (edition_lines day.now) (edition_lines a.edition)) }
{
    match take_late(alloc, folder, file.path.as_str()) {
        Ok(updates) => {
            match amended_edition(rt, alloc, gate, building, day, updates.as_slice()) {
                Ok(amended) => {
                    amended.edition.soundness();
                    Ok(amended)
                }
                Err(Refused::Fault(fault)) => Err(LateTaken::Fault(fault)),
                Err(Refused::Memory) => Err(LateTaken::Memory),
            }
        }
        Err(taken) => Err(taken),
    }
}

/// The outcome of a day that is published as the edition of this number.
pub fn outcome_of(number: u32, edition: &Edition) -> Outcome
    ensures { result ≡ outcome_of number edition.now }
{
    Outcome::Published {
        number,
        trips: edition.table().trip_count(),
        lines: edition.lines().count(),
        kept: edition.kept(),
    }
}

// What a day of a feed is found to be, where so many editions were published before.
fn find_day<F: Folder, G: Gate, R: Threads + Sync>(
    rt: &R,
    alloc: Global,
    gate: &G,
    building: Building,
    folder: &mut F,
    before: u32,
    feed: &FeedDay,
) -> Result<Found, PlanEnd>
    requires building { IsGoodBuilding building }
    requires count { F.faults folder.old < 2 ^ 64 - 1 }
    requires room { before < 2 ^ 32 - 1 }
    ensures files { F.files folder.new ≡ F.files folder.old }
    ensures faults { IfOk result (λ _. F.faults folder.new ≡ F.faults folder.old) }
    ensures ended { IfErr result (HasStopped (F.faults folder.old) (F.faults folder.new)) }
    ensures found { IfOk result (λ found. HasDayOutcome (F.files folder.old) building.options
        building.mirrored before feed.now found.outcome (option_to_list found.edition)) }
{
    match build_day(rt, alloc, gate, building, folder, feed) {
        Ok(edition) => Ok(Found {
            outcome: outcome_of(before + 1, edition.edition()),
            edition: Some(edition),
        }),
        Err(DayFault::Feed(fault)) => Ok(Found {
            outcome: Outcome::Refused(fault),
            edition: None,
        }),
        Err(DayFault::ReadFault) => Err(PlanEnd::ReadFault),
        Err(DayFault::Memory) => Err(PlanEnd::Memory),
    }
}

// An amended edition, to be shared, with its outcome.
fn found_amended(alloc: Global, before: u32, amended: Amended) -> Result<Found, Memory>
    requires { before < 2 ^ 32 - 1 }
    ensures edition { IfOk result (λ found. found.edition ≡ Some amended.edition) }
    ensures outcome { IfOk result (λ found. found.outcome ≡ Outcome.Amended (before + 1)
        amended.redone (EditionData.kept amended.edition)) }
{
    let Amended { edition, redone } = amended;
    let kept = edition.kept();
    let edition = Shared::new(alloc, edition)?;
    Ok(Found {
        outcome: Outcome::Amended {
            number: before + 1,
            touched: redone,
            kept,
        },
        edition: Some(edition),
    })
}

// What a file is found to be that amends the edition of the last day, where so many editions were
// published before.
fn find_late<F: Folder, G: Gate, R: Threads + Sync>(
    rt: &R,
    alloc: Global,
    gate: &G,
    building: Building,
    folder: &mut F,
    before: u32,
    day: &Edition,
    file: &LateFile,
) -> Result<Found, PlanEnd>
    requires building { IsGoodBuilding building }
    requires count { F.faults folder.old < 2 ^ 64 - 1 }
    requires room { before < 2 ^ 32 - 1 }
    ensures files { F.files folder.new ≡ F.files folder.old }
    ensures faults { IfOk result (λ _. F.faults folder.new ≡ F.faults folder.old) }
    ensures ended { IfErr result (HasStopped (F.faults folder.old) (F.faults folder.new)) }
    ensures found { IfOk result (λ found. HasLateOutcome (F.files folder.old) building.mirrored
        day.now before file.now found.outcome (option_to_list found.edition)) }
{
    match build_amended(rt, alloc, gate, building, folder, day, file) {
        Ok(amended) => match found_amended(alloc, before, amended) {
            Ok(found) => Ok(found),
            Err(Memory) => Err(PlanEnd::Memory),
        },
        Err(LateTaken::Fault(fault)) => Ok(Found {
            outcome: Outcome::LateRefused(fault),
            edition: None,
        }),
        Err(LateTaken::ReadFault) => Err(PlanEnd::ReadFault),
        Err(LateTaken::Memory) => Err(PlanEnd::Memory),
    }
}

/// What an item is found to be, where so many editions were published before, and the last day
/// among them is this one.
pub fn find_item<F: Folder, G: Gate, R: Threads + Sync>(
    rt: &R,
    alloc: Global,
    gate: &G,
    building: Building,
    folder: &mut F,
    before: u32,
    day: &Edition,
    item: &PlanItem,
) -> Result<Found, PlanEnd>
    requires building { IsGoodBuilding building }
    requires count { F.faults folder.old < 2 ^ 64 - 1 }
    requires room { before < 2 ^ 32 - 1 }
    ensures files { F.files folder.new ≡ F.files folder.old }
    ensures faults { IfOk result (λ _. F.faults folder.new ≡ F.faults folder.old) }
    ensures ended { IfErr result (HasStopped (F.faults folder.old) (F.faults folder.new)) }
    ensures found { IfOk result (λ found. HasOutcome (F.files folder.old) building.options
        building.mirrored (Some day.now) before item.now found.outcome
        (option_to_list found.edition)) }
{
    match &item.source {
        ItemSource::Day(feed) => find_day(rt, alloc, gate, building, folder, before, feed),
        ItemSource::Late(file) => find_late(rt, alloc, gate, building, folder, before, day, file),
    }
}
