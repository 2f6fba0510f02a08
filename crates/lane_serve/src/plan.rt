//! A plan whose editions are published one after another.
ghost use Rattle.std.specs.Prelude.{◌≡◌, ◌<◌, ◌≤◌, ◌∷◌, [], ◌++◌, ◌-◌, ◌^◌, IfErr, IfOk, OnOk, Some, length, option_to_list, take};
ghost use Rattle.edition_build.specs.Plans.{AreOutcomes, BeginsPublished, HasStopped, IsGoodBuilding, Takes, day_after, outcome_of};
ghost use Rattle.lane_serve.specs.Sides.{HasTakenSoFar};
ghost use Rattle.edition_build.specs.declared.finding.PlanEnd.TheVariants as ended;

use crate::publishing::Publishes;
use edition_build::{Building, Found, Outcome, PlanEnd, PlanItem, find_item, keep_day, outcome_of};
use edition_store::{Edition, Shared};
use std::alloc::Global;
use std::sync::Wait;
use std::thread::Threads;
use tb_base::{Gate, Memory, Work};
use tb_io::Folder;

/// The outcomes, where the first item alone was published.
pub(crate) fn first_outcome(alloc: Global, edition: &Edition) -> Result<Vec<Outcome>, Memory>
    ensures { IfOk result (λ v. v.items ≡ outcome_of 1 edition.now ∷ []) }
{
    let mut outcomes = Vec::new(alloc);
    outcomes.push(outcome_of(1, edition))?;
    Ok(outcomes)
}

// Publishes the edition of item i. The gate is told just before and right after.
fn publish<P: Publishes, G: Gate, R: Wait>(
    rt: &R,
    gate: &G,
    i: u32,
    edition: Shared,
    publisher: P,
) -> Result<P, Memory>
    requires { length (P.list publisher) < 2 ^ 32 - 1 }
    ensures { IfOk result (λ p. P.list p ≡ P.list publisher ++ edition ∷ []) }
{
    gate.begin(Work::Publication(i));
    let published = publisher.with_edition(rt, edition);
    gate.done(Work::Publication(i));
    published
}

/// Publishes the edition that item i was found to have, where it has one. That of a day is kept as
/// the last day's.
pub(crate) fn publish_found<P: Publishes, G: Gate, R: Wait>(
    rt: &R,
    gate: &G,
    i: u32,
    item: &PlanItem,
    edition: Option<Shared>,
    day: &mut Shared,
    publisher: P,
) -> Result<P, Memory>
    requires { length (P.list publisher) < 2 ^ 32 - 1 }
    ensures list { IfOk result (λ p. P.list p ≡ P.list publisher ++ option_to_list edition) }
    ensures day { OnOk result
        (day_after (Some day.old) item.now.source (option_to_list edition) ≡ Some day.new) }
{
    let Some(edition) = edition else {
        return Ok(publisher);
    };
    match keep_day(&item.source, &edition, day) {
        Ok(()) => publish(rt, gate, i, edition, publisher),
        Err(Memory) => {
            drop(edition);
            publisher.end(rt);
            Err(Memory)
        }
    }
}

// Notes the outcome of an item.
fn add_outcome(outcomes: &mut Vec<Outcome>, outcome: Outcome) -> Result<(), Memory>
    ensures { OnOk result (outcomes.new.items ≡ outcomes.old.items ++ outcome ∷ []) }
{
    outcomes.push(outcome)?;
    Ok(())
}

// Notes the outcome of item i, and publishes its edition, where it has one.
fn take_found<P: Publishes, G: Gate, R: Wait>(
    rt: &R,
    gate: &G,
    i: u32,
    item: &PlanItem,
    found: Found,
    outcomes: &mut Vec<Outcome>,
    day: &mut Shared,
    publisher: P,
) -> Result<P, PlanEnd>
    requires { length (P.list publisher) < 100 }
    ensures list { IfOk result (λ p. P.list p ≡ P.list publisher ++ option_to_list found.edition) }
    ensures outcome { OnOk result
        (outcomes.new.items ≡ outcomes.old.items ++ found.outcome ∷ []) }
    ensures day { OnOk result
        (day_after (Some day.old) item.now.source (option_to_list found.edition) ≡ Some day.new) }
    ensures ended { IfErr result (λ e. e ≡ ended.Memory) }
{
    let Found { outcome, edition } = found;
    if add_outcome(outcomes, outcome).is_err() {
        drop(edition);
        publisher.end(rt);
        return Err(PlanEnd::Memory);
    }
    match publish_found(rt, gate, i, item, edition, day, publisher) {
        Ok(publisher) => Ok(publisher),
        Err(Memory) => Err(PlanEnd::Memory),
    }
}

// Reads, builds and publishes item i, or refuses it.
fn take_item<P: Publishes, F: Folder, G: Gate, R: Threads + Wait + Sync>(
    rt: &R,
    alloc: Global,
    gate: &G,
    building: Building,
    folder: &mut F,
    i: u32,
    item: &PlanItem,
    outcomes: &mut Vec<Outcome>,
    day: &mut Shared,
    publisher: P,
) -> Result<P, PlanEnd>
    requires building { IsGoodBuilding building }
    requires count { F.faults folder.old < 2 ^ 64 - 1 }
    requires room { length (P.list publisher) < 100 }
    ensures files { F.files folder.new ≡ F.files folder.old }
    ensures faults { IfOk result (λ _. F.faults folder.new ≡ F.faults folder.old) }
    ensures ended { IfErr result (HasStopped (F.faults folder.old) (F.faults folder.new)) }
    ensures taken { IfOk result (λ p. Takes (F.files folder.old) building.options
        building.mirrored item.now (P.list publisher) (P.list p) outcomes.old.items
        outcomes.new.items day.old day.new) }
{
    let before = publisher.number();
    match find_item(
        rt,
        alloc,
        gate,
        building,
        folder,
        before,
        day.edition(),
        item,
    ) {
        Ok(found) => take_found(rt, gate, i, item, found, outcomes, day, publisher),
        Err(ended) => {
            publisher.end(rt);
            Err(ended)
        }
    }
}

/// Reads, builds and publishes the plan's further items in order, behind the first one, which is
/// published.
pub(crate) fn publish_rest<P: Publishes, F: Folder, G: Gate, R: Threads + Wait + Sync>(
    rt: &R,
    alloc: Global,
    gate: &G,
    building: Building,
    folder: &mut F,
    plan: &[PlanItem],
    outcomes: &mut Vec<Outcome>,
    day: &mut Shared,
    publisher: P,
) -> Result<P, PlanEnd>
    requires building { IsGoodBuilding building }
    requires count { F.faults folder.old < 2 ^ 64 - 1 }
    requires plan { length plan.now ≤ 100 }
    requires first { HasTakenSoFar (F.files folder.old) building (take 1 plan.now)
        outcomes.old.items (P.list publisher) day.old }
    ensures files { F.files folder.new ≡ F.files folder.old }
    ensures faults { IfOk result (λ _. F.faults folder.new ≡ F.faults folder.old) }
    ensures ended { IfErr result (HasStopped (F.faults folder.old) (F.faults folder.new)) }
    ensures outcomes { IfOk result (λ p. AreOutcomes (F.files folder.old) building.options
        building.mirrored plan.now outcomes.new.items (P.list p)) }
    ensures begins { IfOk result (λ _. BeginsPublished outcomes.new.items) }
{
    let mut publisher = publisher;
    for i in 1..plan.len() {
        publisher = match take_item(
            rt, alloc, gate, building, folder, i as u32, &plan[i], outcomes, day, publisher,
        ) {
            Ok(next) => next,
            Err(ended) => return Err(ended),
        };
    }
    Ok(publisher)
}
