//! What became of the items of a plan, as lines of text.
ghost use Rattle.std.specs.Prelude.{◌≡◌, ◌++◌, OnOk, length};
ghost use Rattle.edition_build.specs.OutcomeTexts.{amended_text, late_refused_text, outcome_text, outcomes_text, published_text, refused_text};

use crate::late_faults::add_late_fault_text;
use crate::plan::{Outcome, PlanItem};
use answer_text::{Text, fault_text};
use gtfs_rows::FeedFault;
use late_edit::LateFault;
use std::alloc::Global;
use tb_base::Memory;

// Adds `edition N WORD trips N lines N kept N`.
fn add_published(
    text: &mut Text,
    word: &str,
    number: u32,
    trips: u32,
    lines: u32,
    kept: u64,
) -> Result<(), Memory>
    ensures { OnOk result
        (text.new ≡ text.old ++ published_text word.now number trips lines kept) }
{
    text.add(b"edition ")?;
    text.number(number)?;
    text.add(b" ")?;
    text.add(word.as_bytes())?;
    text.add(b" trips ")?;
    text.number(trips)?;
    text.add(b" lines ")?;
    text.number(lines)?;
    text.add(b" kept ")?;
    text.count(kept)?;
    text.add(b"\n")
}

// Adds `refused WORD FAULT`.
fn add_refused(alloc: Global, text: &mut Text, word: &str, fault: &FeedFault) -> Result<(), Memory>
    ensures { OnOk result (text.new ≡ text.old ++ refused_text word.now fault.now) }
{
    text.add(b"refused ")?;
    text.add(word.as_bytes())?;
    text.add(b" ")?;
    text.add(fault_text(alloc, fault)?.as_slice())?;
    text.add(b"\n")
}

// Adds `edition N WORD touched N kept N`.
fn add_amended(
    text: &mut Text,
    word: &str,
    number: u32,
    touched: u32,
    kept: u64,
) -> Result<(), Memory>
    ensures { OnOk result (text.new ≡ text.old ++ amended_text word.now number touched kept) }
{
    text.add(b"edition ")?;
    text.number(number)?;
    text.add(b" ")?;
    text.add(word.as_bytes())?;
    text.add(b" touched ")?;
    text.number(touched)?;
    text.add(b" kept ")?;
    text.count(kept)?;
    text.add(b"\n")
}

// Adds `refused WORD FAULT`, of a file that amends a day.
fn add_late_refused(text: &mut Text, word: &str, fault: LateFault) -> Result<(), Memory>
    ensures { OnOk result (text.new ≡ text.old ++ late_refused_text word.now fault) }
{
    text.add(b"refused ")?;
    text.add(word.as_bytes())?;
    text.add(b" ")?;
    add_late_fault_text(text, fault)?;
    text.add(b"\n")
}

/// Adds the line of the outcome of the item of a word. Refused only for want of memory.
pub fn add_outcome_text(
    alloc: Global,
    text: &mut Text,
    word: &str,
    outcome: &Outcome,
) -> Result<(), Memory>
    ensures { OnOk result (text.new ≡ text.old ++ outcome_text word.now outcome.now) }
{
    match outcome {
        Outcome::Published {
            number,
            trips,
            lines,
            kept,
        } => add_published(text, word, *number, *trips, *lines, *kept),
        Outcome::Refused(fault) => add_refused(alloc, text, word, fault),
        Outcome::Amended {
            number,
            touched,
            kept,
        } => add_amended(text, word, *number, *touched, *kept),
        Outcome::LateRefused(fault) => add_late_refused(text, word, *fault),
    }
}

/// Adds one line for each item. Refused only for want of memory.
pub fn add_outcomes_text(
    alloc: Global,
    text: &mut Text,
    plan: &[PlanItem],
    outcomes: &[Outcome],
) -> Result<(), Memory>
    requires { length outcomes.now ≡ length plan.now }
    ensures { OnOk result (text.new ≡ text.old ++ outcomes_text plan.now outcomes.now) }
{
    for i in 0..plan.len() {
        let item = &plan[i];
        add_outcome_text(alloc, text, item.word.as_str(), &outcomes[i])?;
    }
    Ok(())
}
