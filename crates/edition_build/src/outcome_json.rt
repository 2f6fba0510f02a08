//! What became of the items of a plan, as lines of JSON.
ghost use Rattle.std.specs.Prelude.{◌≡◌, ◌++◌, OnOk, length};
ghost use Rattle.edition_build.specs.OutcomeJson.{amended_json, late_refused_json, outcome_json, outcomes_json, published_json, refused_json};

use crate::late_faults::add_late_fault_json;
use crate::plan::{Outcome, PlanItem};
use answer_json::{add_count, add_fault, add_string, add_total};
use answer_text::Text;
use gtfs_rows::FeedFault;
use late_edit::LateFault;
use tb_base::Memory;

// Adds `{"day":WORD,"edition":N,"trips":N,"lines":N,"kept":N}`.
fn add_published(
    text: &mut Text,
    word: &str,
    number: u32,
    trips: u32,
    lines: u32,
    kept: u64,
) -> Result<(), Memory>
    ensures { OnOk result
        (text.new ≡ text.old ++ published_json word.now number trips lines kept) }
{
    text.add(b"{\"day\":")?;
    add_string(text, word.as_bytes())?;
    add_count(text, b"edition", number)?;
    add_count(text, b"trips", trips)?;
    add_count(text, b"lines", lines)?;
    add_total(text, b"kept", kept)?;
    text.add(b"}\n")
}

// Adds `{"day":WORD,"fault":FAULT}`.
fn add_refused(text: &mut Text, word: &str, fault: &FeedFault) -> Result<(), Memory>
    ensures { OnOk result (text.new ≡ text.old ++ refused_json word.now fault.now) }
{
    text.add(b"{\"day\":")?;
    add_string(text, word.as_bytes())?;
    text.add(b",\"fault\":")?;
    add_fault(text, fault)?;
    text.add(b"}\n")
}

// Adds `{"day":WORD,"edition":N,"touched":N,"kept":N}`.
fn add_amended(
    text: &mut Text,
    word: &str,
    number: u32,
    touched: u32,
    kept: u64,
) -> Result<(), Memory>
    ensures { OnOk result (text.new ≡ text.old ++ amended_json word.now number touched kept) }
{
    text.add(b"{\"day\":")?;
    add_string(text, word.as_bytes())?;
    add_count(text, b"edition", number)?;
    add_count(text, b"touched", touched)?;
    add_total(text, b"kept", kept)?;
    text.add(b"}\n")
}

// Adds `{"day":WORD,"fault":FAULT}`, of a file that amends a day.
fn add_late_refused(text: &mut Text, word: &str, fault: LateFault) -> Result<(), Memory>
    ensures { OnOk result (text.new ≡ text.old ++ late_refused_json word.now fault) }
{
    text.add(b"{\"day\":")?;
    add_string(text, word.as_bytes())?;
    text.add(b",\"fault\":")?;
    add_late_fault_json(text, fault)?;
    text.add(b"}\n")
}

/// Adds the line of the outcome of the item of a word. Refused only for want of memory.
pub fn add_outcome_json(text: &mut Text, word: &str, outcome: &Outcome) -> Result<(), Memory>
    ensures { OnOk result (text.new ≡ text.old ++ outcome_json word.now outcome.now) }
{
    match outcome {
        Outcome::Published {
            number,
            trips,
            lines,
            kept,
        } => add_published(text, word, *number, *trips, *lines, *kept),
        Outcome::Refused(fault) => add_refused(text, word, fault),
        Outcome::Amended {
            number,
            touched,
            kept,
        } => add_amended(text, word, *number, *touched, *kept),
        Outcome::LateRefused(fault) => add_late_refused(text, word, *fault),
    }
}

/// Adds one line for each item. Refused only for want of memory.
pub fn add_outcomes_json(
    text: &mut Text,
    plan: &[PlanItem],
    outcomes: &[Outcome],
) -> Result<(), Memory>
    requires { length outcomes.now ≡ length plan.now }
    ensures { OnOk result (text.new ≡ text.old ++ outcomes_json plan.now outcomes.now) }
{
    for i in 0..plan.len() {
        let item = &plan[i];
        add_outcome_json(text, item.word.as_str(), &outcomes[i])?;
    }
    Ok(())
}
