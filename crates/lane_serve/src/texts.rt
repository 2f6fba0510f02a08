//! What a run gives, as lines of text.
ghost use Rattle.std.specs.Prelude.{◌≡◌, ◌++◌, IfOk, OnOk, flat_map, length};
ghost use Rattle.edition_build.specs.OutcomeTexts.{amended_text, late_refused_text, outcome_text, outcomes_text, published_text, refused_text};
ghost use Rattle.lane_serve.specs.Texts.{answered_text, closing_text, report_text, served_text};

use crate::lane::{LaneReport, ReplyText};
use crate::run::Served;
use answer_text::Text;
use edition_build::{PlanItem, add_outcomes_text};
use std::alloc::Global;
use tb_base::Memory;

// Adds `K edition N`, and the reply's lines.
fn add_reply(text: &mut Text, reply: &ReplyText) -> Result<(), Memory>
    ensures { OnOk result (text.new ≡ text.old ++ answered_text reply.now) }
{
    text.number(reply.line)?;
    text.add(b" edition ")?;
    text.number(reply.edition)?;
    text.add(b"\n")?;
    text.add(reply.text.bytes())
}

// Adds `lane NAME`, and the replies.
fn add_report(text: &mut Text, report: &LaneReport) -> Result<(), Memory>
    ensures { OnOk result (text.new ≡ text.old ++ report_text report.now) }
{
    text.add(b"lane ")?;
    text.add(report.name.bytes())?;
    text.add(b"\n")?;
    for reply in &report.replies {
        add_reply(text, reply)?;
    }
    Ok(())
}

// Adds the reports of all lanes.
fn add_reports(text: &mut Text, reports: &[LaneReport]) -> Result<(), Memory>
    ensures { OnOk result (text.new ≡ text.old ++ flat_map report_text reports.now) }
{
    for report in reports {
        add_report(text, report)?;
    }
    Ok(())
}

// Adds `closing edition N`.
fn add_closing(text: &mut Text, last: u32) -> Result<(), Memory>
    ensures { OnOk result (text.new ≡ text.old ++ closing_text last) }
{
    text.add(b"closing edition ")?;
    text.number(last)?;
    text.add(b"\n")
}

/// What a run gives, as lines of text. For each item of the plan `edition N WORD trips N lines N
/// kept N`, or for a file that amends a day `edition N WORD touched N kept N`, or `refused WORD
/// FAULT`; for each lane `lane NAME`, and for each of its requests `K
/// edition N`, K being its number from 1, and the reply's lines; then `closing edition N`, and for
/// each lane the same of its closing replies. Its one refusal is want of memory, which may come at
/// any time.
pub fn served_text(alloc: Global, plan: &[PlanItem], served: &Served) -> Result<Vec<u8>, Memory>
    requires { length served.now.outcomes ≡ length plan.now }
    ensures { IfOk result (λ v. v.items ≡ served_text plan.now served.now) }
{
    let mut text = Text::new(alloc);
    add_outcomes_text(alloc, &mut text, plan, served.outcomes.as_slice())?;
    add_reports(&mut text, served.lanes.as_slice())?;
    add_closing(&mut text, served.last)?;
    add_reports(&mut text, served.closing.as_slice())?;
    Ok(text.into_bytes())
}
