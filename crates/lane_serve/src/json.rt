//! What a run gives, as lines of JSON.
ghost use Rattle.std.specs.Prelude.{◌≡◌, ◌++◌, IfOk, OnOk, flat_map, length};
ghost use Rattle.edition_build.specs.OutcomeJson.{amended_json, late_refused_json, outcome_json, outcomes_json, published_json, refused_json};
ghost use Rattle.lane_serve.specs.Json.{answered_json, closing_json, report_json, served_json, served_shown};

use crate::lane::{LaneReport, ReplyText};
use crate::run::Served;
use crate::texts::served_text;
use answer_json::{add_count, add_string};
use answer_text::Text;
use edition_build::{PlanItem, add_outcomes_json};
use std::alloc::Global;
use tb_base::Memory;

// Adds `{"lane":NAME,"request":K,"edition":N,MEMBER}`.
fn add_reply(text: &mut Text, name: &[u8], reply: &ReplyText) -> Result<(), Memory>
    ensures { OnOk result (text.new ≡ text.old ++ answered_json name.now reply.now) }
{
    text.add(b"{\"lane\":")?;
    add_string(text, name)?;
    add_count(text, b"request", reply.line)?;
    add_count(text, b"edition", reply.edition)?;
    text.add(b",")?;
    text.add(reply.text.bytes())?;
    text.add(b"}\n")
}

// Adds one line for each reply of a lane.
fn add_replies(text: &mut Text, name: &[u8], replies: &[ReplyText]) -> Result<(), Memory>
    ensures { OnOk result
        (text.new ≡ text.old ++ flat_map (answered_json name.now) replies.now) }
{
    for reply in replies {
        add_reply(text, name, reply)?;
    }
    Ok(())
}

// Adds the report of a lane.
fn add_report(text: &mut Text, report: &LaneReport) -> Result<(), Memory>
    ensures { OnOk result (text.new ≡ text.old ++ report_json report.now) }
{
    add_replies(text, report.name.bytes(), report.replies.as_slice())
}

// Adds the reports of all lanes.
fn add_reports(text: &mut Text, reports: &[LaneReport]) -> Result<(), Memory>
    ensures { OnOk result (text.new ≡ text.old ++ flat_map report_json reports.now) }
{
    for report in reports {
        add_report(text, report)?;
    }
    Ok(())
}

// Adds `{"closing":N}`.
fn add_closing(text: &mut Text, last: u32) -> Result<(), Memory>
    ensures { OnOk result (text.new ≡ text.old ++ closing_json last) }
{
    text.add(b"{\"closing\":")?;
    text.number(last)?;
    text.add(b"}\n")
}

// What a run gives, as lines of JSON.
fn served_json(alloc: Global, plan: &[PlanItem], served: &Served) -> Result<Vec<u8>, Memory>
    requires { length served.now.outcomes ≡ length plan.now }
    ensures { IfOk result (λ v. v.items ≡ served_json plan.now served.now) }
{
    let mut text = Text::new(alloc);
    add_outcomes_json(&mut text, plan, served.outcomes.as_slice())?;
    add_reports(&mut text, served.lanes.as_slice())?;
    add_closing(&mut text, served.last)?;
    add_reports(&mut text, served.closing.as_slice())?;
    Ok(text.into_bytes())
}

/// What a run gives, as `served_text` shows it, or as lines of JSON: for each item of the plan
/// `{"day":WORD,"edition":N,"trips":N,"lines":N,"kept":N}`, or for a file that amends a day
/// `{"day":WORD,"edition":N,"touched":N,"kept":N}`, or `{"day":WORD,"fault":FAULT}`; for each
/// request of each lane `{"lane":NAME,"request":K,"edition":N,MEMBER}`, the member being that of
/// the reply; `{"closing":N}`; and for each lane the same of its closing replies.
pub fn served_shown(
    alloc: Global,
    json: bool,
    plan: &[PlanItem],
    served: &Served,
) -> Result<Vec<u8>, Memory>
    requires { length served.now.outcomes ≡ length plan.now }
    ensures { IfOk result (λ v. v.items ≡ served_shown json plan.now served.now) }
{
    if json {
        served_json(alloc, plan, served)
    } else {
        served_text(alloc, plan, served)
    }
}
