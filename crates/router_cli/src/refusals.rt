//! The line of standard error as JSON, and the end of the program.
ghost use Rattle.std.specs.Prelude.{◌≡◌, ◌++◌, IfOk, OnOk, codes};
ghost use Rattle.answer_json.specs.Faults.{fault_json};
ghost use Rattle.edition_build.specs.LateFaults.{late_fault_json};
ghost use Rattle.std.specs.Process.{exit_status};
ghost use Rattle.router_cli.specs.Outcome.{status_code};
ghost use Rattle.router_cli.specs.Refusals.{end_shown, ending_json, journey_fault_json, refusal_json, script_fault_json, status_head, status_json, status_shown};

use crate::status::{Status, status_text};
use answer_json::{add_fault, add_line_fault, add_member, shown_left_out};
use answer_text::Text;
use edition_build::add_late_fault_json;
use gtfs_rows::FeedFault;
use journey_read::JourneyFault;
use lane_serve::ScriptFault;
use late_edit::LateFault;
use std::alloc::Global;
use std::process::ExitCode;
use std::str;
use tb_base::Memory;

const USAGE: &[u8] =
    b"usage: router [--change SECS] [--station SECS] [--close] [--lenient] [--days N] \
    [--workers N] [--plain] [--lanes N] [--mirror] [--csv] [--json] COMMAND WORDS";

// Adds a fault of a script.
fn add_script_fault(text: &mut Text, fault: ScriptFault) -> Result<(), Memory>
    ensures { OnOk result (text.new ≡ text.old ++ script_fault_json fault) }
{
    match fault {
        ScriptFault::BadLine(line) => add_line_fault(text, 1, b"BadLine", Some(line)),
        ScriptFault::TooManyLanes(line) => add_line_fault(text, 2, b"TooManyLanes", Some(line)),
        ScriptFault::TooManyLines(line) => add_line_fault(text, 3, b"TooManyLines", Some(line)),
        ScriptFault::BadTime(line) => add_line_fault(text, 4, b"BadTime", Some(line)),
        ScriptFault::TooLong => add_line_fault(text, 5, b"TooLong", None),
        ScriptFault::MissingFile => add_line_fault(text, 6, b"MissingFile", None),
    }
}

// Adds a claim's fault.
fn add_journey_fault(text: &mut Text, fault: JourneyFault) -> Result<(), Memory>
    ensures { OnOk result (text.new ≡ text.old ++ journey_fault_json fault) }
{
    match fault {
        JourneyFault::BadLine(line) => add_line_fault(text, 1, b"BadLine", Some(line)),
        JourneyFault::UnknownStop(line) => add_line_fault(text, 2, b"UnknownStop", Some(line)),
        JourneyFault::NoSuchRide(line) => add_line_fault(text, 3, b"NoSuchRide", Some(line)),
        JourneyFault::TooLong => add_line_fault(text, 4, b"TooLong", None),
    }
}

// Adds a status and what it means.
fn add_head(text: &mut Text, number: u32, message: &[u8]) -> Result<(), Memory>
    ensures { OnOk result (text.new ≡ text.old ++ status_head number message.now) }
{
    text.add(b"{\"status\":")?;
    text.number(number)?;
    add_member(text, b"message", message)
}

// Adds the line of a status that says no more.
fn add_ending(text: &mut Text, number: u32, message: &[u8]) -> Result<(), Memory>
    ensures { OnOk result (text.new ≡ text.old ++ ending_json number message.now) }
{
    add_head(text, number, message)?;
    text.add(b"}\n")
}

// Adds that a feed is refused.
fn add_feed_refusal(text: &mut Text, fault: &FeedFault) -> Result<(), Memory>
    ensures { OnOk result
        (text.new ≡ text.old ++ refusal_json 3 (codes "feed refused") (fault_json fault.now)) }
{
    add_head(text, 3, b"feed refused")?;
    text.add(b",\"fault\":")?;
    add_fault(text, fault)?;
    text.add(b"}\n")
}

// Adds that a script is refused.
fn add_script_refusal(text: &mut Text, fault: ScriptFault) -> Result<(), Memory>
    ensures { OnOk result
        (text.new ≡ text.old ++ refusal_json 7 (codes "script refused") (script_fault_json fault)) }
{
    add_head(text, 7, b"script refused")?;
    text.add(b",\"fault\":")?;
    add_script_fault(text, fault)?;
    text.add(b"}\n")
}

// Adds that late trips are refused.
fn add_late_refusal(text: &mut Text, fault: LateFault) -> Result<(), Memory>
    ensures { OnOk result
        (text.new ≡ text.old ++ refusal_json 8 (codes "late refused") (late_fault_json fault)) }
{
    add_head(text, 8, b"late refused")?;
    text.add(b",\"fault\":")?;
    add_late_fault_json(text, fault)?;
    text.add(b"}\n")
}

// Adds that a claim is refused.
fn add_journey_refusal(text: &mut Text, fault: JourneyFault) -> Result<(), Memory>
    ensures { OnOk result (text.new ≡ text.old
        ++ refusal_json 9 (codes "journey refused") (journey_fault_json fault)) }
{
    add_head(text, 9, b"journey refused")?;
    text.add(b",\"fault\":")?;
    add_journey_fault(text, fault)?;
    text.add(b"}\n")
}

// Adds the line for standard error.
fn add_status(text: &mut Text, status: &Status) -> Result<(), Memory>
    ensures { OnOk result (text.new ≡ text.old ++ status_json status.now) }
{
    match status {
        Status::Done | Status::FaultsFound => Ok(()),
        Status::Usage => add_ending(text, 2, USAGE),
        Status::FeedRefused(fault) => add_feed_refusal(text, fault),
        Status::ReadFault => add_ending(text, 4, b"read fault"),
        Status::WriteFault => add_ending(text, 5, b"write fault"),
        Status::Memory => add_ending(text, 6, b"out of memory"),
        Status::ScriptRefused(fault) => add_script_refusal(text, *fault),
        Status::LateRefused(fault) => add_late_refusal(text, *fault),
        Status::JourneyRefused(fault) => add_journey_refusal(text, *fault),
    }
}

// The line for standard error as JSON. Nothing for `Done` and `FaultsFound`.
fn status_json(alloc: Global, status: &Status) -> Result<Vec<u8>, Memory>
    ensures { IfOk result (λ v. v.items ≡ status_json status.now) }
{
    let mut text = Text::new(alloc);
    add_status(&mut text, status)?;
    Ok(text.into_bytes())
}

/// The line for standard error with its end of line, as JSON or as a text. Nothing for `Done` and
/// `FaultsFound`.
pub fn status_shown(alloc: Global, json: bool, status: &Status) -> Result<Vec<u8>, Memory>
    ensures { IfOk result (λ v. v.items ≡ status_shown json status.now) }
{
    if json {
        status_json(alloc, status)
    } else {
        status_text(alloc, status)
    }
}

/// What is written to standard error, as JSON or as a text: with `Done` what was left out for these
/// faults of the feed, and nothing where there are none; else the line of the status.
pub fn end_shown(
    alloc: Global,
    json: bool,
    left_out: &[FeedFault],
    status: &Status,
) -> Result<Vec<u8>, Memory>
    ensures { IfOk result (λ v. v.items ≡ end_shown json left_out.now status.now) }
{
    match status {
        Status::Done => shown_left_out(alloc, json, left_out),
        _ => status_shown(alloc, json, status),
    }
}

/// Writes to standard error, as JSON or as a text, how the program ended, and with an answer what
/// was left out for these faults of the feed; and gives the number to end with. Where there is no
/// memory for the line, or standard error fails, nothing is said. The number is in the clause; what
/// is written is in none.
pub fn end(
    rt: &(impl Eprint + AllocGlobal),
    json: bool,
    left_out: &[FeedFault],
    status: Status,
) -> ExitCode
    ensures { exit_status result ≡ status_code status }
{
    if let Ok(line) = end_shown(rt.alloc(), json, left_out, &status) {
        if let Ok(text) = str::from_utf8(line.as_slice()) {
            let _ = eprint!(rt; "{text}");
        }
    }
    ExitCode::from(status.code())
}
