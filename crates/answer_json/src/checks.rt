//! All faults of a feed as JSON, and what is left out for them.
ghost use Rattle.std.specs.Prelude.{◌≡◌, ◌++◌, IfOk, OnOk, flat_map};
ghost use Rattle.answer_json.specs.Checks.{check_json, fault_json_line, left_member, left_members, left_out_json, more_json, more_json_line, shown_check, shown_left_out};

use crate::faults::add_fault;
use crate::strings::{add_count, add_total};
use answer_text::{ALL_FILES, FAULT_NUMBERS, Text, bad_rows, check_text, left_out_text, more_of};
use gtfs_rows::{FeedFault, FeedFile, ToldFaults};
use std::alloc::Global;
use tb_base::Memory;

// Adds faults, each as a line.
fn add_fault_lines(text: &mut Text, faults: &[FeedFault]) -> Result<(), Memory>
    ensures { OnOk result (text.new ≡ text.old ++ flat_map fault_json_line faults.now) }
{
    for fault in faults {
        add_fault(text, fault)?;
        text.add(b"\n")?;
    }
    Ok(())
}

// Adds how many more faults of a number there are, where there are more.
fn add_more(text: &mut Text, number: u8, more: u32) -> Result<(), Memory>
    ensures { OnOk result (text.new ≡ text.old ++ more_json number more) }
{
    if more == 0 {
        return Ok(());
    }
    text.add(b"{\"more\":")?;
    text.number(more)?;
    add_count(text, b"number", u32::from(number))?;
    text.add(b"}\n")
}

// Adds how many more faults of each number there are than are told one by one.
fn add_more_lines(text: &mut Text, told: &ToldFaults, numbers: &[u8]) -> Result<(), Memory>
    ensures { OnOk result (text.new
        ≡ text.old ++ flat_map (more_json_line told.now) numbers.now) }
{
    for number in numbers {
        add_more(text, *number, more_of(told, *number))?;
    }
    Ok(())
}

// All faults of a feed as lines of JSON.
fn check_json(alloc: Global, told: &ToldFaults, count: u64) -> Result<Vec<u8>, Memory>
    ensures { IfOk result (λ v. v.items ≡ check_json told.now count) }
{
    let mut text = Text::new(alloc);
    add_fault_lines(&mut text, told.kept())?;
    add_more_lines(&mut text, told, &FAULT_NUMBERS)?;
    text.add(b"{\"faults\":")?;
    text.count(count)?;
    text.add(b"}\n")?;
    Ok(text.into_bytes())
}

/// The faults that are told one by one, how many more there are of each number, and how many there
/// are of all: one in a line, as JSON or as a text.
pub fn shown_check(
    alloc: Global,
    json: bool,
    told: &ToldFaults,
    count: u64,
) -> Result<Vec<u8>, Memory>
    ensures { IfOk result (λ v. v.items ≡ shown_check json told.now count) }
{
    if json {
        check_json(alloc, told, count)
    } else {
        check_text(alloc, told, count)
    }
}

// Adds how many rows of a file bear faults, where some do.
fn add_left_member(text: &mut Text, file: FeedFile, rows: u64) -> Result<(), Memory>
    ensures { OnOk result (text.new ≡ text.old ++ left_member file rows) }
{
    if rows == 0 {
        return Ok(());
    }
    add_total(text, file.name().as_bytes(), rows)
}

// Adds the same of several files.
fn add_left_members(text: &mut Text, faults: &[FeedFault], files: &[FeedFile]) -> Result<(), Memory>
    ensures { OnOk result (text.new ≡ text.old ++ left_members faults.now files.now) }
{
    for file in files {
        add_left_member(text, *file, bad_rows(faults, *file))?;
    }
    Ok(())
}

// What was left out for these faults, as a line of JSON.
fn left_out_json(alloc: Global, faults: &[FeedFault]) -> Result<Vec<u8>, Memory>
    ensures { IfOk result (λ v. v.items ≡ left_out_json faults.now) }
{
    let mut text = Text::new(alloc);
    if faults.is_empty() {
        return Ok(text.into_bytes());
    }
    text.add(b"{\"message\":\"left out\"")?;
    add_left_members(&mut text, faults, &ALL_FILES)?;
    text.add(b"}\n")?;
    Ok(text.into_bytes())
}

/// The line for standard error where something was left out for these faults, as JSON or as a text:
/// how many rows of each file bear one. Nothing where there is no fault.
pub fn shown_left_out(alloc: Global, json: bool, faults: &[FeedFault]) -> Result<Vec<u8>, Memory>
    ensures { IfOk result (λ v. v.items ≡ shown_left_out json faults.now) }
{
    if json {
        left_out_json(alloc, faults)
    } else {
        left_out_text(alloc, faults)
    }
}
