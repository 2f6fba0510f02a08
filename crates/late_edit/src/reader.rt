//! A file of late trips is read line by line.
ghost use Rattle.std.specs.Prelude.{◌≡◌, ◌++◌, ◌≤◌, OnOk, length, option_to_list};
ghost use Rattle.tb_base.specs.Refusals.{Yields};
ghost use Rattle.text_lines.specs.LineWords.{line_words};
ghost use Rattle.late_edit.specs.Updates.{update_on, updates_of};

use crate::late::LateFault;
use crate::update::Update;
use crate::words::update_of;
use std::alloc::Global;
use tb_base::{Memory, Refused};
use text_lines::{first_line, line_words};

// What a line says: nothing where it has no words.
fn update_on(alloc: Global, line: u32, text: &[u8]) -> Result<Option<Update>, Refused<LateFault>>
    ensures { Yields result (λ u. u) (update_on line (line_words text.now)) }
{
    let Some(words) = line_words(alloc, text)? else {
        return Err(Refused::Fault(LateFault::BadLine(line)));
    };
    if words.is_empty() {
        return Ok(None);
    }
    match update_of(alloc, line, words.as_slice())? {
        Some(update) => Ok(Some(update)),
        None => Err(Refused::Fault(LateFault::BadLine(line))),
    }
}

// Adds what a line says.
fn add(updates: &mut Vec<Update>, update: Option<Update>) -> Result<(), Memory>
    ensures { OnOk result (updates.new.items ≡ updates.old.items ++ option_to_list update) }
{
    match update {
        Some(update) => updates.push(update)?,
        None => {}
    }
    Ok(())
}

/// What a file says of trips, in the order of its lines, or exactly its first bad line. The words of
/// a line are those of `line_words`, and a line without words is passed over. Each other one is
/// `late TRIP EVENT SECS`, `cancel TRIP` or `skip TRIP EVENT`, with `day-before`, `day-after` or
/// `day+2` behind it where the trip's service day isn't the date; or `late-before TRIP EVENT SECS`
/// for one of the day before. EVENT has 1 to 9 digits, and SECS too, with a minus sign before them or
/// not.
pub fn read_late(alloc: Global, bytes: &[u8]) -> Result<Vec<Update>, Refused<LateFault>>
    requires { length bytes.now ≤ 33554432 }
    ensures { Yields result (λ updates. updates.items) (updates_of bytes.now) }
{
    let mut updates = Vec::new(alloc);
    let mut line: u32 = 0;
    let mut text = bytes;
    while let Some(cut) = first_line(text) {
        line += 1;
        let update = update_on(alloc, line, cut.line)?;
        add(&mut updates, update)?;
        text = cut.rest;
    }
    Ok(updates)
}
