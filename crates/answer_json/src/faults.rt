//! Faults as JSON.
ghost use Rattle.std.specs.Prelude.{◌≡◌, ◌++◌, OnOk, codes};
ghost use Rattle.answer_json.specs.Frames.{string_json};
ghost use Rattle.answer_json.specs.Faults.{fault_json, file_json, head_json, line_fault_json, line_json, many_json, row_json, spot_json, two_json};

use crate::strings::{add_count, add_member, add_string};
use answer_text::{Text, column_name, many_text};
use gtfs_rows::{FeedFault, FeedFile, Many, Name, Spot};
use tb_base::Memory;

// Adds the number and the name of a fault.
fn add_head(text: &mut Text, number: u32, name: &[u8]) -> Result<(), Memory>
    ensures { OnOk result (text.new ≡ text.old ++ head_json number name.now) }
{
    text.add(b"{\"number\":")?;
    text.number(number)?;
    add_member(text, b"name", name)
}

// Adds a fault of a file.
fn add_file(text: &mut Text, number: u32, name: &[u8], file: FeedFile) -> Result<(), Memory>
    ensures { OnOk result (text.new
        ≡ text.old ++ (head_json number name.now ++ file_json file)) }
{
    add_head(text, number, name)?;
    add_member(text, b"file", file.name().as_bytes())?;
    text.add(b"}")
}

// Adds a fault at a place.
fn add_spot(text: &mut Text, number: u32, name: &[u8], spot: Spot) -> Result<(), Memory>
    ensures { OnOk result (text.new
        ≡ text.old ++ (head_json number name.now ++ spot_json spot)) }
{
    add_head(text, number, name)?;
    add_member(text, b"file", spot.file.name().as_bytes())?;
    add_count(text, b"row", spot.row)?;
    add_member(text, b"column", column_name(spot))?;
    text.add(b"}")
}

// Adds the row past a limit, unless it is 0.
fn add_row(text: &mut Text, row: u32) -> Result<(), Memory>
    ensures { OnOk result (text.new ≡ text.old ++ row_json row) }
{
    if row == 0 {
        return Ok(());
    }
    add_count(text, b"row", row)
}

// Adds that a quantity is over its limit.
fn add_many(text: &mut Text, number: u32, name: &[u8], many: Many, row: u32) -> Result<(), Memory>
    ensures { OnOk result (text.new
        ≡ text.old ++ (head_json number name.now ++ many_json many row)) }
{
    add_head(text, number, name)?;
    add_member(text, b"quantity", many_text(many).as_bytes())?;
    add_row(text, row)?;
    text.add(b"}")
}

// Adds a fault with the first two of its stops.
fn add_stops(text: &mut Text, number: u32, name: &[u8], p: &Name, q: &Name) -> Result<(), Memory>
    ensures { OnOk result (text.new
        ≡ text.old ++ (head_json number name.now ++ two_json p.now q.now)) }
{
    add_head(text, number, name)?;
    text.add(b",\"stops\":[")?;
    add_string(text, p.bytes())?;
    text.add(b",")?;
    add_string(text, q.bytes())
}

// Adds a fault between two stops.
fn add_two_stops(
    text: &mut Text,
    number: u32,
    name: &[u8],
    p: &Name,
    q: &Name,
) -> Result<(), Memory>
    ensures { OnOk result (text.new
        ≡ text.old ++ (head_json number name.now ++ two_json p.now q.now ++ codes "]}")) }
{
    add_stops(text, number, name, p, q)?;
    text.add(b"]}")
}

// Adds a fault between three stops.
fn add_three_stops(
    text: &mut Text,
    number: u32,
    name: &[u8],
    p: &Name,
    q: &Name,
    r: &Name,
) -> Result<(), Memory>
    ensures { OnOk result (text.new ≡ text.old
        ++ (head_json number name.now ++ two_json p.now q.now ++ codes "," ++ string_json r.now
        ++ codes "]}")) }
{
    add_stops(text, number, name, p, q)?;
    text.add(b",")?;
    add_string(text, r.bytes())?;
    text.add(b"]}")
}

/// Adds a fault of a feed: an object with its `number`, its `name`, and its `file`, `row` and
/// `column`, or its `stops`, or its `quantity` and, unless that is a total of the day, its `row`.
pub fn add_fault(text: &mut Text, fault: &FeedFault) -> Result<(), Memory>
    ensures { OnOk result (text.new ≡ text.old ++ fault_json fault.now) }
{
    match fault {
        FeedFault::MissingFile(file) => add_file(text, 1, b"MissingFile", *file),
        FeedFault::FileTooLarge(file) => add_file(text, 2, b"FileTooLarge", *file),
        FeedFault::NotUtf8(file) => add_file(text, 3, b"NotUtf8", *file),
        FeedFault::MissingColumn(spot) => add_spot(text, 4, b"MissingColumn", *spot),
        FeedFault::BadNumber(spot) => add_spot(text, 5, b"BadNumber", *spot),
        FeedFault::BadTime(spot) => add_spot(text, 6, b"BadTime", *spot),
        FeedFault::BadDate(spot) => add_spot(text, 7, b"BadDate", *spot),
        FeedFault::BadCode(spot) => add_spot(text, 8, b"BadCode", *spot),
        FeedFault::EmptyId(spot) => add_spot(text, 9, b"EmptyId", *spot),
        FeedFault::DuplicateId(spot) => add_spot(text, 10, b"DuplicateId", *spot),
        FeedFault::UnknownStop(spot) => add_spot(text, 11, b"UnknownStop", *spot),
        FeedFault::UnknownTrip(spot) => add_spot(text, 12, b"UnknownTrip", *spot),
        FeedFault::DuplicateSequence(spot) => add_spot(text, 13, b"DuplicateSequence", *spot),
        FeedFault::NoEndTime(spot) => add_spot(text, 14, b"NoEndTime", *spot),
        FeedFault::TimeRunsBack(spot) => add_spot(text, 15, b"TimeRunsBack", *spot),
        FeedFault::NotAPlatform(spot) => add_spot(text, 16, b"NotAPlatform", *spot),
        FeedFault::DuplicateTransfer(spot) => add_spot(text, 17, b"DuplicateTransfer", *spot),
        FeedFault::OpenFootpaths(p, q, r) => add_three_stops(text, 18, b"OpenFootpaths", p, q, r),
        FeedFault::LongFootpath(p, q, r) => add_three_stops(text, 19, b"LongFootpath", p, q, r),
        FeedFault::TooMany(many, row) => add_many(text, 20, b"TooMany", *many, *row),
        FeedFault::FarFootpath(p, q) => add_two_stops(text, 22, b"FarFootpath", p, q),
        FeedFault::BeyondDay(spot) => add_spot(text, 23, b"BeyondDay", *spot),
    }
}

/// Adds a fault of a text in lines, with the line at which it is where it has one:
/// `{"number":N,"name":NAME,"line":N}`.
pub fn add_line_fault(
    text: &mut Text,
    number: u32,
    name: &[u8],
    line: Option<u32>,
) -> Result<(), Memory>
    ensures { OnOk result (text.new ≡ text.old ++ line_fault_json number name.now line) }
{
    add_head(text, number, name)?;
    if let Some(line) = line {
        add_count(text, b"line", line)?;
    }
    text.add(b"}")
}
