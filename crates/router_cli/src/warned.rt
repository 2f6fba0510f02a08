//! What the program writes of what is read, but likely not meant.
ghost use Rattle.std.specs.Prelude.{◌≡◌, ◌++◌, IfOk, OnOk};
ghost use Rattle.router_cli.specs.Warnings.{kept_line, kind_shown, more_of, warning_count, warning_counts, warning_details, warning_head, warning_line, warning_name, warning_row, warning_tail, warnings_shown};

use answer_json::{add_count, add_member, add_string, add_total};
use answer_text::Text;
use gtfs_rows::FeedFile;
use std::alloc::Global;
use tb_base::Memory;
use trip_table::Warning;

// How many warnings of a kind are told one by one.
const MOST_TOLD: usize = 10_000;

fn name_of(warning: &Warning) -> &'static [u8]
    ensures { result.now ≡ warning_name warning.now }
{
    match warning {
        Warning::UnknownService(_) => b"UnknownService".as_slice(),
        Warning::NoTrips => b"NoTrips".as_slice(),
        Warning::UnservedStop(_) => b"UnservedStop".as_slice(),
        Warning::Closing(..) => b"Closing".as_slice(),
        Warning::LongHeadway(_) => b"LongHeadway".as_slice(),
    }
}

// Adds how a line begins.
fn add_head(text: &mut Text, json: bool, name: &[u8]) -> Result<(), Memory>
    ensures { OnOk result (text.new ≡ text.old ++ warning_head json name.now) }
{
    if json {
        text.add(b"{\"warning\":")?;
        add_string(text, name)
    } else {
        text.add(b"warning ")?;
        text.add(name)
    }
}

// Adds a row of a file.
fn add_row(text: &mut Text, json: bool, file: FeedFile, row: u32) -> Result<(), Memory>
    ensures { OnOk result (text.new ≡ text.old ++ warning_row json file row) }
{
    if json {
        add_member(text, b"file", file.name().as_bytes())?;
        add_count(text, b"row", row)
    } else {
        text.add(b" ")?;
        text.add(file.name().as_bytes())?;
        text.add(b" row ")?;
        text.number(row)
    }
}

// Adds how many changes closing adds and lowers.
fn add_counts(text: &mut Text, json: bool, added: u64, lowered: u64) -> Result<(), Memory>
    ensures { OnOk result (text.new ≡ text.old ++ warning_counts json added lowered) }
{
    if json {
        add_total(text, b"added", added)?;
        add_total(text, b"lowered", lowered)
    } else {
        text.add(b" added ")?;
        text.count(added)?;
        text.add(b" lowered ")?;
        text.count(lowered)
    }
}

fn add_details(text: &mut Text, json: bool, warning: &Warning) -> Result<(), Memory>
    ensures { OnOk result (text.new ≡ text.old ++ warning_details json warning.now) }
{
    match warning {
        Warning::UnknownService(row) => add_row(text, json, FeedFile::Trips, *row),
        Warning::NoTrips => Ok(()),
        Warning::UnservedStop(row) => add_row(text, json, FeedFile::Stops, *row),
        Warning::Closing(added, lowered) => add_counts(text, json, *added, *lowered),
        Warning::LongHeadway(row) => add_row(text, json, FeedFile::Frequencies, *row),
    }
}

// Adds how a line ends.
fn add_tail(text: &mut Text, json: bool) -> Result<(), Memory>
    ensures { OnOk result (text.new ≡ text.old ++ warning_tail json) }
{
    if json {
        text.add(b"}\n")
    } else {
        text.add(b"\n")
    }
}

// Adds a warning as a line.
fn add_line(text: &mut Text, json: bool, warning: &Warning) -> Result<(), Memory>
    ensures { OnOk result (text.new ≡ text.old ++ warning_line json warning.now) }
{
    add_head(text, json, name_of(warning))?;
    add_details(text, json, warning)?;
    add_tail(text, json)
}

// Adds how many more of a kind there are, where there are more.
fn add_more(text: &mut Text, json: bool, name: &[u8], more: u64) -> Result<(), Memory>
    ensures { OnOk result (text.new ≡ text.old ++ more_of json name.now more) }
{
    if more == 0 {
        return Ok(());
    }
    if json {
        text.add(b"{\"more\":")?;
        text.count(more)?;
        add_member(text, b"warning", name)?;
    } else {
        text.add(b"and ")?;
        text.count(more)?;
        text.add(b" more of ")?;
        text.add(name)?;
    }
    add_tail(text, json)
}

// Adds a warning, unless so many of its kind were told before it that it is only counted.
fn add_kept(text: &mut Text, json: bool, warning: &Warning, count: usize) -> Result<(), Memory>
    ensures { OnOk result (text.new ≡ text.old ++ kept_line json count warning.now) }
{
    if count < MOST_TOLD {
        add_line(text, json, warning)
    } else {
        Ok(())
    }
}

// Adds the warnings of a kind.
fn add_kind(text: &mut Text, json: bool, name: &[u8], warnings: &[Warning]) -> Result<(), Memory>
    ensures { OnOk result (text.new ≡ text.old ++ kind_shown json warnings.now name.now) }
{
    let mut count: usize = 0;
    for warning in warnings {
        if name == name_of(warning) {
            add_kept(text, json, warning, count)?;
            count += 1;
        }
    }
    add_more(text, json, name, count.saturating_sub(MOST_TOLD) as u64)
}

// Adds how many warnings there are.
fn add_number(text: &mut Text, json: bool, count: u64) -> Result<(), Memory>
    ensures { OnOk result (text.new ≡ text.old ++ warning_count json count) }
{
    if json {
        text.add(b"{\"warnings\":")?;
    } else {
        text.add(b"warnings ")?;
    }
    text.count(count)?;
    add_tail(text, json)
}

/// Warnings, kind after kind, each as a line: of a kind the first 10,000, then how many more there
/// are; and at last how many there are of all. As JSON, or as a text.
pub(crate) fn warnings_shown(
    alloc: Global,
    json: bool,
    warnings: &[Warning],
) -> Result<Vec<u8>, Memory>
    ensures { IfOk result (λ v. v.items ≡ warnings_shown json warnings.now) }
{
    let mut text = Text::new(alloc);
    add_kind(&mut text, json, b"UnknownService", warnings)?;
    add_kind(&mut text, json, b"NoTrips", warnings)?;
    add_kind(&mut text, json, b"UnservedStop", warnings)?;
    add_kind(&mut text, json, b"Closing", warnings)?;
    add_kind(&mut text, json, b"LongHeadway", warnings)?;
    add_number(&mut text, json, warnings.len() as u64)?;
    Ok(text.into_bytes())
}
