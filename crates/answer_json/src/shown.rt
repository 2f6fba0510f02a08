//! What is shown as JSON, or as a text.
ghost use Rattle.std.specs.Prelude.{◌≡◌, ◌<◌, All, IfOk, map};
ghost use Rattle.tb_base.specs.BestValues.{ChoiceData};
ghost use Rattle.tb_base.specs.JourneyRules.{HasNumbers};
ghost use Rattle.answer_text.specs.Builds.{HasTrips};
ghost use Rattle.answer_json.specs.Journeys.{choices_json};
ghost use Rattle.answer_json.specs.declared.frame.Frame.TheVariants as frame;
ghost use Rattle.answer_json.specs.Shown.{shown_arrival, shown_build, shown_build_list, shown_choices, shown_unknown};

use crate::builds::{build_json, build_list_json};
use crate::frame::Frame;
use crate::journeys::{add_choices, arrival_json, unknown_json};
use answer_text::{
    BuildCounts, Text, arrival_text, build_list_text, build_text, choices_text, unknown_text,
};
use std::alloc::Global;
use tb_base::{Choice, Memory, Sec, Timetable, Transfer};

/// An arrival, or that there is no journey.
pub fn shown_arrival(alloc: Global, json: bool, arrival: Option<Sec>) -> Result<Vec<u8>, Memory>
    ensures { IfOk result (λ v. v.items ≡ shown_arrival json arrival) }
{
    if json {
        arrival_json(alloc, arrival)
    } else {
        arrival_text(alloc, arrival)
    }
}

/// That a name is no place.
pub fn shown_unknown(alloc: Global, json: bool, name: &[u8]) -> Result<Vec<u8>, Memory>
    ensures { IfOk result (λ v. v.items ≡ shown_unknown json name.now) }
{
    if json {
        unknown_json(alloc, name)
    } else {
        unknown_text(alloc, name)
    }
}

// Choices as lines of JSON.
fn choices_lines(alloc: Global, table: &Timetable, choices: &[Choice]) -> Result<Vec<u8>, Memory>
    requires { All (λ c. All (HasNumbers table.now) (ChoiceData.legs c)) choices.now }
    ensures { IfOk result (λ v. v.items ≡ choices_json frame.Lines table.now choices.now) }
{
    let mut text = Text::new(alloc);
    add_choices(&mut text, Frame::Lines, table, choices)?;
    Ok(text.into_bytes())
}

/// Choices. The numbers of the legs exist in the timetable, and each ride alights behind where it
/// boards.
pub fn shown_choices(
    alloc: Global,
    json: bool,
    table: &Timetable,
    choices: &[Choice],
) -> Result<Vec<u8>, Memory>
    requires { All (λ c. All (HasNumbers table.now) (ChoiceData.legs c)) choices.now }
    ensures { IfOk result (λ v. v.items ≡ shown_choices json table.now choices.now) }
{
    if json {
        choices_lines(alloc, table, choices)
    } else {
        choices_text(alloc, table, choices)
    }
}

/// What is built of a timetable.
pub fn shown_build(
    alloc: Global,
    json: bool,
    table: &Timetable,
    counts: BuildCounts,
) -> Result<Vec<u8>, Memory>
    ensures { IfOk result (λ v. v.items ≡ shown_build json table.now counts) }
{
    if json {
        build_json(alloc, table, counts)
    } else {
        build_text(alloc, table, counts)
    }
}

/// The same, and behind it the transfers, list after list. The trips exist in the timetable.
pub fn shown_build_list(
    alloc: Global,
    json: bool,
    table: &Timetable,
    counts: BuildCounts,
    lists: &[Vec<Transfer>],
) -> Result<Vec<u8>, Memory>
    requires { All (λ row. All (HasTrips table.now) row.items) lists.now }
    ensures { IfOk result (λ v.
        v.items ≡ shown_build_list json table.now counts (map (λ row. row.items) lists.now)) }
{
    if json {
        build_list_json(alloc, table, counts, lists)
    } else {
        build_list_text(alloc, table, counts, lists)
    }
}
