//! The latest departures as a text.
ghost use Rattle.std.specs.Prelude.{◌≡◌, ◌++◌, All, IfOk, OnOk};
ghost use Rattle.tb_base.specs.JourneyRules.{HasNumbers};
ghost use Rattle.arrive_by.specs.Latest.{DepartureData};
ghost use Rattle.arrive_by.specs.Text.{departure_text, departures_text};

use crate::departures::Departure;
use answer_text::{NO_JOURNEY, Text};
use std::alloc::Global;
use tb_base::{Memory, Timetable};

// Adds the lines of a departure.
fn add_departure(text: &mut Text, table: &Timetable, departure: &Departure) -> Result<(), Memory>
    requires { All (HasNumbers table.now) departure.now.legs }
    ensures { OnOk result (text.new ≡ text.old ++ departure_text table.now departure.now) }
{
    text.add(b"leave ")?;
    text.time(departure.leave)?;
    text.add(b" rides ")?;
    text.number(departure.rides)?;
    text.add(b"\n")?;
    text.legs(table, departure.legs.as_slice())
}

/// Each departure as `leave TIME rides N` and its legs, or `no journey` where there is none. The
/// numbers of the legs exist in the timetable, and each ride alights behind where it boards.
pub fn departures_text(
    alloc: Global,
    table: &Timetable,
    list: &[Departure],
) -> Result<Vec<u8>, Memory>
    requires { All (λ d. All (HasNumbers table.now) (DepartureData.legs d)) list.now }
    ensures { IfOk result (λ v. v.items ≡ departures_text table.now list.now) }
{
    let mut text = Text::new(alloc);
    if list.is_empty() {
        text.add(NO_JOURNEY)?;
    }
    for departure in list {
        add_departure(&mut text, table, departure)?;
    }
    Ok(text.into_bytes())
}
