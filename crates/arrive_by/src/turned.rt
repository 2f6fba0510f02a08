//! What was found in the mirror, turned round.
ghost use Rattle.std.specs.Prelude.{◌≡◌, ◌≤ℤ◌, All, IfOk, map, negsuc};
ghost use Rattle.tb_base.specs.BestValues.{ChoiceData};
ghost use Rattle.tb_base.specs.JourneyRules.{HasNumbers};
ghost use Rattle.edition_store.specs.TurnedJourneys.{turn_leg, turn_legs};
ghost use Rattle.arrive_by.specs.Latest.{departure_from};

use crate::departures::Departure;
use edition_store::{Network, mirrored_time};
use segment_queue::Scan;
use std::alloc::Global;
use tb_base::{Choice, Leg, Memory};

// A leg turned round.
fn turned_leg(mirrored: &Network, leg: Leg) -> Leg
    requires { HasNumbers mirrored.now.table leg }
    ensures { result ≡ turn_leg mirrored.now.table leg }
{
    match leg {
        Leg::Walk { from, to, secs } => Leg::Walk {
            from: to,
            to: from,
            secs,
        },
        Leg::Ride {
            trip,
            board,
            alight,
        } => {
            let last = mirrored.last_at(trip);
            Leg::Ride {
                trip,
                board: last - alight,
                alight: last - board,
            }
        }
    }
}

// Legs turned round, the last one first.
fn turned_legs(alloc: Global, mirrored: &Network, legs: &[Leg]) -> Result<Vec<Leg>, Memory>
    requires { All (HasNumbers mirrored.now.table) legs.now }
    ensures { IfOk result (λ v. v.items ≡ turn_legs mirrored.now.table legs.now) }
{
    let mut turned = Vec::new(alloc);
    for i in 0..legs.len() {
        let back = legs.len() - 1 - i;
        turned.push(turned_leg(mirrored, legs[back]))?;
    }
    Ok(turned)
}

// A choice turned round.
fn departure(alloc: Global, mirrored: &Network, choice: &Choice) -> Result<Departure, Memory>
    requires numbers { All (HasNumbers mirrored.now.table) choice.now.legs }
    requires time { negsuc 86399 ≤ℤ choice.now.value.arrive }
    ensures { IfOk result (λ d. d ≡ departure_from mirrored.now.table choice.now) }
{
    Ok(Departure {
        leave: mirrored_time(choice.value.arrive),
        rides: choice.value.rides,
        legs: turned_legs(alloc, mirrored, choice.legs.as_slice())?,
    })
}

/// Choices in the mirror, turned round. Refused only for want of memory.
pub(crate) fn departures(
    alloc: Global,
    mirrored: &Network,
    choices: &[Choice],
) -> Result<Vec<Departure>, Memory>
    requires numbers { All (λ c. All (HasNumbers mirrored.now.table) (ChoiceData.legs c))
        choices.now }
    requires times { All (λ c. negsuc 86399 ≤ℤ (ChoiceData.value c).arrive) choices.now }
    ensures { IfOk result (λ ds. ds.items ≡ map (departure_from mirrored.now.table) choices.now) }
{
    let mut departures = Vec::new(alloc);
    for choice in choices {
        departures.push(departure(alloc, mirrored, choice)?)?;
    }
    Ok(departures)
}
