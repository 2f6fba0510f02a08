use std::marker::Model;
use tb_base::{Leg, Sec, StopNo};

/// A question for the journeys from one of the origins to one of the targets that arrive by a time.
#[derive(Drop)]
pub struct Arrival {
    pub from: Vec<StopNo>,
    pub to: Vec<StopNo>,
    /// In seconds since noon minus twelve hours.
    pub by: Sec,
}

impl Model for Arrival {
    ghost use Rattle.edition_store.specs.Departures.{ArrivalData};

    ghost Value = { ArrivalData };

    ghost view = { λ a. record { from = a.from.items; to = a.to.items; by = a.by } };
}

/// When one leaves, with how many rides, and the legs of a journey that does so.
#[derive(Drop)]
pub struct Departure {
    /// In seconds since noon minus twelve hours.
    pub leave: Sec,
    pub rides: u32,
    pub legs: Vec<Leg>,
}

impl Model for Departure {
    ghost use Rattle.arrive_by.specs.Latest.{DepartureData};

    ghost Value = { DepartureData };

    ghost view = { λ d. record { leave = d.leave; rides = d.rides; legs = d.legs.items } };
}
