use std::marker::Model;
use tb_base::{Leg, Value};

/// A journey that is claimed: its value, and its legs in order.
#[derive(Drop)]
pub struct Claimed {
    pub value: Value,
    pub legs: Vec<Leg>,
}

impl Model for Claimed {
    ghost use Rattle.tb_base.specs.BestValues.{ChoiceData};

    ghost Value = { ChoiceData };

    ghost view = { λ c. record { value = c.value; legs = c.legs.items } };
}

/// Why a text claims no journey, with the number of the line, from 1. In the order in which they
/// are tried at one line.
#[derive(Debug, Clone, Copy, PartialEq, Eq)]
pub enum JourneyFault {
    /// A line is too long, isn't UTF-8, has a word that isn't closed, or has no form of a claim's
    /// line in its place. 0 where no line has a word.
    BadLine(u32),
    /// No stop has a name that the line gives.
    UnknownStop(u32),
    /// No trip has the name and the service day, and calls at the stops at the times, in order.
    NoSuchRide(u32),
    /// More than 1,048,576 bytes.
    TooLong,
}
