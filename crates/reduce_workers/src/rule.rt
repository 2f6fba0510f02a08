//! What a seat of a claim knows, and how its steps change that.
use atomic_table::{Join, Play, Split, TableRule};
use std::collections::LinkedList;

/// What a seat knows: how many pieces there are, which it has drawn, how many seats it stands for,
/// and how many of its draws found none left. No value of it is made.
pub struct Hand {
    pub pieces: u32,
    pub drawn: LinkedList<u32>,
    pub seats: u32,
    pub past: u32,
}

/// The rule of a claim, between any two steps.
pub struct Once;

impl TableRule<u8, Hand, (u32, u32)> for Once {
    ghost use Rattle.reduce_workers.specs.Claim.{Ruled, first_hand};

    ghost holds = { Ruled };

    ghost first = { first_hand };
}

/// A draw: what it finds joins what the seat has drawn.
pub struct Draws;

impl Play<u8, Hand> for Draws {
    ghost use Rattle.reduce_workers.specs.Claim.{drew};

    ghost then = { drew };
}

/// A seat is given away before any draw, or taken back with what it has drawn.
pub struct Seating;

impl Split<Hand> for Seating {
    ghost use Rattle.reduce_workers.specs.Claim.{fewer, newcomer};

    ghost left = { fewer };

    ghost right = { newcomer };
}

impl Join<Hand> for Seating {
    ghost use Rattle.reduce_workers.specs.Claim.{together, spent};

    ghost both = { together };

    ghost spent = { spent };
}
