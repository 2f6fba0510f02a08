ghost use Rattle.std.specs.Prelude.{◌≡◌};

use history::{Front, Naming};
use std::marker::Model;

/// A thing, its number, from 1, and the beginning of the history that ends with it.
#[derive(Drop)]
pub struct Handed<T: Drop, J: Naming> {
    pub(crate) number: u64,
    pub(crate) item: T,
    pub(crate) front: Front<T, J>,
}

impl<T: Drop, J: Naming> Model for Handed<T, J> {
    ghost use Rattle.live_turns.specs.Handed.{HandedData, IsLast};

    ghost Value = { HandedData T };

    ghost view = { λ h. record { number = h.number; item = h.item; all = h.front.list } };

    ghost invariant = { λ h. IsLast h.front.list h.number h.item };
}
