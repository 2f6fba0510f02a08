//! A thread's place at a claim.
use crate::rule::Hand;
use atomic_table::Seat;
use std::marker::Model;

/// A thread's place at a claim. What it drew is known to contracts, and takes no room.
#[derive(Drop)]
pub struct ClaimSeat {
    pub(crate) seat: Seat<u8, Hand>,
}

impl Model for ClaimSeat {
    ghost use Rattle.std.specs.Prelude.{◌≡◌, []};
    ghost use Rattle.reduce_workers.specs.Seats.{SeatData};

    ghost Value = { SeatData };

    ghost view = { λ s. record { table = s.seat.table_id; hand = s.seat.me.0 } };

    ghost invariant = { λ s. s.seat.me.1 ≡ [] };
}

impl ClaimSeat {
    ghost use Rattle.std.specs.Prelude.{◌≡◌, []};

    // The seat at the claim's table.
    pub(crate) fn into_seat(self) -> Seat<u8, Hand>
        ensures table { result.table_id ≡ self.table }
        ensures me { result.me ≡ (self.hand, []) }
    {
        let ClaimSeat { seat } = self;
        seat
    }
}
