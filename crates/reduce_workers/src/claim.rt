//! A claim: numbers that its seats draw.
ghost use Rattle.std.specs.Prelude.{◌≡◌, ◌<◌, ◌≤◌, [], ◌∷◌, ◌++◌, All, IfOk, IfSome, MatchOption, map, vec_len};
ghost use Rattle.reduce_workers.specs.Seats.{IsOpen, IsDone, drawn_of, EachOnce};

use crate::rule::{Draws, Hand, Once, Seating};
use crate::seat::ClaimSeat;
use atomic_table::Table;
use std::alloc::Global;
use std::marker::Model;
use std::snapshot::Snapshot;
use tb_base::Memory;

/// A claim: the pieces of some work, by their numbers from 0, of which each is drawn once.
#[derive(Drop)]
pub struct Claim {
    table: Table<u8, Hand, (u32, u32), Once, Global>,
    pieces: u32,
}

impl Model for Claim {
    ghost use Rattle.std.specs.Prelude.{◌≡◌, ◌<◌, ◌≤◌};
    ghost use Rattle.reduce_workers.specs.Seats.{ClaimData};

    ghost Value = { ClaimData };

    ghost view = { λ c. record {
      table = c.table.shared.table_id;
      pieces = c.pieces;
      seats = c.table.shared.key.1;
    } };

    ghost invariant = { λ c.
        (c.table.shared.table_id.words ≡ 1) × (c.table.shared.table_id.slots ≡ 0) ×
        (c.table.shared.key.0 ≡ c.pieces) ×
        (0 < c.table.shared.key.1) × (c.table.shared.key.1 ≤ 64) };
}

/// What all seats of a claim drew, a list for each. It is known to contracts, and takes no room.
#[derive(Drop)]
pub struct Drawn {
    seats: Snapshot<Vec<ClaimSeat>>,
}

impl Model for Drawn {
    ghost use Rattle.std.specs.Prelude.{ℕ, List, map};
    ghost use Rattle.reduce_workers.specs.Seats.{drawn_of};

    ghost Value = { List (List ℕ) };

    ghost view = { λ d. map drawn_of d.seats.value.items };
}

impl Claim {
    /// A claim of so many pieces, and its seats, of which there are at least one and at most 64.
    /// Refused only for want of memory.
    pub fn new(alloc: Global, pieces: u32, seats: u32) -> Result<(Claim, Vec<ClaimSeat>), Memory>
        requires some { 0 < seats }
        requires most { seats ≤ 64 }
        ensures pieces { IfOk result (λ r. r.0.pieces ≡ pieces) }
        ensures seats { IfOk result (λ r. r.0.seats ≡ seats) }
        ensures row { IfOk result (λ r. vec_len r.1 ≡ seats) }
        ensures fresh { IfOk result (λ r. All (IsOpen r.0 []) r.1.items) }
    {
        let mut row = Vec::with_capacity(alloc, seats as usize)?;
        let (table, mut maker) = Table::of_words(alloc, &[0], &(pieces, seats))?;
        let mut made = 0;
        while made < seats {
            row.push_reserved(ClaimSeat {
                seat: table.shared.split_seat::<Seating>(&mut maker),
            });
            made += 1;
        }
        Ok((Claim { table, pieces }, row))
    }

    /// Draws the next piece, which no other draw of any seat gives, or None where all were drawn.
    /// It is one step on one word: it waits for no one, and takes no memory. A seat that has been
    /// answered None draws no more.
    pub fn draw(&self, seat: &mut ClaimSeat) -> Option<u32>
        requires { IsOpen self.now (drawn_of seat.old) seat.old }
        ensures piece { IfSome result (λ n. n < self.now.pieces) }
        ensures rising { IfSome result (λ n. All (λ x. x < n) (drawn_of seat.old)) }
        ensures seat { MatchOption result
            (IsDone self.now seat.new × (drawn_of seat.new ≡ drawn_of seat.old))
            (λ n. IsOpen self.now (drawn_of seat.old ++ n ∷ []) seat.new) }
    {
        let found = self.table.shared.fetch_add::<Draws>(&mut seat.seat, 0, 1);
        if found < u64::from(self.pieces) {
            Some(found as u32)
        } else {
            None
        }
    }

    /// Ends a claim: all its seats have been answered None. Their lists together are all pieces,
    /// each once. Takes no memory, and waits for no one.
    pub fn gather(self, mut seats: Vec<ClaimSeat>) -> Drawn
        requires all { vec_len seats ≡ self.seats }
        requires done { All (IsDone self) seats.items }
        ensures lists { result ≡ map drawn_of seats.items }
        ensures once { EachOnce self.pieces result }
    {
        let all = Snapshot::of(&seats);
        let Claim { table, pieces: _ } = self;
        let Some(last) = seats.pop() else {
            unreachable!()
        };
        let mut gathered = last.into_seat();
        while let Some(seat) = seats.pop() {
            table
                .shared
                .join_seat::<Seating>(&mut gathered, seat.into_seat());
        }
        table.close_with(gathered).free();
        Drawn { seats: all }
    }
}
