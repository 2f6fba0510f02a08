//! The faults that were told.
ghost use Rattle.std.specs.Prelude.{◌≡◌, OnOk, length, slice_index_or};
ghost use Rattle.gtfs_rows.specs.Told.{none_told, tell};

use crate::{FeedFault, Memory};
use std::alloc::Global;
use std::marker::Model;

// How many faults of a number are kept.
const MOST_KEPT: u32 = 10_000;

/// Faults in the order in which they were told: of each number the first 10,000, and how many there
/// were.
#[derive(Drop)]
pub struct ToldFaults {
    kept: Vec<FeedFault>,
    counts: [u32; 24],
}

impl Model for ToldFaults {
    ghost use Rattle.gtfs_rows.specs.Told.{Told};

    ghost Value = { Told };

    ghost view = { λ t. record { kept = t.kept.items; counts = t.counts } };
}

impl ToldFaults {
    /// None was told.
    pub fn new(alloc: Global) -> ToldFaults
        ensures { result ≡ none_told }
    {
        ToldFaults {
            kept: Vec::new(alloc),
            counts: [0; 24],
        }
    }

    /// Tells one more. A count beyond 32 bits is refused as out of memory.
    pub fn tell(&mut self, fault: FeedFault) -> Result<(), Memory>
        ensures { OnOk result (self.new ≡ tell self.old fault) }
    {
        let number = fault.number() as usize;
        let count = self.counts[number];
        let Some(more) = count.checked_add(1) else {
            return Err(Memory);
        };
        if count < MOST_KEPT {
            self.kept.push(fault)?;
        }
        self.counts[number] = more;
        Ok(())
    }

    /// The faults that are kept, in order.
    pub fn kept(&self) -> &[FeedFault]
        ensures { result.now ≡ self.now.kept }
    {
        self.kept.as_slice()
    }

    /// How many faults of a number were told.
    pub fn count(&self, number: u8) -> u32
        ensures { result ≡ slice_index_or self.now.counts number 0 }
    {
        match self.counts.get(number as usize) {
            Some(count) => *count,
            None => 0,
        }
    }
}
