//! What is left of trips.txt where bad rows are left out.
ghost use Rattle.std.specs.Prelude.{◌≤◌, IfSome, length, option_map};
ghost use Rattle.trip_table.specs.LeftFeed.{left_trips};
ghost use Rattle.trip_table.specs.Sieves.{Sieves};

use crate::distinct::without_twins;
use crate::sieve::sieve_file;
use crate::trips::TripRowTable;
use gtfs_rows::{FeedFault, FeedFile, RowsFault, TripReader};
use std::alloc::Global;
use tb_base::HashKey;

/// The rows of trips.txt, without bad rows and those with the id of an earlier one, which are told.
pub fn left_trips(
    alloc: Global,
    key: HashKey,
    text: Option<&[u8]>,
    told: &mut Vec<FeedFault>,
) -> Result<TripRowTable, RowsFault>
    requires { IfSome text (λ bytes. length bytes.now ≤ 1_073_741_824) }
    ensures { Sieves (left_trips (option_map (λ bytes. bytes.now) text.entry)) told.old.items
        told.new.items result (λ x. x) }
{
    let rows = match sieve_file(alloc, &TripReader, text, told) {
        Ok(Some(rows)) => rows,
        Ok(None) => return Err(RowsFault::Feed(FeedFault::MissingFile(FeedFile::Trips))),
        Err(fault) => return Err(fault),
    };
    let kept = without_twins(alloc, key, rows, told)?;
    TripRowTable::new(alloc, key, kept)
}
