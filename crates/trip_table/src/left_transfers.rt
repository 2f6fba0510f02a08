//! What is left of transfers.txt where bad rows are left out.
ghost use Rattle.std.specs.Prelude.{◌≡◌, ◌≤◌, ◌∷◌, ◌++◌, [], IfOk, IfSome, List, MatchOption, Ok, length, option_map};
ghost use Rattle.gtfs_rows.specs.StopsFile.{StopData};
ghost use Rattle.gtfs_rows.specs.TransfersFile.{TransferData};
ghost use Rattle.footpaths.specs.Links.{wrong_transfer};
ghost use Rattle.service_trips.specs.Faults.{first_wrong};
ghost use Rattle.trip_table.specs.LeftFeed.{left_transfers, sift};
ghost use Rattle.trip_table.specs.Sieves.{Sieves, after, ended};
ghost use Rattle.trip_table.specs.Ends.{AreIdsOf, KnowsEnds};

use crate::feed::spot;
use crate::left_stops::known_ids;
use crate::seen::{SeenKeys, SequenceKey};
use crate::sieve::sieve_file;
use footpaths::StopTable;
use gtfs_rows::columns::transfers;
use gtfs_rows::{FeedFault, FeedFile, RowsFault, TransferReader, TransferRow};
use std::alloc::Global;
use tb_base::{Memory, NameIndex};

// What is wrong with a row beside those that were kept, whose ends were seen.
fn transfer_fault(
    ids: &NameIndex,
    seen: &mut SeenKeys,
    row: &TransferRow,
) -> Result<Option<FeedFault>, Memory>
    requires { length ids.now ≤ 100000 }
    ensures { (stops : List StopData) (kept : List TransferData) → AreIdsOf ids.now stops →
        KnowsEnds ids.now seen.old kept →
        IfOk result (λ fault.
        (fault ≡ first_wrong (wrong_transfer stops [] kept row.now))
        × MatchOption fault (KnowsEnds ids.now seen.new (kept ++ row.now ∷ []))
        (λ f. KnowsEnds ids.now seen.new kept)) }
{
    let Some(from) = ids.find(row.from.bytes()) else {
        let at = spot(FeedFile::Transfers, row.row, transfers::FROM_STOP_ID);
        return Ok(Some(FeedFault::UnknownStop(at)));
    };
    let Some(to) = ids.find(row.to.bytes()) else {
        let at = spot(FeedFile::Transfers, row.row, transfers::TO_STOP_ID);
        return Ok(Some(FeedFault::UnknownStop(at)));
    };
    let key = SequenceKey {
        trip_row: from as u32,
        sequence: to as u32,
    };
    if !seen.add(key)? {
        let at = spot(FeedFile::Transfers, row.row, transfers::FROM_STOP_ID);
        return Ok(Some(FeedFault::DuplicateTransfer(at)));
    }
    Ok(None)
}

// The rows that are kept, each beside those that were kept before it; what is wrong with the others
// is told. The ids are those of the stops.
fn sifted(
    alloc: Global,
    stops: &StopTable,
    ids: &NameIndex,
    rows: Vec<TransferRow>,
    told: &mut Vec<FeedFault>,
) -> Result<Vec<TransferRow>, Memory>
    requires ids { AreIdsOf ids.now stops.now }
    requires few { length ids.now ≤ 100000 }
    ensures { IfOk result (λ kept.
        after told.old.items (sift (wrong_transfer stops.now []) [] rows.items)
        ≡ ended told.new.items (Ok kept.items)) }
{
    let mut seen = SeenKeys::new(alloc);
    let mut kept: Vec<TransferRow> = Vec::new(alloc);
    for row in rows {
        match transfer_fault(ids, &mut seen, &row)? {
            None => kept.push(row)?,
            Some(fault) => told.push(fault)?,
        }
    }
    Ok(kept)
}

/// The rows of transfers.txt, none where it isn't there, without bad rows, those that name a stop
/// that isn't there and those between the same two as an earlier one, which are told.
pub fn left_transfers(
    alloc: Global,
    stops: &StopTable,
    text: Option<&[u8]>,
    told: &mut Vec<FeedFault>,
) -> Result<Vec<TransferRow>, RowsFault>
    requires { IfSome text (λ bytes. length bytes.now ≤ 1_073_741_824) }
    ensures { Sieves (left_transfers stops.now (option_map (λ bytes. bytes.now) text.entry))
        told.old.items told.new.items result (λ v. v.items) }
{
    let rows = match sieve_file(alloc, &TransferReader, text, told) {
        Ok(Some(rows)) => rows,
        Ok(None) => Vec::new(alloc),
        Err(fault) => return Err(fault),
    };
    stops.soundness();
    let ids = known_ids(alloc, stops.key(), stops.rows())?;
    let kept = sifted(alloc, stops, &ids, rows, told)?;
    Ok(kept)
}
