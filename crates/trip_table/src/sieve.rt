//! The rows of a file of which bad ones are left out.
ghost use Rattle.std.specs.Prelude.{◌≡◌, ◌≤◌, ◌++◌, ℕ, List, Ok, IfOk, IfSome, OnOk, length, option_map};
ghost use Rattle.gtfs_rows.specs.Columns.{row_limit};
ghost use Rattle.gtfs_rows.specs.RawRows.{typed_rows};
ghost use Rattle.trip_table.specs.Sieves.{Sieves};
ghost use Rattle.trip_table.specs.LeftFeed.{good, sieve_file};

use gtfs_rows::{FeedFault, FeedFile, RowCursor, RowReader, RowsFault, typed_rows};
use std::alloc::Global;
use tb_base::Memory;

// Reads the rows of a file that aren't bad.
#[derive(Drop)]
struct GoodRows<'a, R: RowReader> {
    reader: &'a R,
}

impl<R: RowReader> RowReader for GoodRows<'_, R> {
    type Row = R::Row;

    ghost use Rattle.trip_table.specs.LeftFeed.{good};

    ghost file = { R.file };

    ghost reading = { λ r. good (R.reading r.reader.now) };

    fn file(&self) -> FeedFile {
        self.reader.file()
    }

    fn read(&self, alloc: Global, cursor: &RowCursor) -> Result<Option<R::Row>, RowsFault> {
        match self.reader.read(alloc, cursor) {
            Ok(row) => Ok(row),
            Err(RowsFault::Feed(fault)) => {
                drop(fault);
                Ok(None)
            }
            Err(RowsFault::Memory) => Err(RowsFault::Memory),
        }
    }
}

// Reads what is wrong with the bad rows of a file.
#[derive(Drop)]
struct BadRows<'a, R: RowReader> {
    reader: &'a R,
}

impl<R: RowReader> RowReader for BadRows<'_, R> {
    type Row = FeedFault;

    ghost use Rattle.trip_table.specs.LeftFeed.{bad};

    ghost file = { R.file };

    ghost reading = { λ r. bad (R.reading r.reader.now) };

    fn file(&self) -> FeedFile {
        self.reader.file()
    }

    fn read(&self, alloc: Global, cursor: &RowCursor) -> Result<Option<FeedFault>, RowsFault> {
        match self.reader.read(alloc, cursor) {
            Ok(_) => Ok(None),
            Err(RowsFault::Feed(fault)) => Ok(Some(fault)),
            Err(RowsFault::Memory) => Err(RowsFault::Memory),
        }
    }
}

/// Tells faults after those that were told.
pub fn tell_all(told: &mut Vec<FeedFault>, faults: Vec<FeedFault>) -> Result<(), Memory>
    ensures { OnOk result (told.new.items ≡ told.old.items ++ faults.items) }
{
    let mut faults = faults;
    told.append(&mut faults)?;
    Ok(())
}

/// The typed rows of a file, where it is there, without its bad rows, whose faults are told.
pub fn sieve_file<R: RowReader>(
    alloc: Global,
    reader: &R,
    text: Option<&[u8]>,
    told: &mut Vec<FeedFault>,
) -> Result<Option<Vec<R::Row>>, RowsFault>
    requires { IfSome text (λ bytes. length bytes.now ≤ 1_073_741_824) }
    ensures told { Sieves
        (sieve_file R.file (R.reading reader.now) (option_map (λ bytes. bytes.now) text.entry))
        told.old.items told.new.items result (option_map (λ v. v.items)) }
    ensures good_rows { IfOk result
        (λ rows. IfSome rows
        (λ v.
        (bytes : List ℕ) × (typed_rows R.file (good (R.reading reader.now)) bytes ≡ Ok v.items))) }
    ensures few { IfOk result (λ rows. IfSome rows (λ v. length v.items ≤ row_limit R.file)) }
{
    let Some(bytes) = text else {
        return Ok(None);
    };
    let faults = match typed_rows(alloc, &BadRows { reader }, bytes) {
        Ok(faults) => faults,
        Err(fault) => return Err(fault),
    };
    tell_all(told, faults)?;
    match typed_rows(alloc, &GoodRows { reader }, bytes) {
        Ok(rows) => Ok(Some(rows)),
        Err(fault) => Err(fault),
    }
}
