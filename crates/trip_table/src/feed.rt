//! The files of a feed, taken from a folder.
ghost use Rattle.std.specs.Prelude.{◌≡◌, ◌≤◌, ◌<◌, ◌-◌, ◌^◌, ℕ, List, Ok, Some, None, IfOk, IfSome, IsSome, option_map, length, string_bytes};
ghost use Rattle.gtfs_rows.specs.Refused.{AreRowsRefused, Yields};
ghost use Rattle.gtfs_rows.specs.RawRows.{typed_rows};
ghost use Rattle.gtfs_rows.specs.Columns.{row_limit};
ghost use Rattle.gtfs_rows.specs.Faults.{spot};
ghost use Rattle.trip_table.specs.Feed.{path_in, sized, rows_in, file_rows};
ghost use Rattle.trip_table.specs.Answers.{IsDayRefused, Leaves, feed_of};

use crate::DayFault;
use gtfs_rows::{FeedFault, FeedFile, RowReader, RowsFault, Spot, typed_rows};
use std::alloc::Global;
use tb_base::Memory;
use tb_io::{Folder, Taken, take_file};

// The most bytes that a file may have.
const MOST_BYTES: u64 = 1_073_741_824;

/// A place in a file.
pub fn spot(file: FeedFile, row: u32, column: u8) -> Spot
    ensures { result ≡ spot file row column }
{
    Spot { file, row, column }
}

// The path of a file: the directory, a slash and the file's name.
fn path_in(alloc: Global, dir: &str, file: FeedFile) -> Result<String, Memory>
    ensures { IfOk result (λ path. string_bytes path ≡ path_in dir.now file) }
{
    let mut path = String::from_str(alloc, dir)?;
    path.push_str("/")?;
    path.push_str(file.name())?;
    Ok(path)
}

/// The bytes of a file, where it is there.
pub fn take<F: Folder>(
    alloc: Global,
    folder: &mut F,
    dir: &str,
    file: FeedFile,
) -> Result<Option<Vec<u8>>, DayFault>
    requires { F.faults folder.old < 2 ^ 64 - 1 }
    ensures told { IsSome (F.files folder.old) →
        Yields IsDayRefused result (option_map (λ v. v.items))
        (sized file (feed_of (F.files folder.old) dir.now file)) }
    ensures within { IfOk result (λ taken. IfSome taken (λ v. length v.items ≤ 1_073_741_824)) }
    ensures leaves { Leaves (F.files folder.old) (F.files folder.new) (F.faults folder.old)
        (F.faults folder.new) result }
{
    let Ok(path) = path_in(alloc, dir, file) else {
        return Err(DayFault::Memory);
    };
    match take_file(alloc, folder, path.as_str(), MOST_BYTES) {
        Ok(taken) => Ok(taken),
        Err(Taken::TooLarge) => Err(DayFault::Feed(FeedFault::FileTooLarge(file))),
        Err(Taken::ReadFault) => Err(DayFault::ReadFault),
        Err(Taken::Memory) => Err(DayFault::Memory),
    }
}

// The rows in a file's bytes, where it is there.
fn rows_in<R: RowReader>(
    alloc: Global,
    reader: &R,
    bytes: Option<Vec<u8>>,
) -> Result<Option<Vec<R::Row>>, RowsFault>
    requires { IfSome bytes (λ v. length v.items ≤ 1_073_741_824) }
    ensures rows { Yields AreRowsRefused result (option_map (λ v. v.items))
        (rows_in R.file (R.reading reader.now) (option_map (λ v. v.items) bytes)) }
    ensures some_bytes { IfOk result
        (λ rows. IfSome rows
        (λ v. (text : List ℕ) × (typed_rows R.file (R.reading reader.now) text ≡ Ok v.items))) }
    ensures few { IfOk result (λ rows. IfSome rows (λ v. length v.items ≤ row_limit R.file)) }
{
    let Some(bytes) = bytes else {
        return Ok(None);
    };
    match typed_rows(alloc, reader, bytes.as_slice()) {
        Ok(rows) => Ok(Some(rows)),
        Err(fault) => Err(fault),
    }
}

/// The rows of a file, where it is there.
pub fn file_rows<F: Folder, R: RowReader>(
    alloc: Global,
    folder: &mut F,
    dir: &str,
    reader: &R,
) -> Result<Option<Vec<R::Row>>, DayFault>
    requires { F.faults folder.old < 2 ^ 64 - 1 }
    ensures told { IsSome (F.files folder.old) →
        Yields IsDayRefused result (option_map (λ v. v.items))
        (file_rows (feed_of (F.files folder.old) dir.now) R.file (R.reading reader.now)) }
    ensures some_bytes { IfOk result
        (λ rows. IfSome rows
        (λ v. (text : List ℕ) × (typed_rows R.file (R.reading reader.now) text ≡ Ok v.items))) }
    ensures few { IfOk result (λ rows. IfSome rows (λ v. length v.items ≤ row_limit R.file)) }
    ensures leaves { Leaves (F.files folder.old) (F.files folder.new) (F.faults folder.old)
        (F.faults folder.new) result }
{
    let bytes = match take(alloc, folder, dir, reader.file()) {
        Ok(bytes) => bytes,
        Err(fault) => return Err(fault),
    };
    Ok(rows_in(alloc, reader, bytes)?)
}
