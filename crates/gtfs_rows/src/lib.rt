//! The rows of the files of a GTFS feed, typed, as the GTFS Schedule Reference describes them.
//!
//! For each file there is a reader, as [`stop_rows`]. It takes the file's bytes and gives its typed
//! rows in file order, or exactly the file's first fault: bytes that aren't UTF-8, then required
//! columns that the first row lacks, then the first bad row. Records are those of the `csv` crate.
//! Row 1 is the header; columns go by name, of two equal names the first counts. Fields are cut of
//! spaces and tabs at both ends. A row without anything in it is passed over and keeps its number.
//! Want of memory is its own answer, [`RowsFault::Memory`].
//!
//! [`RowCursor`] gives the rows of one file one at a time, and stores none; [`RowReader`] is what a
//! new kind of row needs.
#![tactic(auto)]

mod calendar;
mod civil;
pub mod columns;
mod cursor;
mod dates;
mod fault;
mod fields;
mod file_names;
mod frequencies;
mod numbers;
mod plain_records;
mod quoted_records;
mod records;
mod stops;
mod times;
mod told;
mod transfers;
mod trips;
mod typed;

pub use calendar::{CalendarReader, CalendarRow, calendar_rows};
pub use civil::date_of;
pub use cursor::RowCursor;
pub use dates::{DateReader, DateRow, date_rows};
pub use fault::{FeedFault, FeedFile, Many, RowsFault, Spot};
pub use frequencies::{FrequencyReader, FrequencyRow, frequency_rows};
pub use numbers::{number_of, time_of};
pub use records::Records;
pub use stops::{Kind, StopReader, StopRow, stop_rows};
pub use tb_base::{Memory, Name, Sec};
pub use times::{TimeFields, TimeReader, TimeRow, time_fields, time_rows};
pub use told::ToldFaults;
pub use transfers::{PathRule, TransferReader, TransferRow, transfer_rows};
pub use trips::{TripReader, TripRow, trip_rows};
pub use typed::{RowReader, typed_rows};
