//! The records of any text, read by the `csv` crate: one record is filled again and again.
ghost use Rattle.std.specs.Prelude.{◌≡◌, ◌∷◌, [], IfOk, OnErr, MatchBool, ◌≤◌, length, get_or, false, if◌then◌else◌};
ghost use Rattle.csv.specs.Records.{fields_of};
ghost use Rattle.gtfs_rows.specs.Records.{file_records, records_left, RecordPosition, ReadsOn};

use csv::{ByteRecord, Reader, ReaderBuilder};
use std::alloc::Global;
use std::marker::Model;
use tb_base::Memory;

/// A position among the records of a file: the record that was read last, and those that follow it.
#[derive(Drop)]
pub(crate) struct QuotedRecords<'a> {
    reader: Reader<&'a [u8]>,
    record: ByteRecord,
    stopped: bool,
}

impl<'a> Model for QuotedRecords<'a> {
    ghost Value = { RecordPosition };

    ghost view = { λ r. record {
      current = fields_of r.record;
      left = if r.stopped then [] else records_left r.reader;
    } };

    ghost invariant = { λ r. r.stopped ≡ false → ReadsOn r.reader };
}

// Reads the next record, where there is one.
fn take_record(reader: &mut Reader<&[u8]>, row: &mut ByteRecord) -> Result<bool, Memory>
    ensures { ReadsOn reader.old →
        IfOk result
        (λ more. MatchBool more (ReadsOn reader.new
        × (records_left reader.old ≡ fields_of row.new ∷ records_left reader.new))
        (records_left reader.old ≡ [])) }
{
    match reader.read_byte_record(row) {
        Ok(more) => Ok(more),
        Err(_) => Err(Memory),
    }
}

impl<'a> QuotedRecords<'a> {
    /// The position before the first record.
    pub(crate) fn new(alloc: Global, bytes: &'a [u8]) -> QuotedRecords<'a>
        ensures { result.left ≡ file_records bytes.now }
    {
        let reader = ReaderBuilder::new()
            .has_headers(false)
            .flexible(true)
            .from_reader(alloc, bytes);
        QuotedRecords {
            reader,
            record: ByteRecord::new(alloc),
            stopped: false,
        }
    }

    /// As [`crate::Records::advance`].
    pub(crate) fn advance(&mut self) -> Result<bool, Memory>
        ensures fewer { length self.new.left ≤ length self.old.left }
        ensures next { IfOk result
            (λ more. MatchBool more (self.old.left ≡ self.new.current ∷ self.new.left)
            ((self.old.left ≡ []) × (self.new.current ≡ []) × (self.new.left ≡ []))) }
        ensures memory { OnErr result (self.new.left ≡ []) }
    {
        if self.stopped {
            self.record.clear();
            return Ok(false);
        }
        match take_record(&mut self.reader, &mut self.record) {
            Ok(true) => Ok(true),
            Ok(false) => {
                self.stopped = true;
                self.record.clear();
                Ok(false)
            }
            Err(Memory) => {
                self.stopped = true;
                Err(Memory)
            }
        }
    }

    /// How many fields the record has.
    pub(crate) fn len(&self) -> usize
        ensures { result ≡ length self.now.current }
    {
        self.record.len()
    }

    /// A field of the record, empty where it has none there.
    pub(crate) fn field(&self, column: usize) -> &[u8]
        ensures { result.now ≡ get_or self.now.current column [] }
    {
        match self.record.get(column) {
            Some(field) => field,
            None => &[],
        }
    }
}
