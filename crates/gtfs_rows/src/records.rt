//! The records of a file, one at a time.
ghost use Rattle.std.specs.Prelude.{◌≡◌, ◌∷◌, [], IfOk, OnErr, MatchBool, ◌≤◌, length, get_or, IsTrue};
ghost use Rattle.csv.specs.Reading.{is_bom, strip_bom};
ghost use Rattle.gtfs_rows.specs.Records.{file_records, RecordPosition};
ghost use Rattle.gtfs_rows.specs.PlainText.{IsUnquoted};
ghost use Rattle.gtfs_rows.specs.Positions.{position_of};

use crate::plain_records::PlainRecords;
use crate::quoted_records::QuotedRecords;
use memchr::memchr;
use std::alloc::Global;
use std::marker::Model;
use tb_base::Memory;

// Where records come from: a file without quotes is cut where it stands.
#[derive(Drop)]
enum Source<'a> {
    Plain(PlainRecords<'a>),
    Quoted(QuotedRecords<'a>),
}

/// A position among the records of a file: the record that was read last, and those that follow it.
#[derive(Drop)]
pub struct Records<'a> {
    source: Source<'a>,
}

impl<'a> Model for Records<'a> {
    ghost Value = { RecordPosition };

    ghost view = { λ r. position_of r.source };
}

fn is_unquoted(bytes: &[u8]) -> bool
    ensures { IsTrue result → IsUnquoted bytes.now }
{
    memchr(b'"', bytes).is_none()
}

fn is_mark(a: u8, b: u8, c: u8) -> bool
    ensures { result ≡ is_bom a b c }
{
    a == 0xEF && b == 0xBB && c == 0xBF
}

// A text without a byte order mark at its start.
fn without_mark(bytes: &[u8]) -> &[u8]
    ensures { result.now ≡ strip_bom bytes.now }
{
    if bytes.len() < 3 {
        return bytes;
    }
    if is_mark(bytes[0], bytes[1], bytes[2]) {
        &bytes[3..]
    } else {
        bytes
    }
}

impl<'a> Records<'a> {
    /// The position before the first record.
    pub fn new(alloc: Global, bytes: &'a [u8]) -> Records<'a>
        ensures { result.left ≡ file_records bytes.now }
    {
        if is_unquoted(bytes) {
            let records = PlainRecords::new(alloc, without_mark(bytes));
            return Records {
                source: Source::Plain(records),
            };
        }
        let records = QuotedRecords::new(alloc, bytes);
        Records {
            source: Source::Quoted(records),
        }
    }

    /// Goes to the next record and answers `true`, or `false` where there is none. After `false` or
    /// `Memory` no record is left.
    pub fn advance(&mut self) -> Result<bool, Memory>
        ensures fewer { length self.new.left ≤ length self.old.left }
        ensures next { IfOk result
            (λ more. MatchBool more (self.old.left ≡ self.new.current ∷ self.new.left)
            ((self.old.left ≡ []) × (self.new.current ≡ []) × (self.new.left ≡ []))) }
        ensures memory { OnErr result (self.new.left ≡ []) }
    {
        match &mut self.source {
            Source::Plain(records) => records.advance(),
            Source::Quoted(records) => records.advance(),
        }
    }

    /// How many fields the record has.
    pub fn len(&self) -> usize
        ensures { result ≡ length self.now.current }
    {
        match &self.source {
            Source::Plain(records) => records.len(),
            Source::Quoted(records) => records.len(),
        }
    }

    /// A field of the record, empty where it has none there.
    pub fn field(&self, column: usize) -> &[u8]
        ensures { result.now ≡ get_or self.now.current column [] }
    {
        match &self.source {
            Source::Plain(records) => records.field(column),
            Source::Quoted(records) => records.field(column),
        }
    }
}
