//! The rows of a file by the names in its first row.
ghost use Rattle.std.specs.Prelude.{◌≡◌, ◌≤◌, ◌<◌, ◌+◌, ◌^◌, ◌∷◌, [], IfOk, OnErr, MatchBool, length, map, position, bytes_eq, is_none, IsTrue};
ghost use Rattle.std.specs.List.{list_all};
ghost use Rattle.std.specs.Str.{is_utf8};
ghost use Rattle.gtfs_rows.specs.Records.{file_records};
ghost use Rattle.gtfs_rows.specs.Columns.{column_names};
ghost use Rattle.gtfs_rows.specs.RawRows.{IsOpened, cut, cut_start, is_blank, is_empty_record, positions, cell, check_columns, table, RowPosition, row_position};
ghost use Rattle.gtfs_rows.specs.Refused.{AreRowsRefused, Yields};

use crate::{FeedFault, FeedFile, Memory, Records, RowsFault, Spot};
use std::alloc::Global;
use std::marker::Model;
use std::str;

fn is_blank(b: u8) -> bool
    ensures { result ≡ is_blank b }
{
    b == b' ' || b == b'\t'
}

// A text without the spaces and tabs at its start.
fn cut_start(text: &[u8]) -> &[u8]
    ensures { result.now ≡ cut_start text.now }
{
    let mut rest = text;
    while let [first, tail @ ..] = rest {
        if !is_blank(*first) {
            break;
        }
        rest = tail;
    }
    rest
}

// Whether the first and the last byte are past the space, as they mostly are. Then nothing is cut.
fn is_cut(text: &[u8]) -> bool
    ensures { IsTrue result → cut text.now ≡ text.now }
{
    if text.is_empty() {
        return true;
    }
    if text[0] <= b' ' {
        return false;
    }
    if text[text.len() - 1] <= b' ' {
        return false;
    }
    true
}

// A text without the spaces and tabs at both ends.
fn cut(text: &[u8]) -> &[u8]
    ensures { result.now ≡ cut text.now }
{
    if is_cut(text) {
        return text;
    }
    let mut rest = cut_start(text);
    while let [front @ .., last] = rest {
        if !is_blank(*last) {
            break;
        }
        rest = front;
    }
    rest
}

fn is_all_blank(text: &[u8]) -> bool
    ensures { result ≡ list_all is_blank text.now }
{
    text.iter().all(|b| is_blank(*b))
}

// Whether no field of the record has anything but spaces and tabs.
fn is_empty_record(records: &Records) -> bool
    ensures { result ≡ is_empty_record records.now.current }
{
    for i in 0..records.len() {
        if !is_all_blank(records.field(i)) {
            return false;
        }
    }
    true
}

// The position of a name in the header.
fn position_of(head: &Records, name: &[u8]) -> Option<usize>
    ensures { result ≡ position (bytes_eq name.now) (map cut head.now.current) }
{
    for i in 0..head.len() {
        if name == cut(head.field(i)) {
            return Some(i);
        }
    }
    None
}

// The positions of names in the header.
fn positions_of(
    alloc: Global,
    head: &Records,
    names: &[&[u8]],
) -> Result<Vec<Option<usize>>, Memory>
    ensures positions { IfOk result
        (λ v. v.items ≡ positions (map (λ name. name.now) names.now) (map cut head.now.current)) }
    ensures length { IfOk result (λ v. length v.items ≡ length names.now) }
{
    let mut positions = Vec::new(alloc);
    for name in names {
        if positions.push(position_of(head, name)).is_err() {
            return Err(Memory);
        }
    }
    Ok(positions)
}

// The first of some columns that isn't there.
fn first_missing(positions: &[Option<usize>]) -> Option<usize>
    ensures { result ≡ position is_none positions.now }
{
    positions.iter().position(|position| position.is_none())
}

// Whether bytes are text.
fn is_text(bytes: &[u8]) -> bool
    ensures { result ≡ is_utf8 bytes.now }
{
    str::from_utf8(bytes).is_ok()
}

// The position of the first record of a file: an empty one where there is none.
fn first_record<'a>(alloc: Global, bytes: &'a [u8]) -> Result<Records<'a>, Memory>
    ensures first { IfOk result (λ r. IsOpened (file_records bytes.now) r.left r.current) }
    ensures few { IfOk result (λ r. length r.left ≤ length bytes.now + 1) }
{
    let mut records = Records::new(alloc, bytes);
    records.advance()?;
    Ok(records)
}

// The positions of a file's columns in its first row, or the first required column that isn't
// there.
fn columns_of(
    alloc: Global,
    file: FeedFile,
    head: &Records,
) -> Result<Vec<Option<usize>>, RowsFault>
    ensures { Yields AreRowsRefused result (λ v. v.items)
        (check_columns file (map cut head.now.current)
        (positions (column_names file) (map cut head.now.current))) }
{
    let positions = positions_of(alloc, head, file.column_names())?;
    let Some(i) = first_missing(&positions[..file.required_count()]) else {
        return Ok(positions);
    };
    let spot = Spot {
        file,
        row: 1,
        column: i as u8 + 1,
    };
    Err(RowsFault::Feed(FeedFault::MissingColumn(spot)))
}

/// A position among the rows of a file: the row that was read last, and those that follow it.
#[derive(Drop)]
pub struct RowCursor<'a> {
    records: Records<'a>,
    positions: Vec<Option<usize>>,
    row: u32,
}

impl<'a> Model for RowCursor<'a> {
    ghost Value = { RowPosition };

    ghost view = { λ c. row_position c.positions.items c.row c.records };

    ghost invariant = { λ c. c.row + length c.records.left < 2 ^ 32 };
}

impl<'a> RowCursor<'a> {
    /// The position before the first row after the header, in a file that is text and has its
    /// columns.
    pub fn open(alloc: Global, file: FeedFile, bytes: &'a [u8]) -> Result<RowCursor<'a>, RowsFault>
        requires { length bytes.now ≤ 1_073_741_824 }
        ensures { Yields AreRowsRefused result (λ c. c.left) (table file bytes.now) }
    {
        if !is_text(bytes) {
            return Err(RowsFault::Feed(FeedFault::NotUtf8(file)));
        }
        let records = first_record(alloc, bytes)?;
        let positions = columns_of(alloc, file, &records)?;
        Ok(RowCursor {
            records,
            positions,
            row: 1,
        })
    }

    /// Goes to the next row that has anything in it and answers `true`, or `false` where there is
    /// none. After `false` or `Memory` no row is left.
    pub fn advance(&mut self) -> Result<bool, Memory>
        ensures next { IfOk result
            (λ more. MatchBool more (self.old.left ≡ self.new.current ∷ self.new.left)
            ((self.old.left ≡ []) × (self.new.left ≡ []))) }
        ensures memory { OnErr result (self.new.left ≡ []) }
    {
        while self.records.advance()? {
            self.row += 1;
            if !is_empty_record(&self.records) {
                return Ok(true);
            }
        }
        Ok(false)
    }

    /// The row's number: the header is row 1.
    pub fn row(&self) -> u32
        ensures { result ≡ self.now.current.row }
    {
        self.row
    }

    /// The row's cell in a column, which is a number from 1: empty where the row or the header
    /// lacks it.
    pub fn cell(&self, column: u8) -> &[u8]
        requires { 1 ≤ column }
        ensures { result.now ≡ cell self.now.current column }
    {
        match self.positions.get(column as usize - 1) {
            Some(Some(position)) => cut(self.records.field(*position)),
            _ => &[],
        }
    }
}
