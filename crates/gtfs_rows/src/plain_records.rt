//! The records of a text without quotes, cut where its commas and line ends stand.
ghost use Rattle.std.specs.Int.{bit_at, trailing_zeros, w64};
ghost use Rattle.std.specs.Prelude.{◌≡◌, ◌≢◌, ◌≤◌, ◌<◌, ◌+◌, ◌∷◌, ◌++◌, [], ℕ, true, IfOk, IfSome, IfNone, OnOk, OnErr, MatchBool, length, get_or};
ghost use Rattle.gtfs_rows.specs.Records.{RecordPosition};
ghost use Rattle.gtfs_rows.specs.PlainText.{IsUnquoted, is_line_end, skip_line_ends, starts_record, records_of, record_of};
ghost use Rattle.gtfs_rows.specs.Windows.{AreMarks, StandsAt, records_after};

use std::alloc::Global;
use std::marker::Model;
use std::simd::prelude::*;
use tb_base::Memory;

/// A position among the records of a text without quotes: the fields of the record that was read
/// last, as they stand in the text, and the text behind it.
#[derive(Drop)]
pub(crate) struct PlainRecords<'a> {
    fields: Vec<&'a [u8]>,
    rest: &'a [u8],
}

impl<'a> Model for PlainRecords<'a> {
    ghost Value = { RecordPosition };

    ghost view = { λ r. record {
      current = record_of r.fields.items;
      left = records_of r.rest.now;
    } };

    ghost invariant = { λ r. IsUnquoted r.rest.now };
}

fn is_line_end(b: u8) -> bool
    ensures { result ≡ is_line_end b }
{
    b == b'\r' || b == b'\n'
}

// A text without the line ends at its start.
fn skip_line_ends(text: &[u8]) -> &[u8]
    ensures { result.now ≡ skip_line_ends text.now }
{
    let mut rest = text;
    while let [first, tail @ ..] = rest {
        if !is_line_end(*first) {
            break;
        }
        rest = tail;
    }
    rest
}

fn add_field<'a>(fields: &mut Vec<&'a [u8]>, field: &'a [u8]) -> Result<(), Memory>
    ensures { OnOk result
        (record_of fields.new.items ≡ record_of fields.old.items ++ field.now ∷ []) }
{
    if fields.push(field).is_err() {
        return Err(Memory);
    }
    Ok(())
}

// A mark at each of the sixteen bytes from a place on that is no more than a comma.
#[inline(always)]
fn marks_of(text: &[u8], at: usize) -> u64
    requires { at + 16 ≤ length text.now }
    ensures { AreMarks text.now at at result }
{
    u8x16::from_slice(&text[at..])
        .simd_le(u8x16::splat(b','))
        .to_bitmask()
}

// Marks without the first of them.
#[inline(always)]
fn without_first(marks: u64) -> u64
    requires { marks ≢ 0 }
    ensures this { bit_at result (trailing_zeros w64 marks) ≡ 0 }
    ensures others { (k : ℕ) → k < 64 → k ≢ trailing_zeros w64 marks →
        bit_at result k ≡ bit_at marks k }
    ensures fewer { result < marks }
{
    marks & (marks - 1)
}

// Cuts the fields of a record that end within sixteen bytes, and gives the place where the record
// ends, where it does.
#[inline(always)]
fn cut_window<'a>(
    text: &'a [u8],
    at: usize,
    start: &mut usize,
    fields: &mut Vec<&'a [u8]>,
) -> Result<Option<usize>, Memory>
    requires full { at + 16 ≤ length text.now }
    requires unquoted { IsUnquoted text.now }
    requires within { start.old ≤ at }
    requires same { StandsAt text.now (record_of fields.old.items) start.old at }
    ensures within { IfOk result (λ end. IfNone end (start.new ≤ at + 16)) }
    ensures same { IfOk result
        (λ end. IfNone end (StandsAt text.now (record_of fields.new.items) start.new (at + 16))) }
    ensures inside { IfOk result (λ end. IfSome end (λ place. place < length text.now)) }
    ensures cut { IfOk result
        (λ end. IfSome end (λ place.
        records_of text.now ≡ record_of fields.new.items ∷ records_after text.now (place + 1))) }
{
    let mut marks = marks_of(text, at);
    while marks != 0 {
        let place = at + marks.trailing_zeros() as usize;
        let byte = text[place];
        if byte == b',' {
            add_field(fields, &text[*start..place])?;
            *start = place + 1;
        } else if is_line_end(byte) {
            add_field(fields, &text[*start..place])?;
            return Ok(Some(place));
        }
        marks = without_first(marks);
    }
    Ok(None)
}

// Cuts what is left of a record from a place on, byte by byte, and gives the text behind it.
fn cut_tail<'a>(
    text: &'a [u8],
    from: usize,
    first: usize,
    fields: &mut Vec<&'a [u8]>,
) -> Result<&'a [u8], Memory>
    requires unquoted { IsUnquoted text.now }
    requires inside { from ≤ length text.now }
    requires within { first ≤ from }
    requires same { StandsAt text.now (record_of fields.old.items) first from }
    ensures cut { IfOk result
        (λ rest. records_of text.now ≡ record_of fields.new.items ∷ records_of rest.now) }
    ensures unquoted { IfOk result (λ rest. IsUnquoted rest.now) }
{
    let mut start = first;
    let mut at = from;
    while at < text.len() {
        let byte = text[at];
        if byte == b',' {
            add_field(fields, &text[start..at])?;
            start = at + 1;
        } else if is_line_end(byte) {
            add_field(fields, &text[start..at])?;
            return Ok(&text[at + 1..]);
        }
        at += 1;
    }
    add_field(fields, &text[start..])?;
    Ok(&text[text.len()..])
}

// Cuts the record at the start of a text into its fields, and gives the text behind it.
fn cut_record<'a>(text: &'a [u8], fields: &mut Vec<&'a [u8]>) -> Result<&'a [u8], Memory>
    requires unquoted { IsUnquoted text.now }
    requires starts { starts_record text.now ≡ true }
    requires empty { record_of fields.old.items ≡ [] }
    ensures cut { IfOk result
        (λ rest. records_of text.now ≡ record_of fields.new.items ∷ records_of rest.now) }
    ensures unquoted { IfOk result (λ rest. IsUnquoted rest.now) }
{
    let mut start = 0;
    let mut at = 0;
    while text.len() - at >= 16 {
        if let Some(end) = cut_window(text, at, &mut start, fields)? {
            return Ok(&text[end + 1..]);
        }
        at += 16;
    }
    cut_tail(text, at, start, fields)
}

impl<'a> PlainRecords<'a> {
    /// The position before the first record of a text without quotes.
    pub(crate) fn new(alloc: Global, text: &'a [u8]) -> PlainRecords<'a>
        requires { IsUnquoted text.now }
        ensures { result.left ≡ records_of text.now }
    {
        PlainRecords {
            fields: Vec::new(alloc),
            rest: text,
        }
    }

    /// As [`crate::Records::advance`].
    pub(crate) fn advance(&mut self) -> Result<bool, Memory>
        ensures fewer { length self.new.left ≤ length self.old.left }
        ensures next { IfOk result
            (λ more. MatchBool more (self.old.left ≡ self.new.current ∷ self.new.left)
            ((self.old.left ≡ []) × (self.new.current ≡ []) × (self.new.left ≡ []))) }
        ensures memory { OnErr result (self.new.left ≡ []) }
    {
        self.fields.clear();
        let text = skip_line_ends(self.rest);
        self.rest = &[];
        if text.is_empty() {
            return Ok(false);
        }
        self.rest = cut_record(text, &mut self.fields)?;
        Ok(true)
    }

    /// How many fields the record has.
    pub(crate) fn len(&self) -> usize
        ensures { result ≡ length self.now.current }
    {
        self.fields.len()
    }

    /// A field of the record, empty where it has none there.
    pub(crate) fn field(&self, column: usize) -> &[u8]
        ensures { result.now ≡ get_or self.now.current column [] }
    {
        match self.fields.get(column) {
            Some(field) => *field,
            None => &[],
        }
    }
}
