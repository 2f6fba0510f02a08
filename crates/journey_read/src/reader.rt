//! Claims are read line by line.
ghost use Rattle.std.specs.Prelude.{◌≡◌, ◌<◌, ◌≤◌, ◌^◌, ◌+◌, ◌-◌, [], IfOk, None, length};
ghost use Rattle.text_lines.specs.LineWords.{line_words};
ghost use Rattle.tb_base.specs.Refusals.{Yields};
ghost use Rattle.tb_base.specs.TimetableData.{TimetableData};
ghost use Rattle.journey_read.specs.Claims.{Reads, ReadsWords, claim_from, claim_of, claim_so_far};
ghost use Rattle.text_lines.specs.Lines.{lines_of};

use crate::claim::{Claimed, JourneyFault};
use crate::indexed_timetable::IndexedTimetable;
use crate::legs::{leg_of, value_of};
use std::alloc::Global;
use std::marker::Model;
use tb_base::{Name, Refused, Timetable};
use text_lines::{first_line, line_words};

/// No claim has more bytes.
pub(crate) const MOST_BYTES: usize = 1_048_576;

// What is read of a claim: how many lines, and the claim so far, once it has begun.
#[derive(Drop)]
struct ClaimReader {
    lines: u32,
    claimed: Option<Claimed>,
}

impl Model for ClaimReader {
    ghost use Rattle.journey_read.specs.Claims.{SoFar};

    ghost Value = { SoFar };

    ghost view = { λ r. record { lines = r.lines; claimed = r.claimed } };
}

// The claim with the next line, whose words these are: its value, or one leg more.
fn claim_with_words(
    alloc: Global,
    table: &IndexedTimetable<'_>,
    line: u32,
    claimed: Option<Claimed>,
    words: &[Name],
) -> Result<Claimed, Refused<JourneyFault>>
    requires { 0 < length words.now }
    ensures { ReadsWords table.now line claimed words.now result }
{
    match claimed {
        Some(claimed) => {
            let mut claimed = claimed;
            let leg = match leg_of(table, line, words) {
                Ok(leg) => leg,
                Err(fault) => return Err(Refused::Fault(fault)),
            };
            match claimed.legs.push(leg) {
                Ok(()) => Ok(claimed),
                Err(_) => Err(Refused::Memory),
            }
        }
        None => match value_of(words) {
            Some(value) => Ok(Claimed {
                value,
                legs: Vec::new(alloc),
            }),
            None => Err(Refused::Fault(JourneyFault::BadLine(line))),
        },
    }
}

impl ClaimReader {
    // With the next line.
    fn take(
        self,
        alloc: Global,
        table: &IndexedTimetable<'_>,
        text: &[u8],
    ) -> Result<ClaimReader, Refused<JourneyFault>>
        requires { self.lines < 2 ^ 32 - 1 }
        ensures reads { Reads table.now self text.now result }
        ensures lines { IfOk result (λ next. next.lines ≡ self.lines + 1) }
    {
        let line = self.lines + 1;
        let Some(words) = line_words(alloc, text)? else {
            return Err(Refused::Fault(JourneyFault::BadLine(line)));
        };
        if words.is_empty() {
            return Ok(ClaimReader {
                lines: line,
                claimed: self.claimed,
            });
        }
        let claimed = match claim_with_words(alloc, table, line, self.claimed, words.as_slice()) {
            Ok(claimed) => claimed,
            Err(refused) => return Err(refused),
        };
        Ok(ClaimReader {
            lines: line,
            claimed: Some(claimed),
        })
    }

    // The claim, at the end of the text.
    fn end(self) -> Result<Claimed, Refused<JourneyFault>>
        ensures { (T : TimetableData) → Yields result (λ c. c) (claim_so_far T self []) }
    {
        match self.claimed {
            Some(claimed) => Ok(claimed),
            None => Err(Refused::Fault(JourneyFault::BadLine(0))),
        }
    }
}

// The claim of the lines of a text.
fn claim_in_lines(
    alloc: Global,
    table: &IndexedTimetable<'_>,
    bytes: &[u8],
) -> Result<Claimed, Refused<JourneyFault>>
    requires { length bytes.now ≤ 1048576 }
    ensures { Yields result (λ c. c) (claim_from table.now 1 (lines_of bytes.now)) }
{
    let mut reader = ClaimReader {
        lines: 0,
        claimed: None,
    };
    let mut text = bytes;
    while let Some(cut) = first_line(text) {
        reader = match reader.take(alloc, table, cut.line) {
            Ok(next) => next,
            Err(refused) => return Err(refused),
        };
        text = cut.rest;
    }
    reader.end()
}

/// The journey that a text claims, or exactly its first fault: bytes in lines, each up to a line
/// feed or the text's end, without a carriage return at its end; what stands behind the last line
/// feed is a line, unless it is empty. The words of a line are those of `line_words`. Lines without
/// words, and those whose first byte is `#`, are passed over. The first other line is `arrive TIME
/// rides N`; each further one `walk STOP STOP SECONDS`, `ride TRIP STOP TIME STOP TIME`, or the
/// latter with `day-before`, `day-after` or `day+2`. A ride is that of the lowest-numbered trip with
/// the name and the service day that these say, the date where none stands there, that calls at the
/// first stop with that departure and later at the second with that arrival; of its events the first
/// such pair counts.
pub fn read_journey(
    alloc: Global,
    table: &Timetable,
    bytes: &[u8],
) -> Result<Claimed, Refused<JourneyFault>>
    ensures claim { Yields result (λ c. c) (claim_of table.now bytes.now) }
    ensures count { IfOk result (λ c. length c.legs < 2 ^ 32) }
{
    if bytes.len() > MOST_BYTES {
        return Err(Refused::Fault(JourneyFault::TooLong));
    }
    let indexed = IndexedTimetable::new(alloc, table)?;
    claim_in_lines(alloc, &indexed, bytes)
}
