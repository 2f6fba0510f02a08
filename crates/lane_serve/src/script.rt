//! Scripts.
ghost use Rattle.std.specs.Prelude.{◌≡◌, ◌<◌, ◌^◌, ◌+◌, ◌-◌, [], IfOk, IfSome, OnErr, OnOk, length};
ghost use Rattle.std.specs.Option.{option_and_then};
ghost use Rattle.text_lines.specs.LineWords.{line_words};
ghost use Rattle.tb_base.specs.Refusals.{Yields};
ghost use Rattle.query_gate.specs.Said.{IsAskable, SaysTimes, said_of};
ghost use Rattle.lane_serve.specs.Script.{IsScript, after_lane, after_line, after_request, after_said, any_needs_mirror, at_end, needs_mirrors, script_of, with_request};

use query_gate::{Line, Said, said_of};
use std::alloc::Global;
use std::marker::Model;
use tb_base::{Memory, Name, Refused};
use text_lines::{first_line, line_words};

const MOST_BYTES: usize = 33_554_432;

const MOST_LANES: usize = 64;

const MOST_REQUESTS: u32 = 20_000;

/// A lane: its name, and its requests in order.
#[derive(Drop)]
pub struct Lane {
    pub name: Name,
    pub lines: Vec<Line>,
}

impl Model for Lane {
    ghost use Rattle.lane_serve.specs.Script.{LaneData};

    ghost Value = { LaneData };

    ghost view = { λ l. record { name = l.name; lines = l.lines.items } };
}

impl Lane {
    // Whether one of its requests is answered by the mirror of an edition.
    fn needs_mirror(&self) -> bool
        ensures { result ≡ any_needs_mirror self.now.lines }
    {
        self.lines.iter().any(|line| line.question.needs_mirror())
    }
}

/// A script: its lanes in order.
#[derive(Drop)]
pub struct Script {
    pub lanes: Vec<Lane>,
}

impl Model for Script {
    ghost use Rattle.std.specs.Prelude.{List};
    ghost use Rattle.lane_serve.specs.Script.{LaneData};

    ghost Value = { List LaneData };

    ghost view = { λ s. s.lanes.items };
}

impl Script {
    // Whether one of its requests is answered by the mirror of an edition.
    pub(crate) fn needs_mirrors(&self) -> bool
        ensures { result ≡ needs_mirrors self.now }
    {
        self.lanes.iter().any(|lane| lane.needs_mirror())
    }
}

/// What is wrong with a script, with the number of the line, from 1. In the order in which they are
/// tried at one line.
#[derive(Debug, Clone, Copy, PartialEq, Eq)]
pub enum ScriptFault {
    /// A line is too long, isn't UTF-8, has a word that isn't closed, or has no form of a script's
    /// line; or it is a request before the first lane. 0 where there is no lane.
    BadLine(u32),
    /// The 65th lane.
    TooManyLanes(u32),
    /// The 20,001st request.
    TooManyLines(u32),
    /// A time isn't one.
    BadTime(u32),
    /// More than 33,554,432 bytes.
    TooLong,
    /// The file of origins isn't there. A script has no such fault.
    MissingFile,
}

// A reader of a script: whether its replies are wanted as JSON, how many lines and requests it has
// read, and the lanes so far.
#[derive(Drop)]
struct ScriptReader {
    alloc: Global,
    json: bool,
    lines: u32,
    requests: u32,
    lanes: Vec<Lane>,
}

impl Model for ScriptReader {
    ghost use Rattle.std.specs.Prelude.{◌≡◌};
    ghost use Rattle.lane_serve.specs.Script.{IsWithinLimits, SoFar, request_count};

    ghost Value = { SoFar };

    ghost view = { λ r. record {
      json = r.json;
      lines = r.lines;
      requests = r.requests;
      lanes = r.lanes.items;
    } };

    ghost invariant = { λ r. (r.requests ≡ request_count r.lanes.items)
        × IsWithinLimits r.lanes.items };
}

// Adds a request to the last lane.
fn add_request(lanes: &mut Vec<Lane>, request: Line) -> Result<(), Memory>
    requires { 0 < length lanes.old.items }
    ensures ok { OnOk result (lanes.new.items ≡ with_request request lanes.old.items) }
    ensures refused { OnErr result (lanes.new.items ≡ lanes.old.items) }
{
    let last = lanes.len() - 1;
    lanes[last].lines.push(request)?;
    Ok(())
}

impl ScriptReader {
    // A reader at the start of a script.
    fn new(alloc: Global, json: bool) -> ScriptReader
        ensures { result ≡ record { json = json; lines = 0; requests = 0; lanes = [] } }
    {
        ScriptReader {
            alloc,
            json,
            lines: 0,
            requests: 0,
            lanes: Vec::new(alloc),
        }
    }

    // A line that begins a lane.
    fn take_lane(&mut self, line: u32, name: Name) -> Result<(), Refused<ScriptFault>>
        ensures reads { Yields result (λ _. self.new) (after_lane self.old line name) }
        ensures lines { OnOk result (self.new.lines ≡ line) }
    {
        if self.lanes.len() >= MOST_LANES {
            return Err(Refused::Fault(ScriptFault::TooManyLanes(line)));
        }
        let lines = Vec::new(self.alloc);
        if self.lanes.push(Lane { name, lines }).is_err() {
            return Err(Refused::Memory);
        }
        self.lines = line;
        Ok(())
    }

    // A line that is a request.
    fn take_request(&mut self, line: u32, request: Option<Line>) -> Result<(), Refused<ScriptFault>>
        requires { IfSome request IsAskable }
        ensures reads { Yields result (λ _. self.new) (after_request self.old line request) }
        ensures lines { OnOk result (self.new.lines ≡ line) }
    {
        if self.lanes.is_empty() {
            drop(request);
            return Err(Refused::Fault(ScriptFault::BadLine(line)));
        }
        if self.requests >= MOST_REQUESTS {
            drop(request);
            return Err(Refused::Fault(ScriptFault::TooManyLines(line)));
        }
        let Some(request) = request else {
            return Err(Refused::Fault(ScriptFault::BadTime(line)));
        };
        add_request(&mut self.lanes, request)?;
        self.requests += 1;
        self.lines = line;
        Ok(())
    }

    // A line that says this.
    fn take_said(&mut self, line: u32, said: Option<Said>) -> Result<(), Refused<ScriptFault>>
        requires { SaysTimes said }
        ensures reads { Yields result (λ _. self.new) (after_said self.old line said) }
        ensures lines { OnOk result (self.new.lines ≡ line) }
    {
        match said {
            None => Err(Refused::Fault(ScriptFault::BadLine(line))),
            Some(Said::Nothing) => {
                self.lines = line;
                Ok(())
            }
            Some(Said::Lane(name)) => self.take_lane(line, name),
            Some(Said::Request(request)) => self.take_request(line, request),
        }
    }

    // The next line.
    fn take(&mut self, text: &[u8]) -> Result<(), Refused<ScriptFault>>
        requires { self.old.lines < 2 ^ 32 - 1 }
        ensures reads { Yields result (λ _. self.new) (after_line self.old text.now) }
        ensures lines { OnOk result (self.new.lines ≡ self.old.lines + 1) }
    {
        let said = match line_said(self.alloc, self.json, text) {
            Ok(said) => said,
            Err(Memory) => return Err(Refused::Memory),
        };
        self.take_said(self.lines + 1, said)
    }

    // The lanes, at the end of the script.
    fn end(self) -> Result<Script, Refused<ScriptFault>>
        ensures script { Yields result (λ s. s) (at_end self) }
        ensures good { IfOk result (λ s. IsScript s) }
    {
        if self.lanes.is_empty() {
            return Err(Refused::Fault(ScriptFault::BadLine(0)));
        }
        Ok(Script { lanes: self.lanes })
    }
}

// What a line of a script says, or none.
fn line_said(alloc: Global, json: bool, text: &[u8]) -> Result<Option<Said>, Memory>
    ensures said { IfOk result
        (λ said. said ≡ option_and_then (λ words. said_of json words) (line_words text.now)) }
    ensures times { IfOk result SaysTimes }
{
    match line_words(alloc, text)? {
        Some(words) => said_of(alloc, json, words.as_slice()),
        None => Ok(None),
    }
}

/// The lanes of a script, or exactly its first fault: bytes in lines, each up to a line feed or the
/// text's end, without a carriage return at its end; what stands behind the last line feed is a
/// line, unless it is empty. The words of a line are those of `line_words`; a line without words,
/// and one whose first byte is `#`, is passed over. `lane NAME` begins a lane; `ask FROM TO TIME`,
/// `profile FROM TO FIRST LAST`, `latest FROM TO TIME` and `reach FROM TIME` are requests of it,
/// questions as `question_of` reads them; `since N` before one, with N of 1 to 9 digits, wants
/// edition N or a later one. Whether the replies are wanted as JSON is said beside the script.
pub fn read_script(alloc: Global, json: bool, bytes: &[u8]) -> Result<Script, Refused<ScriptFault>>
    ensures script { Yields result (λ s. s) (script_of json bytes.now) }
    ensures good { IfOk result (λ s. IsScript s) }
{
    if bytes.len() > MOST_BYTES {
        return Err(Refused::Fault(ScriptFault::TooLong));
    }
    let mut reader = ScriptReader::new(alloc, json);
    let mut text = bytes;
    while let Some(cut) = first_line(text) {
        reader.take(cut.line)?;
        text = cut.rest;
    }
    reader.end()
}
