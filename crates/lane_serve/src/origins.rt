//! Origins, one a line.
ghost use Rattle.std.specs.Prelude.{◌≡◌, ◌<◌, ◌^◌, ◌+◌, ◌-◌, ◌++◌, ◌∷◌, [], IfOk, OnOk};
ghost use Rattle.tb_base.specs.Refusals.{Yields};
ghost use Rattle.text_lines.specs.LineWords.{line_words};
ghost use Rattle.lane_serve.specs.Origins.{after_naming, after_origin, line_names, origins_of, words_name};

use crate::script::ScriptFault;
use std::alloc::Global;
use std::marker::Model;
use tb_base::{Memory, Name, Refused};
use text_lines::{first_line, line_words};

const MOST_BYTES: usize = 33_554_432;

// What a line names.
#[derive(Drop)]
enum Naming {
    // It has no words.
    Nothing,
    Origin(Name),
    Bad,
}

// What words name.
fn words_name(alloc: Global, words: &[Name]) -> Result<Naming, Memory>
    ensures { IfOk result (λ naming. naming ≡ words_name words.now) }
{
    match words {
        [] => Ok(Naming::Nothing),
        [name] => Ok(Naming::Origin(Name::new(alloc, name.bytes())?)),
        _ => Ok(Naming::Bad),
    }
}

// What a line names.
fn line_names(alloc: Global, line: &[u8]) -> Result<Naming, Memory>
    ensures { IfOk result (λ naming. naming ≡ line_names (line_words line.now)) }
{
    match line_words(alloc, line)? {
        Some(words) => words_name(alloc, words.as_slice()),
        None => Ok(Naming::Bad),
    }
}

// A reader of origins: how many lines it has read, and the origins so far.
#[derive(Drop)]
struct OriginsReader {
    alloc: Global,
    lines: u32,
    names: Vec<Name>,
}

impl Model for OriginsReader {
    ghost use Rattle.lane_serve.specs.Origins.{OriginsSoFar};

    ghost Value = { OriginsSoFar };

    ghost view = { λ r. record { lines = r.lines; names = r.names.items } };
}

impl OriginsReader {
    // A reader at the start of a text.
    fn new(alloc: Global) -> OriginsReader
        ensures { result ≡ record { lines = 0; names = [] } }
    {
        OriginsReader {
            alloc,
            lines: 0,
            names: Vec::new(alloc),
        }
    }

    // A line that names this.
    fn take_naming(&mut self, line: u32, naming: Naming) -> Result<(), Refused<ScriptFault>>
        ensures reads { Yields result (λ _. self.new) (after_naming self.old line naming) }
        ensures lines { OnOk result (self.new.lines ≡ line) }
    {
        match naming {
            Naming::Nothing => {
                self.lines = line;
                Ok(())
            }
            Naming::Origin(name) => {
                if self.names.push(name).is_err() {
                    return Err(Refused::Memory);
                }
                self.lines = line;
                Ok(())
            }
            Naming::Bad => Err(Refused::Fault(ScriptFault::BadLine(line))),
        }
    }

    // The next line.
    fn take(&mut self, text: &[u8]) -> Result<(), Refused<ScriptFault>>
        requires { self.old.lines < 2 ^ 32 - 1 }
        ensures reads { Yields result (λ _. self.new) (after_origin self.old text.now) }
        ensures lines { OnOk result (self.new.lines ≡ self.old.lines + 1) }
    {
        match line_names(self.alloc, text) {
            Ok(naming) => self.take_naming(self.lines + 1, naming),
            Err(Memory) => Err(Refused::Memory),
        }
    }
}

/// The origins that a text names, in order, or exactly its first fault: bytes in lines, as those of
/// a script. A line without words, and one whose first byte is `#`, is passed over; each other one
/// has one word, which is an origin. `BadLine` and `TooLong` are the only faults.
pub fn read_origins(alloc: Global, bytes: &[u8]) -> Result<Vec<Name>, Refused<ScriptFault>>
    ensures { Yields result (λ v. v.items) (origins_of bytes.now) }
{
    if bytes.len() > MOST_BYTES {
        return Err(Refused::Fault(ScriptFault::TooLong));
    }
    let mut reader = OriginsReader::new(alloc);
    let mut text = bytes;
    while let Some(cut) = first_line(text) {
        reader.take(cut.line)?;
        text = cut.rest;
    }
    Ok(reader.names)
}
