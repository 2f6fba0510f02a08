//! What is asked in a case, and how it has to end.
ghost use Rattle.std.specs.Prelude.{◌<◌};

use super::holding::Hold;
use gtfs_rows::number_of;
use std::alloc::{AllocError, Global};

/// How a run of the program has to end: its number, the pieces of standard output, between which
/// anything may stand, and the bytes on standard error.
#[derive(Drop)]
pub struct Wanted {
    pub code: u8,
    pub pieces: Vec<String>,
    pub err: Vec<u8>,
}

/// Of what a question is asked.
#[derive(Clone, Copy, PartialEq, Eq, Debug)]
pub enum AskedOf {
    /// The program.
    Program,
    /// The change times and footpaths of a day.
    Paths,
}

/// What the program calls outside.
#[derive(Clone, Copy, PartialEq, Eq, Debug)]
pub enum Outside {
    /// The folder.
    Folder,
    /// The reads of the script.
    Input,
    /// The writes to standard output.
    Output,
}

/// How many calls there are outside, of which each fails in turn, run by run.
#[derive(Clone, Copy)]
pub struct Turns {
    pub calls: Outside,
    pub count: u32,
}

/// What goes wrong outside while the program runs.
#[derive(Clone, Copy)]
pub struct Trouble {
    /// The call of the folder that fails, by its number from 0.
    pub folder: Option<u32>,
    /// The read of the script that fails, by its number from 0.
    pub input: Option<u32>,
    /// The write to standard output that fails, by its number from 0.
    pub output: Option<u32>,
    /// How many bytes standard output takes.
    pub room: u32,
    /// How many bytes one read or write moves at most.
    pub most: u32,
}

impl Trouble {
    /// No call fails, and there is room for each answer of a case.
    pub const NONE: Trouble = Trouble {
        folder: None,
        input: None,
        output: None,
        room: 100_000,
        most: u32::MAX,
    };

    /// The same, where the call with this number fails, from 0.
    pub fn with_failing(self, calls: Outside, number: u32) -> Trouble {
        let mut trouble = self;
        match calls {
            Outside::Folder => trouble.folder = Some(number),
            Outside::Input => trouble.input = Some(number),
            Outside::Output => trouble.output = Some(number),
        }
        trouble
    }

    /// How many bytes one read or write moves at most: at least one.
    pub fn piece(self) -> usize
        ensures { 0 < result }
    {
        self.most.max(1) as usize
    }
}

/// What is asked, and how it has to end.
#[derive(Drop)]
pub struct CaseQuestion {
    pub asked: AskedOf,
    pub words: Vec<String>,
    /// The bytes of standard input.
    pub script: Vec<u8>,
    pub trouble: Trouble,
    /// Which calls fail in turn, where some do.
    pub turns: Option<Turns>,
    /// Which pieces of work are held.
    pub holds: Vec<Hold>,
    pub want: Wanted,
}

/// The words of a line, with one space between two.
pub fn words_of(alloc: Global, line: &str) -> Result<Vec<String>, AllocError> {
    let mut words = Vec::new(alloc);
    if line.is_empty() {
        return Ok(words);
    }
    for word in line.split(' ') {
        words.push(String::from_str(alloc, word)?)?;
    }
    Ok(words)
}

/// A number below 256.
pub fn byte_of(number: &str) -> Option<u8> {
    match number_of(number.as_bytes()) {
        Some(byte) if byte < 256 => Some(byte as u8),
        _ => None,
    }
}

// So many calls of an object, as `folder 15`.
fn turns_of(line: &str) -> Option<Turns> {
    let (calls, count) = line.split_once(' ')?;
    let calls = match calls {
        "folder" => Outside::Folder,
        "input" => Outside::Input,
        "output" => Outside::Output,
        _ => return None,
    };
    Some(Turns {
        calls,
        count: number_of(count.as_bytes())?,
    })
}

/// A text with a number in place of each `#`.
pub fn numbered(alloc: Global, text: &str, number: u32) -> Result<String, AllocError> {
    let number = format!(in alloc; "{number}")?;
    text.replace(alloc, "#", number.as_str())
}

impl CaseQuestion {
    /// The question of a line. As long as nothing else is said, nothing goes wrong, it has to end
    /// well, and to write nothing.
    pub fn new(alloc: Global, asked: AskedOf, line: &str) -> Result<CaseQuestion, AllocError> {
        let words = words_of(alloc, line)?;
        let want = Wanted {
            code: 0,
            pieces: Vec::new(alloc),
            err: Vec::new(alloc),
        };
        Ok(CaseQuestion {
            asked,
            words,
            script: Vec::new(alloc),
            trouble: Trouble::NONE,
            turns: None,
            holds: Vec::new(alloc),
            want,
        })
    }

    /// More of the script. It is said of the program alone.
    pub fn add_script(&mut self, text: &str, end: &str) -> Result<bool, AllocError> {
        self.script.extend_from_slice(text.as_bytes())?;
        self.script.extend_from_slice(end.as_bytes())?;
        Ok(self.asked == AskedOf::Program)
    }

    /// So many lines of it, by a number and the text of a line.
    pub fn add_scripts(&mut self, alloc: Global, lines: &str) -> Result<bool, AllocError> {
        let Some((count, text)) = lines.split_once(' ') else {
            return Ok(false);
        };
        let Some(count) = number_of(count.as_bytes()) else {
            return Ok(false);
        };
        for number in 0..count {
            let line = numbered(alloc, text, number)?;
            self.add_script(line.as_str(), "\n")?;
        }
        Ok(self.asked == AskedOf::Program)
    }

    /// One byte of it, by its number.
    pub fn add_octet(&mut self, number: &str) -> Result<bool, AllocError> {
        let Some(byte) = byte_of(number) else {
            return Ok(false);
        };
        self.script.push(byte)?;
        Ok(self.asked == AskedOf::Program)
    }

    /// The read of the script that fails. It is said of the program alone.
    pub fn fail_input(&mut self, number: &str) -> bool {
        self.trouble.input = number_of(number.as_bytes());
        self.asked == AskedOf::Program && self.trouble.input.is_some()
    }

    /// The call of the folder that fails. It is said of the program alone.
    pub fn fail_folder(&mut self, number: &str) -> bool {
        self.trouble.folder = number_of(number.as_bytes());
        self.asked == AskedOf::Program && self.trouble.folder.is_some()
    }

    /// The write to standard output that fails. It is said of the program alone.
    pub fn fail_output(&mut self, number: &str) -> bool {
        self.trouble.output = number_of(number.as_bytes());
        self.asked == AskedOf::Program && self.trouble.output.is_some()
    }

    /// How many bytes standard output takes. It is said of the program alone.
    pub fn set_room(&mut self, number: &str) -> bool {
        match number_of(number.as_bytes()) {
            Some(room) if self.asked == AskedOf::Program => {
                self.trouble.room = room;
                true
            }
            _ => false,
        }
    }

    /// How many bytes one read or write moves at most. It is said of the program alone.
    pub fn set_most(&mut self, number: &str) -> bool {
        match number_of(number.as_bytes()) {
            Some(most) if most > 0 && self.asked == AskedOf::Program => {
                self.trouble.most = most;
                true
            }
            _ => false,
        }
    }

    /// So many calls that fail in turn, by their object and their number. It is said of the program
    /// alone.
    pub fn fail_each(&mut self, calls: &str) -> bool {
        self.turns = turns_of(calls);
        self.asked == AskedOf::Program && self.turns.is_some()
    }

    /// A piece of work that is held until another one is done, and whether that is so. It is said of
    /// the program alone.
    pub fn hold(&mut self, alloc: Global, text: &str, is_met: bool) -> Result<bool, AllocError> {
        let Some(hold) = Hold::of_text(alloc, text, is_met)? else {
            return Ok(false);
        };
        self.holds.push(hold)?;
        Ok(self.asked == AskedOf::Program)
    }

    /// The number with which it ends. It is said once, and isn't that of a good end, which needs no
    /// word.
    pub fn want_status(&mut self, number: &str) -> bool {
        match byte_of(number) {
            Some(code) if self.want.code == 0 && code > 0 => {
                self.want.code = code;
                true
            }
            _ => false,
        }
    }

    /// More of its standard output.
    pub fn want_out(&mut self, alloc: Global, text: &str, end: &str) -> Result<(), AllocError> {
        if self.want.pieces.is_empty() {
            self.want.pieces.push(String::new(alloc))?;
        }
        if let Some(piece) = self.want.pieces.last_mut() {
            piece.push_str(text)?;
            piece.push_str(end)?;
        }
        Ok(())
    }

    /// Whatever comes next on its standard output.
    pub fn want_any(&mut self, alloc: Global) -> Result<(), AllocError> {
        if self.want.pieces.is_empty() {
            self.want.pieces.push(String::new(alloc))?;
        }
        self.want.pieces.push(String::new(alloc))?;
        Ok(())
    }

    /// A line of its standard error.
    pub fn want_err(&mut self, line: &str) -> Result<(), AllocError> {
        self.want.err.extend_from_slice(line.as_bytes())?;
        self.want.err.push(b'\n')?;
        Ok(())
    }
}
