//! What the program is asked over files of which one is broken, and how it ends.
use crate::cases::ending::{Ending, ending_over_files};
use crate::cases::feeds::add_copies;
use crate::cases::question::{Trouble, words_of};
use feed_maker::Draw;
use std::alloc::{AllocError, Global};
use std::str;
use std::sync::Wait;
use std::thread::Threads;
use tb_base::{IdleGate, Memory};

// There is room for each answer.
const ROOMY: Trouble = Trouble {
    room: 200_000,
    ..Trouble::NONE
};

/// What is asked over each feed.
#[derive(Clone, Copy, Debug, PartialEq, Eq)]
pub enum AskedCommand {
    Ask,
    PlainAsk,
    TwoDaysAsk,
    Profile,
    Latest,
    Reach,
    Times,
    Matrix,
    Build,
    JsonAsk,
    JsonVerify,
    LenientAsk,
    LenientPlainAsk,
    Check,
}

impl AskedCommand {
    // What it reads from standard input.
    fn script(self) -> &'static str {
        match self {
            AskedCommand::Matrix => "P1\nP0\n",
            _ => "",
        }
    }
}

/// Between which platforms, and when, it is asked.
#[derive(Clone, Copy)]
pub struct PlatformQuestion {
    from: u32,
    to: u32,
    hour: u32,
    minute: u32,
}

impl PlatformQuestion {
    /// Any.
    pub fn some(draw: &mut Draw) -> PlatformQuestion {
        PlatformQuestion {
            from: draw.below(7),
            to: draw.below(7),
            hour: if draw.one_in(4) { 24 } else { 8 },
            minute: draw.below(60),
        }
    }

    // The words of a command.
    fn line(self, alloc: Global, command: AskedCommand) -> Result<String, AllocError> {
        let PlatformQuestion {
            from,
            to,
            hour,
            minute,
        } = self;
        match command {
            AskedCommand::Ask => format!(in alloc;
                "--close --workers 1 ask made 20260302 P{from} P{to} {hour}:{minute:02}:00"
            ),
            AskedCommand::PlainAsk => format!(in alloc;
                "--close --plain ask made 20260302 P{from} P{to} {hour}:{minute:02}:00"
            ),
            AskedCommand::TwoDaysAsk => format!(in alloc;
                "--close --workers 1 --days 2 ask made 20260302 P{from} P{to} {hour}:{minute:02}:00"
            ),
            AskedCommand::Profile => format!(in alloc;
                "--close --workers 1 profile made 20260302 P{from} P{to} {hour}:{minute:02}:00 30:00:00"
            ),
            AskedCommand::Latest => format!(in alloc;
                "--close --workers 1 latest made 20260302 P{from} P{to} {hour}:{minute:02}:00"
            ),
            AskedCommand::Reach => format!(in alloc;
                "--close --workers 1 reach made 20260302 P{from} {hour}:{minute:02}:00"
            ),
            AskedCommand::Times => format!(in alloc;
                "--close --workers 1 times made 20260302 P{from} {hour}:{minute:02}:00 30:00:00 1200"
            ),
            AskedCommand::Matrix => format!(in alloc;
                "--close --workers 2 matrix made 20260302 - {hour}:{minute:02}:00 30:00:00 3600"
            ),
            AskedCommand::JsonAsk => format!(in alloc;
                "--json --close --plain ask made 20260302 P{from} P{to} {hour}:{minute:02}:00"
            ),
            AskedCommand::JsonVerify => format!(in alloc;
                "--json --close verify made 20260302 P{from} P{to} {hour}:{minute:02}:00"
            ),
            AskedCommand::Build => {
                String::from_str(alloc, "--close --workers 2 build made 20260302 list")
            }
            AskedCommand::LenientAsk => format!(in alloc;
                "--close --lenient --workers 1 ask made 20260302 P{from} P{to} {hour}:{minute:02}:00"
            ),
            AskedCommand::LenientPlainAsk => format!(in alloc;
                "--close --lenient --plain ask made 20260302 P{from} P{to} {hour}:{minute:02}:00"
            ),
            AskedCommand::Check => String::from_str(alloc, "--close check made 20260302"),
        }
    }
}

// Bytes as text.
fn text_of(bytes: &[u8]) -> &str {
    str::from_utf8(bytes).unwrap_or("")
}

impl Ending {
    /// Whether it is an answer, or names a fault of the feed and writes nothing.
    pub fn is_sound(&self) -> bool {
        let err = text_of(self.err.as_slice());
        match self.code {
            0 => text_of(self.out.as_slice()).ends_with('\n') && err.is_empty(),
            3 => self.out.is_empty() && err.starts_with("router: feed refused: "),
            _ => false,
        }
    }

    /// Whether it is an answer.
    pub fn is_answer(&self) -> bool {
        self.code == 0
    }

    /// The answer.
    pub fn answer(&self) -> &str {
        text_of(self.out.as_slice())
    }

    /// What is on standard error.
    pub fn message(&self) -> &str {
        text_of(self.err.as_slice())
    }

    /// Whether it is an answer with journeys.
    pub fn has_journeys(&self) -> bool {
        self.code == 0 && self.answer().starts_with("arrive ")
    }

    /// Whether another one has the same number and the same fault.
    pub fn has_status_of(&self, other: &Ending) -> bool {
        self.code == other.code && self.err.as_slice() == other.err.as_slice()
    }

    /// Whether another one has the same number, and writes the same.
    pub fn is_as(&self, other: &Ending) -> bool {
        self.has_status_of(other) && self.out.as_slice() == other.out.as_slice()
    }

    /// Whether another one shows the same values, whatever journeys it shows.
    pub fn has_values_of(&self, other: &Ending) -> bool {
        let lines = text_of(self.out.as_slice()).lines();
        let others = text_of(other.out.as_slice()).lines();
        lines
            .filter(|line| !line.starts_with(' '))
            .eq(others.filter(|line| !line.starts_with(' ')))
    }
}

// How the program ends over copies of files.
fn ending_over_copies<R: Threads + Wait + Sync>(
    rt: &R,
    alloc: Global,
    words: &[String],
    files: &[(String, Vec<u8>)],
    script: &str,
) -> Result<Ending, Memory> {
    let mut copies = Vec::new(alloc);
    add_copies(alloc, files, &mut copies)?;
    let script = script.as_bytes();
    ending_over_files(rt, alloc, words, copies, script, ROOMY, &IdleGate)
}

// How the program ends over files, with the words of a line, and a text on standard input.
fn asked<R: Threads + Wait + Sync>(
    rt: &R,
    alloc: Global,
    files: &[(String, Vec<u8>)],
    line: &str,
    script: &str,
) -> Result<Ending, Memory> {
    let words = words_of(alloc, line)?;
    let ending = ending_over_copies(rt, alloc, words.as_slice(), files, script);
    drop(words);
    ending
}

/// How a command ends over files, with a text on standard input.
pub fn ending_with<R: Threads + Wait + Sync>(
    rt: &R,
    alloc: Global,
    files: &[(String, Vec<u8>)],
    question: PlatformQuestion,
    command: AskedCommand,
    script: &str,
) -> Result<Ending, Memory> {
    let line = question.line(alloc, command)?;
    asked(rt, alloc, files, line.as_str(), script)
}

/// How a command ends over files.
pub fn command_ending<R: Threads + Wait + Sync>(
    rt: &R,
    alloc: Global,
    files: &[(String, Vec<u8>)],
    question: PlatformQuestion,
    command: AskedCommand,
) -> Result<Ending, Memory> {
    ending_with(rt, alloc, files, question, command, command.script())
}
