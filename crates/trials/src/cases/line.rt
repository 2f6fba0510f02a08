//! The lines of a file of cases.

/// What a line says.
#[derive(Clone, Copy)]
pub enum CaseLine<'a> {
    /// Nothing: it is empty, or a remark.
    Nothing,
    /// A case with this title begins.
    Case(&'a str),
    /// The files of this feed stand in a folder of its name.
    Feed(&'a str),
    /// A file of the feed isn't there.
    Without(&'a str),
    /// A file that stands in place of the feed's begins.
    File(&'a str),
    /// A file at this path, beside those of feeds, begins.
    Beside(&'a str),
    /// A line of that file.
    Row(&'a str),
    /// So many lines of that file, in which the sign `#` stands for 0, 1 and so on.
    Rows(&'a str),
    /// Bytes of that file with no end of line behind.
    Cut(&'a str),
    /// One byte of that file, by its number.
    Byte(&'a str),
    /// A file that has no end. No other file is there.
    Endless(&'a str),
    /// The words of a command line, with one space between two.
    Words(&'a str),
    /// A feed, a day and options, for which change times and footpaths are shown.
    Paths(&'a str),
    /// A line of the script.
    Script(&'a str),
    /// So many lines of it, in which the sign `#` stands for 0, 1 and so on.
    Scripts(&'a str),
    /// Bytes of it with no end of line behind.
    Piece(&'a str),
    /// One byte of it, by its number.
    Octet(&'a str),
    /// The call of the folder that fails, by its number.
    Folder(&'a str),
    /// The read of the script that fails, by its number.
    Input(&'a str),
    /// The write to standard output that fails, by its number.
    Output(&'a str),
    /// How many bytes standard output takes.
    Room(&'a str),
    /// How many bytes one read or write moves at most.
    Moves(&'a str),
    /// The calls that fail in turn, as `folder 15`.
    Each(&'a str),
    /// A piece of work that is held until another one is done, which is so.
    Meets(&'a str),
    /// A piece of work that is held until another one is done, which isn't so as long as it is held.
    Misses(&'a str),
    /// The number with which it ends.
    Status(&'a str),
    /// A line of standard output.
    Out(&'a str),
    /// Whatever stands there of standard output, or nothing.
    Any,
    /// A piece of standard output with no end of line behind.
    Part(&'a str),
    /// A line of standard error.
    Err(&'a str),
}

impl CaseLine<'_> {
    /// Whether it says over which files is asked.
    pub fn is_setting(&self) -> bool {
        matches!(
            self,
            CaseLine::Feed(_)
                | CaseLine::Without(_)
                | CaseLine::File(_)
                | CaseLine::Beside(_)
                | CaseLine::Row(_)
                | CaseLine::Rows(_)
                | CaseLine::Cut(_)
                | CaseLine::Byte(_)
                | CaseLine::Endless(_)
        )
    }
}

/// What a line says, where it says anything.
pub fn line_of(text: &str) -> Option<CaseLine<'_>> {
    if text.is_empty() || text.starts_with('#') {
        return Some(CaseLine::Nothing);
    }
    let (word, rest) = match text.split_once(' ') {
        Some(parts) => parts,
        None => (text, ""),
    };
    setting_of(word, rest)
        .or(script_of(word, rest))
        .or(trouble_of(word, rest))
        .or(answer_of(word, rest))
}

// A line that says over which files is asked.
fn setting_of<'a>(word: &str, rest: &'a str) -> Option<CaseLine<'a>> {
    match word {
        "case" => Some(CaseLine::Case(rest)),
        "feed" => Some(CaseLine::Feed(rest)),
        "without" => Some(CaseLine::Without(rest)),
        "file" => Some(CaseLine::File(rest)),
        "beside" => Some(CaseLine::Beside(rest)),
        "row" => Some(CaseLine::Row(rest)),
        "rows" => Some(CaseLine::Rows(rest)),
        "cut" => Some(CaseLine::Cut(rest)),
        "byte" => Some(CaseLine::Byte(rest)),
        "endless" => Some(CaseLine::Endless(rest)),
        _ => None,
    }
}

// A line that says what stands in the script.
fn script_of<'a>(word: &str, rest: &'a str) -> Option<CaseLine<'a>> {
    match word {
        "script" => Some(CaseLine::Script(rest)),
        "scripts" => Some(CaseLine::Scripts(rest)),
        "piece" => Some(CaseLine::Piece(rest)),
        "octet" => Some(CaseLine::Octet(rest)),
        _ => None,
    }
}

// A line that says what goes wrong outside, or what threads meet.
fn trouble_of<'a>(word: &str, rest: &'a str) -> Option<CaseLine<'a>> {
    match word {
        "folder" => Some(CaseLine::Folder(rest)),
        "input" => Some(CaseLine::Input(rest)),
        "output" => Some(CaseLine::Output(rest)),
        "room" => Some(CaseLine::Room(rest)),
        "moves" => Some(CaseLine::Moves(rest)),
        "each" => Some(CaseLine::Each(rest)),
        "meets" => Some(CaseLine::Meets(rest)),
        "misses" => Some(CaseLine::Misses(rest)),
        _ => None,
    }
}

// A line that says what is asked, and what comes.
fn answer_of<'a>(word: &str, rest: &'a str) -> Option<CaseLine<'a>> {
    match word {
        "words" => Some(CaseLine::Words(rest)),
        "paths" => Some(CaseLine::Paths(rest)),
        "status" => Some(CaseLine::Status(rest)),
        "out" => Some(CaseLine::Out(rest)),
        "part" => Some(CaseLine::Part(rest)),
        "any" => Some(CaseLine::Any),
        "err" => Some(CaseLine::Err(rest)),
        _ => None,
    }
}
