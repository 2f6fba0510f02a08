//! How the program ends.
ghost use Rattle.std.specs.Prelude.{◌≡◌, ◌++◌, IfOk, codes};
ghost use Rattle.std.specs.Fmt.{decimal};
ghost use Rattle.router_cli.specs.Outcome.{journey_fault_text, row_text, script_fault_text, status_code, status_text};

use answer_text::{Text, fault_text};
use edition_build::add_late_fault_text;
use gtfs_rows::FeedFault;
use journey_read::JourneyFault;
use lane_serve::ScriptFault;
use late_edit::LateFault;
use std::alloc::Global;
use tb_base::Memory;

const USAGE: &[u8] =
    b"usage: router [--change SECS] [--station SECS] [--close] [--lenient] [--days N] \
    [--workers N] [--plain] [--lanes N] [--mirror] [--csv] COMMAND WORDS\n";

/// How the program ends. No status but `Memory` tells of want of memory.
#[derive(Debug, Drop)]
pub enum Status {
    /// The answer was written whole.
    Done,
    /// The words have no meaning.
    Usage,
    /// The feed has this first fault.
    FeedRefused(FeedFault),
    /// The folder or the source failed: its count of faults rose.
    ReadFault,
    /// The sink failed; some first bytes of the answer were written.
    WriteFault,
    /// Want of memory, which may come at any time.
    Memory,
    /// The script has this first fault.
    ScriptRefused(ScriptFault),
    /// The late trips of a day have this first fault.
    LateRefused(LateFault),
    /// The claimed journey has this first fault.
    JourneyRefused(JourneyFault),
    /// The check was written whole, and it tells faults.
    FaultsFound,
}

impl From<Memory> for Status {
    ghost use Rattle.std.specs.Prelude.{◌≡◌};
    ghost use Rattle.router_cli.specs.declared.status.Status.TheVariants as status;

    ghost from_gives = { λ _ given. given ≡ status.Memory };

    fn from(_refusal: Memory) -> Status {
        Status::Memory
    }
}

impl Status {
    /// The number with which the program ends: 0 for `Done`, and 2 to 10 for the others in their
    /// order.
    pub fn code(&self) -> u8
        ensures { result ≡ status_code self.now }
    {
        match self {
            Status::Done => 0,
            Status::Usage => 2,
            Status::FeedRefused(_) => 3,
            Status::ReadFault => 4,
            Status::WriteFault => 5,
            Status::Memory => 6,
            Status::ScriptRefused(_) => 7,
            Status::LateRefused(_) => 8,
            Status::JourneyRefused(_) => 9,
            Status::FaultsFound => 10,
        }
    }
}

/// The line for standard error, with its end of line. Nothing for `Done` and `FaultsFound`.
pub(crate) fn status_text(alloc: Global, status: &Status) -> Result<Vec<u8>, Memory>
    ensures { IfOk result (λ v. v.items ≡ status_text status.now) }
{
    match status {
        Status::Done | Status::FaultsFound => Ok(Vec::new(alloc)),
        Status::Usage => copied(alloc, USAGE),
        Status::FeedRefused(fault) => feed_refusal_text(alloc, fault),
        Status::ReadFault => copied(alloc, b"router: read fault\n"),
        Status::WriteFault => copied(alloc, b"router: write fault\n"),
        Status::Memory => copied(alloc, b"router: out of memory\n"),
        Status::ScriptRefused(fault) => {
            row_refusal_text(alloc, b"router: script refused: ", script_row(*fault))
        }
        Status::LateRefused(fault) => late_refusal_text(alloc, *fault),
        Status::JourneyRefused(fault) => {
            row_refusal_text(alloc, b"router: journey refused: ", journey_row(*fault))
        }
    }
}

/// These bytes, as a text.
pub(crate) fn copied(alloc: Global, bytes: &[u8]) -> Result<Vec<u8>, Memory>
    ensures { IfOk result (λ v. v.items ≡ bytes.now) }
{
    let copy = bytes.to_vec(alloc)?;
    Ok(copy)
}

// What is refused, and the text of its fault, as a line.
fn refusal_line(alloc: Global, refused: &[u8], fault: &[u8]) -> Result<Vec<u8>, Memory>
    ensures { IfOk result (λ v. v.items ≡ refused.now ++ fault.now ++ codes "\n") }
{
    let mut line = copied(alloc, refused)?;
    line.extend_from_slice(fault)?;
    line.push(b'\n')?;
    Ok(line)
}

fn feed_refusal_text(alloc: Global, fault: &FeedFault) -> Result<Vec<u8>, Memory>
    ensures { IfOk result (λ v. v.items ≡ status_text (Status.FeedRefused fault.now)) }
{
    let text = fault_text(alloc, fault)?;
    refusal_line(alloc, b"router: feed refused: ", text.as_slice())
}

fn late_refusal_text(alloc: Global, fault: LateFault) -> Result<Vec<u8>, Memory>
    ensures { IfOk result (λ v. v.items ≡ status_text (Status.LateRefused fault)) }
{
    let mut text = Text::new(alloc);
    text.add(b"router: late refused: ")?;
    add_late_fault_text(&mut text, fault)?;
    text.add(b"\n")?;
    Ok(text.into_bytes())
}

/// A name, and a number.
pub(crate) fn at_number(alloc: Global, name: &[u8], number: u32) -> Result<Vec<u8>, Memory>
    ensures { IfOk result (λ v. v.items ≡ name.now ++ decimal number) }
{
    let mut text = copied(alloc, name)?;
    let digits = match format!(in alloc; "{number}") {
        Ok(digits) => digits,
        Err(_) => return Err(Memory),
    };
    text.extend_from_slice(digits.as_bytes())?;
    Ok(text)
}

// The text of a fault by its number and name, and by its line where it has one.
fn row_text(alloc: Global, name: &[u8], line: Option<u32>) -> Result<Vec<u8>, Memory>
    ensures { IfOk result (λ v. v.items ≡ row_text name.now line) }
{
    match line {
        Some(line) => {
            let mut text = copied(alloc, name)?;
            text.extend_from_slice(b" line ")?;
            at_number(alloc, text.as_slice(), line)
        }
        None => copied(alloc, name),
    }
}

// What is refused, and such a fault, as a line.
fn row_refusal_text(
    alloc: Global,
    refused: &[u8],
    row: (&'static [u8], Option<u32>),
) -> Result<Vec<u8>, Memory>
    ensures { IfOk result (λ v.
        v.items ≡ refused.now ++ row_text row.entry.0.now row.entry.1 ++ codes "\n") }
{
    let (name, line) = row;
    let text = row_text(alloc, name, line)?;
    refusal_line(alloc, refused, text.as_slice())
}

// The number and the name of a script's fault, and its line where it has one.
fn script_row(fault: ScriptFault) -> (&'static [u8], Option<u32>)
    ensures { row_text result.0.now result.1 ≡ script_fault_text fault }
{
    match fault {
        ScriptFault::BadLine(line) => (b"1 BadLine".as_slice(), Some(line)),
        ScriptFault::TooManyLanes(line) => (b"2 TooManyLanes".as_slice(), Some(line)),
        ScriptFault::TooManyLines(line) => (b"3 TooManyLines".as_slice(), Some(line)),
        ScriptFault::BadTime(line) => (b"4 BadTime".as_slice(), Some(line)),
        ScriptFault::TooLong => (b"5 TooLong".as_slice(), None),
        ScriptFault::MissingFile => (b"6 MissingFile".as_slice(), None),
    }
}

// The same of a claim's fault.
fn journey_row(fault: JourneyFault) -> (&'static [u8], Option<u32>)
    ensures { row_text result.0.now result.1 ≡ journey_fault_text fault }
{
    match fault {
        JourneyFault::BadLine(line) => (b"1 BadLine".as_slice(), Some(line)),
        JourneyFault::UnknownStop(line) => (b"2 UnknownStop".as_slice(), Some(line)),
        JourneyFault::NoSuchRide(line) => (b"3 NoSuchRide".as_slice(), Some(line)),
        JourneyFault::TooLong => (b"4 TooLong".as_slice(), None),
    }
}
