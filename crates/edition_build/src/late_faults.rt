//! A fault of a file that amends a day, as a text and as JSON.
ghost use Rattle.std.specs.Prelude.{◌≡◌, ◌++◌, OnOk};
ghost use Rattle.edition_build.specs.LateFaults.{at_line, late_fault_json, late_fault_text};

use answer_json::add_line_fault;
use answer_text::Text;
use late_edit::LateFault;
use tb_base::Memory;

// Adds a name and ` line N`.
fn add_at_line(text: &mut Text, name: &[u8], line: u32) -> Result<(), Memory>
    ensures { OnOk result (text.new ≡ text.old ++ at_line name.now line) }
{
    text.add(name)?;
    text.add(b" line ")?;
    text.number(line)
}

/// Adds the number and the name of a fault, and its line where it has one: `1 UnknownTrip line 3`.
pub fn add_late_fault_text(text: &mut Text, fault: LateFault) -> Result<(), Memory>
    ensures { OnOk result (text.new ≡ text.old ++ late_fault_text fault) }
{
    match fault {
        LateFault::UnknownTrip(line) => add_at_line(text, b"1 UnknownTrip", line),
        LateFault::TimeRunsBack(line) => add_at_line(text, b"2 TimeRunsBack", line),
        LateFault::OutOfRange(line) => add_at_line(text, b"3 OutOfRange", line),
        LateFault::BadEvent(line) => add_at_line(text, b"4 BadEvent", line),
        LateFault::BadLine(line) => add_at_line(text, b"5 BadLine", line),
        LateFault::MissingFile => text.add(b"6 MissingFile"),
        LateFault::TooLarge => text.add(b"7 TooLarge"),
    }
}

/// Adds the same as JSON: `{"number":1,"name":"UnknownTrip","line":3}`.
pub fn add_late_fault_json(text: &mut Text, fault: LateFault) -> Result<(), Memory>
    ensures { OnOk result (text.new ≡ text.old ++ late_fault_json fault) }
{
    match fault {
        LateFault::UnknownTrip(line) => add_line_fault(text, 1, b"UnknownTrip", Some(line)),
        LateFault::TimeRunsBack(line) => add_line_fault(text, 2, b"TimeRunsBack", Some(line)),
        LateFault::OutOfRange(line) => add_line_fault(text, 3, b"OutOfRange", Some(line)),
        LateFault::BadEvent(line) => add_line_fault(text, 4, b"BadEvent", Some(line)),
        LateFault::BadLine(line) => add_line_fault(text, 5, b"BadLine", Some(line)),
        LateFault::MissingFile => add_line_fault(text, 6, b"MissingFile", None),
        LateFault::TooLarge => add_line_fault(text, 7, b"TooLarge", None),
    }
}
