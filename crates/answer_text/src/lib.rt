//! Questions and answers as text: what words ask; and times, journeys, faults and what is built of
//! a timetable, as lines.
//!
//! `question_of` reads a question, or tells exactly why words are none. Each text is a list of
//! bytes that its definition in specs/ gives for the value, so the layers above know every byte
//! that they write. Times are those of the service day, in whole seconds from
//! noon minus twelve hours, as the GTFS Schedule Reference counts them, and are shown as hours,
//! minutes and seconds; hours go past 24.
#![tactic(auto)]

mod builds;
mod checks;
mod faults;
mod journeys;
mod question;
mod text;

pub use builds::{BuildCounts, build_list_text, build_text};
pub use checks::{ALL_FILES, FAULT_NUMBERS, bad_rows, check_text, left_out_text, more_of};
pub use faults::{column_name, fault_text, many_text};
pub use journeys::{NO_JOURNEY, arrival_text, choices_text, offers_text, unknown_text};
pub use question::{Question, QuestionFault, question_of};
pub use tb_base::time_text;
pub use text::Text;
