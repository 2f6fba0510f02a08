//! Answers and faults as JSON (RFC 8259), by which a program reads what the texts of `answer_text`
//! show to people.
//!
//! Each value is a list of bytes that its definition in specs/ gives for it, so the layers above
//! know every byte that they write; values stand one in a line, as JSON Lines asks
//! (jsonlines.org), or in an array. A string is read back as it was, by the definition that the
//! reader of the kit's `json` has of a text. A time stands as in the texts and, beside it, in
//! seconds since noon minus twelve hours.
#![tactic(auto)]

mod builds;
mod checks;
mod faults;
mod frame;
mod journeys;
mod plain;
mod reached;
mod shown;
mod strings;
mod travel;

pub use builds::{build_json, build_list_json};
pub use checks::{shown_check, shown_left_out};
pub use faults::{add_fault, add_line_fault};
pub use frame::{Frame, add_moment};
pub use journeys::{
    add_choices, add_departure, add_offers, add_unknown, arrival_json, unknown_json,
};
pub use reached::{add_reach, add_value};
pub use shown::{shown_arrival, shown_build, shown_build_list, shown_choices, shown_unknown};
pub use strings::{add_count, add_member, add_string, add_total, read_back};
pub use travel::add_travel;
