//! What is built of a timetable: its edition, and the report on it; and what is built of the items
//! of a plan: days of feeds, and files that amend the last one.
//!
//! `build` splits a timetable into lines, lets workers reduce its transfers, and packs what is kept
//! into one set, which is all that Trip-Based Public Transit Routing (Witt, ESA 2015) prepares. To
//! the layer above it promises the timetable's edition, with the same network for every number of
//! workers. `assemble` makes it where lines and transfers are there already, `build_mirror` makes
//! that of the mirror, in which latest departures are looked for, and `build_mirrored` an edition
//! that has the network of its mirror. `report` tells the sizes of the timetable, its lines, and
//! how many candidate and kept transfers there are; the layer above is promised each byte, and
//! where it asks for a list, all kept transfers, trip after trip and each trip's from its last
//! event down.
//!
//! `find_item` reads an item of a plan and gives its outcome, with the edition that is to be
//! published where it is lawful: that of a day of a feed by the GTFS Schedule Reference, or of the
//! last such day amended by a file of updates as `late_edit` amends it; these files don't add up.
//! The line of each outcome is told as text and as JSON.
#![tactic(auto)]

mod building;
mod finding;
mod late_faults;
mod outcome_json;
mod outcome_texts;
mod plan;
mod reporting;

pub use building::{assemble, build, build_edition, build_mirror, build_mirrored};
pub use finding::{Building, Found, PlanEnd, build_day, find_item, outcome_of};
pub use late_faults::{add_late_fault_json, add_late_fault_text};
pub use outcome_json::{add_outcome_json, add_outcomes_json};
pub use outcome_texts::{add_outcome_text, add_outcomes_text};
pub use plan::{FeedDay, ItemSource, LateFile, Outcome, PlanItem, first_day, keep_day};
pub use reporting::{counts_of, report};
