//! The one door for questions about the network of a day.
//!
//! `answer` answers a `Question`: every best trade-off between early arrival and few rides between
//! two named places, or to every stop; every best departure within a window; the latest departures
//! that arrive by a time; or travel times to every stop over several departures. Each journey that
//! is shown attains what it is shown for, and a name that is none is answered as such; `reply_text`
//! shows a reply. The search is that of Trip-Based Public Transit Routing (Witt, ESA 2015).
//! `best_choices` and `best_offers` search over any network whose hops suffice. `best_offers`
//! sweeps the window from its last second to its first, over the times at which one can leave an
//! origin for a first ride, and keeps from each of them to the one before what it has reached, by
//! the number of rides, as in the profile searches of Delling, Pajor and Werneck, Round-Based
//! Public Transit Routing (ALENEX 2012). Each counts its looks on a counter that is lent; those of
//! `best_choices` are bounded. A `Caller` asks of the last edition that is published, by its own
//! network or by that of its mirror, and defers what a later one is asked for. `answer_all` deals
//! requests to lanes, which answer at once where threads can be started: one right reply for each
//! request, in order, for any number of lanes. `said_of` reads a request from the words of a line.
//! To the layer above the crate promises that each reply is exactly the one of the definitions, and
//! that a caller's editions never go back.
#![tactic(auto)]

mod answering;
mod asking;
mod between;
mod caller;
mod choices;
mod dealing;
mod json;
mod leaving;
mod offers;
mod reply;
mod said;
mod searching;
mod slots;
mod times;

pub use answering::answer;
pub use asking::{AskText, ProfileText};
pub use between::{Between, stops_between};
pub use caller::{Answer, Caller, reply_by};
pub use choices::best_choices;
pub use dealing::{Office, answer_all, desks_for};
pub use json::{reply_json, shown_reply};
pub use offers::best_offers;
pub use reply::{Reply, reply_text};
pub use said::{Line, Said, said_of};
