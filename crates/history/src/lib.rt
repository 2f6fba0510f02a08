//! One history that grows under one pen, and is closed in the end.
//!
//! It exists in the proofs alone: what runs is a step on a word or two, and no entry is ever made.
//! A `Front` knows a beginning of the history, as the list of what was published with the mark that
//! the history is closed. The one `History` knows all of it, and it alone may add to it, which
//! never fails. To the layer above the crate promises that of two beginnings of one history one
//! extends the other, that the whole extends each, and that nothing comes after the end; so whoever
//! carries a `Front` beside a list can tell which of two lists came later. Each history has a name,
//! which its types carry, so beginnings of two histories are never compared. The entries stand in a
//! `logbook`.
#![tactic(auto)]

mod entry;
mod front;
mod law;
mod pen;

pub use entry::{Entry, Event};
pub use front::Front;
pub use law::{Law, Naming};
pub use pen::{History, Opened};
