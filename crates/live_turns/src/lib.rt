//! A process that lives: lines as they come, answered turn by turn, beside a publisher of editions.
//!
//! An [`Intake`] takes one piece of a source after another, and gives the lines that end in it.
//! After any number of pieces these are exactly the lines that a line feed ends in the bytes taken
//! so far, and at the end of the source all lines of its text; of a line that is begun no more than
//! so many first bytes are kept, so that a line of any length takes no more memory than that.
//!
//! [`run_live`] lives by these: the items of its words, then those that lines name, are read, built
//! and published beside the lines, as `edition_build` finds them. To the layer above it promises
//! the text for all lines of the source, each reply by the last edition of the list that is kept
//! then, with news of each item; or why it ended early, and what was written until then.
//!
//! A [`Giver`] hands things over to a [`Taker`] in another thread, over a channel of
//! `crossbeam_channel`, of which no clause says that a message comes, or in which order. So each
//! thing carries its number and a beginning of the one history of all that was given (`history`),
//! which is there for the proofs alone: what was taken is a first part of what was given, and all
//! of it where the two counts are the same.
//!
//! The [`laws`] say that turns which are answered one after another, each by the last edition of
//! the list that is kept then, are one run of all their lines, in which no edition goes back.
#![tactic(auto)]

mod cutting;
mod giver;
mod handed;
mod intake;
pub mod laws;
mod live;
mod taker;

pub use giver::{Given, Giver};
pub use history::{Naming, Opened};
pub use intake::{Intake, IntakeFault};
pub use live::{LiveFault, LiveMode, run_live};
pub use taker::{Taken, Taker, open};
