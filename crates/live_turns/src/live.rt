//! A process that lives: lines as they come, answered turn by turn.
//!
//! `run_turns` takes a source piece by piece. The lines that end in a piece are one turn: news of
//! the publisher are told, the published list is pinned once, each line has its reply by the last
//! edition of it, and the text is written before the next piece is read.

mod issuing;
pub(crate) mod laws;
mod lending;
mod lived;
mod news;
mod office;
mod publisher;
mod running;
mod saying;
mod sides;
mod telling;
mod turn;

pub use lived::{LiveFault, run_live};
pub(crate) use news::{Became, News, news_shown, tell_news};
pub(crate) use running::{LinesFault, run_turns};
pub use saying::LiveMode;
pub(crate) use turn::LineSide;
