//! Why trying broken feeds ends early, and over which feed.
use super::breaks::Broken;
use super::trial::Wrong;
use tb_base::Memory;

/// Why it ends early: something is wrong over a feed as it was made or as it was broken, or memory
/// was wanting.
#[derive(Clone, Copy, Debug)]
pub enum Refused {
    Found(Wrong, Option<Broken>),
    Memory,
}

impl From<Memory> for Refused {
    fn from(_memory: Memory) -> Refused {
        Refused::Memory
    }
}

/// How it ended early, and over the feed of which seed.
#[derive(Clone, Copy, Debug)]
pub struct Ended {
    pub seed: u32,
    pub refused: Refused,
}
