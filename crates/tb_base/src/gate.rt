//! Who is told of work that threads take up.

/// A piece of work: a piece of the reduction, the publication of an edition, or a request of a
/// lane. All numbers count from 0.
#[derive(Clone, Copy, PartialEq, Eq, Debug)]
pub enum Work {
    /// Some trips of the reduction, by the number of the piece.
    Piece(u32),
    /// The publication of an item of a plan.
    Publication(u32),
    /// A request of a lane of a script.
    Request { lane: u32, line: u32 },
}

/// A gate is told when a thread begins a piece of work, and when it is done. It may hold the
/// thread, and changes no answer.
pub trait Gate: Sync {
    /// The work is about to begin.
    fn begin(&self, work: Work);

    /// The work is done.
    fn done(&self, work: Work);
}

/// The gate that does nothing.
#[derive(Clone, Copy, PartialEq, Eq, Debug)]
pub struct IdleGate;

impl Gate for IdleGate {
    fn begin(&self, _work: Work) {}

    fn done(&self, _work: Work) {}
}
