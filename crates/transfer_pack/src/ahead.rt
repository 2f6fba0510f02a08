use std::marker::Model;

/// What was read ahead, so that it is at hand when it is looked at. No call and no clause tells
/// anything of it.
///
/// What is read ahead decides nothing, so the processor waits for many reads at once. It is folded
/// into one number so that no compiler leaves the reads out.
#[derive(Drop)]
pub struct ReadAhead {
    folded: u32,
}

impl Model for ReadAhead {
    ghost use Rattle.std.specs.Prelude.{⊤};

    ghost Value = { ⊤ };

    ghost view = { λ _. tt };
}

impl ReadAhead {
    /// Nothing yet.
    pub fn new() -> ReadAhead {
        ReadAhead { folded: 0 }
    }

    /// One number more that was read.
    pub fn take(&mut self, number: u32) {
        self.folded ^= number;
    }

    /// What another has read.
    pub fn join(&mut self, other: ReadAhead) {
        self.folded ^= other.folded;
    }
}
