//! Calls that are numbered from 0, in the order in which they come.
ghost use Rattle.std.specs.Prelude.{◌≡◌};
ghost use Rattle.tb_io.specs.Calls.{CallsData, fails_next, after_call, no_calls};

use std::marker::Model;

// How many calls there were, and which of them fail.
#[derive(Drop)]
pub(crate) struct Calls {
    fails: Vec<u64>,
    next: u64,
    faults: u64,
}

impl Model for Calls {
    ghost Value = { CallsData };

    ghost view = { λ c. record { fails = c.fails.items; next = c.next; faults = c.faults } };
}

impl Calls {
    // No call yet.
    pub(crate) fn new(fails: Vec<u64>) -> Calls
        ensures { result ≡ no_calls fails.items }
    {
        Calls {
            fails,
            next: 0,
            faults: 0,
        }
    }

    // Whether the next call fails by its number.
    pub(crate) fn fails_next(&self) -> bool
        ensures { result ≡ fails_next self.now }
    {
        let next = self.next;
        next < u64::MAX && self.fails.contains(&next)
    }

    // Counts a call that failed or didn't.
    pub(crate) fn count(&mut self, failed: bool)
        ensures { self.new ≡ after_call self.old failed }
    {
        self.next = self.next.saturating_add(1);
        if failed {
            self.faults = self.faults.saturating_add(1);
        }
    }
}
