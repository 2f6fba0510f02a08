//! How many changes closing adds and lowers.
ghost use Rattle.std.specs.Prelude.{◌≡◌, ◌<◌, Some, length, count_by};
ghost use Rattle.footpaths.specs.Footpaths.{numbers};
ghost use Rattle.tb_base.specs.Walking.{change_between};
ghost use Rattle.foot_close.specs.Shortest.{closure_of};
ghost use Rattle.foot_close.specs.Closing.{pair_count, is_added, is_lowered};

use crate::table::Table;
use tb_base::StopNo;

// Whether so many seconds are fewer than those of the given change.
fn is_lowered(given: Option<u32>, secs: u64) -> bool
    ensures { result ≡ Rattle.foot_close.specs.Closing.is_lowered given (Some secs) }
{
    match given {
        Some(given) => secs < u64::from(given),
        None => false,
    }
}

impl Table {
    // How many changes from a stop were not given.
    fn added_from(&self, from: StopNo) -> u32
        requires { from < length self.now.change }
        ensures { result ≡ count_by
            (λ q. is_added (change_between self.now from q) (closure_of self.now from q))
            (numbers (length self.now.change)) }
    {
        self.soundness();
        let mut count: u32 = 0;
        for reached in self.row(from) {
            if self.given_secs(from, reached.stop).is_none() {
                count += 1;
            }
        }
        count
    }

    // How many changes from a stop take fewer seconds than the given one.
    fn lowered_from(&self, from: StopNo) -> u32
        requires { from < length self.now.change }
        ensures { result ≡ count_by
            (λ q. is_lowered (change_between self.now from q) (closure_of self.now from q))
            (numbers (length self.now.change)) }
    {
        self.soundness();
        let mut count: u32 = 0;
        for reached in self.row(from) {
            if is_lowered(self.given_secs(from, reached.stop), reached.secs) {
                count += 1;
            }
        }
        count
    }

    /// How many ordered pairs of stops have a change that was not given.
    pub fn added(&self) -> u64
        ensures { result ≡ pair_count (length self.now.change)
            (λ p q. is_added (change_between self.now p q) (closure_of self.now p q)) }
    {
        self.soundness();
        let mut count: u64 = 0;
        for from in 0..self.stops() {
            count += u64::from(self.added_from(StopNo(from)));
        }
        count
    }

    /// How many ordered pairs of stops have a change that takes fewer seconds than the given one.
    pub fn lowered(&self) -> u64
        ensures { result ≡ pair_count (length self.now.change)
            (λ p q. is_lowered (change_between self.now p q) (closure_of self.now p q)) }
    {
        self.soundness();
        let mut count: u64 = 0;
        for from in 0..self.stops() {
            count += u64::from(self.lowered_from(StopNo(from)));
        }
        count
    }
}
