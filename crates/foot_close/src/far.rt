//! Changes of more than a day.
ghost use Rattle.std.specs.Prelude.{◌≡◌, ℕ, MatchOption, find, nat_lt};
ghost use Rattle.std.specs.Option.{option_map};
ghost use Rattle.foot_close.specs.Shortest.{closure_of};
ghost use Rattle.foot_close.specs.Closing.{IsNear, IsFirstFar};
ghost use Rattle.foot_close.specs.declared.search.Reached.{Reached};

use crate::search::Reached;
use crate::table::Table;
use tb_base::StopNo;

// The first stop that is more than a day away.
fn far_in(row: &[Reached]) -> Option<StopNo>
    ensures { result ≡ option_map (λ r. Reached.stop r)
        (find (λ r. nat_lt 86400 (Reached.secs r)) row.now) }
{
    for reached in row {
        if reached.secs > 86_400 {
            return Some(reached.stop);
        }
    }
    None
}

impl Table {
    /// The first two stops, in order of their numbers, that are more than a day apart.
    pub fn first_far(&self) -> Option<(StopNo, StopNo)>
        ensures { MatchOption result
            ((a b : ℕ) → IsNear (closure_of self.now) a b)
            (λ far. IsFirstFar (closure_of self.now) far.0 far.1) }
    {
        self.soundness();
        for from in 0..self.stops() {
            if let Some(to) = far_in(self.row(StopNo(from))) {
                return Some((StopNo(from), to));
            }
        }
        None
    }
}
