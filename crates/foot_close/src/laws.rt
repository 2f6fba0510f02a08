//! Laws of closed footpaths. Each function does nothing: its contract is the law.
ghost use Rattle.std.specs.Prelude.{◌≡◌, ℕ};
ghost use Rattle.tb_base.specs.Walking.{KeepsFootpathLaw, change_between};
ghost use Rattle.footpaths.specs.Footpaths.{Changes};
ghost use Rattle.tb_base.specs.TimetableData.{FootpathData};
ghost use Rattle.tb_base.specs.Soundness.{IsSoundFootpaths};
ghost use Rattle.foot_close.specs.Closure.{IsClosure, IsClosed};
ghost use Rattle.foot_close.specs.Shortest.{closure_of};

/// What is closed keeps the law on footpaths.
pub fn closed_keeps_law()
    ensures { (given closed : FootpathData) → IsClosed given closed
        → KeepsFootpathLaw closed }
{}

/// There is at most one closure.
pub fn closure_unique()
    ensures { (given one other : Changes) → IsClosure given one → IsClosure given other
        → (p r : ℕ) → one p r ≡ other p r }
{}

/// There is a closure of all sound change times and footpaths.
pub fn closure_exists()
    ensures { (given : FootpathData) → IsSoundFootpaths given
        → IsClosure (change_between given) (closure_of given) }
{}
