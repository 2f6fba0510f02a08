//! The test of the law on footpaths.
ghost use Rattle.std.specs.Prelude.{◌≡◌, ◌≢◌, ◌<◌, ◌≤◌, ◌+◌, ℕ, Some, MatchResult, length};
ghost use Rattle.tb_base.specs.Walking.{KeepsFootpathLaw, footpath_secs};
ghost use Rattle.footpaths.specs.Law.{IsGood, IsBreach, IsFirstOver, IsFirstFrom, IsFirstBreach};
ghost use Rattle.tb_base.specs.Soundness.{IsSoundFootpaths};

use crate::Paths;
use tb_base::{Path, StopNo};

/// A breach of the law on footpaths at three stops: from the first over the second to the third.
/// Absent where there is no change from the first to the third, Long where it takes more seconds
/// than the two footpaths.
#[derive(Debug, Clone, Copy, PartialEq, Eq)]
pub enum LawFault {
    Absent(StopNo, StopNo, StopNo),
    Long(StopNo, StopNo, StopNo),
}

// The law at two footpaths, one after the other.
fn test_one(paths: &Paths, p: StopNo, first: &Path, second: &Path) -> Result<(), LawFault>
    requires sound { IsSoundFootpaths paths.now }
    requires from { p < length paths.now.paths }
    requires away { p ≢ first.now.to }
    requires onward { first.now.to ≢ second.now.to }
    requires first { footpath_secs paths.now p first.now.to ≡ Some first.now.secs }
    requires second { footpath_secs paths.now first.now.to second.now.to ≡ Some second.now.secs }
    requires fits { first.now.secs + second.now.secs < 4294967296 }
    ensures { MatchResult result (λ _. IsGood paths.now p first.now.to second.now.to)
        (IsBreach paths.now p first.now.to second.now.to) }
{
    match paths.change_between(p, second.to) {
        None => Err(LawFault::Absent(p, first.to, second.to)),
        Some(secs) => {
            if secs > first.secs + second.secs {
                return Err(LawFault::Long(p, first.to, second.to));
            }
            Ok(())
        }
    }
}

// The law at the ways over the end of a footpath.
fn test_over(paths: &Paths, p: StopNo, first: &Path) -> Result<(), LawFault>
    requires sound { IsSoundFootpaths paths.now }
    requires from { p < length paths.now.paths }
    requires away { p ≢ first.now.to }
    requires to { first.now.to < length paths.now.paths }
    requires first { footpath_secs paths.now p first.now.to ≡ Some first.now.secs }
    requires day { first.now.secs ≤ 86400 }
    ensures { MatchResult result (λ _. (r : ℕ) → IsGood paths.now p first.now.to r)
        (IsFirstOver paths.now p first.now.to) }
{
    for second in paths.leaving(first.to) {
        test_one(paths, p, first, second)?;
    }
    Ok(())
}

// The law at the ways from a stop.
fn test_from(paths: &Paths, p: StopNo) -> Result<(), LawFault>
    requires sound { IsSoundFootpaths paths.now }
    requires from { p < length paths.now.paths }
    ensures { MatchResult result (λ _. (q r : ℕ) → IsGood paths.now p q r)
        (IsFirstFrom paths.now p) }
{
    for first in paths.leaving(p) {
        test_over(paths, p, first)?;
    }
    Ok(())
}

/// Whether the law on footpaths holds: where footpaths lead from p to q and from q to r, of
/// different stops each and r = p among them, the change from p to r is there and takes at most
/// their sum. Refused exactly where it doesn't, with the first triple in order of the three
/// numbers.
pub fn test_law(paths: &Paths) -> Result<(), LawFault>
    requires { IsSoundFootpaths paths.now }
    ensures { MatchResult result (λ _. KeepsFootpathLaw paths.now)
        (IsFirstBreach paths.now) }
{
    let count = paths.paths.len() as u32;
    for p in 0..count {
        test_from(paths, StopNo(p))?;
    }
    Ok(())
}
