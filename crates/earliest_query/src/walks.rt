ghost use Rattle.std.specs.Prelude.{◌≡◌, ◌<◌, ◌≤◌, All, IfSome, IsTrue, ◌↔◌, length, pos, ◌+ℤ◌, ◌≤ℤ◌};
ghost use Rattle.tb_base.specs.Walking.{walk};
ghost use Rattle.earliest_query.specs.Choices.{AreOfGroup, IsFirstChoice, IsNearest, IsPreferred, nearer_of};

use segment_queue::Scan;
use tb_base::{Path, Query, Sec, StopNo, path_secs};

// The seconds of the walk from one stop to another, where there is one.
pub(crate) fn walk_secs<S: Scan>(scan: &S, p: StopNo, q: StopNo) -> Option<u32>
    requires { p < length (S.net scan.now).table.stops }
    ensures walk { result ≡ walk (S.net scan.now).table p q }
    ensures at_most_a_day { IfSome result (λ secs. secs ≤ 86400) }
{
    scan.soundness();
    if p.index() == q.index() {
        return Some(0);
    }
    if !scan.may_walk(p, q) {
        return None;
    }
    path_secs(scan.walks(p), q)
}

// The nearer of two, the first where they are as near.
fn nearer(best: Option<Path>, to: StopNo, secs: Option<u32>) -> Option<Path>
    ensures { result ≡ nearer_of best to secs }
{
    match (best, secs) {
        (Some(path), Some(secs)) => {
            if path.secs <= secs {
                Some(path)
            } else {
                Some(Path { to, secs })
            }
        }
        (None, Some(secs)) => Some(Path { to, secs }),
        (best, None) => best,
    }
}

// The nearest target to a stop.
pub(crate) fn nearest<S: Scan>(scan: &S, p: StopNo, targets: &[StopNo]) -> Option<Path>
    requires { p < length (S.net scan.now).table.stops }
    ensures nearest { IsNearest (S.net scan.now).table p targets.now result }
    ensures at_most_a_day { IfSome result (λ f. f.secs ≤ 86400) }
{
    let mut best = None;
    for target in targets {
        let secs = walk_secs(scan, p, *target);
        best = nearer(best, *target, secs);
    }
    best
}

// Whether all these stops are of a group.
fn are_of_group(groups: &[u32], group: u32, stops: &[StopNo]) -> bool
    ensures { IsTrue result → AreOfGroup groups.now group stops.now }
{
    for stop in stops {
        match groups.get(stop.index()) {
            Some(other) => {
                if *other != group {
                    return false;
                }
            }
            None => return false,
        }
    }
    true
}

// The group that all these stops are of, where they are of one.
pub(crate) fn common_group(groups: &[u32], stops: &[StopNo]) -> Option<u32>
    ensures { IfSome result (λ group. AreOfGroup groups.now group stops.now) }
{
    let first = stops.first()?;
    let group = *groups.get(first.index())?;
    if are_of_group(groups, group, stops) {
        Some(group)
    } else {
        None
    }
}

// Whether a walk is preferred to one of so many seconds, or to one of as many where it comes
// before.
fn is_preferred(walk: Option<u32>, secs: u32, before: bool) -> bool
    ensures { IsTrue result ↔ IsPreferred walk secs before }
{
    match walk {
        Some(other) => other < secs || (before && other == secs),
        None => false,
    }
}

// Whether a stop is boarded from the origin at this place, after a walk of so many seconds.
pub(crate) fn is_first_choice<S: Scan>(
    scan: &S,
    origins: &[StopNo],
    place: usize,
    stop: StopNo,
    secs: u32,
) -> bool
    requires origins { All (λ p. p < length (S.net scan.now).table.stops) origins.now }
    requires place { place ≤ length origins.now }
    ensures { IsTrue result ↔ IsFirstChoice (S.net scan.now).table origins.now place stop secs }
{
    for (b, origin) in origins.iter().enumerate() {
        if is_preferred(walk_secs(scan, *origin, stop), secs, b < place) {
            return false;
        }
    }
    true
}

// So many seconds after the asked time.
pub(crate) fn after(query: &Query, secs: u32) -> Sec
    requires leave { query.now.leave ≤ℤ pos 359999 }
    requires secs { secs ≤ 86400 }
    ensures { result ≡ query.now.leave +ℤ pos secs }
{
    query.leave + secs as i32
}

// The origins of a query.
pub(crate) fn origins(query: &Query) -> &[StopNo]
    ensures { result.now ≡ query.now.from }
{
    query.from.as_slice()
}

// Its targets.
pub(crate) fn targets(query: &Query) -> &[StopNo]
    ensures { result.now ≡ query.now.to }
{
    query.to.as_slice()
}
