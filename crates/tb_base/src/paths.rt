ghost use Rattle.std.specs.Prelude.{◌≡◌, ◌<◌, ◌==◌, find, AllPairs, if◌then◌else◌};
ghost use Rattle.std.specs.Option.{option_map};

use super::numbers::StopNo;
use super::table::Path;

/// The seconds of the footpath to a stop, among those that leave one, which ascend by the stop that
/// they lead to. Takes time by the logarithm of their number.
pub fn path_secs(paths: &[Path], to: StopNo) -> Option<u32>
    requires { AllPairs (λ f g. f.to < g.to) paths.now }
    ensures { result ≡ option_map (λ f. f.secs) (find (λ f. f.to == to) paths.now) }
{
    match paths.binary_search_by_key(&to.index(), |path| path.to.index()) {
        Ok(place) => Some(paths[place].secs),
        Err(_) => None,
    }
}

/// The seconds from one stop to another: where both are one stop those within it, else those of the
/// footpath, among those that leave the first, which ascend by the stop that they lead to.
pub fn secs_between(within: Option<u32>, paths: &[Path], p: StopNo, q: StopNo) -> Option<u32>
    requires { AllPairs (λ f g. f.to < g.to) paths.now }
    ensures { result
        ≡ if p == q then within else option_map (λ f. f.secs) (find (λ f. f.to == q) paths.now) }
{
    if p.index() == q.index() {
        return within;
    }
    path_secs(paths, q)
}
