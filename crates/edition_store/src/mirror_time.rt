//! Times that run backwards.
ghost use Rattle.std.specs.Prelude.{◌≡◌, ◌≤ℤ◌, negsuc};
ghost use Rattle.edition_store.specs.Mirror.{mirror_time};

use tb_base::Sec;

// The latest time that an event may have, less the seconds by which the earliest is before 0.
const END: Sec = 273_599;

/// A time in the mirror: the seconds from it until 273,599.
pub fn mirrored_time(time: Sec) -> Sec
    requires { negsuc 86399 ≤ℤ time }
    ensures { result ≡ mirror_time time }
{
    END - time
}
