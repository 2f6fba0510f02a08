//! What is asked, drawn by numbers that look random.
ghost use Rattle.std.specs.Prelude.{◌<◌, ◌≤ℤ◌, pos};

use feed_maker::Draw;
use tb_base::Sec;

/// Two stops, by their numbers.
#[derive(Clone, Copy)]
pub struct Pair {
    pub from: u32,
    pub to: u32,
}

impl Pair {
    /// Two of so many stops.
    pub fn drawn(draw: &mut Draw, stops: u32) -> Pair
        requires { 0 < stops }
        ensures from { result.from < stops }
        ensures to { result.to < stops }
    {
        let from = draw.below(stops);
        let to = draw.below(stops);
        Pair { from, to }
    }
}

/// A time of the day.
pub fn time_of_day(draw: &mut Draw) -> Sec
    ensures { result ≤ℤ pos 359999 }
{
    draw.below(86_400) as i32
}
