//! The ways that trips of the city head.
ghost use Rattle.std.specs.Prelude.{◌≡◌};
ghost use Rattle.feed_maker.specs.City.{heading_number};

/// Where a trip heads: along a row to the right or to the left, or along a column down or up.
#[derive(Clone, Copy, Debug, PartialEq, Eq)]
pub(crate) enum Heading {
    Rightward,
    Leftward,
    Downward,
    Upward,
}

impl Heading {
    // Its number, from 0 to 3.
    pub(crate) fn number(self) -> u32
        ensures { result ≡ heading_number self }
    {
        match self {
            Heading::Rightward => 0,
            Heading::Leftward => 1,
            Heading::Downward => 2,
            Heading::Upward => 3,
        }
    }
}
