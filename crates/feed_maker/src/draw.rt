ghost use Rattle.std.specs.Prelude.{◌<◌};

/// Numbers that look random (Knuth's MMIX generator). The same seed gives the same numbers.
#[derive(Drop)]
pub struct Draw(u64);

impl Draw {
    /// The numbers of a seed.
    pub fn new(seed: u64) -> Draw {
        Draw(seed)
    }

    /// A number below a bound that isn't 0.
    pub fn below(&mut self, bound: u32) -> u32
        requires { 0 < bound }
        ensures { result < bound }
    {
        self.0 = self
            .0
            .wrapping_mul(6_364_136_223_846_793_005)
            .wrapping_add(1_442_695_040_888_963_407);
        (self.0 >> 32) as u32 % bound
    }

    /// What comes once in so many draws.
    pub fn one_in(&mut self, turns: u32) -> bool
        requires { 0 < turns }
    {
        self.below(turns) == 0
    }
}
