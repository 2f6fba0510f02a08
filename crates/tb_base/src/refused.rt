use super::memory::Memory;

/// Why a call gives no answer: what it was given has this fault, or memory was wanting.
#[derive(Debug, Drop)]
pub enum Refused<F> {
    /// The first fault of what it was given.
    Fault(F),
    /// Want of memory, which may come at any call that takes memory.
    Memory,
}

impl<F> From<Memory> for Refused<F> {
    ghost use Rattle.std.specs.Prelude.{◌≡◌};
    ghost use Rattle.tb_base.specs.declared.refused.Refused.TheVariants as why;

    ghost from_gives = { λ _ refused. refused ≡ why.Memory };

    fn from(_refusal: Memory) -> Refused<F> {
        Refused::Memory
    }
}
