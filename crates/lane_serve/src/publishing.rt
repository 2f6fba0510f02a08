//! Who publishes.
ghost use Rattle.std.specs.Prelude.{◌≡◌, ◌∷◌, [], ◌++◌, ◌<◌, ◌-◌, ◌^◌, IfOk, length};

use edition_store::{Naming, Publisher, Shared};
use std::sync::Wait;
use tb_base::Memory;

/// Who publishes editions of a list. What follows a plan is proved for any such type, since the
/// proof of a closure goes through each part of each type that it names.
pub(crate) trait Publishes {
    ghost use Rattle.std.specs.Prelude.{List};
    ghost use Rattle.edition_store.specs.Editions.{EditionData};

    ghost list: { Self → List EditionData };

    /// How many editions were published.
    fn number(&self) -> u32
        ensures { result ≡ length (list self.now) };

    /// Appends the edition to the list. At a refusal the list is ended.
    fn with_edition<R: Wait>(self, rt: &R, edition: Shared) -> Result<Self, Memory>
        requires { length (list self) < 2 ^ 32 - 1 }
        ensures { IfOk result (λ p. list p ≡ list self ++ edition ∷ []) };

    /// Ends a list of which nothing is asked any more.
    fn end<R: Wait>(self, rt: &R);
}

impl<J: Naming> Publishes for Publisher<J> {
    ghost list = { λ p. p };

    fn number(&self) -> u32 {
        self.count()
    }

    fn with_edition<R: Wait>(self, rt: &R, edition: Shared) -> Result<Publisher<J>, Memory> {
        match self.publish(rt, edition) {
            Ok((publisher, receipt)) => {
                drop(receipt);
                Ok(publisher)
            }
            Err(refused) => {
                drop(refused.end(rt));
                Err(Memory)
            }
        }
    }

    // What `finish` gives is dropped by a call: at the end of a scope each part of it would be
    // dropped by itself, and the proof would go through all of them.
    fn end<R: Wait>(self, rt: &R) {
        drop(self.finish(rt));
    }
}
