ghost use Rattle.std.specs.Prelude.{◌≡◌, ◌⊎◌};
ghost use Rattle.history.specs.Lists.{Extends};

use crate::entry::Entry;
use crate::law::{Law, Naming};
use logbook::Seen;
use std::marker::{Model, PhantomData};

/// A beginning of the history named `J`. Contracts see it as the list of what was published, with
/// the mark that the history is closed.
#[derive(Drop)]
pub struct Front<E, J: Naming> {
    pub(crate) seen: Seen<Entry<E>, u64, Law>,
    pub(crate) of: PhantomData<J>,
}

impl<E, J: Naming> Model for Front<E, J> {
    ghost use Rattle.std.specs.Prelude.{◌≡◌};
    ghost use Rattle.history.specs.Lists.{Shown};
    ghost use Rattle.history.specs.Logs.{shown, Legal};

    ghost Value = { Shown E };

    ghost view = { λ f. shown f.seen.log };

    ghost invariant = { λ f. (f.seen.book ≡ J.book) × Legal f.seen.log };
}

impl<E, J: Naming> Front<E, J> {
    /// The same beginning once more.
    pub fn again(&self) -> Front<E, J>
        ensures { result ≡ self.now }
    {
        Front {
            seen: self.seen.again(),
            of: PhantomData,
        }
    }

    /// Of two beginnings of one history one extends the other. Does nothing.
    pub fn compare(&self, other: &Front<E, J>)
        ensures { Extends self.now other.now ⊎ Extends other.now self.now }
    {
        let mut both = self.seen.again();
        both.learn(&other.seen);
    }
}
