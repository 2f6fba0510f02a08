ghost use Rattle.std.specs.Prelude.{◌≡◌, ◌-◌, ◌<◌, Some, true, length, slice_get, IfOk, MatchBool};
ghost use Rattle.history.specs.Lists.{Extends};
ghost use Rattle.edition_store.specs.Lists.{is_longer};

use crate::edition::Edition;
use crate::shared::Shared;
use history::{Front, Naming};
use left_right::Absorb;
use std::alloc::AllocError;
use std::marker::Model;
use tb_base::Memory;

/// A beginning of the history: a list of editions, with the mark that nothing comes after it. At run
/// time it is the number of its editions and the last one alone, which is all that keeps an edition.
#[derive(Drop)]
pub struct Content<J: Naming> {
    pub(crate) number: u32,
    pub(crate) last: Shared,
    pub(crate) closed: bool,
    pub(crate) front: Front<Edition, J>,
}

impl<J: Naming> Model for Content<J> {
    ghost use Rattle.history.specs.Lists.{Shown};
    ghost use Rattle.edition_store.specs.Editions.{EditionData};
    ghost use Rattle.edition_store.specs.Lists.{Holds};

    ghost Value = { Shown EditionData };

    ghost view = { λ c. c.front };

    ghost invariant = { λ c. Holds c.front c.number c.last c.closed };
}

impl<J: Naming> Content<J> {
    /// One more share of the list. Refused only for want of memory.
    pub(crate) fn share(&self) -> Result<Content<J>, Memory>
        ensures { IfOk result (λ c. c ≡ self.now) }
    {
        Ok(Content {
            number: self.number,
            last: self.last.share()?,
            closed: self.closed,
            front: self.front.again(),
        })
    }

    /// Two more shares of the list. Refused only for want of memory.
    pub(crate) fn shares(&self) -> Result<(Content<J>, Content<J>), Memory>
        ensures first { IfOk result (λ t. t.0 ≡ self.now) }
        ensures second { IfOk result (λ t. t.1 ≡ self.now) }
    {
        Ok((self.share()?, self.share()?))
    }

    /// The list, to which nothing is added any more.
    pub(crate) fn closed_by(self, front: Front<Edition, J>) -> Content<J>
        requires { front ≡ record { list = self.list; closed = true } }
        ensures { result ≡ front }
    {
        let Content {
            number,
            last,
            closed: _,
            front: _,
        } = self;
        Content {
            number,
            last,
            closed: true,
            front,
        }
    }

    /// Whether the other list is closed, or the longer one.
    pub(crate) fn is_behind(&self, other: &Content<J>) -> bool
        ensures exact { result ≡ is_longer other.now self.now }
        ensures extends { MatchBool result (Extends other.now self.now)
            (Extends self.now other.now) }
    {
        self.front.compare(&other.front);
        other.closed || self.number < other.number
    }

    /// Whether nothing comes after the list.
    pub(crate) fn is_closed(&self) -> bool
        ensures { result ≡ self.now.closed }
    {
        self.closed
    }

    /// How many editions the list has.
    pub(crate) fn number(&self) -> u32
        ensures length { result ≡ length self.now.list }
        ensures some { 0 < result }
    {
        self.number
    }

    /// The last edition of the list.
    pub(crate) fn edition(&self) -> &Edition
        ensures { slice_get self.now.list (length self.now.list - 1) ≡ Some result.now }
    {
        self.last.edition()
    }
}

impl<J: Naming> Absorb<Content<J>> for Content<J> {
    type State = Content<J>;

    ghost state = { λ c. c };

    ghost applied = { λ _ c. c };

    fn absorb_first(
        &mut self,
        operation: &Content<J>,
        _other: &Content<J>,
    ) -> Result<(), AllocError> {
        *self = operation.share().map_err(|_| AllocError)?;
        Ok(())
    }
}
