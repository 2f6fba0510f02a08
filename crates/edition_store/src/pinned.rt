ghost use Rattle.std.specs.Prelude.{◌≡◌, ◌⊎◌, ◌-◌, Some, true, length, slice_get};
ghost use Rattle.history.specs.Lists.{Shown, Extends};

use crate::content::Content;
use crate::edition::Edition;
use crate::seat::Seat;
use history::Naming;
use std::marker::Model;

/// A published list of editions. It takes no reader's place, so it may be held for as long as one
/// likes.
#[derive(Drop)]
pub struct Pinned<J: Naming> {
    pub(crate) content: Content<J>,
}

impl<J: Naming> Model for Pinned<J> {
    ghost use Rattle.history.specs.Lists.{Shown};
    ghost use Rattle.edition_store.specs.Editions.{EditionData};

    ghost Value = { Shown EditionData };

    ghost view = { λ p. p.content };
}

/// Knows the list as it was after one publication.
#[derive(Drop)]
pub struct Receipt<J: Naming> {
    pub(crate) content: Content<J>,
}

impl<J: Naming> Model for Receipt<J> {
    ghost use Rattle.history.specs.Lists.{Shown};
    ghost use Rattle.edition_store.specs.Editions.{EditionData};

    ghost Value = { Shown EditionData };

    ghost view = { λ r. r.content };
}

/// Knows the whole list, to which nothing is added any more.
#[derive(Drop)]
pub struct Last<J: Naming> {
    pub(crate) content: Content<J>,
}

impl<J: Naming> Model for Last<J> {
    ghost use Rattle.std.specs.Prelude.{◌≡◌, List, true};
    ghost use Rattle.edition_store.specs.Editions.{EditionData};

    ghost Value = { List EditionData };

    ghost view = { λ l. l.content.list };

    ghost invariant = { λ l. l.content.closed ≡ true };
}

impl<J: Naming> Pinned<J> {
    /// How many editions the list has.
    pub fn number(&self) -> u32
        ensures { result ≡ length self.now.list }
    {
        self.content.number()
    }

    /// The last edition of the list.
    pub fn edition(&self) -> &Edition
        ensures { slice_get self.now.list (length self.now.list - 1) ≡ Some result.now }
    {
        self.content.edition()
    }

    /// Of two pinned lists of one store one extends the other. Does nothing.
    pub fn compare(&self, other: &Pinned<J>)
        ensures { Extends self.now other.now ⊎ Extends other.now self.now }
    {
        self.content.front.compare(&other.content.front);
    }
}

impl<J: Naming> Last<J> {
    /// How many editions the list has.
    pub fn number(&self) -> u32
        ensures { result ≡ length self.now }
    {
        self.content.number()
    }

    /// The whole list extends each pinned one. Does nothing.
    pub fn covers(&self, pinned: &Pinned<J>)
        ensures { Extends (record { list = self.now; closed = true }) pinned.now }
    {
        self.content.front.compare(&pinned.content.front);
    }

    /// The whole list extends what a seat keeps. Does nothing.
    pub fn covers_seat(&self, seat: &Seat<J>)
        ensures { Extends (record { list = self.now; closed = true }) seat.now }
    {
        self.content.front.compare(&seat.kept.front);
    }
}
