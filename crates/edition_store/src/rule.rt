ghost use Rattle.std.specs.Prelude.{◌≡◌, [], false};
ghost use Rattle.history.specs.Lists.{Shown, Extends};
ghost use Rattle.edition_store.specs.Rules.{IsKept};

use crate::content::Content;
use crate::edition::Edition;
use crossbeam_utils::rule::{Outcome, Protocol};
use history::Naming;
use std::marker::Model;

/// The list that a side saw last: the writer's when it published, a reader's when it entered. No
/// value of it is ever made.
pub struct View {
    list: [Edition; 0],
    closed: bool,
}

impl Model for View {
    ghost use Rattle.history.specs.Lists.{Shown};
    ghost use Rattle.edition_store.specs.Editions.{EditionData};

    ghost Value = { Shown EditionData };

    ghost view = { λ v. record { list = v.list; closed = v.closed } };
}

/// The rule between any two steps: the published list was seen by who published it, and extends
/// each list that was seen.
pub struct Kept;

impl<J: Naming> Protocol<Content<J>, View> for Kept {
    ghost holds = { IsKept };

    ghost first = { record { list = []; closed = false } };
}

/// A step after which the list that is then published was seen. It extends what was seen before.
pub struct Sees;

impl<J: Naming> Outcome<Content<J>, View> for Sees {
    ghost then = { λ v x y w. Extends y v × (w ≡ y) };
}
