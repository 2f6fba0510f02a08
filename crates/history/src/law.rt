use crate::entry::Entry;
use logbook::{Gain, Pen, Plain, Play, Rule};
use std::marker::Brand;

/// The rule of the book: each entry is added by the pen that the one before left, and none after
/// the end.
pub struct Law;

impl<E> Rule<Entry<E>, u64> for Law {
    ghost use Rattle.std.specs.Prelude.{[]};
    ghost use base.Fml.{ftrue};
    ghost use Rattle.history.specs.Rules.{IsKept};

    ghost holds = { IsKept };

    ghost first = { [] };

    ghost hinted = { λ n log. Unit {0} };

    ghost shows = { λ log. [] };

    ghost keeps = { λ names log. ftrue };

    ghost moves = { λ ask before after answer. Unit {0} };
}

/// A step that trades nothing with its caller.
pub struct Nothing;

impl<E> Gain<Entry<E>, u64> for Nothing {
    ghost use base.Fml.{ftrue};

    ghost after = { λ names about answer. ftrue };
}

/// A step that adds a cell, and gives its pen.
pub struct Draw;

impl<E> Play<Entry<E>, u64> for Draw {
    ghost use Rattle.history.specs.Rules.{Draws};

    ghost then = { Draws };
}

impl<E> Plain<(), Entry<E>, u64> for Draw {
    ghost use Rattle.std.specs.Prelude.{None};
    ghost use Rattle.history.specs.declared.entry.Event.TheVariants.{Finish};

    ghost ask = { λ about. record { event = Finish; key = 0 } };

    ghost state = { λ about. None };
}

/// A step that adds the first entry, if there is none.
pub struct Begin;

impl<E> Play<Entry<E>, u64> for Begin {
    ghost use Rattle.history.specs.Rules.{Begins};

    ghost then = { Begins };
}

/// A step that adds an entry.
pub struct Add;

impl<E> Play<Entry<E>, u64> for Add {
    ghost use Rattle.history.specs.Rules.{Adds};

    ghost then = { Adds };
}

/// What is published next, with the pen for what comes after it.
#[derive(Drop)]
pub struct Next<'a, E> {
    pub item: &'a E,
    pub pen: &'a Pen,
}

impl<'a, E> Plain<Next<'a, E>, Entry<E>, u64> for Add {
    ghost use Rattle.std.specs.Prelude.{None};
    ghost use Rattle.history.specs.declared.entry.Event.TheVariants.{Publish};

    ghost ask = { λ about. record {
      event = Publish about.item.now;
      key = about.pen.now.nib.key;
    } };

    ghost state = { λ about. None };
}

/// The end of the history.
#[derive(Drop)]
pub struct End;

impl<E> Plain<End, Entry<E>, u64> for Add {
    ghost use Rattle.std.specs.Prelude.{None};
    ghost use Rattle.history.specs.declared.entry.Event.TheVariants.{Finish};

    ghost ask = { λ about. record { event = Finish; key = 0 } };

    ghost state = { λ about. None };
}

/// A step that adds nothing, by whose pen the log can be added to.
pub struct Stay;

impl<E> Play<Entry<E>, u64> for Stay {
    ghost use Rattle.history.specs.Rules.{Stays};

    ghost then = { Stays };
}

impl<E> Plain<Pen, Entry<E>, u64> for Stay {
    ghost use Rattle.std.specs.Prelude.{None};
    ghost use Rattle.history.specs.declared.entry.Event.TheVariants.{Finish};

    ghost ask = { λ pen. record { event = Finish; key = pen.nib.key } };

    ghost state = { λ pen. None };
}

/// Which history it is. Whoever opens one picks its name, as a type parameter of the call.
pub trait Naming {
    ghost use Rattle.logbook.specs.Pages.{Book};

    ghost book: { Book };
}

impl Naming for Brand {
    ghost book = { record { number = 0; log_name = 0; cells_name = 0 } };
}
