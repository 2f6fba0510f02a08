ghost use Rattle.std.specs.Prelude.{◌≡◌, ◌++◌, ◌∷◌, [], true, false, IfSome};
ghost use Rattle.logbook.specs.Pages.{may_write};
ghost use Rattle.history.specs.Rules.{head_of};
ghost use Rattle.history.specs.Lists.{Extends, Shown};

use crate::entry::Entry;
use crate::front::Front;
use crate::law::{Add, Begin, Draw, End, Law, Naming, Next, Nothing, Stay};
use logbook::{Offer, Pen, Seen, Start, Word};
use std::marker::{Model, PhantomData};

/// A history with no entry and no name yet.
#[derive(Drop)]
pub struct Opened<E> {
    head: Word<Entry<E>, u64, Law>,
    pub seen: Seen<Entry<E>, u64, Law>,
    ghost head_is: { head ≡ head_of seen.book },
}

impl<E> Opened<E> {
    /// A new one.
    pub fn new() -> Opened<E> {
        let (seen, mut first, _second) = Seen::open(Start::alone(), 0, 0);
        Opened {
            head: Word::tracked(0, &mut first),
            seen,
        }
    }

    /// The history under the name `J`, with what was published first. `None` never comes, of which
    /// there is no proof.
    pub fn begin<J: Naming>(self, first: &E) -> Option<History<E, J>>
        requires { self.seen.book ≡ J.book }
        ensures { IfSome result (λ h. h ≡ record { list = first.now ∷ []; closed = false }) }
    {
        let Opened { head, mut seen } = self;
        let pen = draw(&head, &seen);
        let mut offer: Offer<Entry<E>, u64, Law, Nothing> = seen.plain::<Nothing, Next<'_, E>, Add>(
            &Next {
                item: first,
                pen: &pen,
            },
        );
        let mut none = seen.no_pen();
        let found = head.compare_exchange::<Begin, Nothing>(0, 1, &mut seen, &mut offer, &mut none);
        if found != 0 {
            return None;
        }
        Some(History {
            head,
            pen,
            seen,
            of: PhantomData,
        })
    }
}

// The pen of a new cell.
fn draw<E>(head: &Word<Entry<E>, u64, Law>, seen: &Seen<Entry<E>, u64, Law>) -> Pen
    requires { head.now ≡ head_of seen.now.book }
    ensures { (result.book ≡ seen.now.book) × (result.nib.right ≡ may_write) }
{
    let mut seen = seen.again();
    let mut offer: Offer<Entry<E>, u64, Law, Nothing> = seen.plain::<Nothing, (), Draw>(&());
    let mut pen = seen.no_pen();
    head.compare_exchange::<Draw, Nothing>(0, 0, &mut seen, &mut offer, &mut pen);
    let _word: Word<Entry<E>, u64, Law> = Word::tracked(0, &mut pen);
    pen
}

/// The whole history named `J`, and the right to add to it. There is one.
#[derive(Drop)]
pub struct History<E, J: Naming> {
    head: Word<Entry<E>, u64, Law>,
    pen: Pen,
    seen: Seen<Entry<E>, u64, Law>,
    of: PhantomData<J>,
}

impl<E, J: Naming> Model for History<E, J> {
    ghost use Rattle.std.specs.Prelude.{◌≡◌, false};
    ghost use Rattle.logbook.specs.Pages.{may_write};
    ghost use Rattle.history.specs.Lists.{Shown};
    ghost use Rattle.history.specs.Logs.{shown, Legal, Guarded};
    ghost use Rattle.history.specs.Rules.{head_of};

    ghost Value = { Shown E };

    ghost view = { λ h. shown h.seen.log };

    ghost invariant = { λ h. (h.head ≡ head_of J.book) × (h.seen.book ≡ J.book)
        × (h.pen.book ≡ J.book) × (h.pen.nib.right ≡ may_write) × Guarded h.pen.nib.key h.seen.log
        × ((shown h.seen.log).closed ≡ false) × Legal h.seen.log };
}

impl<E, J: Naming> History<E, J> {
    /// All that was written so far.
    pub fn front(&self) -> Front<E, J>
        ensures { result ≡ self.now }
    {
        Front {
            seen: self.seen.again(),
            of: PhantomData,
        }
    }

    /// Adds what is published next. Never refused.
    pub fn publish(&mut self, item: &E)
        ensures { self.new ≡ record { list = self.old.list ++ item.now ∷ []; closed = false } }
    {
        let pen = draw(&self.head, &self.seen);
        let mut offer: Offer<Entry<E>, u64, Law, Nothing> = self
            .seen
            .plain::<Nothing, Next<'_, E>, Add>(&Next { item, pen: &pen });
        self.head
            .compare_exchange::<Add, Nothing>(0, 1, &mut self.seen, &mut offer, &mut self.pen);
        self.pen = pen;
    }

    /// The history extends each beginning of it: nothing is known of it that wasn't written. Changes
    /// nothing.
    pub fn covers(&mut self, front: &Front<E, J>)
        ensures extends { Extends self.old front.now }
        ensures same { self.new ≡ self.old }
    {
        let mut both = self.seen.again();
        both.learn(&front.seen);
        let mut offer: Offer<Entry<E>, u64, Law, Nothing> = both.plain::<Nothing, Pen, Stay>(
            &self.pen,
        );
        self.head
            .compare_exchange::<Stay, Nothing>(0, 0, &mut both, &mut offer, &mut self.pen);
    }

    /// Closes the history, and gives all of it: nothing comes after. Never refused.
    pub fn finish(self) -> Front<E, J>
        ensures { result ≡ record { list = self.list; closed = true } }
    {
        let History {
            head,
            mut pen,
            mut seen,
            of: _,
        } = self;
        let mut offer: Offer<Entry<E>, u64, Law, Nothing> = seen.plain::<Nothing, End, Add>(&End);
        head.compare_exchange::<Add, Nothing>(0, 1, &mut seen, &mut offer, &mut pen);
        Front {
            seen,
            of: PhantomData,
        }
    }
}
