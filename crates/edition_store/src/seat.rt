ghost use Rattle.std.specs.Prelude.{◌≡◌, true, false, IfOk, IfErr, MatchOption, MatchBool, ⊤};
ghost use Rattle.left_right.specs.Sides.{view};
ghost use Rattle.history.specs.Lists.{Shown, Extends};
ghost use Rattle.edition_store.specs.Lists.{longer};

use crate::content::Content;
use crate::pinned::{Last, Pinned, Receipt};
use crate::publisher::Writing;
use crate::rule::{Kept, Sees, View};
use history::Naming;
use left_right::reader::Reader;
use std::marker::Model;
use tb_base::Memory;

/// A place to pin from. It keeps the longest list that it has pinned or learned, which is how
/// contracts see it.
#[derive(Drop)]
pub struct Seat<J: Naming> {
    pub(crate) kept: Content<J>,
    reader: Option<Reader<Content<J>, View, Kept>>,
    // The kept list is the one that the reader saw last.
    fresh: bool,
}

impl<J: Naming> Model for Seat<J> {
    ghost use Rattle.std.specs.Prelude.{◌≡◌, true, IfSome};
    ghost use Rattle.left_right.specs.Sides.{view as seen};
    ghost use Rattle.history.specs.Lists.{Shown};
    ghost use Rattle.edition_store.specs.Editions.{EditionData};

    ghost Value = { Shown EditionData };

    ghost view = { λ s. s.kept };

    ghost invariant = { λ s. s.fresh ≡ true → IfSome s.reader (λ r. seen r.place ≡ s.kept) };
}

// Two shares of the list that is published now; `None` where the reader is not let in.
fn look<J: Naming>(
    reader: Reader<Content<J>, View, Kept>,
) -> (
    Reader<Content<J>, View, Kept>,
    Option<Result<(Content<J>, Content<J>), Memory>>,
)
    ensures same { MatchOption result.1 ⊤ (λ o. IfOk o (λ t. t.1 ≡ t.0)) }
    ensures later { MatchOption result.1 ⊤ (λ o. IfOk o (λ t. Extends t.0 (view reader.place))) }
    ensures seen { MatchOption result.1 (view result.0.place ≡ view reader.place)
        (λ o. IfOk o (λ t. view result.0.place ≡ t.0)) }
{
    match reader.enter_as::<Sees>() {
        Ok(reading) => {
            let shares = reading.get().shares();
            (reading.leave(), Some(shares))
        }
        Err(reader) => (reader, None),
    }
}

// Whether the list that was seen extends the kept one. Where the kept list was seen before, the
// rule of the two copies says so.
fn goes_on<J: Naming>(kept: &Content<J>, fresh: bool, seen: &Content<J>) -> bool
    requires { fresh ≡ true → Extends seen.now kept.now }
    ensures { MatchBool result (Extends seen.now kept.now) (Extends kept.now seen.now) }
{
    fresh || !seen.is_behind(kept)
}

// Pins a list.
fn pinned<J: Naming>(list: &Content<J>) -> Result<Pinned<J>, Memory>
    ensures { IfOk result (λ p. p ≡ list.now) }
{
    Ok(Pinned {
        content: list.share()?,
    })
}

// Pins a list of which these are two shares, and keeps it, unless the kept one goes on from it; and
// whether it is kept.
fn pin_longer<J: Naming>(
    kept: &mut Content<J>,
    fresh: bool,
    one: Content<J>,
    two: Content<J>,
) -> (bool, Result<Pinned<J>, Memory>)
    requires same { two ≡ one }
    requires fresh { fresh ≡ true → Extends one kept.old }
    ensures fresh { result.0 ≡ true → kept.new ≡ one }
    ensures later { IfOk result.1 (λ p. Extends p kept.old) }
    ensures kept { IfOk result.1 (λ p. kept.new ≡ p) }
    ensures refused { IfErr result.1 (λ _. kept.new ≡ kept.old) }
{
    if goes_on(kept, fresh, &one) {
        *kept = one;
        (true, Ok(Pinned { content: two }))
    } else {
        drop(one);
        drop(two);
        (false, pinned(kept))
    }
}

impl<J: Naming> Seat<J> {
    // A seat that keeps the list, and has no reader yet.
    pub(crate) fn keeping(list: Content<J>) -> Seat<J>
        ensures { result ≡ list }
    {
        Seat {
            kept: list,
            reader: None,
            fresh: false,
        }
    }

    // Takes a reader, if there is one left.
    pub(crate) fn take_reader(&mut self, writer: &Writing<Content<J>>)
        ensures { self.new ≡ self.old }
    {
        self.fresh = false;
        self.reader = writer.factory().reader().ok();
    }

    /// A published list, which begins with each that the seat has pinned or learned. One step,
    /// which waits for nobody. Where the seat isn't let in, as after the end, it is the list that
    /// the seat keeps. Refused only for want of memory: the seat keeps the list that it kept.
    pub fn pin(&mut self) -> Result<Pinned<J>, Memory>
        ensures later { IfOk result (λ p. Extends p self.old) }
        ensures kept { IfOk result (λ p. self.new ≡ p) }
        ensures last { self.old.closed ≡ true → IfOk result (λ p. p ≡ self.old) }
        ensures refused { IfErr result (λ _. self.new ≡ self.old) }
    {
        if self.kept.is_closed() {
            return pinned(&self.kept);
        }
        let Some(reader) = self.reader.take() else {
            return pinned(&self.kept);
        };
        let (reader, seen) = look(reader);
        self.reader = Some(reader);
        match seen {
            None => pinned(&self.kept),
            Some(Ok((one, two))) => {
                let (fresh, list) = pin_longer(&mut self.kept, self.fresh, one, two);
                self.fresh = fresh;
                list
            }
            Some(Err(Memory)) => {
                self.fresh = false;
                Err(Memory)
            }
        }
    }

    // Keeps the list where it is longer than the one that is kept.
    fn keep(&mut self, list: &Content<J>) -> Result<(), Memory>
        ensures later { IfOk result (λ _. Extends self.new self.old) }
        ensures told { IfOk result (λ _. Extends self.new list.now) }
        ensures longer { IfOk result (λ _. self.new ≡ longer self.old list.now) }
        ensures refused { IfErr result (λ _. self.new ≡ self.old) }
    {
        if self.kept.is_behind(list) {
            self.kept = list.share()?;
            self.fresh = false;
        }
        Ok(())
    }

    /// From now on the seat pins no less than the list of the receipt. Waits for nobody. Refused
    /// only for want of memory: the seat has learned nothing then.
    pub fn learn(&mut self, receipt: &Receipt<J>) -> Result<(), Memory>
        ensures later { IfOk result (λ _. Extends self.new self.old) }
        ensures told { IfOk result (λ _. Extends self.new receipt.now) }
        ensures longer { IfOk result (λ _. self.new ≡ longer self.old receipt.now) }
        ensures refused { IfErr result (λ _. self.new ≡ self.old) }
    {
        self.keep(&receipt.content)
    }

    /// From now on the seat pins the whole list. Waits for nobody. Refused only for want of memory:
    /// the seat has learned nothing then.
    pub fn learn_last(&mut self, last: &Last<J>) -> Result<(), Memory>
        ensures later { IfOk result (λ _. Extends self.new self.old) }
        ensures whole { IfOk result (λ _. self.new ≡ record { list = last.now; closed = true }) }
        ensures refused { IfErr result (λ _. self.new ≡ self.old) }
    {
        self.keep(&last.content)
    }
}
