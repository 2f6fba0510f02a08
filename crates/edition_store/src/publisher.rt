ghost use Rattle.std.specs.Prelude.{◌≡◌, ◌-◌, ◌^◌, ◌<◌, [], ◌∷◌, ◌++◌, length, false, IfErr, IfOk};
ghost use Rattle.history.specs.Lists.{Shown, Extends};
ghost use Rattle.edition_store.specs.Lists.{RefusedData};

use crate::content::Content;
use crate::edition::Edition;
use crate::pinned::{Last, Pinned, Receipt};
use crate::rule::{Kept, Sees, View};
use crate::shared::Shared;
use history::{History, Naming};
use left_right::writer::Writer;
use std::marker::Model;
use std::sync::Wait;
use tb_base::Memory;

/// The writer's side of two copies, each of whose operations is a whole value.
pub type Writing<C> = Writer<C, C, View, Kept>;

/// What shows a list to readers.
pub trait Shows {
    ghost use Rattle.history.specs.Lists.{Shown};
    ghost use Rattle.edition_store.specs.Editions.{EditionData};

    ghost shown: { Self → Shown EditionData };
}

impl<J: Naming> Shows for Writer<Content<J>, Content<J>, View, Kept> {
    ghost shown = { λ w. w.desk.shown.value };
}

/// The one who publishes, with the writer `W`. What readers see is the list of the publisher. (A
/// struct's field can't have the type of the writer itself, since a `Content<J>` absorbs by a
/// generic impl.)
pub struct Publishing<J: Naming, W: Shows> {
    history: History<Edition, J>,
    kept: Content<J>,
    writer: W,
}

impl<J: Naming, W: Shows> Model for Publishing<J, W> {
    ghost use Rattle.std.specs.Prelude.{◌≡◌, List, false};
    ghost use Rattle.edition_store.specs.Editions.{EditionData};

    ghost Value = { List EditionData };

    ghost view = { λ p. p.history.list };

    ghost invariant = { λ p. (p.kept ≡ p.history) × (W.shown p.writer ≡ p.history)
        × (p.history.closed ≡ false) };
}

/// The one who publishes, which contracts see as its list. It can't be dropped: `finish` ends it.
pub type Publisher<J> = Publishing<J, Writing<Content<J>>>;

/// What is left where a publication was refused, with the writer `W`.
pub struct Refusing<J: Naming, W: Shows> {
    content: Content<J>,
    writer: W,
}

impl<J: Naming, W: Shows> Model for Refusing<J, W> {
    ghost use Rattle.std.specs.Prelude.{◌≡◌, true};
    ghost use Rattle.edition_store.specs.Lists.{RefusedData};

    ghost Value = { RefusedData };

    ghost view = { λ r. record { shown = (W.shown r.writer).list; whole = r.content.list } };

    ghost invariant = { λ r. r.content.closed ≡ true };
}

/// What is left where a publication was refused. Contracts see the list that seats are shown, and
/// that with the refused edition. It can't be dropped: `end` ends it.
pub type Refused<J> = Refusing<J, Writing<Content<J>>>;

// The list with one more edition, which the history has then too.
fn grown<J: Naming>(
    history: &mut History<Edition, J>,
    now: &Content<J>,
    edition: Shared,
) -> Content<J>
    requires same { now.now ≡ history.old }
    requires room { length now.now.list < 2 ^ 32 - 1 }
    ensures history { history.new ≡
        record { list = history.old.list ++ edition ∷ []; closed = false } }
    ensures list { result ≡ history.new }
{
    history.publish(edition.edition());
    Content {
        number: now.number() + 1,
        last: edition,
        closed: false,
        front: history.front(),
    }
}

// Shows the readers none any more. What they were shown is dropped by a call: at the end of a scope
// each part of it would be dropped by itself, and the proof would go through all of them.
fn hide<J: Naming, R: Wait>(rt: &R, writer: Writing<Content<J>>) {
    drop(writer.take(rt));
}

// Shows the readers the next list. At a refusal they are shown what they were shown.
fn show<J: Naming, R: Wait>(
    rt: &R,
    writer: Writing<Content<J>>,
    next: Content<J>,
) -> Result<Writing<Content<J>>, Writing<Content<J>>>
    requires { Extends next writer.desk.shown.value }
    ensures shown { IfOk result (λ w. w.desk.shown.value ≡ next) }
    ensures refused { IfErr result (λ w. w.desk.shown.value ≡ writer.desk.shown.value) }
{
    let mut writer = writer;
    if writer.append(next).is_err() {
        return Err(writer);
    }
    let (writer, done) = writer.publish_as::<Sees, R>(rt);
    if done.is_err() {
        return Err(writer);
    }
    Ok(writer)
}

// What is left where readers aren't shown the last list of the history, which is closed.
fn refused<J: Naming>(
    history: History<Edition, J>,
    writer: Writing<Content<J>>,
    content: Content<J>,
) -> Refused<J>
    requires { content ≡ history }
    ensures shown { result.shown ≡ writer.desk.shown.value.list }
    ensures whole { result.whole ≡ history.list }
{
    Refusing {
        content: content.closed_by(history.finish()),
        writer,
    }
}

// The publisher of a list that its history has, which readers aren't shown yet; and a receipt.
fn turned<J: Naming, R: Wait>(
    rt: &R,
    history: History<Edition, J>,
    writer: Writing<Content<J>>,
    content: Content<J>,
) -> Result<(Publisher<J>, Receipt<J>), Refused<J>>
    requires content { content ≡ history }
    requires open { history.closed ≡ false }
    requires shown { Extends content writer.desk.shown.value }
    ensures list { IfOk result (λ t. t.0 ≡ history.list) }
    ensures receipt { IfOk result (λ t. t.1 ≡ history) }
    ensures shown { IfErr result (λ (r : RefusedData). r.shown ≡ writer.desk.shown.value.list) }
    ensures whole { IfErr result (λ (r : RefusedData). r.whole ≡ history.list) }
{
    match content.shares() {
        Ok((next, told)) => match show(rt, writer, next) {
            Ok(writer) => {
                let receipt = Receipt { content: told };
                Ok((Publishing::over(history, content, writer), receipt))
            }
            Err(writer) => {
                drop(told);
                Err(refused(history, writer, content))
            }
        },
        Err(Memory) => Err(refused(history, writer, content)),
    }
}

impl<J: Naming> Publishing<J, Writing<Content<J>>> {
    pub(crate) fn over(
        history: History<Edition, J>,
        kept: Content<J>,
        writer: Writing<Content<J>>,
    ) -> Publisher<J>
        requires kept { kept ≡ history }
        requires shown { writer.desk.shown.value ≡ history }
        requires open { history.closed ≡ false }
        ensures { result ≡ history.list }
    {
        Publishing {
            history,
            kept,
            writer,
        }
    }

    /// How many editions were published.
    pub fn count(&self) -> u32
        ensures { result ≡ length self.now }
    {
        self.kept.number()
    }

    /// A list that was pinned was published: the publisher's list begins with it by now. Changes
    /// nothing.
    pub fn covers(&mut self, pinned: &Pinned<J>)
        ensures covers { Extends (record { list = self.old; closed = false }) pinned.now }
        ensures same { self.new ≡ self.old }
    {
        self.history.covers(&pinned.content.front);
    }

    /// Appends the edition to the list in one step. May wait for readers that are just entering.
    /// Refused only for want of memory: seats are shown the list as it was before, and nobody
    /// publishes any more.
    pub fn publish<R: Wait>(
        self,
        rt: &R,
        edition: Shared,
    ) -> Result<(Publisher<J>, Receipt<J>), Refused<J>>
        requires room { length self < 2 ^ 32 - 1 }
        ensures list { IfOk result (λ t. t.0 ≡ self ++ edition ∷ []) }
        ensures receipt { IfOk result (λ t. t.1 ≡
            record { list = self ++ edition ∷ []; closed = false }) }
        ensures shown { IfErr result (λ (r : RefusedData). r.shown ≡ self) }
        ensures whole { IfErr result (λ (r : RefusedData). r.whole ≡ self ++ edition ∷ []) }
    {
        let Publishing {
            mut history,
            kept,
            writer,
        } = self;
        let content = grown(&mut history, &kept, edition);
        drop(kept);
        turned(rt, history, writer, content)
    }

    /// Closes the list, to which nothing is added any more, and gives all of it. From then on no
    /// seat is let in: each pins what it keeps until it has learned the end. May wait for readers
    /// that are just entering. Never refused.
    pub fn finish<R: Wait>(self, rt: &R) -> Last<J>
        ensures { result ≡ self }
    {
        let Publishing {
            history,
            kept,
            writer,
        } = self;
        hide(rt, writer);
        Last {
            content: kept.closed_by(history.finish()),
        }
    }
}

impl<J: Naming> Refusing<J, Writing<Content<J>>> {
    /// Closes the list, of which the refused edition is the last one: what seats pinned before is a
    /// first part of it, of which no more is known. From then on no seat is let in: each pins what
    /// it keeps. May wait for readers that are just entering.
    pub fn end<R: Wait>(self, rt: &R) -> Last<J>
        ensures { result ≡ self.whole }
    {
        let Refusing { content, writer } = self;
        hide(rt, writer);
        Last { content }
    }
}
