ghost use Rattle.std.specs.Prelude.{◌≡◌, ◌<◌, ◌≤◌, [], ◌∷◌, ◌++◌, replicate, true, false, IfOk, OnOk};
ghost use Rattle.edition_store.specs.Rules.{IsFirst};

use crate::content::Content;
use crate::edition::Edition;
use crate::publisher::{Publisher, Publishing, Writing};
use crate::seat::Seat;
use crate::shared::Shared;
use history::{History, Naming, Opened};
use left_right::writer::Writer;
use std::alloc::Global;
use tb_base::Memory;

/// A list of editions that is published while others read it.
pub struct Store;

// One more seat that keeps the list, and has no reader yet.
fn add_keeper<J: Naming>(keepers: &mut Vec<Seat<J>>, first: &Content<J>) -> Result<(), Memory>
    ensures { OnOk result (keepers.new.items ≡ keepers.old.items ++ first.now ∷ []) }
{
    let list = first.share()?;
    keepers.push(Seat::keeping(list))?;
    Ok(())
}

// So many seats that keep the list, and have no reader yet.
fn keepers<J: Naming>(alloc: Global, first: &Content<J>, seats: u32) -> Result<Vec<Seat<J>>, Memory>
    ensures { IfOk result (λ v. v.items ≡ replicate seats first.now) }
{
    let mut keepers = Vec::new(alloc);
    for _ in 0..seats {
        if add_keeper(&mut keepers, first).is_err() {
            drop(keepers);
            return Err(Memory);
        }
    }
    Ok(keepers)
}

// Gives each a reader, as far as there are some.
fn give_readers<J: Naming>(writer: &Writing<Content<J>>, seats: &mut Vec<Seat<J>>)
    ensures { seats.new.items ≡ seats.old.items }
{
    for i in 0..seats.len() {
        seats[i].take_reader(writer);
    }
}

// The writer of two copies of the list, for so many readers.
fn started<J: Naming>(
    first: &Content<J>,
    alloc: Global,
    seats: u32,
) -> Result<Writing<Content<J>>, Memory>
    requires some { 0 < seats }
    requires most { seats ≤ 65 }
    requires first { IsFirst first.now }
    ensures { IfOk result (λ w. w.desk.shown.value ≡ first.now) }
{
    let (one, two) = first.shares()?;
    Ok(Writer::new(alloc, one, two, seats as usize)?)
}

// The writer, and so many seats, each of which keeps the list.
fn places<J: Naming>(
    first: &Content<J>,
    alloc: Global,
    seats: u32,
) -> Result<(Writing<Content<J>>, Vec<Seat<J>>), Memory>
    requires some { 0 < seats }
    requires most { seats ≤ 65 }
    requires first { IsFirst first.now }
    ensures shown { IfOk result (λ t. t.0.desk.shown.value ≡ first.now) }
    ensures seats { IfOk result (λ t. t.1.items ≡ replicate seats first.now) }
{
    let mut places = keepers(alloc, first, seats)?;
    match started(first, alloc, seats) {
        Ok(writer) => {
            give_readers(&writer, &mut places);
            Ok((writer, places))
        }
        Err(Memory) => {
            drop(places);
            Err(Memory)
        }
    }
}

// The history of one edition, and the list. `opened` has the name of the store.
fn begun<J: Naming>(
    opened: Opened<Edition>,
    first: Shared,
) -> Result<(History<Edition, J>, Content<J>), Memory>
    requires { opened.seen.book ≡ J.book }
    ensures history { IfOk result (λ t. t.0 ≡ record { list = first ∷ []; closed = false }) }
    ensures list { IfOk result (λ t. t.1 ≡ record { list = first ∷ []; closed = false }) }
{
    let Some(history) = opened.begin::<J>(first.edition()) else {
        drop(first);
        return Err(Memory);
    };
    let front = history.front();
    let content = Content {
        number: 1,
        last: first,
        closed: false,
        front,
    };
    Ok((history, content))
}

impl Store {
    /// A publisher whose list is the first edition alone, and so many seats, each of which keeps
    /// this list. `opened` has the store's name: the call is made at the `J` that was picked for
    /// it. Refused only for want of memory; the edition is dropped then.
    pub fn new<J: Naming>(
        alloc: Global,
        opened: Opened<Edition>,
        first: Shared,
        seats: u32,
    ) -> Result<(Publisher<J>, Vec<Seat<J>>), Memory>
        requires book { opened.seen.book ≡ J.book }
        requires some { 0 < seats }
        requires most { seats ≤ 65 }
        ensures list { IfOk result (λ t. t.0 ≡ first ∷ []) }
        ensures seats { IfOk result (λ t. t.1.items ≡
            replicate seats (record { list = first ∷ []; closed = false })) }
    {
        let (history, content) = begun::<J>(opened, first)?;
        match places(&content, alloc, seats) {
            Ok((writer, places)) => { Ok((Publishing::over(history, content, writer), places)) }
            Err(Memory) => {
                drop(history);
                drop(content);
                Err(Memory)
            }
        }
    }

    /// A seat of a list that is this edition alone, and closed from the start: what a store is once
    /// its publisher has finished and the seat has learned the end. Nobody publishes, so nothing
    /// waits. `opened` has the store's name, as in `new`. Refused only for want of memory; the
    /// edition is dropped then.
    pub fn closed<J: Naming>(opened: Opened<Edition>, only: Shared) -> Result<Seat<J>, Memory>
        requires { opened.seen.book ≡ J.book }
        ensures { IfOk result (λ s. s ≡ record { list = only ∷ []; closed = true }) }
    {
        let (history, content) = begun::<J>(opened, only)?;
        Ok(Seat::keeping(content.closed_by(history.finish())))
    }
}
