//! The publisher of a process that lives: items as they are named, and news of each.
ghost use Rattle.std.specs.Prelude.{ℕ, ◌≡◌, ◌⊎◌, ◌<◌, ◌≤◌, ◌-◌, ◌^◌, ◌∷◌, [], ◌++◌, ◌+◌, IfErr, IfOk, OnOk, drop, length, take, string_bytes};
ghost use Rattle.live_turns.specs.Live.{ArePublished, ReadFaultsRose};
ghost use Rattle.live_turns.specs.LivePublisher.{ArePublishedSoFar, HavePublished, IsNextItem, StopsAt, TakesItem, items_taken};
ghost use Rattle.edition_build.specs.Plans.{IsGoodBuilding};

use crate::giver::Giver;
use crate::live::issuing::{Ends, Issues, issue_found};
use crate::live::lending::find_anyway;
use crate::live::news::{Became, News};
use crate::taker::{Taken, Taker};
use edition_build::{Building, Found, PlanEnd, PlanItem};
use edition_store::Shared;
use history::Naming;
use std::alloc::Global;
use std::sync::Wait;
use std::thread::Threads;
use tb_base::{Gate, Memory};
use tb_io::Folder;

// Reads, builds and publishes item i, and says what became of it. Where no number is left for an
// edition, there is no memory for it.
fn take_next<P: Issues<E>, E: Ends, F: Folder, G: Gate, R: Threads + Wait + Sync>(
    rt: &R,
    alloc: Global,
    gate: &G,
    building: Building,
    folder: &mut F,
    i: u32,
    item: &PlanItem,
    day: &mut Shared,
    publisher: P,
) -> Result<(P, Became), E>
    requires { IsGoodBuilding building }
    ensures files { F.files folder.new ≡ F.files folder.old }
    ensures later { F.faults folder.old ≤ F.faults folder.new }
    ensures became { IfOk result (λ t. IsNextItem (F.files folder.old) building.options
        building.mirrored item.now (F.faults folder.old) (F.faults folder.new)
        (P.list publisher) (P.list t.0) day.old day.new t.1) }
    ensures refused { IfErr result (λ l. StopsAt (F.files folder.old) building.options
        building.mirrored item.now (P.list publisher) (E.list l) day.old [] []) }
{
    let before = publisher.number();
    if before == u32::MAX {
        return Ok((publisher, Became::Memory));
    }
    match find_anyway(
        rt,
        alloc,
        gate,
        building,
        folder,
        before,
        day.edition(),
        item,
    ) {
        Ok(Found { outcome, edition }) => {
            match issue_found(rt, gate, i, item, edition, day, publisher) {
                Ok(publisher) => Ok((publisher, Became::Outcome(outcome))),
                Err(left) => {
                    drop(outcome);
                    Err(left)
                }
            }
        }
        Err(PlanEnd::ReadFault) => Ok((publisher, Became::ReadFault)),
        Err(PlanEnd::Memory) => Ok((publisher, Became::Memory)),
    }
}

// Gives the news of what became of an item.
fn give_news<L: Naming, R: Wait>(
    rt: &R,
    alloc: Global,
    news: &mut Giver<News, L>,
    item: &PlanItem,
    became: Became,
) -> Result<(), Memory>
    ensures given { OnOk result (news.new ≡ news.old
        ++ record { word = item.now.word; became = became } ∷ []) }
    ensures refused { IfErr result (λ _. (news.new ≡ news.old) ⊎ (news.new ≡ news.old
        ++ record { word = item.now.word; became = became } ∷ [])) }
{
    match String::from_str(alloc, item.word.as_str()) {
        Ok(word) => news.give(rt, News { word, became }),
        Err(_) => {
            drop(became);
            Err(Memory)
        }
    }
}

// Reads, builds and publishes item i, and gives news of it.
fn publish_item<P: Issues<E>, E: Ends, L: Naming, F: Folder, G: Gate, R: Threads + Wait + Sync>(
    rt: &R,
    alloc: Global,
    gate: &G,
    building: Building,
    folder: &mut F,
    i: u32,
    item: &PlanItem,
    news: &mut Giver<News, L>,
    day: &mut Shared,
    publisher: P,
) -> Result<P, E>
    requires { IsGoodBuilding building }
    ensures files { F.files folder.new ≡ F.files folder.old }
    ensures later { F.faults folder.old ≤ F.faults folder.new }
    ensures taken { IfOk result (λ p. TakesItem (F.files folder.old) building.options
        building.mirrored item.now (F.faults folder.old) (F.faults folder.new)
        (P.list publisher) (P.list p) day.old day.new news.old news.new) }
    ensures refused { IfErr result (λ l. StopsAt (F.files folder.old) building.options
        building.mirrored item.now (P.list publisher) (E.list l) day.old news.old news.new) }
{
    match take_next(rt, alloc, gate, building, folder, i, item, day, publisher) {
        Ok((publisher, became)) => match give_news(rt, alloc, news, item, became) {
            Ok(()) => Ok(publisher),
            Err(Memory) => Err(publisher.end(rt)),
        },
        Err(left) => Err(left),
    }
}

// Reads, builds and publishes the further items of the words, behind the first one, which is
// published.
fn publish_words<P: Issues<E>, E: Ends, L: Naming, F: Folder, G: Gate, R: Threads + Wait + Sync>(
    rt: &R,
    alloc: Global,
    gate: &G,
    building: Building,
    folder: &mut F,
    words: &[PlanItem],
    news: &mut Giver<News, L>,
    day: &mut Shared,
    publisher: P,
) -> Result<P, E>
    requires building { IsGoodBuilding building }
    requires some { 0 < length words.now }
    requires first { HavePublished (F.files folder.old) building.options building.mirrored
        (take 1 words.now) news.old (P.list publisher) day.old }
    requires rose { ReadFaultsRose (F.faults folder.old) (F.faults folder.old) news.old }
    ensures files { F.files folder.new ≡ F.files folder.old }
    ensures later { F.faults folder.old ≤ F.faults folder.new }
    ensures published { IfOk result (λ p. HavePublished (F.files folder.old) building.options
        building.mirrored words.now news.new (P.list p) day.new) }
    ensures so_far { IfErr result (λ l. ArePublishedSoFar (F.files folder.old)
        building.options building.mirrored words.now news.new (E.list l)) }
    ensures rose { OnOk result
        (ReadFaultsRose (F.faults folder.old) (F.faults folder.new) news.new) }
{
    let mut publisher = publisher;
    let mut number = 0u32;
    for i in 1..words.len() {
        number = number.saturating_add(1);
        publisher = match publish_item(
            rt, alloc, gate, building, folder, number, &words[i], news, day, publisher,
        ) {
            Ok(next) => next,
            Err(left) => return Err(left),
        };
    }
    Ok(publisher)
}

// Takes items as they are handed over, up to the end, and reads, builds and publishes each.
fn publish_named<
    P: Issues<E>,
    E: Ends,
    K: Naming,
    L: Naming,
    F: Folder,
    G: Gate,
    R: Threads + Wait + Sync,
>(
    rt: &R,
    alloc: Global,
    gate: &G,
    building: Building,
    folder: &mut F,
    words: &[PlanItem],
    items: &mut Taker<PlanItem, K>,
    news: &mut Giver<News, L>,
    day: &mut Shared,
    publisher: P,
) -> Result<P, E>
    requires building { IsGoodBuilding building }
    requires some { 0 < length items.old }
    requires first { HavePublished (F.files folder.old) building.options building.mirrored
        (items_taken words.now items.old) news.old (P.list publisher) day.old }
    ensures files { F.files folder.new ≡ F.files folder.old }
    ensures later { F.faults folder.old ≤ F.faults folder.new }
    ensures published { IfOk result (λ p. ArePublished (F.files folder.old) building.options
        building.mirrored (items_taken words.now items.new) news.new (P.list p)) }
    ensures so_far { IfErr result (λ l. ArePublishedSoFar (F.files folder.old)
        building.options building.mirrored (items_taken words.now items.new) news.new
        (E.list l)) }
    ensures rose { OnOk result ((start : ℕ) → start ≤ F.faults folder.old →
        ReadFaultsRose start (F.faults folder.old) news.old →
        ReadFaultsRose start (F.faults folder.new) news.new) }
{
    let mut publisher = publisher;
    let mut number = u32::try_from(words.len()).unwrap_or(u32::MAX);
    for _turn in rt.forever() {
        let item = match items.take(rt) {
            Taken::Next(item) => item,
            Taken::End => return Ok(publisher),
            Taken::OutOfTurn => return Err(publisher.end(rt)),
        };
        publisher = match publish_item(
            rt, alloc, gate, building, folder, number, &item, news, day, publisher,
        ) {
            Ok(next) => next,
            Err(left) => return Err(left),
        };
        number = number.saturating_add(1);
    }
    unreachable!()
}

/// Reads, builds and publishes the further items of the words, behind the first one, which is
/// published, and then each item that is handed over, up to the end, all in order; and gives news
/// of each. An item that is refused, a folder that fails and want of memory for an item end
/// nothing. Refused where a publication fails for want of memory, or where news can't be given: the
/// list that is left has the editions of some first items.
pub(crate) fn publish_all<
    P: Issues<E>,
    E: Ends,
    K: Naming,
    L: Naming,
    F: Folder,
    G: Gate,
    R: Threads + Wait + Sync,
>(
    rt: &R,
    alloc: Global,
    gate: &G,
    building: Building,
    folder: &mut F,
    words: &[PlanItem],
    items: &mut Taker<PlanItem, K>,
    news: &mut Giver<News, L>,
    day: &mut Shared,
    publisher: P,
) -> Result<P, E>
    requires building { IsGoodBuilding building }
    requires some { 0 < length words.now }
    requires one { length items.old ≡ 1 }
    requires first { HavePublished (F.files folder.old) building.options building.mirrored
        (take 1 words.now) news.old (P.list publisher) day.old }
    requires rose { ReadFaultsRose (F.faults folder.old) (F.faults folder.old) news.old }
    ensures files { F.files folder.new ≡ F.files folder.old }
    ensures later { F.faults folder.old ≤ F.faults folder.new }
    ensures published { IfOk result (λ p. ArePublished (F.files folder.old) building.options
        building.mirrored (items_taken words.now items.new) news.new (P.list p)) }
    ensures so_far { IfErr result (λ l. ArePublishedSoFar (F.files folder.old)
        building.options building.mirrored (items_taken words.now items.new) news.new
        (E.list l)) }
    ensures rose { OnOk result
        (ReadFaultsRose (F.faults folder.old) (F.faults folder.new) news.new) }
{
    match publish_words(
        rt, alloc, gate, building, folder, words, news, day, publisher,
    ) {
        Ok(publisher) => publish_named(
            rt, alloc, gate, building, folder, words, items, news, day, publisher,
        ),
        Err(left) => Err(left),
    }
}
