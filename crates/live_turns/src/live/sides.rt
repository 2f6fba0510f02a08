//! The two sides of a process that lives: a publisher, and lines.
ghost use Rattle.std.specs.Prelude.{◌≡◌, ◌≢◌, ◌⊎◌, ◌<◌, ◌≤◌, ◌-◌, ◌^◌, ℕ, List, Err, IfErr, IfOk, IfSome, IsNone, IsSome, OnOk, length, take, vec_len};
ghost use Rattle.std.specs.Io.KnownBytes.{Consumes};
ghost use Rattle.std.specs.Thread.{IsSync};
ghost use Rattle.live_turns.specs.Live.{ArePublished, ReadFaultsRose};
ghost use Rattle.live_turns.specs.LivePublisher.{ArePublishedSoFar, HavePublished, items_taken};
ghost use Rattle.live_turns.specs.LiveSides.{HasCutLines, HasRunLines, OfParts};
ghost use Rattle.live_turns.specs.LiveTurns.{LineSideData};
ghost use Rattle.edition_build.specs.Plans.{IsGoodBuilding};
ghost use Rattle.live_turns.specs.declared.live.running.LinesFault.TheVariants as fault;

use crate::giver::{Given, Giver};
use crate::live::issuing::{Ends, Issues};
use crate::live::news::News;
use crate::live::publisher::publish_all;
use crate::live::running::{LinesFault, run_turns};
use crate::live::turn::{Bench, Hands, LineSide};
use crate::taker::Taker;
use edition_build::{Building, PlanItem};
use edition_store::{Naming, Seat, Shared};
use std::alloc::Global;
use std::marker::PhantomData;
use std::mem;
use std::sync::Wait;
use std::thread::{Threads, join_mut};
use tb_base::Gate;
use tb_io::{Folder, Sink, Source};

/// How the side of lines ended: its seat, the items that it gave, and who takes news.
#[derive(Drop)]
pub(crate) struct LinesEnd<J: Naming, K: Naming, L: Naming> {
    pub ended: Result<(), LinesFault>,
    pub seat: Seat<J>,
    pub given: Given<PlanItem, K>,
    pub news: Taker<News, L>,
}

// Answers the lines of a source. The side's items end with it.
fn run_lines<
    J: Naming,
    K: Naming,
    L: Naming,
    G: Gate,
    S: Source,
    O: Sink,
    R: Threads + Wait + Sync,
>(
    rt: &R,
    alloc: Global,
    gate: &G,
    side: LineSide<J, K, L>,
    source: &mut S,
    sink: &mut O,
) -> LinesEnd<J, K, L>
    requires lanes { 0 < side.lanes }
    requires source { S.faults source.old < 2 ^ 64 - 1 }
    requires sink { O.faults sink.old < 2 ^ 64 - 1 }
    ensures whole { OnOk result.ended (HasRunLines side.mode (S.left source.old)
        (O.written sink.old) (O.written sink.new) side result.seat result.given
        result.news) }
    ensures cut { IfErr result.ended (λ cause. HasCutLines cause side.mode
        (S.left source.old) (S.left source.new) (O.written sink.old) (O.written sink.new)
        side result.seat result.given result.news) }
    ensures bytes { (bytes : List ℕ) × Consumes (S.left source.old) (S.left source.new) bytes }
    ensures read { result.ended ≡ Err fault.ReadFault →
        S.faults source.old < S.faults source.new }
    ensures source { (result.ended ≡ Err fault.ReadFault)
        ⊎ (S.faults source.new ≡ S.faults source.old) }
    ensures write { result.ended ≡ Err fault.WriteFault → O.faults sink.old < O.faults sink.new }
    ensures sink { (result.ended ≡ Err fault.WriteFault)
        ⊎ (O.faults sink.new ≡ O.faults sink.old) }
{
    let mut side = side;
    let ended = run_turns(rt, alloc, gate, &mut side, source, sink);
    let (seat, giver, news) = side.into_parts();
    LinesEnd {
        ended,
        seat,
        given: giver.end(),
        news,
    }
}

// Takes the publisher out of its place, which is empty afterwards, and publishes. (The proof of a
// closure asks that it captures something of each type that it names, so there is a mark of `E`.)
fn publish_side<
    P: Issues<E>,
    E: Ends,
    K: Naming,
    L: Naming,
    F: Folder,
    G: Gate,
    R: Threads + Wait + Sync,
>(
    rt: &R,
    alloc: Global,
    gate: &G,
    building: &Building,
    words: &[PlanItem],
    folder: &mut F,
    slot: &mut Option<P>,
    items: &mut Taker<PlanItem, K>,
    news: &mut Giver<News, L>,
    day: &mut Shared,
    _left: &PhantomData<E>,
) -> Result<P, E>
    requires building { IsGoodBuilding building.now }
    requires some { 0 < length words.now }
    requires one { length items.old ≡ 1 }
    requires slot { IsSome slot.old }
    requires first { IfSome slot.old (λ p. HavePublished (F.files folder.old)
        building.now.options building.now.mirrored (take 1 words.now) news.old (P.list p)
        day.old) }
    requires rose { ReadFaultsRose (F.faults folder.old) (F.faults folder.old) news.old }
    ensures files { F.files folder.new ≡ F.files folder.old }
    ensures published { IfOk result (λ p. ArePublished (F.files folder.old)
        building.now.options building.now.mirrored (items_taken words.now items.new) news.new
        (P.list p)) }
    ensures so_far { IfErr result (λ l. ArePublishedSoFar (F.files folder.old)
        building.now.options building.now.mirrored (items_taken words.now items.new) news.new
        (E.list l)) }
    ensures rose { OnOk result
        (ReadFaultsRose (F.faults folder.old) (F.faults folder.new) news.new) }
    ensures taken { IsNone slot.new }
{
    let Some(publisher) = slot.take() else {
        unreachable!()
    };
    publish_all(
        rt, alloc, gate, *building, folder, words, items, news, day, publisher,
    )
}

// Publishes, and does something beside it: at once, where a thread can be started; else what is
// beside comes first.
fn publish_beside<
    P: Issues<E> + Send,
    E: Ends + Drop + Send + Sync,
    K: Naming + Send + Sync,
    L: Naming + Send + Sync,
    F: Folder + Send,
    G: Gate,
    R: Threads + Wait + Sync,
    T,
    B: FnMut() -> T,
>(
    rt: &R,
    alloc: Global,
    gate: &G,
    building: &Building,
    words: &[PlanItem],
    folder: &mut F,
    slot: &mut Option<P>,
    items: &mut Taker<PlanItem, K>,
    news: &mut Giver<News, L>,
    day: &mut Shared,
    beside: &mut B,
) -> (Result<P, E>, T)
    requires building { IsGoodBuilding building.now }
    requires some { 0 < length words.now }
    requires one { length items.old ≡ 1 }
    requires slot { IsSome slot.old }
    requires first { IfSome slot.old (λ p. HavePublished (F.files folder.old)
        building.now.options building.now.mirrored (take 1 words.now) news.old (P.list p)
        day.old) }
    requires rose { ReadFaultsRose (F.faults folder.old) (F.faults folder.old) news.old }
    requires beside { B.pre beside.old }
    ensures beside { B.step beside.old result.1 beside.new }
    ensures files { F.files folder.new ≡ F.files folder.old }
    ensures published { IfOk result.0 (λ p. ArePublished (F.files folder.old)
        building.now.options building.now.mirrored (items_taken words.now items.new) news.new
        (P.list p)) }
    ensures so_far { IfErr result.0 (λ l. ArePublishedSoFar (F.files folder.old)
        building.now.options building.now.mirrored (items_taken words.now items.new) news.new
        (E.list l)) }
    ensures rose { OnOk result.0
        (ReadFaultsRose (F.faults folder.old) (F.faults folder.new) news.new) }
    ensures taken { IsNone slot.new }
{
    let left = PhantomData;
    join_mut(
        rt,
        &mut || -> Result<P, E>
            requires { IsSync R.row × IsGoodBuilding building.now × (0 < length words.now)
                × (length items.now ≡ 1) × IsSome slot.now
                × IfSome slot.now (λ p. HavePublished (F.files folder.now)
                building.now.options building.now.mirrored (take 1 words.now) news.now
                (P.list p) day.now)
                × ReadFaultsRose (F.faults folder.now) (F.faults folder.now) news.now }
            ensures { (F.files folder.exit.now ≡ F.files folder.entry.now)
                × IfOk result (λ p. ArePublished (F.files folder.entry.now)
                building.entry.now.options building.entry.now.mirrored
                (items_taken words.entry.now items.exit.now) news.exit.now (P.list p))
                × IfErr result (λ l. ArePublishedSoFar (F.files folder.entry.now)
                building.entry.now.options building.entry.now.mirrored
                (items_taken words.entry.now items.exit.now) news.exit.now (E.list l))
                × OnOk result (ReadFaultsRose (F.faults folder.entry.now)
                (F.faults folder.exit.now) news.exit.now)
                × IsNone slot.exit.now }
        {
            publish_side(
                rt, alloc, gate, building, words, folder, slot, items, news, day, &left,
            )
        },
        beside,
    )
}

// A publisher's place, from which it was taken.
fn let_go<P: Issues<E>, E: Ends + Drop, R: Wait>(rt: &R, slot: Option<P>)
    requires { IsNone slot }
{
    if let Some(publisher) = slot {
        drop(publisher.end(rt));
    }
}

// Makes a side of lines of its parts, and has it answer the lines of a source. What it ends with is
// put in the places of the parts.
fn line_side<
    J: Naming,
    K: Naming,
    L: Naming,
    G: Gate,
    S: Source,
    O: Sink,
    R: Threads + Wait + Sync,
>(
    rt: &R,
    alloc: Global,
    gate: &G,
    bench: &mut Bench<J>,
    hands: &mut Hands<K, L>,
    source: &mut S,
    sink: &mut O,
) -> Result<(), LinesFault>
    requires seat { IsSome bench.old.seat }
    requires giver { IsSome hands.old.giver }
    requires told { IsSome hands.old.news }
    requires lanes { 0 < vec_len bench.old.desks }
    requires source { S.faults source.old < 2 ^ 64 - 1 }
    requires sink { O.faults sink.old < 2 ^ 64 - 1 }
    ensures ends { IsSome bench.new.seat × IsSome hands.new.given × IsSome hands.new.news }
    ensures whole { OnOk result (OfParts bench.old.mode (vec_len bench.old.desks)
        bench.old.next bench.old.seat hands.old.giver hands.old.news bench.new.seat
        hands.new.given hands.new.news (λ s kept given told. HasRunLines
        (LineSideData.mode s) (S.left source.old) (O.written sink.old) (O.written sink.new) s
        kept given told)) }
    ensures cut { IfErr result (λ cause. OfParts bench.old.mode (vec_len bench.old.desks)
        bench.old.next bench.old.seat hands.old.giver hands.old.news bench.new.seat
        hands.new.given hands.new.news (λ s kept given told. HasCutLines cause
        (LineSideData.mode s) (S.left source.old) (S.left source.new) (O.written sink.old)
        (O.written sink.new) s kept given told)) }
    ensures bytes { (bytes : List ℕ) × Consumes (S.left source.old) (S.left source.new) bytes }
    ensures read { result ≡ Err fault.ReadFault → S.faults source.old < S.faults source.new }
    ensures source { (result ≡ Err fault.ReadFault)
        ⊎ (S.faults source.new ≡ S.faults source.old) }
    ensures write { result ≡ Err fault.WriteFault → O.faults sink.old < O.faults sink.new }
    ensures sink { (result ≡ Err fault.WriteFault)
        ⊎ (O.faults sink.new ≡ O.faults sink.old) }
{
    let Some(seat) = bench.seat.take() else {
        unreachable!()
    };
    let Some(giver) = hands.giver.take() else {
        unreachable!()
    };
    let Some(news) = hands.news.take() else {
        unreachable!()
    };
    let desks = mem::replace(&mut bench.desks, Vec::new(alloc));
    let side = LineSide::of_parts(alloc, bench.mode, desks, bench.next, seat, giver, news);
    let LinesEnd {
        ended,
        seat,
        given,
        news,
    } = run_lines(rt, alloc, gate, side, source, sink);
    bench.seat = Some(seat);
    hands.given = Some(given);
    hands.news = Some(news);
    ended
}

// The two sides, with what each of them is in places. The proof of a closure asks that no two
// things that it meets stand on one type parameter, so the hand-overs have other names at each
// side.
fn both_beside<
    P: Issues<E> + Send,
    E: Ends + Drop + Send + Sync,
    J: Naming,
    K: Naming + Send + Sync,
    L: Naming + Send + Sync,
    M: Naming,
    N: Naming,
    F: Folder + Send,
    G: Gate,
    S: Source,
    O: Sink,
    R: Threads + Wait + Sync,
>(
    rt: &R,
    alloc: Global,
    gate: &G,
    building: &Building,
    words: &[PlanItem],
    folder: &mut F,
    slot: &mut Option<P>,
    items: &mut Taker<PlanItem, K>,
    news: &mut Giver<News, L>,
    day: &mut Shared,
    bench: &mut Bench<J>,
    hands: &mut Hands<M, N>,
    source: &mut S,
    sink: &mut O,
) -> (Result<P, E>, Result<(), LinesFault>)
    requires building { IsGoodBuilding building.now }
    requires some { 0 < length words.now }
    requires one { length items.old ≡ 1 }
    requires slot { IsSome slot.old }
    requires first { IfSome slot.old (λ p. HavePublished (F.files folder.old)
        building.now.options building.now.mirrored (take 1 words.now) news.old (P.list p)
        day.old) }
    requires rose { ReadFaultsRose (F.faults folder.old) (F.faults folder.old) news.old }
    requires seat { IsSome bench.old.seat }
    requires giver { IsSome hands.old.giver }
    requires told { IsSome hands.old.news }
    requires lanes { 0 < vec_len bench.old.desks }
    requires source { S.faults source.old < 2 ^ 64 - 1 }
    requires sink { O.faults sink.old < 2 ^ 64 - 1 }
    ensures files { F.files folder.new ≡ F.files folder.old }
    ensures published { IfOk result.0 (λ p. ArePublished (F.files folder.old)
        building.now.options building.now.mirrored (items_taken words.now items.new) news.new
        (P.list p)) }
    ensures so_far { IfErr result.0 (λ l. ArePublishedSoFar (F.files folder.old)
        building.now.options building.now.mirrored (items_taken words.now items.new) news.new
        (E.list l)) }
    ensures rose { OnOk result.0
        (ReadFaultsRose (F.faults folder.old) (F.faults folder.new) news.new) }
    ensures taken { IsNone slot.new }
    ensures ends { IsSome bench.new.seat × IsSome hands.new.given × IsSome hands.new.news }
    ensures whole { OnOk result.1 (OfParts bench.old.mode (vec_len bench.old.desks)
        bench.old.next bench.old.seat hands.old.giver hands.old.news bench.new.seat
        hands.new.given hands.new.news (λ s kept given told. HasRunLines
        (LineSideData.mode s) (S.left source.old) (O.written sink.old) (O.written sink.new) s
        kept given told)) }
    ensures cut { IfErr result.1 (λ cause. OfParts bench.old.mode (vec_len bench.old.desks)
        bench.old.next bench.old.seat hands.old.giver hands.old.news bench.new.seat
        hands.new.given hands.new.news (λ s kept given told. HasCutLines cause
        (LineSideData.mode s) (S.left source.old) (S.left source.new) (O.written sink.old)
        (O.written sink.new) s kept given told)) }
    ensures bytes { (bytes : List ℕ) × Consumes (S.left source.old) (S.left source.new) bytes }
    ensures read { result.1 ≡ Err fault.ReadFault → S.faults source.old < S.faults source.new }
    ensures source { (result.1 ≡ Err fault.ReadFault)
        ⊎ (S.faults source.new ≡ S.faults source.old) }
    ensures write { result.1 ≡ Err fault.WriteFault → O.faults sink.old < O.faults sink.new }
    ensures sink { (result.1 ≡ Err fault.WriteFault)
        ⊎ (O.faults sink.new ≡ O.faults sink.old) }
{
    publish_beside(
        rt,
        alloc,
        gate,
        building,
        words,
        folder,
        slot,
        items,
        news,
        day,
        &mut || -> Result<(), LinesFault>
            requires { IsSync R.row × IsSome bench.now.seat × IsSome hands.now.giver
                × IsSome hands.now.news × (0 < vec_len bench.now.desks)
                × (S.faults source.now < 2 ^ 64 - 1) × (O.faults sink.now < 2 ^ 64 - 1) }
            ensures { IsSome bench.exit.now.seat × IsSome hands.exit.now.given
                × IsSome hands.exit.now.news
                × OnOk result (OfParts bench.entry.now.mode (vec_len bench.entry.now.desks)
                bench.entry.now.next bench.entry.now.seat hands.entry.now.giver
                hands.entry.now.news bench.exit.now.seat hands.exit.now.given
                hands.exit.now.news (λ s kept given told. HasRunLines (LineSideData.mode s)
                (S.left source.entry.now) (O.written sink.entry.now)
                (O.written sink.exit.now) s kept given told))
                × IfErr result (λ cause. OfParts bench.entry.now.mode
                (vec_len bench.entry.now.desks) bench.entry.now.next bench.entry.now.seat
                hands.entry.now.giver hands.entry.now.news bench.exit.now.seat
                hands.exit.now.given hands.exit.now.news (λ s kept given told. HasCutLines
                cause (LineSideData.mode s) (S.left source.entry.now)
                (S.left source.exit.now) (O.written sink.entry.now)
                (O.written sink.exit.now) s kept given told))
                × ((bytes : List ℕ) × Consumes (S.left source.entry.now)
                (S.left source.exit.now) bytes)
                × (result ≡ Err fault.ReadFault →
                S.faults source.entry.now < S.faults source.exit.now)
                × ((result ≡ Err fault.ReadFault)
                ⊎ (S.faults source.exit.now ≡ S.faults source.entry.now))
                × (result ≡ Err fault.WriteFault →
                O.faults sink.entry.now < O.faults sink.exit.now)
                × ((result ≡ Err fault.WriteFault)
                ⊎ (O.faults sink.exit.now ≡ O.faults sink.entry.now)) }
        { line_side(rt, alloc, gate, bench, hands, source, sink) },
    )
}

/// The two sides, at once where a thread can be started; else the publisher comes behind the lines.
pub(crate) fn both_sides<
    P: Issues<E> + Send,
    E: Ends + Drop + Send + Sync,
    J: Naming,
    K: Naming + Send + Sync,
    L: Naming + Send + Sync,
    F: Folder + Send,
    G: Gate,
    S: Source,
    O: Sink,
    R: Threads + Wait + Sync,
>(
    rt: &R,
    alloc: Global,
    gate: &G,
    building: &Building,
    words: &[PlanItem],
    folder: &mut F,
    publisher: P,
    items: &mut Taker<PlanItem, K>,
    news: &mut Giver<News, L>,
    day: &mut Shared,
    side: LineSide<J, K, L>,
    source: &mut S,
    sink: &mut O,
) -> (Result<P, E>, LinesEnd<J, K, L>)
    requires building { IsGoodBuilding building.now }
    requires some { 0 < length words.now }
    requires one { length items.old ≡ 1 }
    requires first { HavePublished (F.files folder.old) building.now.options
        building.now.mirrored (take 1 words.now) news.old (P.list publisher) day.old }
    requires rose { ReadFaultsRose (F.faults folder.old) (F.faults folder.old) news.old }
    requires lanes { 0 < side.lanes }
    requires source { S.faults source.old < 2 ^ 64 - 1 }
    requires sink { O.faults sink.old < 2 ^ 64 - 1 }
    ensures files { F.files folder.new ≡ F.files folder.old }
    ensures published { IfOk result.0 (λ p. ArePublished (F.files folder.old)
        building.now.options building.now.mirrored (items_taken words.now items.new) news.new
        (P.list p)) }
    ensures so_far { IfErr result.0 (λ l. ArePublishedSoFar (F.files folder.old)
        building.now.options building.now.mirrored (items_taken words.now items.new) news.new
        (E.list l)) }
    ensures rose { OnOk result.0
        (ReadFaultsRose (F.faults folder.old) (F.faults folder.new) news.new) }
    ensures whole { OnOk result.1.ended (HasRunLines side.mode (S.left source.old)
        (O.written sink.old) (O.written sink.new) side result.1.seat result.1.given
        result.1.news) }
    ensures cut { IfErr result.1.ended (λ cause. HasCutLines cause side.mode
        (S.left source.old) (S.left source.new) (O.written sink.old) (O.written sink.new) side
        result.1.seat result.1.given result.1.news) }
    ensures bytes { (bytes : List ℕ) × Consumes (S.left source.old) (S.left source.new) bytes }
    ensures read { result.1.ended ≡ Err fault.ReadFault →
        S.faults source.old < S.faults source.new }
    ensures source { (result.1.ended ≡ Err fault.ReadFault)
        ⊎ (S.faults source.new ≡ S.faults source.old) }
    ensures write { result.1.ended ≡ Err fault.WriteFault →
        O.faults sink.old < O.faults sink.new }
    ensures sink { (result.1.ended ≡ Err fault.WriteFault)
        ⊎ (O.faults sink.new ≡ O.faults sink.old) }
{
    let mut slot = Some(publisher);
    let (mut bench, mut hands) = side.split();
    let (published, ended) = both_beside(
        rt, alloc, gate, building, words, folder, &mut slot, items, news, day, &mut bench,
        &mut hands, source, sink,
    );
    let_go::<P, E, R>(rt, slot);
    let Bench { seat, desks, .. } = bench;
    drop(desks);
    let Hands { giver, given, news } = hands;
    drop(giver);
    let Some(seat) = seat else { unreachable!() };
    let Some(given) = given else { unreachable!() };
    let Some(news) = news else { unreachable!() };
    let end = LinesEnd {
        ended,
        seat,
        given,
        news,
    };
    (published, end)
}
