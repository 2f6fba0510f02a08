//! A process that lives, from its first edition to the end of its lines.
ghost use Rattle.std.specs.Prelude.{◌≡◌, ◌≢◌, ◌⊎◌, ◌↔◌, ◌<◌, ◌≤◌, ◌-◌, ◌^◌, ◌∷◌, [], ℕ, List, Err, IfErr, IfOk, IsSome, IsTrue, MatchResult, OnErr, OnOk, Ok, false, true, length, slice_get, take, vec_len};
ghost use Rattle.std.specs.Io.KnownBytes.{Appends, Consumes};
ghost use Rattle.footpaths.specs.Limits.{AreWithinADay};
ghost use Rattle.gtfs_rows.specs.declared.fault.FeedFault.{FeedFault};
ghost use Rattle.tb_base.specs.Workers.{AreWorkers};
ghost use Rattle.live_turns.specs.Runs.{Tells};
ghost use Rattle.edition_build.specs.Plans.{BeginsWithFirst};
ghost use Rattle.live_turns.specs.Live.{HasFailed, HasFailedBehind, HasLived, HasLivedUntil, HasToldFirst, IsFirstNews, ReadFaultsRose};
ghost use Rattle.live_turns.specs.LiveSides.{BeginsLive, FailsToTellFirst, FailsToTellRest, HaveClosed, HaveMet, TellsRest, told_as};
ghost use Rattle.live_turns.specs.LiveTexts.{news_shown};
ghost use Rattle.live_turns.specs.LiveTurns.{before_lines};
ghost use Rattle.edition_build.specs.Plans.{BeginsWithDay, IsGoodBuilding, ItemData, outcome_of};

use crate::giver::{Given, Giver};
use crate::live::laws::turns_are_one_run;
use crate::live::news::{Became, News, news_shown, tell_news};
use crate::live::running::LinesFault;
use crate::live::saying::LiveMode;
use crate::live::sides::{LinesEnd, both_sides};
use crate::live::turn::LineSide;
use crate::taker::{Taker, open};
use answer_text::Text;
use edition_build::{Building, PlanItem, build_day, first_day, outcome_of};
use edition_store::{Edition, Last, Naming, Opened, Publisher, Seat, Shared, Store};
use footpaths::Options;
use gtfs_rows::FeedFault;
use query_gate::desks_for;
use segment_queue::Desk;
use std::alloc::Global;
use std::marker::Brand;
use std::sync::Wait;
use std::thread::Threads;
use tb_base::{Gate, Memory};
use tb_io::{Folder, Put, Sink, Source, put_all};
use trip_table::DayFault;

/// Why a process that lives ends before its lines do.
#[derive(Drop)]
pub enum LiveFault {
    /// The first thing that is wrong with the feed of the first item.
    Feed(FeedFault),
    /// The folder failed while the first item was read, or the source did.
    ReadFault,
    /// The sink failed.
    WriteFault,
    /// Want of memory.
    Memory,
}

// The last of some things; the others are dropped.
fn last_of<T: Drop>(things: Vec<T>) -> Option<T>
    ensures { result ≡ slice_get things.items (vec_len things - 1) }
{
    let mut things = things;
    let last = things.pop();
    drop(things);
    last
}

// A publisher whose list is this edition alone, and a seat.
fn seat_one<J: Naming, R: Wait>(
    rt: &R,
    alloc: Global,
    opened: Opened<Edition>,
    first: Shared,
) -> Result<(Publisher<J>, Seat<J>), Memory>
    requires book { opened.seen.book ≡ J.book }
    ensures list { IfOk result (λ t. t.0 ≡ first ∷ []) }
    ensures seat { IfOk result (λ t. t.1 ≡ record { list = first ∷ []; closed = false }) }
{
    match Store::new::<J>(alloc, opened, first, 1) {
        Ok((publisher, seats)) => match last_of(seats) {
            Some(seat) => Ok((publisher, seat)),
            None => {
                drop(publisher.finish(rt));
                Err(Memory)
            }
        },
        Err(Memory) => Err(Memory),
    }
}

// Who gives items and who takes them, and who gives news and who takes them, with the first of
// each.
fn hand_overs<K: Naming, L: Naming>(
    alloc: Global,
    named: Opened<PlanItem>,
    item: &PlanItem,
    told: Opened<News>,
    news: &News,
) -> Result<
    (
        Giver<PlanItem, K>,
        Taker<PlanItem, K>,
        Giver<News, L>,
        Taker<News, L>,
    ),
    Memory,
>
    requires items { named.seen.book ≡ K.book }
    requires news { told.seen.book ≡ L.book }
    ensures giver { IfOk result (λ t. t.0 ≡ item.now ∷ []) }
    ensures items { IfOk result (λ t. t.1 ≡ item.now ∷ []) }
    ensures tells { IfOk result (λ t. t.2 ≡ news.now ∷ []) }
    ensures told { IfOk result (λ t. t.3 ≡ news.now ∷ []) }
{
    match open::<PlanItem, K>(alloc, named, item) {
        Ok((giver, items)) => match open::<News, L>(alloc, told, news) {
            Ok((tells, told)) => Ok((giver, items, tells, told)),
            Err(Memory) => {
                drop(giver);
                drop(items);
                Err(Memory)
            }
        },
        Err(Memory) => Err(Memory),
    }
}

// Both sides are at their ends: the list of editions begins with what a seat keeps, and what was
// taken is a first part of what was given.
fn settle<J: Naming, K: Naming, L: Naming>(
    last: Last<J>,
    seat: Seat<J>,
    items: &Taker<PlanItem, K>,
    given: &mut Given<PlanItem, K>,
    news: &Taker<News, L>,
    told: &mut Given<News, L>,
)
    ensures met { HaveMet last seat items.now given.old told.old news.now }
    ensures given { given.new ≡ given.old }
    ensures told { told.new ≡ told.old }
{
    last.covers_seat(&seat);
    drop(last);
    drop(seat);
    given.covers(items);
    told.covers(news);
}

// The whole list of editions, and whether no publication was refused.
fn last_of_all<J: Naming, R: Wait>(
    rt: &R,
    published: Result<Publisher<J>, Last<J>>,
) -> (Last<J>, bool)
    ensures { MatchResult published (λ p. (result.0 ≡ p) × (result.1 ≡ true))
        (λ l. (result.0 ≡ l) × (result.1 ≡ false)) }
{
    match published {
        Ok(publisher) => (publisher.finish(rt), true),
        Err(last) => (last, false),
    }
}

// Whether all that was given was taken.
fn all_taken<K: Naming>(given: Given<PlanItem, K>, items: &Taker<PlanItem, K>) -> bool
    ensures { IsTrue result ↔ (items.now ≡ given) }
{
    let mut given = given;
    let all = given.were_taken(items);
    drop(given);
    all
}

// The lines of the news that aren't told yet, once no more is given. Refused only for want of
// memory, or where a piece of news is lost, of which there is none.
fn rest_of_news<L: Naming, R: Wait>(
    rt: &R,
    alloc: Global,
    json: bool,
    told: Given<News, L>,
    news: Taker<News, L>,
) -> Result<Vec<u8>, Memory>
    ensures { IfOk result (λ v. Tells (news_shown json) news told v.items) }
{
    let mut told = told;
    let mut news = news;
    let mut text = Text::new(alloc);
    let polled = tell_news(rt, alloc, json, &mut news, &mut text);
    let all = told.were_taken(&news);
    drop(told);
    drop(news);
    if all && polled.is_ok() {
        Ok(text.into_bytes())
    } else {
        drop(text);
        Err(Memory)
    }
}

// The rest of the news, where all that was given was taken.
fn closing_note<K: Naming, L: Naming, R: Wait>(
    rt: &R,
    alloc: Global,
    json: bool,
    items: &Taker<PlanItem, K>,
    given: Given<PlanItem, K>,
    told: Given<News, L>,
    news: Taker<News, L>,
) -> Result<Vec<u8>, Memory>
    ensures { IfOk result (λ v. HaveClosed json items.now given told news v.items) }
{
    let taken = all_taken(given, items);
    let note = rest_of_news(rt, alloc, json, told, news);
    if taken {
        note
    } else {
        drop(note);
        Err(Memory)
    }
}

// The fault that a cause is told as.
fn told_as(cause: LinesFault) -> LiveFault
    ensures { result ≡ told_as cause }
{
    match cause {
        LinesFault::ReadFault => LiveFault::ReadFault,
        LinesFault::WriteFault => LiveFault::WriteFault,
        LinesFault::Memory => LiveFault::Memory,
    }
}

// Writes the rest of the news, where all that was given was taken.
fn write_rest<K: Naming, L: Naming, O: Sink, R: Wait>(
    rt: &R,
    alloc: Global,
    json: bool,
    items: &Taker<PlanItem, K>,
    given: Given<PlanItem, K>,
    told: Given<News, L>,
    news: Taker<News, L>,
    sink: &mut O,
) -> Result<(), LiveFault>
    requires { O.faults sink.old < 2 ^ 64 - 1 }
    ensures written { OnOk result (TellsRest json items.now given told news
        (O.written sink.old) (O.written sink.new)) }
    ensures failed { IfErr result (FailsToTellRest json items.now given told news
        (O.written sink.old) (O.written sink.new)) }
    ensures write { result ≡ Err LiveFault.WriteFault → O.faults sink.old < O.faults sink.new }
    ensures sink { (result ≡ Err LiveFault.WriteFault)
        ⊎ (O.faults sink.new ≡ O.faults sink.old) }
{
    match closing_note(rt, alloc, json, items, given, told, news) {
        Ok(note) => match put_all(sink, note.as_slice()) {
            Ok(()) => Ok(()),
            Err(Put::WriteFault) => Err(LiveFault::WriteFault),
        },
        Err(Memory) => Err(LiveFault::Memory),
    }
}

// The run behind the first news, which are written: the sides, and the rest of the news.
fn run_sides<
    J: Naming + Send + Sync,
    K: Naming + Send + Sync,
    L: Naming + Send + Sync,
    F: Folder + Send,
    G: Gate,
    S: Source,
    O: Sink,
    R: Threads + Wait + Sync,
>(
    rt: &R,
    alloc: Global,
    gate: &G,
    building: &Building,
    mode: LiveMode,
    words: &[PlanItem],
    folder: &mut F,
    publisher: Publisher<J>,
    day: Shared,
    items: Taker<PlanItem, K>,
    tells: Giver<News, L>,
    side: LineSide<J, K, L>,
    source: &mut S,
    sink: &mut O,
) -> Result<(), LiveFault>
    requires building { IsGoodBuilding building.now }
    requires mirrored { building.now.mirrored ≡ mode.mirrored }
    requires some { 0 < length words.now }
    requires begins { BeginsLive (F.files folder.old) building.now.options mode words.now
        publisher day items tells side }
    requires rose { ReadFaultsRose (F.faults folder.old) (F.faults folder.old) tells }
    requires source { S.faults source.old < 2 ^ 64 - 1 }
    requires sink { O.faults sink.old < 2 ^ 64 - 1 }
    ensures files { F.files folder.new ≡ F.files folder.old }
    ensures whole { OnOk result (HasLived (F.files folder.old) building.now.options mode
        words.now tells (F.faults folder.old) (F.faults folder.new) (S.left source.old)
        (O.written sink.old) (O.written sink.new)) }
    ensures failed { IfErr result (HasFailedBehind (F.files folder.old) building.now.options mode
        words.now tells (S.left source.old) (S.left source.new) (O.written sink.old)
        (O.written sink.new)) }
    ensures bytes { (bytes : List ℕ) × Consumes (S.left source.old) (S.left source.new) bytes }
    ensures read { result ≡ Err LiveFault.ReadFault → S.faults source.old < S.faults source.new }
    ensures source { (result ≡ Err LiveFault.ReadFault)
        ⊎ (S.faults source.new ≡ S.faults source.old) }
    ensures write { result ≡ Err LiveFault.WriteFault → O.faults sink.old < O.faults sink.new }
    ensures sink { (result ≡ Err LiveFault.WriteFault)
        ⊎ (O.faults sink.new ≡ O.faults sink.old) }
{
    turns_are_one_run();
    let mut day = day;
    let mut items = items;
    let mut tells = tells;
    let (published, end) = both_sides(
        rt, alloc, gate, building, words, folder, publisher, &mut items, &mut tells, &mut day,
        side, source, sink,
    );
    drop(day);
    let LinesEnd {
        ended,
        seat,
        given,
        news,
    } = end;
    let mut given = given;
    let mut told = tells.end();
    let (last, all) = last_of_all(rt, published);
    settle(last, seat, &items, &mut given, &news, &mut told);
    match ended {
        Ok(()) => {
            if all {
                let written = write_rest(rt, alloc, mode.json, &items, given, told, news, sink);
                drop(items);
                written
            } else {
                drop(items);
                drop(given);
                drop(told);
                drop(news);
                Err(LiveFault::Memory)
            }
        }
        Err(cause) => {
            drop(items);
            drop(given);
            drop(told);
            drop(news);
            Err(told_as(cause))
        }
    }
}

// Writes the line of a piece of news.
fn write_news<O: Sink>(
    alloc: Global,
    json: bool,
    news: &News,
    sink: &mut O,
) -> Result<(), LiveFault>
    requires { O.faults sink.old < 2 ^ 64 - 1 }
    ensures written { OnOk result (Appends (O.written sink.old) (O.written sink.new)
        (news_shown json news.now)) }
    ensures failed { IfErr result (FailsToTellFirst (news_shown json news.now)
        (O.written sink.old) (O.written sink.new)) }
    ensures write { result ≡ Err LiveFault.WriteFault → O.faults sink.old < O.faults sink.new }
    ensures sink { (result ≡ Err LiveFault.WriteFault)
        ⊎ (O.faults sink.new ≡ O.faults sink.old) }
{
    match news_shown(alloc, json, news) {
        Ok(line) => match put_all(sink, line.as_slice()) {
            Ok(()) => Ok(()),
            Err(Put::WriteFault) => Err(LiveFault::WriteFault),
        },
        Err(Memory) => Err(LiveFault::Memory),
    }
}

// What a run begins with: a publisher, who takes items, who gives news; and the side of lines.
fn begin<J: Naming, K: Naming, L: Naming, R: Wait>(
    rt: &R,
    alloc: Global,
    mode: LiveMode,
    lanes: u32,
    opened: Opened<Edition>,
    named: Opened<PlanItem>,
    told: Opened<News>,
    first: Shared,
    item: &PlanItem,
    news: &News,
) -> Result<
    (
        Publisher<J>,
        Taker<PlanItem, K>,
        Giver<News, L>,
        LineSide<J, K, L>,
    ),
    Memory,
>
    requires editions { opened.seen.book ≡ J.book }
    requires items { named.seen.book ≡ K.book }
    requires news { told.seen.book ≡ L.book }
    ensures list { IfOk result (λ t. t.0 ≡ first ∷ []) }
    ensures items { IfOk result (λ t. t.1 ≡ item.now ∷ []) }
    ensures news { IfOk result (λ t. t.2 ≡ news.now ∷ []) }
    ensures side { IfOk result (λ t. t.3 ≡ before_lines mode lanes
        (record { list = first ∷ []; closed = false }) (item.now ∷ []) (news.now ∷ [])) }
{
    let desks = match desks_for(alloc, lanes) {
        Ok(desks) => desks,
        Err(Memory) => {
            drop(first);
            return Err(Memory);
        }
    };
    match hand_overs::<K, L>(alloc, named, item, told, news) {
        Ok((giver, items, tells, told)) => {
            match seat_one::<J, R>(rt, alloc, opened, first) {
                Ok((publisher, seat)) => {
                    let side = LineSide::new(alloc, mode, desks, seat, giver, told);
                    Ok((publisher, items, tells, side))
                }
                Err(Memory) => {
                    drop(desks);
                    drop(giver);
                    drop(items);
                    drop(tells);
                    drop(told);
                    Err(Memory)
                }
            }
        }
        Err(Memory) => {
            drop(desks);
            drop(first);
            Err(Memory)
        }
    }
}

// The news of the first item, which is published.
fn first_news(alloc: Global, item: &PlanItem, first: &Edition) -> Result<News, Memory>
    ensures { IfOk result (λ n. n ≡ record {
      word = item.now.word;
      became = Became.Outcome (outcome_of 1 first.now);
    }) }
{
    let word = String::from_str(alloc, item.word.as_str())?;
    Ok(News {
        word,
        became: Became::Outcome(outcome_of(1, first)),
    })
}

// The news of the first item, which is published, and its edition as that of the last day.
fn first_told(alloc: Global, item: &PlanItem, first: &Shared) -> Result<(News, Shared), Memory>
    ensures news { IfOk result (λ t. t.0 ≡ record {
      word = item.now.word;
      became = Became.Outcome (outcome_of 1 first.now);
    }) }
    ensures day { IfOk result (λ t. t.1 ≡ first.now) }
{
    let news = first_news(alloc, item, first.edition())?;
    match first.share() {
        Ok(day) => Ok((news, day)),
        Err(_) => {
            drop(news);
            Err(Memory)
        }
    }
}

// The run behind the first edition: its news are written, and then the sides run.
fn live_behind<
    J: Naming + Send + Sync,
    K: Naming + Send + Sync,
    L: Naming + Send + Sync,
    F: Folder + Send,
    G: Gate,
    S: Source,
    O: Sink,
    R: Threads + Wait + Sync,
>(
    rt: &R,
    alloc: Global,
    gate: &G,
    building: &Building,
    mode: LiveMode,
    words: &[PlanItem],
    folder: &mut F,
    news: &News,
    publisher: Publisher<J>,
    day: Shared,
    items: Taker<PlanItem, K>,
    tells: Giver<News, L>,
    side: LineSide<J, K, L>,
    source: &mut S,
    sink: &mut O,
) -> Result<(), LiveFault>
    requires building { IsGoodBuilding building.now }
    requires mirrored { building.now.mirrored ≡ mode.mirrored }
    requires some { 0 < length words.now }
    requires begins { BeginsLive (F.files folder.old) building.now.options mode words.now
        publisher day items tells side }
    requires news { tells ≡ news.now ∷ [] }
    requires told { IsFirstNews words.now news.now }
    requires rose { ReadFaultsRose (F.faults folder.old) (F.faults folder.old) tells }
    requires source { S.faults source.old < 2 ^ 64 - 1 }
    requires sink { O.faults sink.old < 2 ^ 64 - 1 }
    ensures files { F.files folder.new ≡ F.files folder.old }
    ensures whole { OnOk result (HasLived (F.files folder.old) building.now.options mode
        words.now [] (F.faults folder.old) (F.faults folder.new) (S.left source.old)
        (O.written sink.old) (O.written sink.new)) }
    ensures failed { IfErr result (HasFailed (F.files folder.old) building.now.options mode
        words.now (S.left source.old) (S.left source.new) (O.written sink.old)
        (O.written sink.new)) }
    ensures later { result ≡ Err LiveFault.ReadFault → HasLivedUntil LiveFault.ReadFault
        (F.files folder.old) building.now.options mode words.now [] (S.left source.old)
        (S.left source.new) (O.written sink.old) (O.written sink.new) }
    ensures behind { (f : FeedFault) → result ≢ Err (LiveFault.Feed f) }
    ensures folder { (F.faults folder.new ≡ F.faults folder.old)
        ⊎ HasToldFirst mode.json words.now (O.written sink.old) (O.written sink.new) }
    ensures bytes { (bytes : List ℕ) × Consumes (S.left source.old) (S.left source.new) bytes }
    ensures read { result ≡ Err LiveFault.ReadFault → S.faults source.old < S.faults source.new }
    ensures source { (result ≡ Err LiveFault.ReadFault)
        ⊎ (S.faults source.new ≡ S.faults source.old) }
    ensures write { result ≡ Err LiveFault.WriteFault → O.faults sink.old < O.faults sink.new }
    ensures sink { (result ≡ Err LiveFault.WriteFault)
        ⊎ (O.faults sink.new ≡ O.faults sink.old) }
{
    match write_news(alloc, mode.json, news, sink) {
        Ok(()) => run_sides(
            rt, alloc, gate, building, mode, words, folder, publisher, day, items, tells, side,
            source, sink,
        ),
        Err(fault) => {
            drop(publisher.finish(rt));
            drop(day);
            drop(items);
            drop(tells);
            drop(side);
            Err(fault)
        }
    }
}

// The run, where the first item's edition is built. `opened`, `named` and `told` have the names of
// the list of editions and of the two hand-overs.
fn live_from<
    J: Naming + Send + Sync,
    K: Naming + Send + Sync,
    L: Naming + Send + Sync,
    F: Folder + Send,
    G: Gate,
    S: Source,
    O: Sink,
    R: Threads + Wait + Sync,
>(
    rt: &R,
    alloc: Global,
    gate: &G,
    building: &Building,
    mode: LiveMode,
    lanes: u32,
    words: &[PlanItem],
    folder: &mut F,
    opened: Opened<Edition>,
    named: Opened<PlanItem>,
    told: Opened<News>,
    first: Shared,
    source: &mut S,
    sink: &mut O,
) -> Result<(), LiveFault>
    requires editions { opened.seen.book ≡ J.book }
    requires items { named.seen.book ≡ K.book }
    requires news { told.seen.book ≡ L.book }
    requires building { IsGoodBuilding building.now }
    requires mirrored { building.now.mirrored ≡ mode.mirrored }
    requires some { 0 < length words.now }
    requires lanes { 0 < lanes }
    requires first { BeginsWithFirst (F.files folder.old) building.now.options
        building.now.mirrored words.now (first ∷ []) }
    requires source { S.faults source.old < 2 ^ 64 - 1 }
    requires sink { O.faults sink.old < 2 ^ 64 - 1 }
    ensures files { F.files folder.new ≡ F.files folder.old }
    ensures whole { OnOk result (HasLived (F.files folder.old) building.now.options mode
        words.now [] (F.faults folder.old) (F.faults folder.new) (S.left source.old)
        (O.written sink.old) (O.written sink.new)) }
    ensures failed { IfErr result (HasFailed (F.files folder.old) building.now.options mode
        words.now (S.left source.old) (S.left source.new) (O.written sink.old)
        (O.written sink.new)) }
    ensures later { result ≡ Err LiveFault.ReadFault → HasLivedUntil LiveFault.ReadFault
        (F.files folder.old) building.now.options mode words.now [] (S.left source.old)
        (S.left source.new) (O.written sink.old) (O.written sink.new) }
    ensures behind { (f : FeedFault) → result ≢ Err (LiveFault.Feed f) }
    ensures folder { (F.faults folder.new ≡ F.faults folder.old)
        ⊎ HasToldFirst mode.json words.now (O.written sink.old) (O.written sink.new) }
    ensures bytes { (bytes : List ℕ) × Consumes (S.left source.old) (S.left source.new) bytes }
    ensures read { result ≡ Err LiveFault.ReadFault → S.faults source.old < S.faults source.new }
    ensures source { (result ≡ Err LiveFault.ReadFault)
        ⊎ (S.faults source.new ≡ S.faults source.old) }
    ensures write { result ≡ Err LiveFault.WriteFault → O.faults sink.old < O.faults sink.new }
    ensures sink { (result ≡ Err LiveFault.WriteFault)
        ⊎ (O.faults sink.new ≡ O.faults sink.old) }
{
    let item = &words[0];
    match first_told(alloc, item, &first) {
        Ok((news, day)) => match begin::<J, K, L, R>(
            rt, alloc, mode, lanes, opened, named, told, first, item, &news,
        ) {
            Ok((publisher, items, tells, side)) => live_behind(
                rt, alloc, gate, building, mode, words, folder, &news, publisher, day, items,
                tells, side, source, sink,
            ),
            Err(Memory) => {
                drop(day);
                Err(LiveFault::Memory)
            }
        },
        Err(Memory) => {
            drop(first);
            Err(LiveFault::Memory)
        }
    }
}

/// Publishes the plan's items, and then those that lines name, each as it is read and built, while
/// the lines of a source are answered as they come, by so many lanes: 1 to 64. News of each item
/// are told, first of all that of the first one, a day, which is published before a line is read.
/// `workers` workers reduce the transfers of an item: 1 to 64. `Feed` comes only where the first
/// item's feed is refused; what becomes of further items ends nothing. At `Feed` the folder's count
/// of faults stays. Else it rises only once the news of the first item are written, or at
/// `ReadFault`. It may wait. That lines are answered while an item is built is tested and in no
/// clause.
pub fn run_live<F: Folder + Send, S: Source, O: Sink, G: Gate, R: Threads + Wait + Sync>(
    rt: &R,
    alloc: Global,
    plan: &[PlanItem],
    options: &Options,
    workers: u32,
    lanes: u32,
    mode: LiveMode,
    folder: &mut F,
    source: &mut S,
    sink: &mut O,
    gate: &G,
) -> Result<(), LiveFault>
    requires plan { BeginsWithDay plan.now }
    requires options { AreWithinADay options.now }
    requires workers { AreWorkers workers }
    requires lanes { 0 < lanes }
    requires folder { F.faults folder.old < 2 ^ 64 - 1 }
    requires source { S.faults source.old < 2 ^ 64 - 1 }
    requires sink { O.faults sink.old < 2 ^ 64 - 1 }
    ensures whole { OnOk result (HasLived (F.files folder.old) options.now mode plan.now []
        (F.faults folder.old) (F.faults folder.new) (S.left source.old) (O.written sink.old)
        (O.written sink.new)) }
    ensures failed { IfErr result (HasFailed (F.files folder.old) options.now mode plan.now
        (S.left source.old) (S.left source.new) (O.written sink.old) (O.written sink.new)) }
    ensures files { F.files folder.new ≡ F.files folder.old }
    ensures taken { (bytes : List ℕ) × Consumes (S.left source.old) (S.left source.new) bytes }
    ensures read { result ≡ Err LiveFault.ReadFault →
        (F.faults folder.old < F.faults folder.new)
        ⊎ (S.faults source.old < S.faults source.new) }
    ensures source { (result ≡ Err LiveFault.ReadFault)
        ⊎ (S.faults source.new ≡ S.faults source.old) }
    ensures alone { (F.faults folder.new ≡ F.faults folder.old)
        ⊎ (S.faults source.new ≡ S.faults source.old)
        ⊎ HasToldFirst mode.json plan.now (O.written sink.old) (O.written sink.new) }
    ensures feed { (f : FeedFault) → result ≡ Err (LiveFault.Feed f) →
        F.faults folder.new ≡ F.faults folder.old }
    ensures folder_kept { (result ≡ Err LiveFault.ReadFault)
        ⊎ (F.faults folder.new ≡ F.faults folder.old)
        ⊎ HasToldFirst mode.json plan.now (O.written sink.old) (O.written sink.new) }
    ensures later { result ≡ Err LiveFault.ReadFault →
        F.faults folder.new ≡ F.faults folder.old → HasLivedUntil LiveFault.ReadFault
        (F.files folder.old) options.now mode plan.now [] (S.left source.old)
        (S.left source.new) (O.written sink.old) (O.written sink.new) }
    ensures write { result ≡ Err LiveFault.WriteFault → O.faults sink.old < O.faults sink.new }
    ensures sink { (result ≡ Err LiveFault.WriteFault)
        ⊎ (O.faults sink.new ≡ O.faults sink.old) }
{
    let building = Building {
        options: *options,
        workers,
        mirrored: mode.mirrored,
    };
    match build_day(rt, alloc, gate, building, folder, first_day(plan)) {
        Ok(edition) => live_from::<Brand, Brand, Brand, F, G, S, O, R>(
            rt,
            alloc,
            gate,
            &building,
            mode,
            lanes,
            plan,
            folder,
            Opened::new(),
            Opened::new(),
            Opened::new(),
            edition,
            source,
            sink,
        ),
        Err(DayFault::Feed(fault)) => Err(LiveFault::Feed(fault)),
        Err(DayFault::ReadFault) => Err(LiveFault::ReadFault),
        Err(DayFault::Memory) => Err(LiveFault::Memory),
    }
}
