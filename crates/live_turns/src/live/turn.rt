//! One turn of lines.
ghost use Rattle.std.specs.Prelude.{◌≡◌, ◌⊎◌, ◌<◌, ◌+◌, ◌++◌, ◌∷◌, [], ℕ, All, Some, IfErr, IfOk, OnOk, flat_map, length, sum_by, take, vec_len};
ghost use Rattle.edition_store.specs.Editions.{EditionData};
ghost use Rattle.history.specs.Lists.{Extends};
ghost use Rattle.live_turns.specs.LiveLines.{HasSaidTimes, HasWantedTimes, asked_from, item_said, live_counts, live_gives, live_said, wanted};
ghost use Rattle.live_turns.specs.LiveTurns.{before_lines, HearsSome, IsLiveTurn, LineSideData, side_of};
ghost use Rattle.query_gate.specs.Dealing.{joined_texts};

use crate::giver::{Given, Giver};
use crate::live::news::{News, tell_news};
use crate::live::office::answer_asked;
use crate::live::saying::{Asked, LiveMode, Saying, Wanted, live_said};
use crate::taker::Taker;
use answer_text::Text;
use edition_build::PlanItem;
use edition_store::{Naming, Seat};
use segment_queue::Desk;
use std::alloc::Global;
use std::marker::Model;
use std::sync::Wait;
use std::thread::Threads;
use tb_base::{Gate, Memory, Name};

/// The side of a process that takes lines: a seat from which editions are pinned, a desk for each
/// lane, the number of the next line, who gives items to the publisher, and who takes its news.
#[derive(Drop)]
pub(crate) struct LineSide<J: Naming, K: Naming, L: Naming> {
    alloc: Global,
    mode: LiveMode,
    seat: Seat<J>,
    desks: Vec<Desk>,
    next: u64,
    giver: Giver<PlanItem, K>,
    news: Taker<News, L>,
}

/// A side of lines without its hand-overs. Its seat has a place, which may be empty.
#[derive(Drop)]
pub(crate) struct Bench<J: Naming> {
    pub mode: LiveMode,
    pub desks: Vec<Desk>,
    pub next: u64,
    pub seat: Option<Seat<J>>,
}

/// The hand-overs of a side of lines: who gives items, or what was given; and who takes news.
#[derive(Drop)]
pub(crate) struct Hands<K: Naming, L: Naming> {
    pub giver: Option<Giver<PlanItem, K>>,
    pub given: Option<Given<PlanItem, K>>,
    pub news: Option<Taker<News, L>>,
}

impl<J: Naming, K: Naming, L: Naming> Model for LineSide<J, K, L> {
    ghost use Rattle.std.specs.Prelude.{vec_len};
    ghost use Rattle.live_turns.specs.LiveTurns.{LineSideData};

    ghost Value = { LineSideData };

    ghost view = { λ s. record {
      mode = s.mode;
      lanes = vec_len s.desks;
      live = record { kept = s.seat; next = s.next; told = s.news };
      given = s.giver;
    } };
}

impl<J: Naming, K: Naming, L: Naming> LineSide<J, K, L> {
    /// A side before its first line, with a lane at each desk.
    pub(crate) fn new(
        alloc: Global,
        mode: LiveMode,
        desks: Vec<Desk>,
        seat: Seat<J>,
        giver: Giver<PlanItem, K>,
        news: Taker<News, L>,
    ) -> LineSide<J, K, L>
        ensures { result ≡ before_lines mode (vec_len desks) seat giver news }
    {
        LineSide {
            alloc,
            mode,
            seat,
            desks,
            next: 1,
            giver,
            news,
        }
    }

    /// The side that these parts make.
    pub(crate) fn of_parts(
        alloc: Global,
        mode: LiveMode,
        desks: Vec<Desk>,
        next: u64,
        seat: Seat<J>,
        giver: Giver<PlanItem, K>,
        news: Taker<News, L>,
    ) -> LineSide<J, K, L>
        ensures { result ≡ side_of mode (vec_len desks) next seat giver news }
    {
        LineSide {
            alloc,
            mode,
            seat,
            desks,
            next,
            giver,
            news,
        }
    }

    /// Its parts, each in its place.
    pub(crate) fn split(self) -> (Bench<J>, Hands<K, L>)
        ensures mode { result.0.mode ≡ self.mode }
        ensures lanes { vec_len result.0.desks ≡ self.lanes }
        ensures next { result.0.next ≡ self.live.next }
        ensures seat { result.0.seat ≡ Some self.live.kept }
        ensures giver { result.1.giver ≡ Some self.given }
        ensures news { result.1.news ≡ Some self.live.told }
    {
        let LineSide {
            mode,
            seat,
            desks,
            next,
            giver,
            news,
            ..
        } = self;
        let bench = Bench {
            mode,
            desks,
            next,
            seat: Some(seat),
        };
        let hands = Hands {
            giver: Some(giver),
            given: None,
            news: Some(news),
        };
        (bench, hands)
    }

    /// Its parts, in the end: the seat, who gives items, and who takes news.
    pub(crate) fn into_parts(self) -> (Seat<J>, Giver<PlanItem, K>, Taker<News, L>)
        ensures seat { result.0 ≡ self.live.kept }
        ensures giver { result.1 ≡ self.given }
        ensures news { result.2 ≡ self.live.told }
    {
        let LineSide {
            seat,
            desks,
            giver,
            news,
            ..
        } = self;
        drop(desks);
        (seat, giver, news)
    }
}

// What is wanted by what a line says. An item is given to the publisher.
fn hand_over<K: Naming, R: Wait>(
    rt: &R,
    alloc: Global,
    giver: &mut Giver<PlanItem, K>,
    saying: Saying,
) -> Result<Wanted, Memory>
    requires { HasSaidTimes saying }
    ensures wanted { IfOk result (λ w. w ≡ wanted saying) }
    ensures times { IfOk result HasWantedTimes }
    ensures given { OnOk result (giver.new ≡ giver.old ++ item_said saying) }
    ensures refused { IfErr result (λ _. (giver.new ≡ giver.old)
        ⊎ (giver.new ≡ giver.old ++ item_said saying)) }
{
    match saying {
        Saying::Nothing => Ok(Wanted::Nothing),
        Saying::Request(request) => Ok(Wanted::Reply(request)),
        Saying::Publish(item) => {
            let word = Name::new(alloc, item.word.as_bytes())?;
            giver.give(rt, item)?;
            Ok(Wanted::Queued(word))
        }
        Saying::BadLine => Ok(Wanted::BadLine),
        Saying::BadTime => Ok(Wanted::BadTime),
    }
}

// What is wanted by the next line. `next` is its number, and then that of the line behind it.
fn hear<K: Naming, R: Wait>(
    rt: &R,
    alloc: Global,
    mode: LiveMode,
    next: &mut u64,
    giver: &mut Giver<PlanItem, K>,
    line: &Name,
) -> Result<Asked, Memory>
    ensures asked { IfOk result (λ a.
        a ≡ record { number = next.old; wanted = wanted (live_said mode line.now) }) }
    ensures times { IfOk result (λ (a : Asked). HasWantedTimes a.wanted) }
    ensures next { OnOk result (next.new ≡ next.old + live_counts mode line.now) }
    ensures given { OnOk result (giver.new ≡ giver.old ++ live_gives mode line.now) }
    ensures refused { IfErr result (λ _. (giver.new ≡ giver.old)
        ⊎ (giver.new ≡ giver.old ++ live_gives mode line.now)) }
{
    let saying = live_said(alloc, mode, line.bytes())?;
    let number = *next;
    let Some(behind) = number.checked_add(saying.count()) else {
        return Err(Memory);
    };
    let wanted = hand_over(rt, alloc, giver, saying)?;
    *next = behind;
    Ok(Asked { number, wanted })
}

// The same of each line, in order.
fn hear_all<K: Naming, R: Wait>(
    rt: &R,
    alloc: Global,
    mode: LiveMode,
    next: &mut u64,
    giver: &mut Giver<PlanItem, K>,
    lines: &[Name],
) -> Result<Vec<Asked>, Memory>
    ensures asked { IfOk result (λ v. v.items ≡ asked_from mode next.old lines.now) }
    ensures times { IfOk result
        (λ v. All (λ (a : Asked). HasWantedTimes a.wanted) v.items) }
    ensures next { OnOk result
        (next.new ≡ next.old + sum_by (live_counts mode) lines.now) }
    ensures given { OnOk result
        (giver.new ≡ giver.old ++ flat_map (live_gives mode) lines.now) }
    ensures refused { IfErr result (λ _. (n : ℕ)
        × (giver.new ≡ giver.old ++ flat_map (live_gives mode) (take n lines.now))) }
{
    let mut asked = Vec::new(alloc);
    for line in lines {
        let one = hear(rt, alloc, mode, next, giver, line)?;
        let Ok(()) = asked.push(one) else {
            return Err(Memory);
        };
    }
    Ok(asked)
}

// Adds texts.
fn add_texts(text: &mut Text, texts: &[Vec<u8>]) -> Result<(), Memory>
    ensures { OnOk result (text.new ≡ text.old ++ joined_texts texts.now) }
{
    for more in texts {
        text.add(more.as_slice())?;
    }
    Ok(())
}

/// The text of one turn: what is new, and a reply to each line in order, all by the edition that is
/// the last one when the turn begins. Items that lines name are given to the publisher. Refused
/// only for want of memory: those of some first lines are given then.
pub(crate) fn take_turn<J: Naming, K: Naming, L: Naming, G: Gate, R: Threads + Wait + Sync>(
    rt: &R,
    gate: &G,
    side: &mut LineSide<J, K, L>,
    lines: &[Name],
) -> Result<Vec<u8>, Memory>
    requires { 0 < side.old.lanes }
    ensures turn { IfOk result (λ v.
        IsLiveTurn side.old.mode side.old lines.now v.items side.new) }
    ensures refused { IfErr result (λ _. HearsSome side.old.mode side.old side.new lines.now) }
    ensures mode { side.new.mode ≡ side.old.mode }
    ensures lanes { OnOk result (side.new.lanes ≡ side.old.lanes) }
    ensures later { Extends side.new.live.kept side.old.live.kept }
{
    let alloc = side.alloc;
    let json = side.mode.json;
    let mut text = Text::new(alloc);
    tell_news(rt, alloc, json, &mut side.news, &mut text)?;
    let pinned = side.seat.pin()?;
    let asked = hear_all(rt, alloc, side.mode, &mut side.next, &mut side.giver, lines)?;
    let texts = answer_asked(
        rt,
        alloc,
        gate,
        json,
        &pinned,
        &mut side.desks,
        asked.as_slice(),
    )?;
    add_texts(&mut text, texts.as_slice())?;
    Ok(text.into_bytes())
}
