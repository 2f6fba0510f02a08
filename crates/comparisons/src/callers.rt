//! What a caller is told while a second edition is published, and what a shelf of both has.
//!
//! Each answer is written under the number of the edition that was pinned for it, and when a trip
//! reaches its last stop there; the first one again when all is done, since what is pinned stays.
ghost use Rattle.std.specs.Prelude.{◌≡◌, ◌<◌, ◌≤ℤ◌, IfOk, length, pos};

use crate::building::built;
use crate::feed_day::FeedDay;
use crate::stopped::Stopped;
use edition_store::{Edition, Naming, Opened, Pinned, Publisher, Shared, Shelf, Store};
use query_gate::{Answer, AskText, Caller, ProfileText, Reply};
use std::alloc::Global;
use std::marker::Brand;
use std::rt::Files;
use std::sync::Wait;
use std::thread::Threads;
use tb_base::{Choice, Memory, Name, Offer, Sec, Slot, TripNo, Value};

// The trip of which it is told when it reaches its last stop.
const TRIP: u32 = 1;

// When a caller leaves: at eight o'clock, or within five minutes behind.
const LEAVE: Sec = 28_800;

const LAST: Sec = 29_100;

// When the trip reaches its last stop in an edition.
fn arrival_in(edition: &Edition) -> Option<Sec> {
    let table = edition.table();
    if table.trip_count() <= TRIP {
        return None;
    }
    table.events(TripNo(TRIP)).last().map(|event| event.arr)
}

// Writes the values of choices.
fn write_values(rt: &impl Print, choices: &[Choice]) {
    for choice in choices {
        write_value(rt, choice.value);
    }
}

fn write_value(rt: &impl Print, value: Value) {
    let _ = println!(rt; "{value:?}");
}

// Writes the slots of offers.
fn write_slots(rt: &impl Print, offers: &[Offer]) {
    for offer in offers {
        write_slot(rt, offer.slot);
    }
}

fn write_slot(rt: &impl Print, slot: Slot) {
    let _ = println!(rt; "{slot:?}");
}

fn write_deferred(rt: &impl Print, since: u32) {
    let _ = println!(rt; "deferred {since}");
}

fn write_text(rt: &impl Print, text: &str) {
    let _ = println!(rt; "{text}");
}

// Writes a reply.
fn write_reply(rt: &impl Print, reply: &Reply) {
    match reply {
        Reply::Values(choices) => write_values(rt, choices.as_slice()),
        Reply::Slots(offers) => write_slots(rt, offers.as_slice()),
        Reply::UnknownStop(_) => write_text(rt, "unknown stop"),
        Reply::Deferred(since) => write_deferred(rt, *since),
        _ => write_text(rt, "another reply"),
    }
}

// Writes an answer.
fn write<J: Naming>(rt: &impl Print, answer: &Answer<J>) {
    let arrival = arrival_in(answer.pinned.edition());
    let _ = println!(rt; "edition {} arrival {arrival:?}", answer.pinned.number());
    write_reply(rt, &answer.reply);
}

// The question from A to a stop.
fn question(alloc: Global, to: &str, since: u32) -> Result<AskText, Memory>
    ensures { IfOk result (λ text. text.leave ≤ℤ pos 359999) }
{
    Ok(AskText {
        since,
        from: Name::new(alloc, b"A".as_slice())?,
        to: Name::new(alloc, to.as_bytes())?,
        leave: LEAVE,
    })
}

// Asks, and writes the answer.
fn told<J: Naming>(
    rt: &impl Print,
    alloc: Global,
    caller: &mut Caller<J>,
    to: &str,
    since: u32,
) -> Result<Answer<J>, Memory> {
    let text = question(alloc, to, since)?;
    let answer = caller.ask(alloc, &text)?;
    write(rt, &answer);
    Ok(answer)
}

// Asks as one who has learned of the second edition.
fn told_later<J: Naming>(
    rt: &impl Print,
    alloc: Global,
    caller: &mut Caller<J>,
) -> Result<Answer<J>, Memory> {
    drop(told(rt, alloc, caller, "D", 3)?);
    drop(told(rt, alloc, caller, "Q", 2)?);
    told(rt, alloc, caller, "D", 0)
}

// Publishes an edition as the last one, and lets a caller know of it.
fn published<J: Naming, R: Wait>(
    rt: &R,
    publisher: Publisher<J>,
    edition: Shared,
    caller: &mut Caller<J>,
) -> Result<(), Memory>
    requires { length publisher < 100 }
{
    match publisher.publish(rt, edition) {
        Ok((publisher, receipt)) => {
            let learned = caller.learn(&receipt);
            let _last = publisher.finish(rt);
            learned
        }
        Err(refused) => {
            let _last = refused.end(rt);
            Err(Memory)
        }
    }
}

// Writes whether a shelf has an edition with this number, and when the trip arrives there.
fn write_earlier<J: Naming>(rt: &impl Print, shelf: &Shelf<J>, number: u32) {
    let arrival = match shelf.earlier(number) {
        Some(edition) => arrival_in(edition),
        None => None,
    };
    let _ = println!(rt; "shelf {number} arrival {arrival:?}");
}

// Writes what a shelf has that is given two pins in turn, and none out of turn.
fn write_shelf<J: Naming>(
    rt: &impl Print,
    alloc: Global,
    first: &Pinned<J>,
    second: &Pinned<J>,
) -> Result<(), Memory> {
    let begins = Shelf::new(alloc, second)?.is_some();
    let Some(mut shelf) = Shelf::new(alloc, first)? else {
        return Err(Memory);
    };
    let again = shelf.add(first)?;
    let added = shelf.add(second)?;
    let _ = println!(rt; "shelf begins {begins} again {again} added {added}");
    for number in 0..4 {
        write_earlier(rt, &shelf, number);
    }
    Ok(())
}

// Asks before and after a publication.
fn told_twice<J: Naming, R: Wait + Print>(
    rt: &R,
    alloc: Global,
    publisher: Publisher<J>,
    second: Shared,
    mut caller: Caller<J>,
) -> Result<(), Memory>
    requires { length publisher < 100 }
{
    let before = told(rt, alloc, &mut caller, "D", 0);
    published(rt, publisher, second, &mut caller)?;
    let before = before?;
    let after = told_later(rt, alloc, &mut caller)?;
    write(rt, &before);
    write_shelf(rt, alloc, &before.pinned, &after.pinned)
}

// Asks over a store of its own.
fn told_over<J: Naming, R: Wait + Print>(
    rt: &R,
    alloc: Global,
    opened: Opened<Edition>,
    first: Shared,
    second: Shared,
) -> Result<(), Memory>
    requires { opened.seen.book ≡ J.book }
{
    let (publisher, mut seats) = Store::new::<J>(alloc, opened, first, 1)?;
    match seats.pop() {
        Some(seat) => told_twice(rt, alloc, publisher, second, Caller::new(alloc, seat)),
        None => {
            let _last = publisher.finish(rt);
            Err(Memory)
        }
    }
}

// The question from A to D for the departures of five minutes.
fn profile_question(alloc: Global) -> Result<ProfileText, Memory>
    ensures { IfOk result (λ text. text.last ≤ℤ pos 359999) }
{
    Ok(ProfileText {
        since: 1,
        from: Name::new(alloc, b"A".as_slice())?,
        to: Name::new(alloc, b"D".as_slice())?,
        first: LEAVE,
        last: LAST,
    })
}

// Asks for a profile, and writes the answer.
fn profile_told<J: Naming>(
    rt: &impl Print,
    alloc: Global,
    caller: &mut Caller<J>,
) -> Result<(), Memory> {
    let text = profile_question(alloc)?;
    let answer = caller.profile(alloc, &text)?;
    write(rt, &answer);
    Ok(())
}

// Asks for a profile over one edition alone.
fn told_alone<J: Naming>(
    rt: &impl Print,
    alloc: Global,
    opened: Opened<Edition>,
    only: Edition,
) -> Result<(), Memory>
    requires { opened.seen.book ≡ J.book }
{
    match Caller::<J>::alone(alloc, opened, only) {
        Ok(mut caller) => {
            let told = profile_told(rt, alloc, &mut caller);
            drop(caller);
            told
        }
        Err(Memory) => Err(Memory),
    }
}

// The edition of a day of a feed.
fn edition_of<R: Threads + Sync + Files + Eprint>(
    rt: &R,
    alloc: Global,
    feed: &FeedDay<'_>,
) -> Result<Edition, Stopped> {
    let table = feed.timetable(rt, alloc)?;
    Ok(built(rt, alloc, table)?)
}

/// Writes what callers are told of a day of a feed, and then of another one.
pub fn tell<R: Threads + Wait + Sync + Files + Print + Eprint>(
    rt: &R,
    alloc: Global,
    first: &FeedDay<'_>,
    second: &FeedDay<'_>,
) -> Result<(), Stopped> {
    let before = Shared::new(alloc, edition_of(rt, alloc, first)?)?;
    let after = Shared::new(alloc, edition_of(rt, alloc, second)?)?;
    Ok(told_over::<Brand, R>(rt, alloc, Opened::new(), before, after)?)
}

/// Writes the profile that a caller of a day of a feed is told.
pub fn tell_alone<R: Threads + Sync + Files + Print + Eprint>(
    rt: &R,
    alloc: Global,
    feed: &FeedDay<'_>,
) -> Result<(), Stopped> {
    let only = edition_of(rt, alloc, feed)?;
    Ok(told_alone::<Brand>(rt, alloc, Opened::new(), only)?)
}
