//! Stores of an edition: how many pins are made, and how many publications.
ghost use Rattle.std.specs.Prelude.{◌≡◌, ◌<◌, length};

use super::found::Found;
use edition_store::{Edition, Naming, Opened, Publisher, Seat, Shared, Store};
use std::alloc::Global;
use std::marker::Brand;
use std::sync::Wait;
use tb_base::Memory;

// So many pins of one seat, each let go before the next.
fn pins<J: Naming>(seat: &mut Seat<J>, count: u32) -> Result<Found, Memory> {
    let mut found = Found::NOTHING;
    for _turn in 0..count {
        let pinned = seat.pin()?;
        found.add_number(pinned.number());
    }
    Ok(found)
}

fn pins_of<J: Naming>(seats: &mut Vec<Seat<J>>, count: u32) -> Result<Found, Memory> {
    match seats.first_mut() {
        Some(seat) => pins(seat, count),
        None => Ok(Found::NOTHING),
    }
}

// So many pins over a store of its own.
fn pinned<J: Naming, R: Wait>(
    rt: &R,
    alloc: Global,
    opened: Opened<Edition>,
    first: Shared,
    count: u32,
) -> Result<Found, Memory>
    requires { opened.seen.book ≡ J.book }
{
    let (publisher, mut seats) = Store::new::<J>(alloc, opened, first, 1)?;
    let found = pins_of(&mut seats, count);
    let _last = publisher.finish(rt);
    found
}

/// What so many pins of one seat see: their count, and the sum of their editions' numbers.
pub fn by_pins<R: Wait>(
    rt: &R,
    alloc: Global,
    edition: Edition,
    count: u32,
) -> Result<Found, Memory> {
    let first = Shared::new(alloc, edition)?;
    pinned::<Brand, R>(rt, alloc, Opened::new(), first, count)
}

// Publishes the edition once more.
fn publish_again<J: Naming, R: Wait>(
    rt: &R,
    publisher: Publisher<J>,
    edition: &Shared,
) -> Result<Publisher<J>, Memory>
    requires { length publisher < 100 }
{
    match edition.share() {
        Ok(share) => match publisher.publish(rt, share) {
            Ok((publisher, _receipt)) => Ok(publisher),
            Err(refused) => {
                let _last = refused.end(rt);
                Err(Memory)
            }
        },
        Err(Memory) => {
            let _last = publisher.finish(rt);
            Err(Memory)
        }
    }
}

// Publishes the edition until there are 100.
fn fill<J: Naming, R: Wait>(
    rt: &R,
    publisher: Publisher<J>,
    edition: &Shared,
) -> Result<(), Memory> {
    let mut publisher = publisher;
    for _turn in 1..100 {
        if publisher.count() >= 100 {
            break;
        }
        publisher = match publish_again(rt, publisher, edition) {
            Ok(next) => next,
            Err(Memory) => return Err(Memory),
        };
    }
    let _last = publisher.finish(rt);
    Ok(())
}

// A store of its own that is filled, with one seat.
fn filled<J: Naming, R: Wait>(
    rt: &R,
    alloc: Global,
    opened: Opened<Edition>,
    first: &Shared,
) -> Result<(), Memory>
    requires { opened.seen.book ≡ J.book }
{
    let (publisher, _seats) = Store::new::<J>(alloc, opened, first.share()?, 1)?;
    fill(rt, publisher, first)
}

/// Fills so many stores of one seat with 99 publications each of one edition.
pub fn by_publications<R: Wait>(
    rt: &R,
    alloc: Global,
    edition: Edition,
    count: u32,
) -> Result<Found, Memory> {
    let first = Shared::new(alloc, edition)?;
    let mut found = Found::NOTHING;
    for _turn in 0..count {
        filled::<Brand, R>(rt, alloc, Opened::new(), &first)?;
        found.add_number(99);
    }
    Ok(found)
}
