//! The rows of transfers.txt by the numbers of their ends.
ghost use Rattle.std.specs.Prelude.{◌≡◌, ◌<◌, ◌≤◌, ◌++◌, ◌∷◌, [], ℕ, not, true, false, All, Ok, IfOk, OnOk, OnErr, MatchResult, MatchBool, length, nat_eq};
ghost use Rattle.std.specs.List.{list_any};
ghost use Rattle.gtfs_rows.specs.Refused.{Yields};
ghost use Rattle.gtfs_rows.specs.TransfersFile.{TakesAtMostADay, TransferData};
ghost use Rattle.footpaths.specs.Links.{secs_by, end_of, link_of, links_of, check_transfers, HasEnds, LacksEnd, pair_number, IsPathsRefused};

use crate::found::{Found, Link};
use crate::{PathsFault, StopTable};
use gtfs_rows::columns::transfers;
use gtfs_rows::{PathRule, TransferRow};
use indexmap::IndexSet;
use std::alloc::{AllocError, Global};
use std::marker::Model;
use tb_base::{HashKey, Memory};

// The numbers of pairs of stops that were seen.
#[derive(Drop)]
struct Pairs {
    numbers: IndexSet<u64, HashKey>,
}

impl Model for Pairs {
    ghost use Rattle.std.specs.Prelude.{List, ℕ};

    ghost Value = { List ℕ };

    ghost view = { λ p. p.numbers.keys };
}

impl Pairs {
    fn new(alloc: Global, key: HashKey) -> Pairs
        ensures { result ≡ [] }
    {
        Pairs {
            numbers: IndexSet::with_hasher(alloc, key),
        }
    }

    // Adds a number at the end, unless it is there.
    fn add(&mut self, number: u64) -> Result<bool, Memory>
        ensures added { IfOk result
            (λ fresh. MatchBool fresh (self.new ≡ self.old ++ number ∷ []) (self.new ≡ self.old)) }
        ensures fresh { IfOk result (λ fresh. fresh ≡ not (list_any (nat_eq number) self.old)) }
        ensures memory { OnErr result (self.new ≡ self.old) }
    {
        match self.numbers.insert_full(number) {
            Ok((_, fresh)) => Ok(fresh),
            Err(_) => Err(Memory),
        }
    }
}

fn secs_by(change: u32, rule: PathRule) -> Option<u32>
    ensures { result ≡ secs_by change rule }
{
    match rule {
        PathRule::Secs(secs) => Some(secs),
        PathRule::Default => Some(change),
        PathRule::Forbidden => None,
    }
}

// The number of the pair of stops that a row names.
fn pair_of(row: &TransferRow, stops: &StopTable) -> Result<u64, PathsFault>
    ensures number { MatchResult result
        (λ number. HasEnds stops.now row.now × (number ≡ pair_number stops.now row.now))
        (LacksEnd stops.now row.now) }
    ensures day { TakesAtMostADay row.now.rule }
{
    let Some(from) = stops.place(row.from.bytes()) else {
        return Err(PathsFault::UnknownStop {
            row: row.row,
            column: transfers::FROM_STOP_ID,
        });
    };
    let Some(to) = stops.place(row.to.bytes()) else {
        return Err(PathsFault::UnknownStop {
            row: row.row,
            column: transfers::TO_STOP_ID,
        });
    };
    Ok(u64::from(from) * 100_000 + u64::from(to))
}

fn end_of(stops: &StopTable, id: &[u8]) -> Found
    ensures { result ≡ end_of stops.now id.now }
{
    match stops.find(id) {
        Some(found) => found,
        None => Found::Other,
    }
}

fn link_of(row: &TransferRow, stops: &StopTable, change: u32) -> Link
    ensures { result ≡ link_of stops.now change row.now }
{
    Link {
        from: end_of(stops, row.from.bytes()),
        to: end_of(stops, row.to.bytes()),
        secs: secs_by(change, row.rule),
    }
}

// Whether something is wrong with the rows.
fn check_transfers(alloc: Global, rows: &[TransferRow], stops: &StopTable) -> Result<(), PathsFault>
    requires { length stops.now ≤ 100000 }
    ensures checked { Yields IsPathsRefused result (λ _. rows.now)
        (check_transfers stops.now rows.now) }
    ensures days { OnOk result (All (λ r. TakesAtMostADay (TransferData.rule r)) rows.now) }
{
    let mut pairs = Pairs::new(alloc, stops.key());
    for row in rows {
        let pair = match pair_of(row, stops) {
            Ok(pair) => pair,
            Err(fault) => return Err(fault),
        };
        match pairs.add(pair) {
            Ok(true) => {}
            Ok(false) => return Err(PathsFault::DuplicateTransfer(row.row)),
            Err(_) => return Err(PathsFault::Memory),
        }
    }
    Ok(())
}

fn linked(
    alloc: Global,
    rows: &[TransferRow],
    stops: &StopTable,
    change: u32,
) -> Result<Vec<Link>, AllocError>
    ensures { IfOk result (λ links. links.items ≡ links_of stops.now change rows.now) }
{
    rows.iter()
        .map(|row| link_of(row, stops, change))
        .collect(alloc)
}

/// The rows by the numbers of their ends, in order, where nothing is wrong with them.
pub fn links_of(
    alloc: Global,
    rows: &[TransferRow],
    stops: &StopTable,
    change: u32,
) -> Result<Vec<Link>, PathsFault>
    ensures links { MatchResult result
        (λ links. (check_transfers stops.now rows.now ≡ Ok rows.now)
        × (links.items ≡ links_of stops.now change rows.now))
        (IsPathsRefused (check_transfers stops.now rows.now)) }
    ensures days { OnOk result (All (λ r. TakesAtMostADay (TransferData.rule r)) rows.now) }
{
    stops.soundness();
    match check_transfers(alloc, rows, stops) {
        Ok(()) => {}
        Err(fault) => return Err(fault),
    }
    match linked(alloc, rows, stops, change) {
        Ok(links) => Ok(links),
        Err(_) => Err(PathsFault::Memory),
    }
}
