//! The hops of a trip's transfers, event by event.
ghost use Rattle.std.specs.Prelude.{◌≡◌, ◌≢◌, ◌+◌, ◌-◌, ◌<◌, ◌≤◌, ◌++◌, All, IfOk, IsTrue, OnOk, length, slice_index_or};
ghost use Rattle.std.specs.List.{AllWithin};
ghost use Rattle.tb_base.specs.OutSets.{hops_at};
ghost use Rattle.tb_base.specs.declared.transfer.Transfer.{Transfer};
ghost use Rattle.transfer_pack.specs.Descending.{AreLeft, Descend};

use super::hops::{HopList, part};
use std::alloc::Global;
use tb_base::{Hop, Memory, Transfer};

/// Adds the hops of a trip's transfers from one of its events, which may stand anywhere among them.
pub(crate) fn add_scattered(
    alloc: Global,
    hops: &mut HopList,
    row: &[Transfer],
    at: usize,
) -> Result<(), Memory>
    ensures { OnOk result (hops.new ≡ hops.old ++ hops_at row.now at) }
{
    for k in 0..row.len() {
        if row[k].at as usize == at {
            hops.push(alloc, hop_of(&row[k]))?;
        }
    }
    Ok(())
}

/// Whether a trip's transfers stand by their events, the last event first.
pub(crate) fn descend(row: &[Transfer]) -> bool
    ensures { IsTrue result → Descend row.now }
{
    for k in 1..row.len() {
        if row[k].at > row[k - 1].at {
            return false;
        }
    }
    true
}

/// Adds the hops from an event, whose transfers are the last ones of a part that is left of a row;
/// tells what is left of it then.
pub(crate) fn add_last(
    alloc: Global,
    hops: &mut HopList,
    row: &[Transfer],
    left: usize,
    at: usize,
) -> Result<usize, Memory>
    requires row { Descend row.now }
    requires left { AreLeft row.now at left }
    ensures left { IfOk result (λ first. AreLeft row.now (at + 1) first) }
    ensures hops { OnOk result (hops.new ≡ hops.old ++ hops_at row.now at) }
{
    let first = run_start(row, left, at);
    add_run(alloc, hops, part(row, first, left), at)?;
    Ok(first)
}

// Where the transfers from an event begin that end a part of a row.
fn run_start(row: &[Transfer], left: usize, at: usize) -> usize
    requires { left ≤ length row.now }
    ensures within { result ≤ left }
    ensures here { AllWithin (λ r. r.at ≡ at) row.now result left }
    ensures before { 0 < result → (d : Transfer) →
        (slice_index_or row.now (result - 1) d).at ≢ at }
{
    let mut first = left;
    while first > 0 {
        if row[first - 1].at as usize != at {
            return first;
        }
        first -= 1;
    }
    first
}

// Adds the hops of transfers that are all from one event.
fn add_run(alloc: Global, hops: &mut HopList, run: &[Transfer], at: usize) -> Result<(), Memory>
    requires { All (λ r. r.at ≡ at) run.now }
    ensures { OnOk result (hops.new ≡ hops.old ++ hops_at run.now at) }
{
    for k in 0..run.len() {
        hops.push(alloc, hop_of(&run[k]))?;
    }
    Ok(())
}

// The hop of a transfer.
fn hop_of(transfer: &Transfer) -> Hop
    ensures { result ≡ record { trip = transfer.now.to_trip; at = transfer.now.to_at } }
{
    Hop {
        trip: transfer.to_trip,
        at: transfer.to_at,
    }
}
