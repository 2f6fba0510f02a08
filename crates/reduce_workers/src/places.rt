//! What the workers bring, put to its place by the numbers of the pieces.
ghost use Rattle.std.specs.Prelude.{◌≡◌, ℕ, ◌<◌, All, IfOk, None, Some, length, map, slice_index_or, vec_len};
ghost use Rattle.reduce_workers.specs.Reductions.{ReducedData, piece_count, piece_reduced, reduced};
ghost use Rattle.reduce_workers.specs.Claim.{times};
ghost use Rattle.reduce_workers.specs.Seats.{IsDone};
ghost use Rattle.reduce_workers.specs.Work.{Worked, number, IsPieceOf, pieces_of};

use crate::claim::Claim;
use crate::reduced::Reduced;
use crate::seat::ClaimSeat;
use line_split::Lines;
use std::alloc::Global;
use tb_base::{Memory, Timetable};

/// A piece by its number, and what the reduction makes of it.
pub(crate) type Piece = (u32, Reduced);

/// What a worker brings: its seat, and its pieces.
pub(crate) type Brought = (ClaimSeat, Vec<Piece>);

/// The seats of all workers, and the pieces of all.
pub(crate) fn collect(
    alloc: Global,
    table: &Timetable,
    lines: &Lines,
    claim: &Claim,
    mut brought: Vec<Result<Brought, Memory>>,
) -> Result<(Vec<ClaimSeat>, Vec<Piece>), Memory>
    requires { All (λ b. IfOk b
        (Worked claim.now (piece_reduced table.now lines.now.lines))) brought.items }
    ensures all { IfOk result (λ r. vec_len r.0 ≡ vec_len brought) }
    ensures done { IfOk result (λ r. All (IsDone claim.now) r.0.items) }
    ensures pieces { IfOk result
        (λ r. r.1.items ≡ pieces_of (piece_reduced table.now lines.now.lines) r.0.items) }
{
    let mut seats = Vec::new(alloc);
    let mut all = Vec::new(alloc);
    while let Some(one) = brought.pop() {
        let (seat, mut pieces) = one?;
        seats.push(seat)?;
        all.append(&mut pieces)?;
    }
    Ok((seats, all))
}

/// Puts each piece to its place.
pub(crate) fn place(
    alloc: Global,
    count: u32,
    mut pieces: Vec<Piece>,
) -> Result<Vec<Option<Reduced>>, Memory>
    requires { All (λ p. number p < count) pieces.items }
    ensures long { IfOk result (λ slots. vec_len slots ≡ count) }
    ensures placed { IfOk result (λ slots. (f : ℕ → ReducedData) →
        All (IsPieceOf f) pieces.items → (n : ℕ) →
        0 < times n (map number pieces.items) →
        slice_index_or slots.items n None ≡ Some (f n)) }
{
    let mut slots = vacant(alloc, count)?;
    while let Some((n, reduced)) = pieces.pop() {
        slots[n as usize] = Some(reduced);
    }
    Ok(slots)
}

// So many places with nothing in them.
fn vacant(alloc: Global, count: u32) -> Result<Vec<Option<Reduced>>, Memory>
    ensures { IfOk result (λ slots. vec_len slots ≡ count) }
{
    let mut slots = Vec::new(alloc);
    for _slot in 0..count {
        slots.push(None)?;
    }
    Ok(slots)
}

/// The pieces of all trips, one behind the other.
pub(crate) fn join_pieces(
    alloc: Global,
    table: &Timetable,
    lines: &Lines,
    mut slots: Vec<Option<Reduced>>,
) -> Result<Reduced, Memory>
    requires lines { lines.now.table ≡ table.now }
    requires long { vec_len slots ≡ piece_count (length table.now.trips) }
    requires each { (n : ℕ) → n < vec_len slots →
        slice_index_or slots.items n None ≡ Some (piece_reduced table.now lines.now.lines n) }
    ensures { IfOk result (λ r. r ≡ reduced table.now lines.now.lines) }
{
    table.soundness();
    let mut all = Reduced::new(alloc);
    for n in 0..slots.len() {
        let Some(piece) = slots[n].take() else {
            unreachable!()
        };
        all.append(table, lines, piece)?;
    }
    Ok(all)
}
