//! The reduction by several workers. The result is that of a single one.
ghost use Rattle.std.specs.Prelude.{◌≡◌, ◌<◌, ◌≤◌, [], IfOk, length};
ghost use Rattle.tb_base.specs.OutSets.{AreRowsOf};
ghost use Rattle.reduce_workers.specs.Reductions.{piece_count, piece_reduced, reduced};
ghost use Rattle.reduce_workers.specs.Seats.{IsOpen};
ghost use Rattle.reduce_workers.specs.Work.{Worked};

use crate::claim::Claim;
use crate::pieces::{piece_count, reduce_piece};
use crate::places::{Brought, collect, join_pieces, place};
use crate::reduced::Reduced;
use crate::seat::ClaimSeat;
use line_split::Lines;
use std::alloc::Global;
use std::thread;
use std::thread::Threads;
use tb_base::{Gate, Memory, Timetable, Work};
use transfer_pack::FlatCalls;
use transfer_reduce::Labels;

// Draws pieces and reduces them until none is left, with labels of its own. The gate is told of
// each piece.
fn reduce_drawn<G: Gate>(
    alloc: Global,
    table: &Timetable,
    lines: &Lines,
    calls: &FlatCalls,
    gate: &G,
    claim: &Claim,
    mut seat: ClaimSeat,
) -> Result<Brought, Memory>
    requires lines { lines.now.table ≡ table.now }
    requires calls { calls.now ≡ table.now }
    requires pieces { claim.now.pieces ≡ piece_count (length table.now.trips) }
    requires seat { IsOpen claim.now [] seat }
    ensures { IfOk result (Worked claim.now (piece_reduced table.now lines.now.lines)) }
{
    let mut labels = Labels::new(alloc, table)?;
    let mut done = Vec::new(alloc);
    while let Some(n) = claim.draw(&mut seat) {
        gate.begin(Work::Piece(n));
        let reduced = reduce_piece(alloc, table, lines, calls, &mut labels, n);
        gate.done(Work::Piece(n));
        done.push((n, reduced?))?;
    }
    Ok((seat, done))
}

/// Reduces the transfers of all trips by so many workers, of which there are at least one and at
/// most 64. The workers draw pieces of 64 trips. The kept transfers and the counts are the same for
/// every number of workers, whoever draws which piece. The lines are those of the timetable. Takes
/// memory for the kept transfers, and for each worker for its labels. Refused only for want of
/// memory. So in the code and in no clause: the gate is told when a worker begins a piece and when
/// it is done with it, and where no thread can be started the caller does that worker's part itself.
pub fn reduce_all<G: Gate, R: Threads + Sync>(
    rt: &R,
    alloc: Global,
    table: &Timetable,
    lines: &Lines,
    workers: u32,
    gate: &G,
) -> Result<Reduced, Memory>
    requires some { 0 < workers }
    requires most { workers ≤ 64 }
    requires lines { lines.now.table ≡ table.now }
    ensures reduced { IfOk result (λ r. r ≡ reduced table.now lines.now.lines) }
    ensures rows { IfOk result (λ r. AreRowsOf table.now r.rows) }
{
    crate::laws::kept_rows();
    table.soundness();
    lines.soundness();
    let (claim, seats) = Claim::new(alloc, piece_count(table), workers)?;
    let flat = FlatCalls::of(alloc, table)?;
    let calls = &flat;
    let shared = &claim;
    let worker = |seat: ClaimSeat| -> Result<Brought, Memory>
        requires lines { lines.now.table ≡ table.now }
        requires calls { calls.now ≡ table.now }
        requires pieces { shared.now.pieces ≡ piece_count (length table.now.trips) }
        requires seat { IsOpen shared.now [] seat }
        ensures { IfOk result
            (Worked shared.entry.now (piece_reduced table.entry.now lines.entry.now.lines)) }
    { reduce_drawn(alloc, table, lines, calls, gate, shared, seat) };
    let brought = thread::map_vec(rt, seats, &worker)?;
    let (seats, done) = collect(alloc, table, lines, &claim, brought)?;
    let _drawn = claim.gather(seats);
    let slots = place(alloc, piece_count(table), done)?;
    join_pieces(alloc, table, lines, slots)
}
