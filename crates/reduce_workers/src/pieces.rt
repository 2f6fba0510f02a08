//! The reduction in pieces of 64 trips.
ghost use Rattle.std.specs.Prelude.{◌≡◌, ◌<◌, IfOk, length};
ghost use Rattle.reduce_workers.specs.Reductions.{piece_count, piece_reduced};

use super::reduced::Reduced;
use super::trips::reduce_from;
use line_split::Lines;
use std::alloc::Global;
use tb_base::{Memory, Timetable};
use transfer_pack::FlatCalls;
use transfer_reduce::Labels;

/// How many trips a piece has. Only the last piece may be shorter.
const PIECE: u32 = 64;

/// How many pieces the trips of a timetable are.
pub(crate) fn piece_count(table: &Timetable) -> u32
    ensures { result ≡ piece_count (length table.now.trips) }
{
    table.soundness();
    (table.trip_count() + (PIECE - 1)) / PIECE
}

/// Reduces the transfers of the trips of a piece, from trip `64 piece` to trip `64 piece + 63`, or
/// to the last one. The lines and the calls are those of the timetable; the labels are for its
/// stops, and may have served any piece before. Takes memory for the kept transfers, and for the
/// candidates of one event besides. Refused only for want of memory; the labels may serve any piece
/// then too.
pub(crate) fn reduce_piece(
    alloc: Global,
    table: &Timetable,
    lines: &Lines,
    calls: &FlatCalls,
    labels: &mut Labels,
    piece: u32,
) -> Result<Reduced, Memory>
    requires lines { lines.now.table ≡ table.now }
    requires calls { calls.now ≡ table.now }
    requires labels { labels.old.table ≡ table.now }
    requires piece { piece < piece_count (length table.now.trips) }
    ensures labels { labels.new.table ≡ table.now }
    ensures reduced { IfOk result (λ r. r ≡ piece_reduced table.now lines.now.lines piece) }
{
    table.soundness();
    let first = PIECE * piece;
    let count = PIECE.min(table.trip_count() - first);
    reduce_from(alloc, table, lines, calls, labels, first, count)
}
