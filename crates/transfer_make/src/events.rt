//! The candidates of one event.
ghost use Rattle.std.specs.Prelude.{◌≡◌, ◌<◌, ◌≤◌, ◌++◌, All, AllPairs, OnOk, flat_map, length, map};
ghost use Rattle.std.specs.List.{AllWithin};
ghost use Rattle.tb_base.specs.TimetableData.{events_of, stop_at, MayAlight};
ghost use Rattle.tb_base.specs.Transfers.{candidates};
ghost use Rattle.tb_laws.specs.Rows.{transfer_by_hop};
ghost use Rattle.transfer_make.specs.ByBerth.{IsAlighting, own_rows, rows_at};

use super::alighting::Alighting;
use super::hops::add_stop;
use line_split::Lines;
use tb_base::{Memory, Path, StopNo, Timetable, Transfer, TripNo};

// Adds the candidates at the stops that footpaths lead to.
fn add_paths(
    rows: &mut Vec<Transfer>,
    lines: &Lines,
    from: &Alighting,
    paths: &[Path],
) -> Result<(), Memory>
    requires from { IsAlighting lines.now.table lines.now.lines from.now }
    requires paths { All (λ f. (f.to < length lines.now.table.stops) × (f.secs ≤ 86400)) paths.now }
    ensures { OnOk result (rows.new.items ≡ rows.old.items
        ++ flat_map (λ f. rows_at lines.now.table lines.now.lines from.now.trip from.now.at f.to
        f.secs from.now.arr) paths.now) }
{
    for path in paths {
        add_stop(rows, lines, from, path.to, path.secs)?;
    }
    Ok(())
}

// Adds the candidates at the stop itself, where it has a change time.
fn add_own(
    rows: &mut Vec<Transfer>,
    table: &Timetable,
    lines: &Lines,
    from: &Alighting,
    stop: StopNo,
) -> Result<(), Memory>
    requires lines { lines.now.table ≡ table.now }
    requires from { IsAlighting table.now lines.now.lines from.now }
    requires stop { stop < length table.now.stops }
    ensures { OnOk result (rows.new.items ≡ rows.old.items
        ++ own_rows table.now lines.now.lines from.now.trip from.now.at stop from.now.arr) }
{
    if let Some(secs) = table.change(stop, stop) {
        add_stop(rows, lines, from, stop, secs)?;
    }
    Ok(())
}

// How many of the footpaths lead to a stop with a lesser number.
fn paths_below(paths: &[Path], stop: StopNo) -> usize
    requires { AllPairs (λ f g. f.to < g.to) paths.now }
    ensures within { result ≤ length paths.now }
    ensures below { AllWithin (λ f. f.to < stop) paths.now 0 result }
    ensures from { AllWithin (λ f. stop ≤ f.to) paths.now result (length paths.now) }
{
    paths.partition_point(|path| path.to.index() < stop.index())
}

// Adds the candidates of an alighting, by stop: footpaths lead to stops with lesser and with
// greater numbers.
fn add_alighting(
    rows: &mut Vec<Transfer>,
    table: &Timetable,
    lines: &Lines,
    from: &Alighting,
    stop: StopNo,
) -> Result<(), Memory>
    requires lines { lines.now.table ≡ table.now }
    requires from { IsAlighting table.now lines.now.lines from.now }
    requires stop { stop ≡ stop_at table.now from.now.trip from.now.at }
    requires alights { MayAlight table.now from.now.trip from.now.at }
    ensures { OnOk result (rows.new.items ≡ rows.old.items
        ++ map (transfer_by_hop from.now.trip from.now.at)
        (candidates table.now lines.now.lines from.now.trip from.now.at)) }
{
    table.soundness();
    let paths = table.paths(stop);
    let below = paths_below(paths, stop);
    add_paths(rows, lines, from, &paths[..below])?;
    add_own(rows, table, lines, from, stop)?;
    add_paths(rows, lines, from, &paths[below..])
}

/// Adds the candidates of an event of a trip, behind the rows that are there. At a refusal some of
/// them may have been added.
pub fn add_event(
    rows: &mut Vec<Transfer>,
    table: &Timetable,
    lines: &Lines,
    trip: TripNo,
    at: usize,
) -> Result<(), Memory>
    requires lines { lines.now.table ≡ table.now }
    requires trip { trip < length table.now.trips }
    requires at { at < length (events_of table.now trip) }
    ensures { OnOk result (rows.new.items ≡ rows.old.items
        ++ map (transfer_by_hop trip at) (candidates table.now lines.now.lines trip at)) }
{
    table.soundness();
    let event = table.event(trip, at as u32);
    if at == 0 || !event.alight {
        return Ok(());
    }
    let (line, place) = lines.of(trip);
    let from = Alighting {
        trip,
        at: at as u32,
        arr: event.arr,
        line,
        place,
    };
    add_alighting(rows, table, lines, &from, event.stop)
}
