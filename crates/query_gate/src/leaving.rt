//! The times at which one can leave an origin for a first ride.
ghost use Rattle.std.specs.Prelude.{◌≡◌, ◌<◌, ◌≤◌, ◌≤ℤ◌, ◌<ℤ◌, ◌+ℤ◌, ◌↔◌, ℤ, All, AllPairs, Contains, IfOk, IsTrue, OnOk, length, pos};
ghost use Rattle.segment_queue.specs.Scans.{line_indices_at};
ghost use Rattle.query_gate.specs.Leaving.{AreLeavingTimes, DepartsAt, HaveJoined, IsLineDeparture, IsWithin, LeavesFor, line_departure};

use segment_queue::{Look, Steps};
use std::alloc::Global;
use std::sync::ledger::Ledger;
use tb_base::{Memory, Path, Sec, StopNo, Timetable, Window};

// The origins of a window.
fn origins(window: &Window) -> &[StopNo]
    ensures { result.now ≡ window.now.from }
{
    window.from.as_slice()
}

// Whether a time is after a window.
fn is_past(window: &Window, time: Sec) -> bool
    ensures { IsTrue result ↔ (window.now.last <ℤ time) }
{
    time > window.last
}

// When the first trip from the time on departs that can be boarded at a stop on the line index with
// this number.
fn line_departure<L: Ledger, S: Look<L>>(
    scan: &S,
    table: &Timetable,
    stop: StopNo,
    berth: u32,
    time: Sec,
    steps: &mut Steps<L>,
) -> Option<Sec>
    requires table { (S.net scan.now).table ≡ table.now }
    requires stop { stop < length (S.net scan.now).table.stops }
    requires berth { berth
        < length (line_indices_at (S.net scan.now).table (S.net scan.now).lines stop) }
    ensures { result ≡ line_departure (S.net scan.now) stop time berth }
{
    scan.soundness();
    match scan.boarding(stop, berth, time, steps) {
        Some(hop) => Some(table.event(hop.trip, hop.at).dep),
        None => None,
    }
}

// Adds the times within a window at which one leaves who takes a path, and boards at its end the
// line index with this number.
fn gather_line<L: Ledger, S: Look<L>>(
    scan: &S,
    table: &Timetable,
    window: &Window,
    path: &Path,
    berth: u32,
    times: &mut Vec<Sec>,
    steps: &mut Steps<L>,
) -> Result<(), Memory>
    requires table { (S.net scan.now).table ≡ table.now }
    requires stop { path.now.to < length table.now.stops }
    requires secs { path.now.secs ≤ 86400 }
    requires berth { berth
        < length (line_indices_at (S.net scan.now).table (S.net scan.now).lines path.now.to) }
    requires first { window.now.first ≤ℤ pos 359999 }
    requires last { window.now.last ≤ℤ pos 359999 }
    ensures { OnOk result
        (HaveJoined (λ n. IsWithin window.now n × IsLineDeparture (S.net scan.now) path.now.to berth
        (n +ℤ pos path.now.secs)) times.old.items times.new.items) }
{
    scan.soundness();
    let first = window.first + path.secs as i32;
    let mut next = line_departure(scan, table, path.to, berth, first, steps);
    while let Some(departure) = next {
        let time = departure - path.secs as i32;
        if is_past(window, time) {
            return Ok(());
        }
        times.push(time)?;
        next = line_departure(scan, table, path.to, berth, departure + 1, steps);
    }
    Ok(())
}

// Adds the times within a window at which one leaves who takes a path, and boards at its end.
fn gather_at<L: Ledger, S: Look<L>>(
    scan: &S,
    table: &Timetable,
    window: &Window,
    path: &Path,
    times: &mut Vec<Sec>,
    steps: &mut Steps<L>,
) -> Result<(), Memory>
    requires table { (S.net scan.now).table ≡ table.now }
    requires stop { path.now.to < length table.now.stops }
    requires secs { path.now.secs ≤ 86400 }
    requires first { window.now.first ≤ℤ pos 359999 }
    requires last { window.now.last ≤ℤ pos 359999 }
    ensures { OnOk result (HaveJoined (λ n. IsWithin window.now n
        × DepartsAt table.now path.now.to (n +ℤ pos path.now.secs))
        times.old.items times.new.items) }
{
    scan.soundness();
    for berth in 0..scan.berths(path.to) {
        gather_line(scan, table, window, path, berth, times, steps)?;
    }
    Ok(())
}

// Adds the times within a window at which one leaves an origin for a first ride.
fn gather_from<L: Ledger, S: Look<L>>(
    scan: &S,
    table: &Timetable,
    window: &Window,
    origin: StopNo,
    times: &mut Vec<Sec>,
    steps: &mut Steps<L>,
) -> Result<(), Memory>
    requires table { (S.net scan.now).table ≡ table.now }
    requires origin { origin < length table.now.stops }
    requires first { window.now.first ≤ℤ pos 359999 }
    requires last { window.now.last ≤ℤ pos 359999 }
    ensures { OnOk result (HaveJoined (λ n. IsWithin window.now n
        × LeavesFor table.now origin n) times.old.items times.new.items) }
{
    let here = Path {
        to: origin,
        secs: 0,
    };
    gather_at(scan, table, window, &here, times, steps)?;
    for path in table.paths(origin) {
        gather_at(scan, table, window, path, times, steps)?;
    }
    Ok(())
}

// Puts times in order, each once.
fn put_in_order(times: &mut Vec<Sec>)
    ensures rise { AllPairs (λ m n. m <ℤ n) times.new.items }
    ensures same { (n : ℤ) → Contains times.old.items n ↔ Contains times.new.items n }
{
    times.sort_unstable();
    times.dedup();
}

/// The leaving times of a window in order, each once. It boards each line index at the stops with
/// a walk from an origin once for each of its departures within the window, and once more, and
/// sorts. Refused only for want of memory.
pub(crate) fn leaving_times<L: Ledger, S: Look<L>>(
    alloc: Global,
    scan: &S,
    table: &Timetable,
    window: &Window,
    steps: &mut Steps<L>,
) -> Result<Vec<Sec>, Memory>
    requires table { (S.net scan.now).table ≡ table.now }
    requires origins { All (λ p. p < length table.now.stops) window.now.from }
    requires last { window.now.last ≤ℤ pos 359999 }
    ensures { IfOk result (λ times.
        AreLeavingTimes table.now window.now (window.now.last +ℤ pos 1) times.items) }
{
    let mut times = Vec::new(alloc);
    if is_past(window, window.first) {
        return Ok(times);
    }
    for origin in origins(window) {
        gather_from(scan, table, window, *origin, &mut times, steps)?;
    }
    put_in_order(&mut times);
    Ok(times)
}
