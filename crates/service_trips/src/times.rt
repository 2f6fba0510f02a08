//! When a trip arrives and departs at each of its stop times.
ghost use Rattle.std.specs.Prelude.{◌≡◌, ◌≤◌, ◌<◌, ◌^◌, ◌+◌, length, map, drop, IfSome};
ghost use Rattle.service_trips.specs.Times.{times_of_row, first_timed, nearest_before, nearest_after, between, own_or, AreFileTimes};

use crate::StopTime;
use tb_base::Sec;

/// When a trip arrives and departs at a stop time.
#[derive(Clone, Copy)]
pub struct Times {
    pub arr: Sec,
    pub dep: Sec,
}

/// A timed row of a trip: its position among the trip's rows, from 0, and its times.
#[derive(Clone, Copy)]
pub struct Timepoint {
    pub at: u32,
    pub times: Times,
}

/// The times of a row. Where one of the two is given, it stands for both.
pub fn times_of(row: &StopTime) -> Option<Times>
    ensures { result ≡ times_of_row row.now }
{
    match row.arr {
        Some(arr) => match row.dep {
            Some(dep) => Some(Times { arr, dep }),
            None => Some(Times { arr, dep: arr }),
        },
        None => match row.dep {
            Some(dep) => Some(Times { arr: dep, dep }),
            None => None,
        },
    }
}

/// The first timed row from a position on.
pub fn first_timed(rows: &[StopTime], from: usize) -> Option<Timepoint>
    requires within { from ≤ length rows.now }
    requires fits { length rows.now < 2 ^ 32 }
    ensures { result ≡ first_timed from (drop from (map times_of_row rows.now)) }
{
    for k in from..rows.len() {
        if let Some(times) = times_of(&rows[k]) {
            return Some(Timepoint {
                at: k as u32,
                times,
            });
        }
    }
    None
}

/// The nearest timed row after a position, from the first one at it or after it.
pub fn nearest_after(rows: &[StopTime], k: usize, here: Option<Timepoint>) -> Option<Timepoint>
    requires within { k < length rows.now }
    requires fits { length rows.now < 2 ^ 32 }
    requires here { here ≡ first_timed k (drop k (map times_of_row rows.now)) }
    ensures { result ≡ nearest_after (map times_of_row rows.now) k }
{
    match times_of(&rows[k]) {
        Some(_) => first_timed(rows, k + 1),
        None => here,
    }
}

/// The nearest timed row before the next position, from the nearest one before this position.
pub fn nearest_before(rows: &[StopTime], k: usize, earlier: Option<Timepoint>) -> Option<Timepoint>
    requires within { k < length rows.now }
    requires fits { length rows.now < 2 ^ 32 }
    requires earlier { earlier ≡ nearest_before (map times_of_row rows.now) k }
    ensures { result ≡ nearest_before (map times_of_row rows.now) (k + 1) }
{
    match times_of(&rows[k]) {
        Some(times) => Some(Timepoint {
            at: k as u32,
            times,
        }),
        None => earlier,
    }
}

/// The times at a position: the row's own, or else those between the nearest timed rows.
pub fn times_at(
    row: &StopTime,
    k: usize,
    before: Option<Timepoint>,
    after: Option<Timepoint>,
) -> Times
    requires fits { k < 2 ^ 32 }
    requires before { IfSome before (λ i. (i.at < k) × AreFileTimes i.times) }
    requires after { IfSome after (λ j. (k < j.at) × AreFileTimes j.times) }
    ensures { result ≡ own_or (times_of_row row.now) (between before after k) }
{
    match times_of(row) {
        Some(own) => own,
        None => between(before, after, k as u32),
    }
}

// The times at a position between two timed rows, by its distance in rows from the first.
fn between(from: Option<Timepoint>, to: Option<Timepoint>, k: u32) -> Times
    requires from { IfSome from (λ i. (i.at < k) × AreFileTimes i.times) }
    requires to { IfSome to (λ j. (k < j.at) × AreFileTimes j.times) }
    ensures { result ≡ between from to k }
{
    match from {
        None => Times { arr: 0, dep: 0 },
        Some(from) => match to {
            None => from.times,
            Some(to) => {
                let span = (to.times.arr - from.times.dep).unsigned_abs() as u64;
                let passed = (k - from.at) as u64;
                let rows = (to.at - from.at) as u64;
                let time = from.times.dep + (span * passed / rows) as i32;
                Times {
                    arr: time,
                    dep: time,
                }
            }
        },
    }
}
