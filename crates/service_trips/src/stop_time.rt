//! A stop time of a trip.
use tb_base::{Sec, StopNo};

/// A row of stop_times.txt whose trip and stop are named by numbers. Times are in seconds since
/// noon minus twelve hours.
#[derive(Clone, Copy)]
pub struct StopTime {
    /// The row in its file, from 1.
    pub row: u32,
    /// The position of the trip's row in trips.txt, from 0.
    pub trip_row: u32,
    /// The number of the stop.
    pub stop: StopNo,
    /// When the trip arrives, where the row says it.
    pub arr: Option<Sec>,
    /// When it departs, where the row says it.
    pub dep: Option<Sec>,
    /// The rows of a trip are in order of this number.
    pub sequence: u32,
    /// Whether one may board there.
    pub board: bool,
    /// Whether one may alight there.
    pub alight: bool,
}
