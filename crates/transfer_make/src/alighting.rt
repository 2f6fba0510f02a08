use tb_base::{LineNo, Sec, TripNo};

/// An event where a trip is left: its time of arrival, and the trip's place on its line.
#[derive(Drop)]
pub(crate) struct Alighting {
    pub(crate) trip: TripNo,
    pub(crate) at: u32,
    pub(crate) arr: Sec,
    pub(crate) line: LineNo,
    pub(crate) place: u32,
}
