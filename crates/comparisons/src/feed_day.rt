//! A day of a feed in the machine's folder.
use crate::stopped::Stopped;
use service_day::{Day, day_of};
use std::alloc::Global;
use std::rt::Files;
use tb_base::{HashKey, Horizon, Timetable};
use tb_io::HostFolder;
use trip_table::{Options, read_day};

// The change time of a stop where transfers.txt doesn't say, in seconds.
const CHANGE: u32 = 60;

/// A feed, and one of its days.
#[derive(Drop)]
pub struct FeedDay<'a> {
    /// The folder of the feed.
    dir: &'a str,
    day: Day,
}

impl FeedDay<'_> {
    /// What a text `DIR@DATE` says; none where it has no meaning.
    pub fn of_text(text: &str) -> Option<FeedDay<'_>> {
        let (dir, date) = text.rsplit_once('@')?;
        match day_of(date.as_bytes()) {
            Ok(day) => Some(FeedDay { dir, day }),
            Err(_) => None,
        }
    }

    /// The timetable of the day. It is written where there is none.
    pub fn timetable(
        &self,
        rt: &(impl Files + Eprint),
        alloc: Global,
    ) -> Result<Timetable, Stopped> {
        let options = Options {
            change: CHANGE,
            station: None,
            close: false,
            horizon: Horizon::OneDay,
            lenient: false,
        };
        let mut folder = HostFolder::new(rt, HashKey::known());
        let Ok(table) = read_day(alloc, &mut folder, self.dir, &self.day, &options) else {
            let _ = eprintln!(rt;
                "comparisons: the feed {} has no timetable of that day",
                self.dir
            );
            return Err(Stopped::NoTimetable);
        };
        Ok(table)
    }
}
