//! The names of a feed's files.
ghost use Rattle.std.specs.Prelude.{◌≡◌};
ghost use Rattle.gtfs_rows.specs.FileNames.{file_name};

use crate::FeedFile;

impl FeedFile {
    /// The file's name in the folder of a feed.
    pub fn name(self) -> &'static str
        ensures { result.now ≡ file_name self }
    {
        match self {
            FeedFile::Stops => "stops.txt",
            FeedFile::Calendar => "calendar.txt",
            FeedFile::CalendarDates => "calendar_dates.txt",
            FeedFile::Trips => "trips.txt",
            FeedFile::StopTimes => "stop_times.txt",
            FeedFile::Transfers => "transfers.txt",
            FeedFile::Frequencies => "frequencies.txt",
        }
    }
}
