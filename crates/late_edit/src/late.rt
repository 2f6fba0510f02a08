use std::marker::Model;
use tb_base::{Name, Sec, ServiceDay};

/// A trip that runs late, or early: from one of its events on.
#[derive(Drop)]
pub struct Late {
    /// The line of the file that says it, counted from 1.
    pub line: u32,
    pub trip: Name,
    /// The trip's service day.
    pub day: ServiceDay,
    /// The first event that is moved, counted from 0.
    pub from: u32,
    /// By how many seconds; below 0 they are early.
    pub secs: Sec,
}

impl Model for Late {
    ghost use Rattle.late_edit.specs.UpdateData.{LateData};

    ghost Value = { LateData };

    ghost view = { λ l. record {
      line = l.line;
      trip = l.trip;
      day = l.day;
      from = l.from;
      secs = l.secs;
    } };
}

/// A trip that is cancelled: at none of its events anybody boards or alights.
#[derive(Drop)]
pub struct Cancel {
    /// The line of the file that says it, counted from 1.
    pub line: u32,
    pub trip: Name,
    /// The trip's service day.
    pub day: ServiceDay,
}

impl Model for Cancel {
    ghost use Rattle.late_edit.specs.UpdateData.{CancelData};

    ghost Value = { CancelData };

    ghost view = { λ c. record { line = c.line; trip = c.trip; day = c.day } };
}

/// A stop that a trip skips: at one of its events nobody boards or alights.
#[derive(Drop)]
pub struct Skip {
    /// The line of the file that says it, counted from 1.
    pub line: u32,
    pub trip: Name,
    /// The trip's service day.
    pub day: ServiceDay,
    /// The event, counted from 0.
    pub at: u32,
}

impl Model for Skip {
    ghost use Rattle.late_edit.specs.UpdateData.{SkipData};

    ghost Value = { SkipData };

    ghost view = { λ s. record {
      line = s.line;
      trip = s.trip;
      day = s.day;
      at = s.at;
    } };
}

/// Why no timetable comes of a file of late trips. The numbers are those of lines, from 1.
#[derive(Debug, Clone, Copy, PartialEq, Eq)]
pub enum LateFault {
    /// No trip has the name and the service day.
    UnknownTrip(u32),
    /// The first moved event is reached before the one before it is left.
    TimeRunsBack(u32),
    /// More than a day late or early, or a time leaves the limits of a timetable.
    OutOfRange(u32),
    /// The trip has no such event.
    BadEvent(u32),
    /// A line is too long, isn't UTF-8, has a word that isn't closed, or has no form of a late's
    /// line.
    BadLine(u32),
    /// The file isn't there.
    MissingFile,
    /// The file has more than 33,554,432 bytes.
    TooLarge,
}
