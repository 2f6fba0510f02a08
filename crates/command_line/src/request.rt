//! What is asked for.
use answer_text::Question;
use footpaths::Options;
use service_day::Day;
use std::marker::Model;
use tb_base::Sec;

/// From where to where a journey leads, and from when on. The names are those of stops or stations.
#[derive(Drop)]
pub struct Inquiry<'a> {
    pub from: &'a [u8],
    pub to: &'a [u8],
    /// In seconds since noon minus twelve hours.
    pub time: Sec,
}

impl<'a> Model for Inquiry<'a> {
    ghost use Rattle.gtfs_rows.specs.Numbers.{IsFileTime};
    ghost use Rattle.command_line.specs.Inquiries.{InquiryData};

    ghost Value = { InquiryData };

    ghost view = { λ i. record { from = i.from.now; to = i.to.now; time = i.time } };

    ghost invariant = { λ i. IsFileTime i.time };
}

/// What is asked about one day of a feed.
#[derive(Drop)]
pub enum Command<'a> {
    /// The earliest arrival by one ride.
    Direct(Inquiry<'a>),
    /// A question about the network of the day.
    Question(Question),
    /// What is built of the timetable: its sizes and counts, and where asked for, the list of the
    /// kept transfers.
    Build {
        /// Whether with the list.
        list: bool,
    },
}

/// A request about one day of a feed.
#[derive(Drop)]
pub struct DayRequest<'a> {
    pub options: Options,
    /// How many workers reduce the transfers: 1 to 64.
    pub workers: u32,
    /// Round by round, in place of the search over the kept transfers.
    pub plain: bool,
    /// As JSON, in place of a text.
    pub json: bool,
    pub dir: &'a str,
    pub day: Day,
    pub command: Command<'a>,
}

impl<'a> Model for DayRequest<'a> {
    ghost use Rattle.command_line.specs.DayCommands.{DayRequestData, HasCommandTimes};
    ghost use Rattle.footpaths.specs.Limits.{AreWithinADay};
    ghost use Rattle.tb_base.specs.Workers.{AreWorkers};

    ghost Value = { DayRequestData };

    ghost view = { λ r. record {
      options = r.options;
      workers = r.workers;
      plain = r.plain;
      json = r.json;
      dir = r.dir.now;
      date = r.day;
      command = r.command;
    } };

    ghost invariant = { λ r.
        AreWithinADay r.options × AreWorkers r.workers × HasCommandTimes r.command };
}

/// A request to judge a claimed journey over one day of a feed.
#[derive(Drop)]
pub struct VerifyRequest<'a> {
    pub options: Options,
    /// As JSON, in place of a text.
    pub json: bool,
    pub dir: &'a str,
    pub day: Day,
    /// From where to where the journey is to lead, and from when on.
    pub inquiry: Inquiry<'a>,
}

impl<'a> Model for VerifyRequest<'a> {
    ghost use Rattle.footpaths.specs.Limits.{AreWithinADay};
    ghost use Rattle.command_line.specs.Verifications.{VerifyRequestData};

    ghost Value = { VerifyRequestData };

    ghost view = { λ r. record {
      options = r.options;
      json = r.json;
      dir = r.dir.now;
      date = r.day;
      inquiry = r.inquiry;
    } };

    ghost invariant = { λ r. AreWithinADay r.options };
}

/// A request for all that is wrong with a feed on one day.
#[derive(Drop)]
pub struct CheckRequest<'a> {
    pub options: Options,
    /// As JSON, in place of a text.
    pub json: bool,
    pub dir: &'a str,
    pub day: Day,
}

impl<'a> Model for CheckRequest<'a> {
    ghost use Rattle.command_line.specs.Checks.{CheckRequestData};
    ghost use Rattle.footpaths.specs.Limits.{AreWithinADay};

    ghost Value = { CheckRequestData };

    ghost view = { λ r. record {
      options = r.options;
      json = r.json;
      dir = r.dir.now;
      date = r.day;
    } };

    ghost invariant = { λ r. AreWithinADay r.options };
}

/// A request about one day of a feed, amended by late trips.
#[derive(Drop)]
pub struct LateRequest<'a> {
    pub options: Options,
    /// How many workers reduce the transfers: 1 to 64.
    pub workers: u32,
    /// As JSON, in place of a text.
    pub json: bool,
    pub dir: &'a str,
    pub day: Day,
    /// The path of the file that names the late trips.
    pub file: &'a str,
    /// From where to where a journey is asked for, and from when on.
    pub inquiry: Inquiry<'a>,
}

impl<'a> Model for LateRequest<'a> {
    ghost use Rattle.command_line.specs.LateTrips.{LateRequestData};
    ghost use Rattle.footpaths.specs.Limits.{AreWithinADay};
    ghost use Rattle.tb_base.specs.Workers.{AreWorkers};

    ghost Value = { LateRequestData };

    ghost view = { λ r. record {
      options = r.options;
      workers = r.workers;
      json = r.json;
      dir = r.dir.now;
      date = r.day;
      file = r.file.now;
      inquiry = r.inquiry;
    } };

    ghost invariant = { λ r. AreWithinADay r.options × AreWorkers r.workers };
}

/// A day of a feed: its folder, and the day.
#[derive(Drop)]
pub struct PlannedDay<'a> {
    pub dir: &'a str,
    pub day: Day,
}

impl<'a> Model for PlannedDay<'a> {
    ghost use Rattle.command_line.specs.PlannedDays.{PlannedDayData};

    ghost Value = { PlannedDayData };

    ghost view = { λ p. record { dir = p.dir.now; date = p.day } };
}

/// The path of a file: of updates by which the last day is amended, or of origins.
#[derive(Drop)]
pub struct PlannedFile<'a> {
    pub path: &'a str,
}

impl<'a> Model for PlannedFile<'a> {
    ghost use Rattle.clap.specs.Words.{Text};

    ghost Value = { Text };

    ghost view = { λ f. f.path.now };
}

/// What an item of a plan is made of.
#[derive(Drop)]
pub enum PlannedSource<'a> {
    Day(PlannedDay<'a>),
    Late(PlannedFile<'a>),
}

/// An item of a plan, and the word that names it: DIR@DATE, or late:FILE.
#[derive(Drop)]
pub struct PlannedItem<'a> {
    pub word: &'a str,
    pub source: PlannedSource<'a>,
}

impl<'a> Model for PlannedItem<'a> {
    ghost use Rattle.command_line.specs.Plans.{PlannedItemData};

    ghost Value = { PlannedItemData };

    ghost view = { λ i. record { word = i.word.now; source = i.source } };
}

/// A request to publish several items one after another, while a script is answered.
#[derive(Drop)]
pub struct ServeRequest<'a> {
    pub options: Options,
    /// How many workers reduce the transfers of a day: 1 to 64.
    pub workers: u32,
    /// As JSON, in place of a text.
    pub json: bool,
    /// 1 to 100 items, in the order of their publication, of which the first is a day.
    pub plan: Vec<PlannedItem<'a>>,
}

impl<'a> Model for ServeRequest<'a> {
    ghost use Rattle.command_line.specs.Plans.{IsPlan, ServeRequestData};
    ghost use Rattle.footpaths.specs.Limits.{AreWithinADay};
    ghost use Rattle.tb_base.specs.Workers.{AreWorkers};

    ghost Value = { ServeRequestData };

    ghost view = { λ r. record {
      options = r.options;
      workers = r.workers;
      json = r.json;
      plan = r.plan.items;
    } };

    ghost invariant = { λ r.
        AreWithinADay r.options × AreWorkers r.workers × IsPlan r.plan.items };
}

/// A request to answer what comes for as long as it comes, while days are published one after
/// another.
#[derive(Drop)]
pub struct LiveRequest<'a> {
    pub options: Options,
    /// How many workers reduce the transfers of a day: 1 to 64.
    pub workers: u32,
    /// How many lanes answer what comes at a time: 1 to 64.
    pub lanes: u32,
    /// Each edition has a mirror, over which latest departures are asked for.
    pub mirror: bool,
    /// As JSON, in place of a text.
    pub json: bool,
    /// The first 1 to 100 items, in the order of their publication, of which the first is a day.
    pub plan: Vec<PlannedItem<'a>>,
}

impl<'a> Model for LiveRequest<'a> {
    ghost use Rattle.command_line.specs.Plans.{IsPlan, LiveRequestData};
    ghost use Rattle.command_line.specs.Settings.{AreLanes};
    ghost use Rattle.footpaths.specs.Limits.{AreWithinADay};
    ghost use Rattle.tb_base.specs.Workers.{AreWorkers};

    ghost Value = { LiveRequestData };

    ghost view = { λ r. record {
      options = r.options;
      workers = r.workers;
      lanes = r.lanes;
      mirror = r.mirror;
      json = r.json;
      plan = r.plan.items;
    } };

    ghost invariant = { λ r. AreWithinADay r.options × AreWorkers r.workers × AreLanes r.lanes
        × IsPlan r.plan.items };
}

/// At which departures each origin of a matrix is asked: the first, and one every `step` seconds
/// from it on, up to the last, in seconds since noon minus twelve hours; with at most `rides` rides
/// if that is given.
#[derive(Clone, Copy)]
pub struct Departing {
    pub first: Sec,
    pub last: Sec,
    pub step: u32,
    pub rides: Option<u32>,
}

/// What names the origins of a matrix.
#[derive(Drop)]
pub enum OriginsNamed<'a> {
    /// The source.
    Source,
    /// A file of the folder.
    File(PlannedFile<'a>),
}

/// A request for travel times over one day of a feed, from many origins to every stop.
#[derive(Drop)]
pub struct MatrixRequest<'a> {
    pub options: Options,
    /// How many workers share the origins, and before them the making of transfers: 1 to 64.
    pub workers: u32,
    /// As JSON, in place of lines of text.
    pub json: bool,
    /// As CSV, in place of both.
    pub csv: bool,
    pub dir: &'a str,
    pub day: Day,
    pub origins: OriginsNamed<'a>,
    pub departing: Departing,
}

impl<'a> Model for MatrixRequest<'a> {
    ghost use Rattle.command_line.specs.Matrices.{HasDepartures, MatrixRequestData};
    ghost use Rattle.footpaths.specs.Limits.{AreWithinADay};
    ghost use Rattle.tb_base.specs.Workers.{AreWorkers};

    ghost Value = { MatrixRequestData };

    ghost view = { λ r. record {
      options = r.options;
      workers = r.workers;
      json = r.json;
      csv = r.csv;
      dir = r.dir.now;
      date = r.day;
      origins = r.origins;
      departing = r.departing;
    } };

    ghost invariant = { λ r.
        AreWithinADay r.options × AreWorkers r.workers × HasDepartures r.departing };
}

/// A request about a made city.
#[derive(Drop)]
pub struct CityRequest {
    /// How many rows and columns of stops it has: 2 to 40.
    pub side: u32,
    /// How many workers reduce its transfers: 1 to 64.
    pub workers: u32,
    /// As JSON, in place of a text.
    pub json: bool,
}

impl Model for CityRequest {
    ghost use Rattle.command_line.specs.Cities.{CityRequestData, IsSide};
    ghost use Rattle.tb_base.specs.Workers.{AreWorkers};

    ghost Value = { CityRequestData };

    ghost view = { λ r. record { side = r.side; workers = r.workers; json = r.json } };

    ghost invariant = { λ r. IsSide r.side × AreWorkers r.workers };
}

/// What the words of a command line ask for.
#[derive(Drop)]
pub enum Request<'a> {
    /// Something about one day of a feed.
    Day(DayRequest<'a>),
    /// The replies to a script, while the days of a plan are published.
    Serve(ServeRequest<'a>),
    /// The replies to what comes, while days are published.
    Live(LiveRequest<'a>),
    /// Travel times from the origins that a source names to every stop.
    Matrix(MatrixRequest<'a>),
    /// What is built of a made city, and the best values between two of its corners.
    City(CityRequest),
    /// Whether the journey that a source claims is one, with its value.
    Verify(VerifyRequest<'a>),
    /// All that is wrong with a feed.
    Check(CheckRequest<'a>),
    /// The best values over a day that late trips amend.
    Late(LateRequest<'a>),
}
