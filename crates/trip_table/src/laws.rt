//! Laws of the timetable of a day. Each function does nothing: its contract is the law.
ghost use Rattle.std.specs.Prelude.{◌≡◌, ℕ, [], Contains, Err, List, None, Ok, Result};
ghost use Rattle.tb_base.specs.BestValues.{AreBestValues, IsAttained, IsNoWorse, QueryData};
ghost use Rattle.tb_base.specs.Soundness.{IsSound};
ghost use Rattle.tb_base.specs.declared.query.Value.{Value};
ghost use Rattle.tb_base.specs.TimetableData.{TimetableData};
ghost use Rattle.gtfs_rows.specs.LeftOut.{bearer};
ghost use Rattle.gtfs_rows.specs.declared.fault.FeedFault.{FeedFault};
ghost use Rattle.footpaths.specs.Limits.{AreWithinADay};
ghost use Rattle.footpaths.specs.declared.paths.Options.{Options};
ghost use Rattle.tb_base.specs.Wider.{HasAllOf};
ghost use Rattle.trip_table.specs.Farther.{IsNoNearer};
ghost use Rattle.trip_table.specs.Feed.{Feed};
ghost use Rattle.trip_table.specs.Day.{IsTimetableOf};
ghost use Rattle.trip_table.specs.AskedDay.{AreFaultsOf, IsAskedDay};
ghost use Rattle.trip_table.specs.LeftFeed.{IsLenientOf};

/// A feed, a day and options have at most one timetable or first fault, never both: what `read_day`
/// gives is determined.
pub fn timetable_determined()
    ensures { (feed : Feed) (day : ℕ) (options : Options) (a b : Result TimetableData FeedFault) →
        IsTimetableOf feed day options a → IsTimetableOf feed day options b → a ≡ b }
{}

/// A feed, a day and options have a timetable or a first fault, where the seconds of the options
/// are at most a day.
pub fn timetable_given()
    ensures { (feed : Feed) (day : ℕ) (options : Options) → AreWithinADay options
        → (r : Result TimetableData FeedFault) × IsTimetableOf feed day options r }
{}

/// A farther horizon leaves nothing out: the timetable has the same stops, stations and footpaths,
/// and all trips that the one of a nearer horizon has.
pub fn farther_has_all()
    ensures { (feed : Feed) (day : ℕ) (near far : Options) (T U : TimetableData) →
        IsNoNearer near far → IsTimetableOf feed day near (Ok T) →
        IsTimetableOf feed day far (Ok U) → HasAllOf U T }
{}

/// The best values of a farther horizon are no worse: what is attained in the timetable of a nearer
/// one has a best value that is no worse in that of the farther.
pub fn farther_no_worse()
    ensures { (feed : Feed) (day : ℕ) (near far : Options) (T U : TimetableData) → IsSound U →
        IsNoNearer near far → IsTimetableOf feed day near (Ok T) →
        IsTimetableOf feed day far (Ok U) → (Q : QueryData) (vs : List Value) →
        AreBestValues U Q vs → (v : Value) →
        IsAttained T Q v → (w : Value) × Contains vs w × IsNoWorse w v }
{}

/// What is left where bad rows are left out has no fault that a row bears.
pub fn no_row_ends_lenient()
    ensures { (feed : Feed) (day : ℕ) (options : Options) (faults : List FeedFault) (f : FeedFault) →
        IsLenientOf feed day options faults (Err f) → bearer f ≡ None }
{}

/// A feed, a day and options have at most one timetable, or fault that ends it, as the options ask:
/// what `read_asked_day` gives is determined.
pub fn asked_determined()
    ensures { (feed : Feed) (day : ℕ) (options : Options) (a b : Result TimetableData FeedFault) →
        IsAskedDay feed day options a → IsAskedDay feed day options b → a ≡ b }
{}

/// So is what `read_lenient_day` gives, and which faults it tells.
pub fn lenient_determined()
    ensures { (feed : Feed) (day : ℕ) (options : Options) (told others : List FeedFault)
        (a b : Result TimetableData FeedFault) → IsLenientOf feed day options told a →
        IsLenientOf feed day options others b → (told ≡ others) × (a ≡ b) }
{}

/// A feed without a fault gives to one who is lenient what it gives to anyone, and tells nothing.
pub fn lenient_of_good()
    ensures { (feed : Feed) (day : ℕ) (options : Options) (T : TimetableData) →
        IsTimetableOf feed day options (Ok T) → IsLenientOf feed day options [] (Ok T) }
{}

/// Where a feed is checked and nothing is told, it has a timetable, from which nothing is left out.
pub fn nothing_told_is_good()
    ensures { (feed : Feed) (day : ℕ) (options : Options) → AreFaultsOf feed day options [] →
        (T : TimetableData) × IsTimetableOf feed day options (Ok T) }
{}

/// Nothing is told of a feed that has a timetable.
pub fn good_is_not_told()
    ensures { (feed : Feed) (day : ℕ) (options : Options) (T : TimetableData)
        (faults : List FeedFault) → IsTimetableOf feed day options (Ok T) →
        AreFaultsOf feed day options faults → faults ≡ [] }
{}
