//! What was compared of answers.

/// What was compared of feeds with trips by frequency and trips of the day before, and the same
/// trips written out, by numbers.
#[derive(Clone, Copy)]
pub struct TwinTally {
    /// Feeds, and of the trips of all of them those by frequency and those of the day before.
    pub feeds: u64,
    pub by_frequency: u64,
    pub day_before: u64,
    /// Queries, and the best values of all of them.
    pub queries: u64,
    pub values: u64,
    /// Windows, and the slots of all of them.
    pub windows: u64,
    pub slots: u64,
}

impl TwinTally {
    /// Nothing yet.
    pub const NOTHING: TwinTally = TwinTally {
        feeds: 0,
        by_frequency: 0,
        day_before: 0,
        queries: 0,
        values: 0,
        windows: 0,
        slots: 0,
    };

    /// Adds what else was compared.
    pub fn add(&mut self, other: TwinTally) {
        self.feeds = self.feeds.wrapping_add(other.feeds);
        self.by_frequency = self.by_frequency.wrapping_add(other.by_frequency);
        self.day_before = self.day_before.wrapping_add(other.day_before);
        self.queries = self.queries.wrapping_add(other.queries);
        self.values = self.values.wrapping_add(other.values);
        self.windows = self.windows.wrapping_add(other.windows);
        self.slots = self.slots.wrapping_add(other.slots);
    }
}

/// What was compared, by numbers.
#[derive(Clone, Copy)]
pub struct AnswersTally {
    pub feeds: u64,
    /// Queries, and the best values of all of them.
    pub queries: u64,
    pub values: u64,
    /// Claims that differ from a choice in one field.
    pub claims: u64,
    /// Windows, and the slots of all of them.
    pub windows: u64,
    pub slots: u64,
    /// Times to arrive by, and the latest departures for all of them.
    pub arrivals: u64,
    pub departures: u64,
    /// Stops to which all is asked at once.
    pub reached: u64,
    /// Stops whose travel times are asked at once.
    pub times: u64,
    /// What is compared over trips that are written out.
    pub twins: TwinTally,
}

impl AnswersTally {
    /// Nothing yet.
    pub const NOTHING: AnswersTally = AnswersTally {
        feeds: 0,
        queries: 0,
        values: 0,
        claims: 0,
        windows: 0,
        slots: 0,
        arrivals: 0,
        departures: 0,
        reached: 0,
        times: 0,
        twins: TwinTally::NOTHING,
    };

    /// One feed.
    pub const FEED: AnswersTally = AnswersTally {
        feeds: 1,
        ..AnswersTally::NOTHING
    };

    /// Adds what else was compared.
    pub fn add(&mut self, other: AnswersTally) {
        self.feeds = self.feeds.wrapping_add(other.feeds);
        self.queries = self.queries.wrapping_add(other.queries);
        self.values = self.values.wrapping_add(other.values);
        self.claims = self.claims.wrapping_add(other.claims);
        self.windows = self.windows.wrapping_add(other.windows);
        self.slots = self.slots.wrapping_add(other.slots);
        self.arrivals = self.arrivals.wrapping_add(other.arrivals);
        self.departures = self.departures.wrapping_add(other.departures);
        self.reached = self.reached.wrapping_add(other.reached);
        self.times = self.times.wrapping_add(other.times);
        self.twins.add(other.twins);
    }
}

impl TwinTally {
    // Writes it.
    fn write(self, rt: &impl Print) {
        let TwinTally {
            feeds,
            by_frequency,
            day_before,
            queries,
            values,
            windows,
            slots,
        } = self;
        let _ = println!(rt;
            "written out {feeds} trips by frequency {by_frequency} of the day before {day_before}"
        );
        let _ = println!(rt; "queries a day later {queries} values {values}");
        let _ = println!(rt; "windows a day later {windows} slots {slots}");
    }
}

impl AnswersTally {
    /// Writes it.
    pub fn write(self, rt: &impl Print) {
        let AnswersTally {
            feeds,
            queries,
            values,
            claims,
            windows,
            slots,
            arrivals,
            departures,
            reached,
            times,
            twins,
        } = self;
        let _ = println!(rt; "feeds {feeds}");
        let _ = println!(rt; "queries {queries} values {values} other claims {claims}");
        let _ = println!(rt; "windows {windows} slots {slots}");
        let _ = println!(rt; "times to arrive by {arrivals} latest departures {departures}");
        let _ = println!(rt; "stops reached {reached} with travel times {times}");
        if twins.feeds > 0 {
            twins.write(rt);
        }
        let _ = println!(rt; "no difference");
    }
}
