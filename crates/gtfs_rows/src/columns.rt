//! The columns of each file of a feed, by their numbers, from 1, and by the names that the GTFS
//! Schedule Reference gives them.

/// The columns of stops.txt.
pub mod stops {
    pub const STOP_ID: u8 = 1;

    pub const LOCATION_TYPE: u8 = 2;

    pub const PARENT_STATION: u8 = 3;
}

/// The columns of calendar.txt.
pub mod calendar {
    pub const SERVICE_ID: u8 = 1;

    pub const MONDAY: u8 = 2;

    pub const TUESDAY: u8 = 3;

    pub const WEDNESDAY: u8 = 4;

    pub const THURSDAY: u8 = 5;

    pub const FRIDAY: u8 = 6;

    pub const SATURDAY: u8 = 7;

    pub const SUNDAY: u8 = 8;

    pub const START_DATE: u8 = 9;

    pub const END_DATE: u8 = 10;
}

/// The columns of calendar_dates.txt.
pub mod calendar_dates {
    pub const SERVICE_ID: u8 = 1;

    pub const DATE: u8 = 2;

    pub const EXCEPTION_TYPE: u8 = 3;
}

/// The columns of trips.txt.
pub mod trips {
    pub const SERVICE_ID: u8 = 1;

    pub const TRIP_ID: u8 = 2;
}

/// The columns of stop_times.txt.
pub mod stop_times {
    pub const TRIP_ID: u8 = 1;

    pub const ARRIVAL_TIME: u8 = 2;

    pub const DEPARTURE_TIME: u8 = 3;

    pub const STOP_ID: u8 = 4;

    pub const STOP_SEQUENCE: u8 = 5;

    pub const PICKUP_TYPE: u8 = 6;

    pub const DROP_OFF_TYPE: u8 = 7;
}

/// The columns of transfers.txt.
pub mod transfers {
    pub const FROM_STOP_ID: u8 = 1;

    pub const TO_STOP_ID: u8 = 2;

    pub const TRANSFER_TYPE: u8 = 3;

    pub const MIN_TRANSFER_TIME: u8 = 4;

    pub const FROM_ROUTE_ID: u8 = 5;

    pub const TO_ROUTE_ID: u8 = 6;

    pub const FROM_TRIP_ID: u8 = 7;

    pub const TO_TRIP_ID: u8 = 8;
}

/// The columns of frequencies.txt.
pub mod frequencies {
    pub const TRIP_ID: u8 = 1;

    pub const START_TIME: u8 = 2;

    pub const END_TIME: u8 = 3;

    pub const HEADWAY_SECS: u8 = 4;

    pub const EXACT_TIMES: u8 = 5;
}
