//! The words of the command line of `router`.
//!
//! [`request_of`] says what the words ask for, or that they have no meaning. To the layer above the
//! crate promises exactly that: a request comes where `clap`, told of the program's options and
//! flags, takes the words and its values have the forms that the commands want. So words stand as in
//! any other program of `clap`: options anywhere before `--`, a value behind `=` or as the next
//! word. Times are `HH:MM:SS` and dates `YYYYMMDD`, as in the GTFS Schedule Reference.
#![tactic(auto)]

mod arguments;
mod check;
mod city;
mod day;
mod late_trips;
mod matrix;
mod plan;
mod request;
mod settings;
mod verification;
mod words;

pub use request::{
    CheckRequest, CityRequest, Command, DayRequest, Departing, Inquiry, LateRequest, LiveRequest,
    MatrixRequest, OriginsNamed, PlannedDay, PlannedFile, PlannedItem, PlannedSource, Request,
    ServeRequest, VerifyRequest,
};
pub use words::{asks_json, request_of};
