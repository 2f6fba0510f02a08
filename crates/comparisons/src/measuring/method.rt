//! What is measured, and how a word says it.
use crate::feed_day::FeedDay;
use gtfs_rows::number_of;

/// What is asked of an edition.
#[derive(Clone, Copy, PartialEq, Eq, Debug)]
pub enum Asking {
    Search,
    Profile,
    Reach,
    Times,
}

/// What is done with a store of editions.
#[derive(Clone, Copy, PartialEq, Eq, Debug)]
pub enum Storing {
    Pin,
    Publish,
}

/// What is done so often: over a timetable alone, over the edition of its mirror, over its edition,
/// or over a store of that.
#[derive(Clone, Copy, PartialEq, Eq, Debug)]
pub enum Method {
    Plain,
    Latest,
    OverEdition(Asking),
    OverStore(Storing),
}

/// How often what is done over which day of a feed.
#[derive(Drop)]
pub struct Measurement<'a> {
    pub method: Method,
    pub count: u32,
    pub feed: FeedDay<'a>,
}

/// The method of a name.
pub fn method_named(name: &str) -> Option<Method> {
    match name {
        "plain" => Some(Method::Plain),
        "latest" => Some(Method::Latest),
        "search" => Some(Method::OverEdition(Asking::Search)),
        "profile" => Some(Method::OverEdition(Asking::Profile)),
        "reach" => Some(Method::OverEdition(Asking::Reach)),
        "times" => Some(Method::OverEdition(Asking::Times)),
        "pin" => Some(Method::OverStore(Storing::Pin)),
        "publish" => Some(Method::OverStore(Storing::Publish)),
        _ => None,
    }
}

impl Measurement<'_> {
    /// What is measured by a method, as a text `COUNT:DIR@DATE` says; none where it has no meaning.
    pub fn of_text(method: Method, text: &str) -> Option<Measurement<'_>> {
        let (count, feed) = text.split_once(':')?;
        Some(Measurement {
            method,
            count: number_of(count.as_bytes())?,
            feed: FeedDay::of_text(feed)?,
        })
    }
}
