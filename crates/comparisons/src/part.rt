//! The parts that the words of the command line name.
use crate::comparing::Comparison;
use crate::feed_day::FeedDay;
use crate::measuring::method::{Measurement, method_named};
use feed_maker::Seeds;
use std::alloc::Global;

/// A part of what the program does.
#[derive(Drop)]
pub enum Part<'a> {
    /// Ways to a result are compared.
    Compared(Comparison),
    /// Ways to an answer are compared over a day of a feed, between all of its stops.
    Between(FeedDay<'a>),
    /// It is written what callers are told of a day of a feed, and then of another one.
    Told(FeedDay<'a>, FeedDay<'a>),
    /// Questions are measured.
    Measured(Measurement<'a>),
}

// The part that two days of feeds name.
fn told_of(text: &str) -> Option<Part<'_>> {
    let (first, second) = text.split_once(':')?;
    Some(Part::Told(FeedDay::of_text(first)?, FeedDay::of_text(second)?))
}

// The part of a word; none where it has no meaning.
fn part_of(word: &str) -> Option<Part<'_>> {
    let (name, rest) = word.split_once(':')?;
    match name {
        "answers" => Some(Part::Compared(Comparison::Answers(Seeds::of_text(rest)?))),
        "between" => Some(Part::Between(FeedDay::of_text(rest)?)),
        "callers" => told_of(rest),
        "late" => Some(Part::Compared(Comparison::Late(Seeds::of_text(rest)?))),
        _ => Some(Part::Measured(Measurement::of_text(method_named(name)?, rest)?)),
    }
}

/// The parts of words, of which there are some; none where one has no meaning.
pub fn parts_of(alloc: Global, words: &[String]) -> Option<Vec<Part<'_>>> {
    if words.is_empty() {
        return None;
    }
    let mut parts = Vec::new(alloc);
    for word in words {
        if parts.push(part_of(word.as_str())?).is_err() {
            return None;
        }
    }
    Some(parts)
}
