//! The parts that the words of the command line name.
use feed_maker::Seeds;
use std::alloc::Global;

/// A part of what the program does.
#[derive(Clone, Copy)]
pub enum Part<'a> {
    /// The cases of the file at a path are tried.
    Cases(&'a str),
    /// Feeds are broken, and it is asked over them.
    Broken(Seeds),
}

// The part of a word; none where it has no meaning.
fn part_of(word: &str) -> Option<Part<'_>> {
    match word.split_once(':') {
        None => Some(Part::Cases(word)),
        Some(("broken", seeds)) => Some(Part::Broken(Seeds::of_text(seeds)?)),
        Some(_) => None,
    }
}

/// The parts of words, of which there are some; none where one has no meaning.
pub fn parts_of(alloc: Global, words: &[String]) -> Option<Vec<Part<'_>>> {
    if words.is_empty() {
        return None;
    }
    let mut parts = Vec::new(alloc);
    for word in words {
        if parts.push(part_of(word.as_str())?).is_err() {
            return None;
        }
    }
    Some(parts)
}
