//! The words of a program, and which feeds it takes by them.
use std::env;
use std::rt::Env;

/// The words of a program behind its name; none where they can't be had.
pub fn words_of(rt: &(impl Env + AllocGlobal)) -> Option<Vec<String>> {
    let Ok(args) = env::args(rt) else {
        return None;
    };
    let mut words: Vec<String> = Vec::new(rt.alloc());
    for word in args.skip(1) {
        if words.push(word).is_err() {
            return None;
        }
    }
    Some(words)
}

/// How many feeds, and the seed of the first; each further one has the next seed.
#[derive(Clone, Copy)]
pub struct Seeds {
    pub count: u32,
    pub first: u32,
}

impl Seeds {
    /// What a text says that is `COUNT` or `COUNT:SEED`; the first seed is 1 where none is given.
    /// None where it doesn't say numbers.
    pub fn of_text(text: &str) -> Option<Seeds> {
        let (count, first) = match text.split_once(':') {
            Some((count, seed)) => (count, seed.parse().ok()?),
            None => (text, 1),
        };
        Some(Seeds {
            count: count.parse().ok()?,
            first,
        })
    }

    /// The seed of a feed by its number, from 0.
    pub fn seed(self, turn: u32) -> u32 {
        self.first.wrapping_add(turn)
    }
}
