//! News of the publisher.
ghost use Rattle.std.specs.Prelude.{◌≡◌, ◌++◌, List, OnOk, IfOk, ℕ};
ghost use Rattle.history.specs.Lists.{StartsWith};
ghost use Rattle.live_turns.specs.Runs.{Tells};
ghost use Rattle.live_turns.specs.LiveTexts.{became_json, became_text, failed_json, failed_text, news_shown};

use crate::taker::{Taken, Taker};
use answer_json::{add_member, add_string};
use answer_text::Text;
use edition_build::{Outcome, add_outcome_json, add_outcome_text};
use history::Naming;
use std::alloc::Global;
use std::marker::Model;
use std::sync::Wait;
use tb_base::Memory;

/// What became of an item.
#[derive(Drop)]
pub(crate) enum Became {
    /// It was published or refused.
    Outcome(Outcome),
    /// Its files could not be read.
    ReadFault,
    /// There was no memory for it.
    Memory,
}

/// The word of an item, and what became of it.
#[derive(Drop)]
pub(crate) struct News {
    pub word: String,
    pub became: Became,
}

impl Model for News {
    ghost use Rattle.std.specs.Prelude.{string_bytes};
    ghost use Rattle.live_turns.specs.LiveTexts.{NewsData};

    ghost Value = { NewsData };

    ghost view = { λ n. record { word = string_bytes n.word; became = n.became } };
}

// Adds `refused WORD REASON`.
fn add_failed_text(text: &mut Text, word: &str, reason: &[u8]) -> Result<(), Memory>
    ensures { OnOk result (text.new ≡ text.old ++ failed_text word.now reason.now) }
{
    text.add(b"refused ")?;
    text.add(word.as_bytes())?;
    text.add(b" ")?;
    text.add(reason)?;
    text.add(b"\n")
}

// Adds the line of what became of the item of a word.
fn add_became_text(
    alloc: Global,
    text: &mut Text,
    word: &str,
    became: &Became,
) -> Result<(), Memory>
    ensures { OnOk result (text.new ≡ text.old ++ became_text word.now became.now) }
{
    match became {
        Became::Outcome(outcome) => add_outcome_text(alloc, text, word, outcome),
        Became::ReadFault => add_failed_text(text, word, b"read fault"),
        Became::Memory => add_failed_text(text, word, b"out of memory"),
    }
}

// Adds `{"day":WORD,"message":REASON}`.
fn add_failed_json(text: &mut Text, word: &str, reason: &[u8]) -> Result<(), Memory>
    ensures { OnOk result (text.new ≡ text.old ++ failed_json word.now reason.now) }
{
    text.add(b"{\"day\":")?;
    add_string(text, word.as_bytes())?;
    add_member(text, b"message", reason)?;
    text.add(b"}\n")
}

// The same as JSON.
fn add_became_json(text: &mut Text, word: &str, became: &Became) -> Result<(), Memory>
    ensures { OnOk result (text.new ≡ text.old ++ became_json word.now became.now) }
{
    match became {
        Became::Outcome(outcome) => add_outcome_json(text, word, outcome),
        Became::ReadFault => add_failed_json(text, word, b"read fault"),
        Became::Memory => add_failed_json(text, word, b"out of memory"),
    }
}

// Adds the line of a piece of news.
fn add_news(alloc: Global, json: bool, text: &mut Text, news: &News) -> Result<(), Memory>
    ensures { OnOk result (text.new ≡ text.old ++ news_shown json news.now) }
{
    let word = news.word.as_str();
    if json {
        add_became_json(text, word, &news.became)
    } else {
        add_became_text(alloc, text, word, &news.became)
    }
}

/// The line of a piece of news.
pub(crate) fn news_shown(alloc: Global, json: bool, news: &News) -> Result<Vec<u8>, Memory>
    ensures { IfOk result (λ v. v.items ≡ news_shown json news.now) }
{
    let mut text = Text::new(alloc);
    add_news(alloc, json, &mut text, news)?;
    Ok(text.into_bytes())
}

// Adds the line of a piece of news that was taken.
fn tell_one(alloc: Global, json: bool, text: &mut Text, news: News) -> Result<(), Memory>
    ensures { OnOk result (text.new ≡ text.old ++ news_shown json news) }
{
    let told = add_news(alloc, json, text, &news);
    drop(news);
    told
}

/// Adds the news that are there, each in a line. Refused only for want of memory, or for a piece of
/// news that came out of turn, of which there is none.
pub(crate) fn tell_news<L: Naming, R: Wait>(
    rt: &R,
    alloc: Global,
    json: bool,
    news: &mut Taker<News, L>,
    text: &mut Text,
) -> Result<(), Memory>
    ensures told { OnOk result ((note : List ℕ) × Tells (news_shown json) news.old news.new note
        × (text.new ≡ text.old ++ note)) }
    ensures later { StartsWith news.new news.old }
{
    for _turn in rt.forever() {
        match news.poll(rt) {
            Some(Taken::Next(next)) => tell_one(alloc, json, text, next)?,
            Some(Taken::End) | None => return Ok(()),
            Some(Taken::OutOfTurn) => return Err(Memory),
        }
    }
    unreachable!()
}
