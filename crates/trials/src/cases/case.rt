//! What a case says.
use super::feeds;
use super::feeds::Files;
use super::question::{AskedOf, CaseQuestion, byte_of, numbered};
use super::untried::Untried;
use gtfs_rows::number_of;
use std::alloc::{AllocError, Global};
use std::rt;

/// A case: over which files what is asked. What adds to it says whether that has a meaning there.
#[derive(Drop)]
pub struct Case {
    pub title: String,
    // The folder of the feed that was named last.
    folder: String,
    // Files that stand in place of those of feeds, or beside them.
    changed: Files,
    // Files of feeds.
    given: Files,
    // The path of the one file that is there, and has no end.
    endless: Option<String>,
    pub questions: Vec<CaseQuestion>,
}

impl Case {
    /// A case with no files, in which nothing is asked.
    pub fn new(alloc: Global, title: &str) -> Result<Case, AllocError> {
        Ok(Case {
            title: String::from_str(alloc, title)?,
            folder: String::new(alloc),
            changed: Vec::new(alloc),
            given: Vec::new(alloc),
            endless: None,
            questions: Vec::new(alloc),
        })
    }

    /// Whether something is asked.
    pub fn is_asked(&self) -> bool {
        !self.questions.is_empty()
    }

    /// The files over which is asked. Of two with one path the first counts.
    pub fn files(&self, alloc: Global) -> Result<Files, AllocError> {
        let mut files = Vec::new(alloc);
        feeds::add_copies(alloc, self.changed.as_slice(), &mut files)?;
        feeds::add_copies(alloc, self.given.as_slice(), &mut files)?;
        Ok(files)
    }

    /// The files of a feed. It has some.
    pub fn add_feed<R: rt::Files>(
        &mut self,
        rt: &R,
        alloc: Global,
        name: &str,
    ) -> Result<bool, Untried> {
        self.folder = String::from_str(alloc, name)?;
        let count = feeds::add_feed(rt, alloc, name, &mut self.given)?;
        Ok(count > 0)
    }

    // The path of a file of the feed.
    fn path(&self, alloc: Global, name: &str) -> Result<String, AllocError> {
        let folder = self.folder.as_str();
        format!(in alloc; "{folder}/{name}")
    }

    /// A file of the feed isn't there.
    pub fn take_away(&mut self, alloc: Global, name: &str) -> Result<bool, Untried> {
        let path = self.path(alloc, name)?;
        let count = self.given.len();
        self.given.retain(|file| file.0.as_str() != path.as_str());
        Ok(self.given.len() < count)
    }

    /// A file in place of the feed's begins. It is one that a feed can have.
    pub fn begin_file(&mut self, alloc: Global, name: &str) -> Result<bool, Untried> {
        if self.folder.is_empty() || !feeds::is_file(name) {
            return Ok(false);
        }
        let path = self.path(alloc, name)?;
        self.changed.push((path, Vec::new(alloc)))?;
        Ok(true)
    }

    /// A file at a path of its own begins.
    pub fn begin_beside(&mut self, alloc: Global, path: &str) -> Result<bool, Untried> {
        let path = String::from_str(alloc, path)?;
        self.changed.push((path, Vec::new(alloc)))?;
        Ok(true)
    }

    /// More of that file.
    pub fn add_text(&mut self, text: &str, end: &str) -> Result<bool, Untried> {
        let Some(file) = self.changed.last_mut() else {
            return Ok(false);
        };
        file.1.extend_from_slice(text.as_bytes())?;
        file.1.extend_from_slice(end.as_bytes())?;
        Ok(true)
    }

    /// A byte of it, by its number.
    pub fn add_byte(&mut self, number: &str) -> Result<bool, Untried> {
        match (self.changed.last_mut(), byte_of(number)) {
            (Some(file), Some(byte)) => {
                file.1.push(byte)?;
                Ok(true)
            }
            _ => Ok(false),
        }
    }

    /// So many lines of it, by a number and the text of a line.
    pub fn add_rows(&mut self, alloc: Global, rows: &str) -> Result<bool, Untried> {
        let Some((count, text)) = rows.split_once(' ') else {
            return Ok(false);
        };
        let Some(count) = number_of(count.as_bytes()) else {
            return Ok(false);
        };
        for number in 0..count {
            let row = numbered(alloc, text, number)?;
            if !self.add_text(row.as_str(), "\n")? {
                return Ok(false);
            }
        }
        Ok(true)
    }

    /// A file of the feed that has no end, in place of all its files.
    pub fn set_endless(&mut self, alloc: Global, name: &str) -> Result<bool, Untried> {
        if self.folder.is_empty() || !feeds::is_file(name) {
            return Ok(false);
        }
        self.endless = Some(self.path(alloc, name)?);
        Ok(true)
    }

    /// The path of the file that has no end, where there is one.
    pub fn endless(&self) -> Option<&str> {
        match &self.endless {
            Some(path) => Some(path.as_str()),
            None => None,
        }
    }

    /// A question.
    pub fn ask(&mut self, alloc: Global, asked: AskedOf, words: &str) -> Result<bool, Untried> {
        self.questions
            .push(CaseQuestion::new(alloc, asked, words)?)?;
        Ok(true)
    }
}
