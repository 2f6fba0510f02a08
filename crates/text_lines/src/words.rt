//! The words of one line of a text.
ghost use Rattle.std.specs.Prelude.{◌≡◌, ◌∷◌, [], ◌++◌, IfOk, OnOk, true};
ghost use Rattle.std.specs.Option.{option_map};
ghost use Rattle.std.specs.Str.{is_utf8};
ghost use Rattle.text_lines.specs.LineWords.{Between, Takes, at_end, is_comment, is_line, is_quote, is_separator, line_words, reading};
ghost use Rattle.text_lines.specs.declared.words.WordPlace.TheVariants as place;

use std::alloc::Global;
use std::str;
use tb_base::{Memory, Name};

const MOST_BYTES: usize = 1024;

// Where a reader of a line is.
#[derive(Clone, Copy)]
enum WordPlace {
    Between,
    Plain,
    Quoted,
    // Behind a quote in a quoted word.
    Closed,
}

// A reader of a line: the words so far, where it is, and the bytes so far of the word that it is
// in.
#[derive(Drop)]
struct WordReader {
    alloc: Global,
    words: Vec<Name>,
    place: WordPlace,
    word: Vec<u8>,
}

fn is_separator(b: u8) -> bool
    ensures { result ≡ is_separator b }
{
    b == b' ' || b == b'\t'
}

fn is_quote(b: u8) -> bool
    ensures { result ≡ is_quote b }
{
    b == b'"'
}

impl WordReader {
    // A reader at the start of a line.
    fn new(alloc: Global) -> WordReader
        ensures words { result.words.items ≡ [] }
        ensures place { result.place ≡ place.Between }
    {
        WordReader {
            alloc,
            words: Vec::new(alloc),
            place: WordPlace::Between,
            word: Vec::new(alloc),
        }
    }

    // Begins a word.
    fn begin(&mut self, place: WordPlace)
        ensures words { self.new.words.items ≡ self.old.words.items }
        ensures place { self.new.place ≡ place }
        ensures word { self.new.word.items ≡ [] }
    {
        self.place = place;
        self.word.clear();
    }

    // Adds a byte to the word.
    fn add(&mut self, b: u8) -> Result<(), Memory>
        ensures words { OnOk result (self.new.words.items ≡ self.old.words.items) }
        ensures place { OnOk result (self.new.place ≡ self.old.place) }
        ensures word { OnOk result (self.new.word.items ≡ self.old.word.items ++ b ∷ []) }
    {
        self.word.push(b)?;
        Ok(())
    }

    // Ends the word.
    fn end_word(&mut self) -> Result<(), Memory>
        ensures words { OnOk result
            (self.new.words.items ≡ self.old.words.items ++ self.old.word.items ∷ []) }
        ensures place { OnOk result (self.new.place ≡ place.Between) }
    {
        let word = Name::new(self.alloc, self.word.as_slice())?;
        self.words.push(word)?;
        self.place = WordPlace::Between;
        Ok(())
    }

    // A byte between words.
    fn take_between(&mut self, b: u8) -> Result<bool, Memory>
        requires { self.old.place ≡ place.Between }
        ensures { IfOk result (Takes self.old b self.new) }
    {
        if is_separator(b) {
            return Ok(true);
        }
        if is_quote(b) {
            self.begin(WordPlace::Quoted);
            return Ok(true);
        }
        self.begin(WordPlace::Plain);
        self.add(b)?;
        Ok(true)
    }

    // A byte in a plain word.
    fn take_plain(&mut self, b: u8) -> Result<bool, Memory>
        requires { self.old.place ≡ place.Plain }
        ensures { IfOk result (Takes self.old b self.new) }
    {
        if is_separator(b) {
            self.end_word()?;
            return Ok(true);
        }
        self.add(b)?;
        Ok(true)
    }

    // A byte in a quoted word.
    fn take_quoted(&mut self, b: u8) -> Result<bool, Memory>
        requires { self.old.place ≡ place.Quoted }
        ensures { IfOk result (Takes self.old b self.new) }
    {
        if is_quote(b) {
            self.place = WordPlace::Closed;
            return Ok(true);
        }
        self.add(b)?;
        Ok(true)
    }

    // A byte behind a quote in a quoted word.
    fn take_closed(&mut self, b: u8) -> Result<bool, Memory>
        requires { self.old.place ≡ place.Closed }
        ensures { IfOk result (Takes self.old b self.new) }
    {
        if is_separator(b) {
            self.end_word()?;
            return Ok(true);
        }
        if is_quote(b) {
            self.place = WordPlace::Quoted;
            self.add(b)?;
            return Ok(true);
        }
        Ok(false)
    }

    // The next byte. False where it may not stand there.
    fn take(&mut self, b: u8) -> Result<bool, Memory>
        ensures { IfOk result (Takes self.old b self.new) }
    {
        match self.place {
            WordPlace::Between => self.take_between(b),
            WordPlace::Plain => self.take_plain(b),
            WordPlace::Quoted => self.take_quoted(b),
            WordPlace::Closed => self.take_closed(b),
        }
    }

    // The words, at the end of the line.
    fn end(self) -> Result<Option<Vec<Name>>, Memory>
        ensures { IfOk result (λ found. option_map (λ v. v.items) found
            ≡ at_end (reading self).words (reading self).within) }
    {
        let mut reader = self;
        match reader.place {
            WordPlace::Between => Ok(Some(reader.words)),
            WordPlace::Plain | WordPlace::Closed => {
                reader.end_word()?;
                Ok(Some(reader.words))
            }
            WordPlace::Quoted => Ok(None),
        }
    }
}

// Whether bytes are text.
fn is_text(bytes: &[u8]) -> bool
    ensures { result ≡ is_utf8 bytes.now }
{
    str::from_utf8(bytes).is_ok()
}

// Whether a line is short enough, and text.
fn is_line(line: &[u8]) -> bool
    ensures { result ≡ is_line line.now }
{
    line.len() <= MOST_BYTES && is_text(line)
}

fn is_comment(line: &[u8]) -> bool
    ensures { result ≡ is_comment line.now }
{
    match line {
        [first, ..] => *first == b'#',
        [] => false,
    }
}

/// The words of a line, given without its end: separated by one or more spaces or tabs. A word that
/// begins with a double quote runs to its closing quote, and two quotes in it stand for one. A line
/// whose first byte is `#` has no words. `None` exactly where the line has more than 1,024 bytes,
/// isn't UTF-8, or has a word that isn't closed, or goes on behind its closing quote. Refused only
/// for want of memory.
pub fn line_words(alloc: Global, line: &[u8]) -> Result<Option<Vec<Name>>, Memory>
    ensures { IfOk result (λ found. option_map (λ v. v.items) found ≡ line_words line.now) }
{
    if !is_line(line) {
        return Ok(None);
    }
    let mut reader = WordReader::new(alloc);
    if is_comment(line) {
        return Ok(Some(reader.words));
    }
    for byte in line {
        if !reader.take(*byte)? {
            return Ok(None);
        }
    }
    reader.end()
}
