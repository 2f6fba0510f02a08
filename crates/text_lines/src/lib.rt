//! The lines of a text, and the words of a line.
//!
//! [`first_line`] cuts the first line off a text. Whoever reads a text line by line relies on that
//! alone: the lines of the text are that line and those of what stands behind it. A line runs up to
//! a line feed or to the text's end, and a carriage return at its end is no part of it.
#![tactic(auto)]

ghost use Rattle.std.specs.Prelude.{◌≡◌, ◌∷◌, ◌-◌, ◌<◌, [], IfSome, MatchOption, drop, length};
ghost use Rattle.text_lines.specs.Lines.{lines_of, without_cr};

use memchr::memchr;

mod laws;
mod words;

pub use laws::quoted_words_are_read;
pub use words::line_words;

/// A line of a text, and what stands behind it.
#[derive(Clone, Copy)]
pub struct Cut<'a> {
    pub line: &'a [u8],
    pub rest: &'a [u8],
}

/// A line without a carriage return at its end.
pub fn without_cr(text: &[u8]) -> &[u8]
    ensures { result.now ≡ without_cr text.now }
{
    let before = text.len().saturating_sub(1);
    if &text[before..] == b"\r".as_slice() {
        &text[..before]
    } else {
        text
    }
}

/// The first line of a text, and none exactly where the text is empty.
pub fn first_line(text: &[u8]) -> Option<Cut<'_>>
    ensures lines { MatchOption result (lines_of text.now ≡ [])
        (λ cut. lines_of text.now ≡ cut.line.now ∷ lines_of cut.rest.now) }
    ensures shorter { MatchOption result (text.now ≡ [])
        (λ cut. length cut.rest.now < length text.now) }
    ensures behind { IfSome result (λ cut.
        cut.rest.now ≡ drop (length text.now - length cut.rest.now) text.now) }
{
    if text.is_empty() {
        return None;
    }
    match memchr(b'\n', text) {
        Some(at) => Some(Cut {
            line: without_cr(&text[..at]),
            rest: &text[at + 1..],
        }),
        None => Some(Cut {
            line: without_cr(text),
            rest: &text[text.len()..],
        }),
    }
}
