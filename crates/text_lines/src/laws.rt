//! A law of words.
ghost use Rattle.std.specs.Prelude.{◌≡◌, ℕ, List, Some, true};
ghost use Rattle.text_lines.specs.LineWords.{is_line, line_words};
ghost use Rattle.text_lines.specs.Quoted.{quoted_line};

/// Any words can be written: each between quotes, its own quotes twice, and a space between two of
/// them. If they fit a line, they are what is read of it.
pub fn quoted_words_are_read()
    ensures { (words : List (List ℕ)) → is_line (quoted_line words) ≡ true →
        line_words (quoted_line words) ≡ Some words }
{}
