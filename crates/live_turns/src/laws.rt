//! Laws over all texts and all runs.
ghost use Rattle.std.specs.Prelude.{◌≡◌, ◌≤◌, ◌++◌, ℕ, List, map};
ghost use Rattle.text_lines.specs.LineWords.{line_words};
ghost use Rattle.text_lines.specs.Lines.{lines_of};
ghost use Rattle.live_turns.specs.Coming.{begun_by, ended, kept_lines};
ghost use Rattle.live_turns.specs.Runs.{TurnsGive, TurnsRun};

/// A text that comes in two pieces has the lines of the whole.
pub fn pieces_follow()
    ensures lines { (most : ℕ) (begun xs ys : List ℕ) → ended most begun (xs ++ ys)
        ≡ ended most begun xs ++ ended most (begun_by most begun xs) ys }
    ensures begun { (most : ℕ) (begun xs ys : List ℕ) → begun_by most begun (xs ++ ys)
        ≡ begun_by most (begun_by most begun xs) ys }
{}

/// Where 1,026 bytes of each line are kept, the words of the lines are those of the lines of the
/// text.
pub fn words_are_kept()
    ensures { (most : ℕ) → 1026 ≤ most → (text : List ℕ) →
        map line_words (kept_lines most text) ≡ map line_words (lines_of text) }
{}

/// Says what is right, over a list of editions.
pub trait Judge<E, X> {
    // by edition n of the list this text is a right reply to line k
    ghost replies: { List E → ℕ → ℕ → List ℕ → List ℕ → Type 0 };

    // by how much a line moves the number of the next one on
    ghost counts: { List ℕ → ℕ };

    // the text of a thing that is told beside the replies
    ghost shows: { X → List ℕ };
}

/// Turns that are each answered by the last edition that is kept then are one run of their lines:
/// each reply is right by an edition of the list in the end, and the editions never go back.
pub fn turns_run<E, X, J: Judge<E, X>>()
    ensures { TurnsRun J.replies J.counts J.shows }
{}

/// What is given by lines.
pub trait Gift<X> {
    // what was given so far
    ghost given: { Self → List X };

    // what a line gives
    ghost gives: { List ℕ → List X };
}

/// Turns each of which gives what its lines give, in order, give what all lines give, in order.
pub fn turns_give<X, G: Gift<X>>()
    ensures { TurnsGive G.given G.gives }
{}
