//! A case, tried.
use super::case::Case;
use super::ending::{Ending, ending_over, ending_over_files};
use super::endless::Endless;
use super::holding::{Hold, Holding};
use super::question::{AskedOf, CaseQuestion, Outside, Trouble, Turns, Wanted};
use super::shown::shown_paths;
use super::untried::Untried;
use crate::stopped::Stopped;
use std::alloc::Global;
use std::str;
use std::sync::Wait;
use std::thread::Threads;
use tb_base::Memory;
use tb_io::MemFolder;

/// What was tried.
#[derive(Clone, Copy)]
pub struct CaseTally {
    cases: u64,
    questions: u64,
    differing: u64,
}

impl CaseTally {
    /// Nothing yet.
    pub const NOTHING: CaseTally = CaseTally {
        cases: 0,
        questions: 0,
        differing: 0,
    };

    // One more case, with so many questions.
    fn add(&mut self, questions: usize, differs: bool) {
        self.cases = self.cases.wrapping_add(1);
        self.questions = self.questions.wrapping_add(questions as u64);
        self.differing = self.differing.wrapping_add(u64::from(differs));
    }
}

impl CaseTally {
    /// Writes it where a case was tried. All came out as they say, or something is wrong.
    pub fn write(self, rt: &impl Print) -> Result<(), Stopped> {
        let CaseTally {
            cases,
            questions,
            differing,
        } = self;
        if cases > 0 {
            let _ = println!(rt; "cases {cases} questions {questions} differing {differing}");
        }
        if differing > 0 {
            return Err(Stopped::Wrong);
        }
        Ok(())
    }
}

// How the program ends over the files of a case, with such trouble outside and such a gate.
fn ending_by<R: Threads + Wait + Sync>(
    rt: &R,
    alloc: Global,
    case: &Case,
    question: &CaseQuestion,
    trouble: Trouble,
    gate: &Holding,
) -> Result<Ending, Memory> {
    let words = question.words.as_slice();
    let script = question.script.as_slice();
    match case.endless() {
        Some(path) => ending_over(
            rt,
            alloc,
            words,
            &mut Endless { path },
            script,
            trouble,
            gate,
        ),
        None => ending_over_files(rt, alloc, words, case.files(alloc)?, script, trouble, gate),
    }
}

// How the program ends over the files of a case, with such trouble outside.
fn program_ending<R: Threads + Wait + Sync>(
    rt: &R,
    alloc: Global,
    case: &Case,
    question: &CaseQuestion,
    trouble: Trouble,
) -> Result<Ending, Memory> {
    let gate = Holding::new(alloc, question.holds.as_slice())?;
    let mut ending = ending_by(rt, alloc, case, question, trouble, &gate)?;
    ending.met = gate.met(alloc)?;
    Ok(ending)
}

// How the change times and footpaths of a day are shown.
fn paths_ending(alloc: Global, case: &Case, words: &[String]) -> Result<Ending, Memory> {
    let mut folder = MemFolder::new(case.files(alloc)?, Vec::new(alloc));
    let ending = shown_paths(alloc, &mut folder, words);
    drop(folder);
    ending
}

// How a question ends.
fn question_ending<R: Threads + Wait + Sync>(
    rt: &R,
    alloc: Global,
    case: &Case,
    question: &CaseQuestion,
) -> Result<Ending, Memory> {
    match question.asked {
        AskedOf::Program => program_ending(rt, alloc, case, question, question.trouble),
        AskedOf::Paths => paths_ending(alloc, case, question.words.as_slice()),
    }
}

// Whether the middle pieces stand in a text, one behind the other, and the last one at its end.
fn stand_in(text: &str, middle: &[String], last: &String) -> bool {
    let mut rest = text;
    for piece in middle {
        match rest.split_once(piece.as_str()) {
            Some((_, behind)) => rest = behind,
            None => return false,
        }
    }
    rest.ends_with(last.as_str())
}

// Whether a text has these pieces, with anything between two.
fn has_pieces(text: &str, pieces: &[String]) -> bool {
    let Some((first, others)) = pieces.split_first() else {
        return text.is_empty();
    };
    let Some(rest) = text.strip_prefix(first.as_str()) else {
        return false;
    };
    match others.split_last() {
        Some((last, middle)) => stand_in(rest, middle, last),
        None => rest.is_empty(),
    }
}

// Whether each piece of work was let on that has to be, and no other one.
fn are_met(met: &[bool], holds: &[Hold]) -> bool {
    met.iter().copied().eq(holds.iter().map(|hold| hold.is_met))
}

// Whether the program ended as it has to.
fn is_same(came: &Ending, question: &CaseQuestion) -> bool {
    let want = &question.want;
    are_met(came.met.as_slice(), question.holds.as_slice())
        && !came.is_called_again
        && came.code == want.code
        && has_pieces(text_of(came.out.as_slice()), want.pieces.as_slice())
        && came.err.as_slice() == want.err.as_slice()
}

// Bytes as text.
fn text_of(bytes: &[u8]) -> &str {
    match str::from_utf8(bytes) {
        Ok(text) => text,
        Err(_) => "no UTF-8\n",
    }
}

// Whether a text may be a beginning of one that has these pieces.
fn may_begin(text: &str, pieces: &[String]) -> bool {
    match pieces.split_first() {
        None => text.is_empty(),
        Some((first, others)) => {
            first.as_str().starts_with(text)
                || (!others.is_empty() && text.starts_with(first.as_str()))
        }
    }
}

// Whether the program ended as it has to where a call of this object failed.
fn is_refused(came: &Ending, calls: Outside, want: &Wanted) -> bool {
    let out = text_of(came.out.as_slice());
    let err = text_of(came.err.as_slice());
    if came.is_called_again {
        return false;
    }
    match calls {
        Outside::Folder | Outside::Input => {
            came.code == 4 && out.is_empty() && err == "router: read fault\n"
        }
        Outside::Output => {
            came.code == 5
                && may_begin(out, want.pieces.as_slice())
                && err == "router: write fault\n"
        }
    }
}

// How a question ends where the call with a number fails, if it isn't as it has to: the program
// says so, or, behind the last call, ends as if nothing were wrong.
fn bad_turn<R: Threads + Wait + Sync>(
    rt: &R,
    alloc: Global,
    case: &Case,
    question: &CaseQuestion,
    turns: Turns,
    number: u32,
) -> Result<Option<Ending>, Memory> {
    let trouble = question.trouble.with_failing(turns.calls, number);
    let came = program_ending(rt, alloc, case, question, trouble)?;
    let is_right = if number < turns.count {
        is_refused(&came, turns.calls, &question.want)
    } else {
        is_same(&came, question)
    };
    Ok(if is_right { None } else { Some(came) })
}

// How a question ends, if it isn't as it has to.
fn bad_ending<R: Threads + Wait + Sync>(
    rt: &R,
    alloc: Global,
    case: &Case,
    question: &CaseQuestion,
) -> Result<Option<Ending>, Memory> {
    let Some(turns) = question.turns else {
        let came = question_ending(rt, alloc, case, question)?;
        let is_right = is_same(&came, question);
        return Ok(if is_right { None } else { Some(came) });
    };
    for number in 0..turns.count {
        let bad = bad_turn(rt, alloc, case, question, turns, number)?;
        if bad.is_some() {
            return Ok(bad);
        }
    }
    bad_turn(rt, alloc, case, question, turns, turns.count)
}

// Writes a word behind others.
fn write_word(rt: &impl Print, word: &str) {
    let _ = print!(rt; " {word}");
}

// Writes a line that begins with a word that says what it is.
fn write_line(rt: &impl Print, what: &str, line: &str) {
    let _ = println!(rt; "{what} {line}");
}

// Writes the lines of a text, each behind that word.
fn write_lines(rt: &impl Print, what: &str, text: &str) {
    for line in text.lines() {
        write_line(rt, what, line);
    }
}

// Writes what is asked, without the end of its line.
fn write_question(rt: &impl Print, question: &CaseQuestion) {
    let asked = match question.asked {
        AskedOf::Program => "words",
        AskedOf::Paths => "paths",
    };
    let _ = print!(rt; "{asked}");
    for word in &question.words {
        write_word(rt, word.as_str());
    }
}

// Writes the end of a line, and whether a piece of work was let on while it was held.
fn write_hold(rt: &impl Print, hold: &Hold, is_met: bool) {
    let word = if is_met { "meets" } else { "misses" };
    let _ = print!(rt; "\n{word} {}", hold.text);
}

fn write_holds(rt: &impl Print, holds: &[Hold], met: &[bool]) {
    for (hold, is_met) in holds.iter().zip(met.iter()) {
        write_hold(rt, hold, *is_met);
    }
}

// Writes the end of a line, and the number with which a question ended.
fn write_code(rt: &impl Print, code: u8) {
    let _ = println!(rt; "\nstatus {code}");
}

// Writes what a question came to.
fn write_ending(rt: &impl Print, question: &CaseQuestion, came: &Ending) {
    write_question(rt, question);
    write_holds(rt, question.holds.as_slice(), came.met.as_slice());
    write_code(rt, came.code);
    if came.is_called_again {
        write_line(rt, "#", "something was called after it failed");
    }
    write_lines(rt, "out", text_of(came.out.as_slice()));
    write_lines(rt, "err", text_of(came.err.as_slice()));
}

// Writes what a question came to, where it isn't as it has to be, and under which title if that isn't
// written yet.
fn write_bad(
    rt: &impl Print,
    title: &str,
    is_written: bool,
    question: &CaseQuestion,
    came: &Ending,
) {
    if !is_written {
        write_line(rt, "differs", title);
    }
    write_ending(rt, question, came);
}

// Tries a question, and writes what came where that isn't as it has to be. It says whether it is.
fn try_question<R: Threads + Wait + Sync + Print>(
    rt: &R,
    alloc: Global,
    case: &Case,
    question: &CaseQuestion,
    is_written: bool,
) -> Result<bool, Memory> {
    match bad_ending(rt, alloc, case, question) {
        Ok(Some(came)) => {
            write_bad(rt, case.title.as_str(), is_written, question, &came);
            drop(came);
            Ok(false)
        }
        Ok(None) => Ok(true),
        Err(Memory) => Err(Memory),
    }
}

/// Tries a case, and writes how it came out: `ok` or `differs` and its title, and under `differs`
/// what came, as a case says it.
pub fn try_case<R: Threads + Wait + Sync + Print>(
    rt: &R,
    alloc: Global,
    case: &Case,
    tally: &mut CaseTally,
) -> Result<(), Untried> {
    let mut differs = false;
    for question in &case.questions {
        if !try_question(rt, alloc, case, question, differs)? {
            differs = true;
        }
    }
    if !differs {
        write_line(rt, "ok", case.title.as_str());
    }
    tally.add(case.questions.len(), differs);
    Ok(())
}
