//! Cases from a text.
use super::case::Case;
use super::line::{CaseLine, line_of};
use super::question::{AskedOf, CaseQuestion};
use super::untried::Untried;
use std::alloc::Global;
use std::rt::Files;

// What a line adds to a case. It says whether the line has a meaning there.
fn add_setting<R: Files>(
    rt: &R,
    alloc: Global,
    case: &mut Case,
    line: CaseLine<'_>,
) -> Result<bool, Untried> {
    match line {
        CaseLine::Feed(name) => case.add_feed(rt, alloc, name),
        CaseLine::Without(name) => case.take_away(alloc, name),
        CaseLine::File(name) => case.begin_file(alloc, name),
        CaseLine::Beside(path) => case.begin_beside(alloc, path),
        CaseLine::Row(text) => case.add_text(text, "\n"),
        CaseLine::Rows(text) => case.add_rows(alloc, text),
        CaseLine::Cut(text) => case.add_text(text, ""),
        CaseLine::Byte(number) => case.add_byte(number),
        CaseLine::Endless(name) => case.set_endless(alloc, name),
        _ => add_question(alloc, case, line),
    }
}

fn add_question(alloc: Global, case: &mut Case, line: CaseLine<'_>) -> Result<bool, Untried> {
    match line {
        CaseLine::Nothing => Ok(true),
        CaseLine::Words(words) => case.ask(alloc, AskedOf::Program, words),
        CaseLine::Paths(words) => case.ask(alloc, AskedOf::Paths, words),
        _ => match case.questions.last_mut() {
            Some(question) => add_answer(alloc, question, line),
            None => Ok(false),
        },
    }
}

// What a line says of a question.
fn add_answer(
    alloc: Global,
    question: &mut CaseQuestion,
    line: CaseLine<'_>,
) -> Result<bool, Untried> {
    match line {
        CaseLine::Script(_) | CaseLine::Scripts(_) | CaseLine::Piece(_) | CaseLine::Octet(_) => {
            add_script(alloc, question, line)
        }
        CaseLine::Folder(_) | CaseLine::Input(_) | CaseLine::Output(_) => Ok(add_failure(
            question, line,
        )),
        CaseLine::Room(_) | CaseLine::Moves(_) | CaseLine::Each(_) => Ok(add_trouble(
            question, line,
        )),
        CaseLine::Meets(text) => Ok(question.hold(alloc, text, true)?),
        CaseLine::Misses(text) => Ok(question.hold(alloc, text, false)?),
        CaseLine::Status(number) => Ok(question.want_status(number)),
        CaseLine::Out(text) => add_out(alloc, question, text, "\n"),
        CaseLine::Part(text) => add_out(alloc, question, text, ""),
        CaseLine::Any => {
            question.want_any(alloc)?;
            Ok(true)
        }
        CaseLine::Err(text) => {
            question.want_err(text)?;
            Ok(true)
        }
        _ => Ok(false),
    }
}

// What a line says of the script of a question.
fn add_script(
    alloc: Global,
    question: &mut CaseQuestion,
    line: CaseLine<'_>,
) -> Result<bool, Untried> {
    match line {
        CaseLine::Script(text) => Ok(question.add_script(text, "\n")?),
        CaseLine::Scripts(lines) => Ok(question.add_scripts(alloc, lines)?),
        CaseLine::Piece(text) => Ok(question.add_script(text, "")?),
        CaseLine::Octet(number) => Ok(question.add_octet(number)?),
        _ => Ok(false),
    }
}

// Which call a line says to fail.
fn add_failure(question: &mut CaseQuestion, line: CaseLine<'_>) -> bool {
    match line {
        CaseLine::Folder(number) => question.fail_folder(number),
        CaseLine::Input(number) => question.fail_input(number),
        CaseLine::Output(number) => question.fail_output(number),
        _ => false,
    }
}

// What else a line says of the outside.
fn add_trouble(question: &mut CaseQuestion, line: CaseLine<'_>) -> bool {
    match line {
        CaseLine::Room(number) => question.set_room(number),
        CaseLine::Moves(number) => question.set_most(number),
        CaseLine::Each(calls) => question.fail_each(calls),
        _ => false,
    }
}

fn add_out(
    alloc: Global,
    question: &mut CaseQuestion,
    text: &str,
    end: &str,
) -> Result<bool, Untried> {
    question.want_out(alloc, text, end)?;
    Ok(true)
}

// Whether the last case asks something.
fn ends_asked(cases: &[Case]) -> bool {
    match cases.last() {
        Some(case) => case.is_asked(),
        None => false,
    }
}

// Adds what a line says to the cases. It says whether the line has a meaning there.
fn add_line<R: Files>(
    rt: &R,
    alloc: Global,
    cases: &mut Vec<Case>,
    text: &str,
) -> Result<bool, Untried> {
    let Some(line) = line_of(text) else {
        return Ok(false);
    };
    if let CaseLine::Case(title) = line {
        if !cases.is_empty() && !ends_asked(cases.as_slice()) {
            return Ok(false);
        }
        cases.push(Case::new(alloc, title)?)?;
        return Ok(true);
    }
    match cases.last_mut() {
        Some(case) if line.is_setting() && case.is_asked() => Ok(false),
        Some(case) => add_setting(rt, alloc, case, line),
        None => Ok(matches!(line, CaseLine::Nothing)),
    }
}

// Adds what all lines of a text say to the cases.
fn add_lines<R: Files>(
    rt: &R,
    alloc: Global,
    cases: &mut Vec<Case>,
    text: &str,
) -> Result<(), Untried> {
    let mut number: usize = 0;
    for line in text.split('\n') {
        number = number.saturating_add(1);
        if !add_line(rt, alloc, cases, line)? {
            return Err(Untried::BadLine(number));
        }
    }
    if !ends_asked(cases.as_slice()) {
        return Err(Untried::BadLine(number));
    }
    Ok(())
}

/// The cases of a text, with the files of the feeds that they name. There is at least one, each
/// asks something, and what it says of files comes before what it asks.
pub fn cases_of<R: Files>(rt: &R, alloc: Global, text: &str) -> Result<Vec<Case>, Untried> {
    let mut cases = Vec::new(alloc);
    match add_lines(rt, alloc, &mut cases, text) {
        Ok(()) => Ok(cases),
        Err(untried) => {
            drop(cases);
            Err(untried)
        }
    }
}
