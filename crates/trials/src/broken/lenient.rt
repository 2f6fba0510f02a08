//! What comes with `--lenient`, and of a check, over files of which one is broken.
//!
//! Where the question has an answer without `--lenient`, or is refused for a fault that no row bears,
//! the same comes with it. Else there is an answer over what is left, and standard error says so; or a
//! fault that ends what is left, which no row bears. Both ways to the best values show the same ones. A
//! check tells no fault exactly where there is an answer without `--lenient`, and last of all the fault
//! that ends what is left, where one does.
use super::asking::{AskedCommand, PlatformQuestion, command_ending};
use super::breaks::Broken;
use super::trial::Wrong;
use crate::broken::refused::Refused;
use crate::cases::ending::Ending;
use gtfs_rows::number_of;
use std::alloc::Global;
use std::sync::Wait;
use std::thread::Threads;

/// How a question with `--lenient`, and a check, ended.
#[derive(Clone, Copy)]
pub struct LenientEnds {
    /// There is an answer, for which rows are left out.
    pub is_left_out: bool,
    /// The check tells no fault.
    pub is_whole: bool,
}

// The fault for which a feed is refused.
fn refused_for(came: &Ending) -> Option<&str> {
    let text = came.message().strip_prefix("router: feed refused: ")?;
    if came.code == 3 && came.out.is_empty() {
        text.strip_suffix('\n')
    } else {
        None
    }
}

// Whether there is an answer, for which rows are left out.
fn is_left_out(came: &Ending) -> bool {
    came.is_answer()
        && came.answer().ends_with('\n')
        && came.message().starts_with("router: left out ")
}

// Whether a row bears a fault.
fn is_borne(fault: &str) -> bool {
    match fault.split_once(' ') {
        Some((number, _)) => matches!(number_of(number.as_bytes()), Some(5..=17 | 23)),
        None => false,
    }
}

// Whether what comes with `--lenient` fits what came without it.
fn is_lenient(came: &Ending, first: &Ending) -> bool {
    match refused_for(first) {
        Some(fault) if is_borne(fault) => match refused_for(came) {
            Some(last) => !is_borne(last),
            None => is_left_out(came),
        },
        _ => came.is_as(first),
    }
}

// The last fault that a check tells, if it tells one.
fn last_told(check: &Ending) -> Option<&str> {
    let (told, _) = check.answer().rsplit_once("\nfaults ")?;
    if check.code != 10 {
        return None;
    }
    match told.rsplit_once('\n') {
        Some((_, last)) => Some(last),
        None => Some(told),
    }
}

// Whether a check fits what came with `--lenient` and without it.
fn is_checked(check: &Ending, lenient: &Ending, first: &Ending) -> bool {
    if !check.message().is_empty() {
        return false;
    }
    if first.is_answer() {
        return check.is_answer() && check.answer().starts_with("faults 0\n");
    }
    match (last_told(check), refused_for(lenient)) {
        (Some(last), Some(fault)) => last == fault,
        (Some(last), None) => is_borne(last),
        (None, _) => false,
    }
}

// Nothing, where it is right.
fn held(is_right: bool, wrong: Wrong, broken: Broken) -> Result<(), Refused> {
    if is_right {
        Ok(())
    } else {
        Err(Refused::Found(wrong, Some(broken)))
    }
}

// Holds the other way to the best values against the first one.
fn hold_plain<R: Threads + Wait + Sync>(
    rt: &R,
    alloc: Global,
    files: &[(String, Vec<u8>)],
    question: PlatformQuestion,
    broken: Broken,
    lenient: &Ending,
) -> Result<(), Refused> {
    let plain = command_ending(rt, alloc, files, question, AskedCommand::LenientPlainAsk)?;
    let same = plain.has_status_of(lenient) && plain.has_values_of(lenient);
    drop(plain);
    held(same, Wrong::OtherValues, broken)
}

// Holds a check against how questions ended, with `--lenient` and without it; whether it tells no
// fault.
fn is_whole<R: Threads + Wait + Sync>(
    rt: &R,
    alloc: Global,
    files: &[(String, Vec<u8>)],
    question: PlatformQuestion,
    broken: Broken,
    lenient: &Ending,
    first: &Ending,
) -> Result<bool, Refused> {
    let check = command_ending(rt, alloc, files, question, AskedCommand::Check)?;
    let is_right = is_checked(&check, lenient, first);
    let is_whole = check.is_answer();
    drop(check);
    held(is_right, Wrong::NotChecked, broken)?;
    Ok(is_whole)
}

// Holds what comes with `--lenient` against what came without it, and the rest against both.
fn ends_beside<R: Threads + Wait + Sync>(
    rt: &R,
    alloc: Global,
    files: &[(String, Vec<u8>)],
    question: PlatformQuestion,
    broken: Broken,
    lenient: &Ending,
    first: &Ending,
) -> Result<LenientEnds, Refused> {
    held(is_lenient(lenient, first), Wrong::NotLenient, broken)?;
    hold_plain(rt, alloc, files, question, broken, lenient)?;
    let is_whole = is_whole(rt, alloc, files, question, broken, lenient, first)?;
    Ok(LenientEnds {
        is_left_out: is_left_out(lenient),
        is_whole,
    })
}

/// How a question with `--lenient` ends over files of which one is broken, and a check, where both fit
/// how it ended without the option.
pub fn lenient_ends<R: Threads + Wait + Sync>(
    rt: &R,
    alloc: Global,
    files: &[(String, Vec<u8>)],
    question: PlatformQuestion,
    broken: Broken,
    first: &Ending,
) -> Result<LenientEnds, Refused> {
    let lenient = command_ending(rt, alloc, files, question, AskedCommand::LenientAsk)?;
    let ends = ends_beside(rt, alloc, files, question, broken, &lenient, first);
    drop(lenient);
    ends
}
