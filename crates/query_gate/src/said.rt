//! What the words of a line of a script say.
ghost use Rattle.std.specs.Prelude.{◌≡◌, IfOk};
ghost use Rattle.query_gate.specs.Said.{SaysTimes, lane_of, request_of, said_of, since_of};

use answer_text::{Question, QuestionFault, question_of};
use gtfs_rows::number_of;
use std::alloc::Global;
use tb_base::{Memory, Name, Refused};

/// A request.
#[derive(Drop)]
pub struct Line {
    /// The number of the first edition that may answer it, from 1; 0 for any.
    pub since: u32,
    pub question: Question,
    /// Whether the reply is wanted as JSON, in place of lines.
    pub json: bool,
}

/// What a line says.
#[derive(Drop)]
pub enum Said {
    /// Nothing.
    Nothing,
    /// A lane of this name begins.
    Lane(Name),
    /// A request, or none where a time of it isn't one.
    Request(Option<Line>),
}

// A question, which edition `since` or a later one may answer.
fn request_of(alloc: Global, json: bool, since: u32, words: &[Name]) -> Result<Option<Said>, Memory>
    ensures said { IfOk result (λ said. said ≡ request_of json since words.now) }
    ensures times { IfOk result SaysTimes }
{
    match words {
        [] => Ok(None),
        [kind, rest @ ..] => match question_of(alloc, kind.bytes(), rest) {
            Ok(question) => Ok(Some(Said::Request(Some(Line {
                since,
                question,
                json,
            })))),
            Err(Refused::Fault(QuestionFault::BadForm)) => Ok(None),
            Err(Refused::Fault(QuestionFault::BadTime)) => Ok(Some(Said::Request(None))),
            Err(Refused::Memory) => Err(Memory),
        },
    }
}

// N and a request.
fn since_of(alloc: Global, json: bool, words: &[Name]) -> Result<Option<Said>, Memory>
    ensures said { IfOk result (λ said. said ≡ since_of json words.now) }
    ensures times { IfOk result SaysTimes }
{
    match words {
        [] => Ok(None),
        [number, rest @ ..] => match number_of(number.bytes()) {
            Some(since) => request_of(alloc, json, since, rest),
            None => Ok(None),
        },
    }
}

// NAME.
fn lane_of(alloc: Global, words: &[Name]) -> Result<Option<Said>, Memory>
    ensures said { IfOk result (λ said. said ≡ lane_of words.now) }
    ensures times { IfOk result SaysTimes }
{
    match words {
        [name] => Ok(Some(Said::Lane(Name::new(alloc, name.bytes())?))),
        _ => Ok(None),
    }
}

/// What the words of a line say, or none where they have no form of a script's line. Refused only
/// for want of memory.
pub fn said_of(alloc: Global, json: bool, words: &[Name]) -> Result<Option<Said>, Memory>
    ensures said { IfOk result (λ said. said ≡ said_of json words.now) }
    ensures times { IfOk result SaysTimes }
{
    match words {
        [] => Ok(Some(Said::Nothing)),
        [word, rest @ ..] => {
            if word.bytes() == b"lane".as_slice() {
                lane_of(alloc, rest)
            } else if word.bytes() == b"since".as_slice() {
                since_of(alloc, json, rest)
            } else {
                request_of(alloc, json, 0, words)
            }
        }
    }
}
