//! Questions for callers, with the edition from which on they may be answered.
ghost use Rattle.std.specs.Prelude.{◌≡◌, IfOk};
ghost use Rattle.query_gate.specs.Questions.{ask_question, profile_question};

use answer_text::Question;
use std::alloc::Global;
use std::marker::Model;
use tb_base::{Memory, Name, Sec};

/// A question for the best values: from which edition on it may be answered, from which place to
/// which, by the names of stops or stations, and how early one can leave, in seconds since noon
/// minus twelve hours.
#[derive(Drop)]
pub struct AskText {
    /// The number of an edition, from 1; 0 for any.
    pub since: u32,
    pub from: Name,
    pub to: Name,
    pub leave: Sec,
}

impl Model for AskText {
    ghost use Rattle.query_gate.specs.Questions.{AskData};

    ghost Value = { AskData };

    ghost view = { λ q. record { since = q.since; from = q.from; to = q.to; leave = q.leave } };
}

impl AskText {
    // The question itself.
    pub(crate) fn question(&self, alloc: Global) -> Result<Question, Memory>
        ensures { IfOk result (λ q. q ≡ ask_question self.now) }
    {
        Ok(Question::Ask {
            from: Name::new(alloc, self.from.bytes())?,
            to: Name::new(alloc, self.to.bytes())?,
            leave: self.leave,
        })
    }
}

/// A question for a profile: from which edition on it may be answered, from which place to which,
/// by the names of stops or stations, and within which window one leaves, both ends counted, in
/// seconds since noon minus twelve hours.
#[derive(Drop)]
pub struct ProfileText {
    /// The number of an edition, from 1; 0 for any.
    pub since: u32,
    pub from: Name,
    pub to: Name,
    pub first: Sec,
    pub last: Sec,
}

impl Model for ProfileText {
    ghost use Rattle.query_gate.specs.Questions.{ProfileData};

    ghost Value = { ProfileData };

    ghost view = { λ q. record {
      since = q.since;
      from = q.from;
      to = q.to;
      first = q.first;
      last = q.last;
    } };
}

impl ProfileText {
    // The question itself.
    pub(crate) fn question(&self, alloc: Global) -> Result<Question, Memory>
        ensures { IfOk result (λ q. q ≡ profile_question self.now) }
    {
        Ok(Question::Profile {
            from: Name::new(alloc, self.from.bytes())?,
            to: Name::new(alloc, self.to.bytes())?,
            first: self.first,
            last: self.last,
        })
    }
}
