//! One who asks, of the editions that are published.
ghost use Rattle.std.specs.Prelude.{◌≡◌, ◌≤◌, ◌≤ℤ◌, [], ◌∷◌, true, IfErr, IfOk, MatchOption, length, pos};
ghost use Rattle.answer_text.specs.Questions.{HasTimes};
ghost use Rattle.history.specs.Lists.{Shown, Extends};
ghost use Rattle.edition_store.specs.Editions.{net_of, network_of};
ghost use Rattle.edition_store.specs.Lists.{longer};
ghost use Rattle.query_gate.specs.Callers.{Answers, CallerData, HasLegNumbersIn, IsAnsweredBy, IsServing, LacksMirror, LeavesAnsweredBy};
ghost use Rattle.query_gate.specs.Questions.{ask_question, profile_question};
ghost use Rattle.query_gate.specs.Replies.{HaveNumbers, LeavesAnswered};

use crate::answering::answer;
use crate::asking::{AskText, ProfileText};
use crate::reply::Reply;
use answer_text::Question;
use edition_store::{Edition, Last, Naming, Network, Opened, Pinned, Receipt, Seat, Shared, Store};
use segment_queue::Desk;
use std::alloc::Global;
use std::marker::Model;
use tb_base::Memory;

/// A reply, with the list of editions whose last one it is of.
#[derive(Drop)]
pub struct Answer<J: Naming> {
    pub pinned: Pinned<J>,
    pub reply: Reply,
}

/// A seat and a desk. Contracts see the list that its seat keeps, and the desk.
#[derive(Drop)]
pub struct Caller<J: Naming> {
    seat: Seat<J>,
    desk: Desk,
}

impl<J: Naming> Model for Caller<J> {
    ghost use Rattle.query_gate.specs.Callers.{CallerData};

    ghost Value = { CallerData };

    ghost view = { λ c. record { kept = c.seat; desk = c.desk } };
}

// The network of an edition that serves a question: its own, or for the latest departures that of
// its mirror, where it has one.
fn network_for<'e>(edition: &'e Edition, question: &Question) -> Option<&'e Network>
    ensures { MatchOption result (LacksMirror edition.now question.now)
        (λ N. IsServing edition.now question.now N.now) }
{
    edition.soundness();
    if question.needs_mirror() {
        edition.mirror()
    } else {
        Some(edition.network())
    }
}

/// The reply of an edition with a number to a question that edition `since` or a later one may
/// answer: `Deferred` exactly where that is a later one, `NoMirror` where it is asked for latest
/// departures and has no mirror, else as `answer` does. Refused only for want of memory.
pub fn reply_by(
    alloc: Global,
    number: u32,
    edition: &Edition,
    desk: &mut Desk,
    since: u32,
    question: &Question,
) -> Result<Reply, Memory>
    requires { HasTimes question.now }
    ensures reply { IfOk result (Answers number edition.now since question.now) }
    ensures numbers { IfOk result (HaveNumbers edition.now.table) }
    ensures desk { IfOk result
        (λ reply. LeavesAnswered (net_of (network_of edition.now)) question.now reply desk.new) }
{
    if number < since {
        return Ok(Reply::Deferred(since));
    }
    match network_for(edition, question) {
        Some(network) => answer(alloc, edition.table(), network, desk, question),
        None => Ok(Reply::NoMirror),
    }
}

impl<J: Naming> Caller<J> {
    /// One who asks from a seat. Takes no memory.
    pub fn new(alloc: Global, seat: Seat<J>) -> Caller<J>
        ensures { CallerData.kept result ≡ seat }
    {
        Caller {
            seat,
            desk: Desk::new(alloc),
        }
    }

    /// One who asks of this edition alone, to which none is ever added. `opened` has the name of
    /// the store, as in `Store::closed`. Refused only for want of memory; the edition is dropped
    /// then.
    pub fn alone(alloc: Global, opened: Opened<Edition>, only: Edition) -> Result<Caller<J>, Memory>
        requires { opened.seen.book ≡ J.book }
        ensures { IfOk result
            (λ c. CallerData.kept c ≡ record { list = only ∷ []; closed = true }) }
    {
        let seat = Store::closed::<J>(opened, Shared::new(alloc, only)?)?;
        Ok(Caller::new(alloc, seat))
    }

    /// Its desk.
    pub fn desk(&self) -> &Desk
        ensures { result.now ≡ self.now.desk }
    {
        &self.desk
    }

    /// Pins the published list once, and answers a question of its last edition: `Deferred` exactly
    /// where edition `since` is a later one, `NoMirror` where it is asked for latest departures and
    /// has no mirror, else as `answer` does. The list extends that of each earlier answer. Waits
    /// for nobody. Refused only for want of memory: then the caller's seat may have pinned a later
    /// list, and nothing is said of its desk.
    pub fn answer(
        &mut self,
        alloc: Global,
        since: u32,
        question: &Question,
    ) -> Result<Answer<J>, Memory>
        requires { HasTimes question.now }
        ensures reply { IfOk result
            (λ a. IsAnsweredBy a.pinned.list (length a.pinned.list) since question.now a.reply) }
        ensures numbers { IfOk result
            (λ a. HasLegNumbersIn a.pinned.list (length a.pinned.list) a.reply) }
        ensures desk { IfOk result
            (λ a. LeavesAnsweredBy a.pinned.list question.now a.reply self.new.desk) }
        ensures kept { IfOk result (λ a. self.new.kept ≡ a.pinned) }
        ensures later { Extends self.new.kept self.old.kept }
        ensures number { length self.old.kept.list ≤ length self.new.kept.list }
        ensures last { self.old.kept.closed ≡ true → self.new.kept ≡ self.old.kept }
    {
        let pinned = self.seat.pin()?;
        let reply = reply_by(
            alloc,
            pinned.number(),
            pinned.edition(),
            &mut self.desk,
            since,
            question,
        )?;
        Ok(Answer { pinned, reply })
    }

    /// Answers a question for the best values; see `answer`.
    pub fn ask(&mut self, alloc: Global, text: &AskText) -> Result<Answer<J>, Memory>
        requires { text.now.leave ≤ℤ pos 359999 }
        ensures reply { IfOk result
            (λ a. IsAnsweredBy a.pinned.list (length a.pinned.list) text.now.since
            (ask_question text.now) a.reply) }
        ensures numbers { IfOk result
            (λ a. HasLegNumbersIn a.pinned.list (length a.pinned.list) a.reply) }
        ensures desk { IfOk result
            (λ a. LeavesAnsweredBy a.pinned.list (ask_question text.now) a.reply self.new.desk) }
        ensures kept { IfOk result (λ a. self.new.kept ≡ a.pinned) }
        ensures later { Extends self.new.kept self.old.kept }
        ensures number { length self.old.kept.list ≤ length self.new.kept.list }
        ensures last { self.old.kept.closed ≡ true → self.new.kept ≡ self.old.kept }
    {
        let question = text.question(alloc)?;
        self.answer(alloc, text.since, &question)
    }

    /// Answers a question for a profile; see `answer`.
    pub fn profile(&mut self, alloc: Global, text: &ProfileText) -> Result<Answer<J>, Memory>
        requires { text.now.last ≤ℤ pos 359999 }
        ensures reply { IfOk result
            (λ a. IsAnsweredBy a.pinned.list (length a.pinned.list) text.now.since
            (profile_question text.now) a.reply) }
        ensures numbers { IfOk result
            (λ a. HasLegNumbersIn a.pinned.list (length a.pinned.list) a.reply) }
        ensures kept { IfOk result (λ a. self.new.kept ≡ a.pinned) }
        ensures later { Extends self.new.kept self.old.kept }
        ensures number { length self.old.kept.list ≤ length self.new.kept.list }
        ensures last { self.old.kept.closed ≡ true → self.new.kept ≡ self.old.kept }
    {
        let question = text.question(alloc)?;
        self.answer(alloc, text.since, &question)
    }

    /// From now on the caller's answers are of no less than the list of the receipt. Waits for
    /// nobody. Refused only for want of memory: nothing is learned then.
    pub fn learn(&mut self, receipt: &Receipt<J>) -> Result<(), Memory>
        ensures later { IfOk result (λ _. Extends self.new.kept self.old.kept) }
        ensures told { IfOk result (λ _. Extends self.new.kept receipt.now) }
        ensures longer { IfOk result (λ _. self.new.kept ≡ longer self.old.kept receipt.now) }
        ensures refused { IfErr result (λ _. self.new.kept ≡ self.old.kept) }
        ensures desk { self.new.desk ≡ self.old.desk }
    {
        self.seat.learn(receipt)
    }

    /// From now on the caller's answers are of the whole list. Waits for nobody. Refused only for
    /// want of memory: nothing is learned then.
    pub fn learn_last(&mut self, last: &Last<J>) -> Result<(), Memory>
        ensures later { IfOk result (λ _. Extends self.new.kept self.old.kept) }
        ensures whole { IfOk result
            (λ _. self.new.kept ≡ record { list = last.now; closed = true }) }
        ensures refused { IfErr result (λ _. self.new.kept ≡ self.old.kept) }
        ensures desk { self.new.desk ≡ self.old.desk }
    {
        self.seat.learn_last(last)
    }
}
