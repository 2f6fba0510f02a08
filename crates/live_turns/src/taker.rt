ghost use Rattle.std.specs.Prelude.{◌≡◌, ◌↔◌, ◌+◌, ◌∷◌, ◌++◌, [], length, IfOk, IsTrue, MatchOption};
ghost use Rattle.live_turns.specs.Takings.{IsTaken};

use crate::giver::Giver;
use crate::handed::Handed;
use crossbeam_channel::{Receiver, TryRecvError, unbounded};
use history::{Front, Naming, Opened};
use std::alloc::Global;
use std::marker::Model;
use std::sync::Wait;
use tb_base::Memory;

/// Who takes. Contracts see it as the list of all that was taken.
#[derive(Drop)]
pub struct Taker<T: Drop, J: Naming> {
    pub(crate) known: Front<T, J>,
    pub(crate) taken: u64,
    pub(crate) from: Receiver<Handed<T, J>, Global>,
}

impl<T: Drop, J: Naming> Model for Taker<T, J> {
    ghost use Rattle.std.specs.Prelude.{◌≡◌, List, length};

    ghost Value = { List T };

    ghost view = { λ t. t.known.list };

    ghost invariant = { λ t. t.taken ≡ length t.known.list };
}

/// What comes.
#[derive(Drop)]
pub enum Taken<T> {
    /// The next thing.
    Next(T),
    /// The end: nobody gives any more.
    End,
    /// A thing out of turn, which is dropped. It never comes, of which there is no proof.
    OutOfTurn,
}

// Whether a number comes right behind n.
fn is_next(n: u64, number: u64) -> bool
    ensures { IsTrue result ↔ (number ≡ n + 1) }
{
    match n.checked_add(1) {
        Some(next) => number == next,
        None => false,
    }
}

impl<T: Drop, J: Naming> Taker<T, J> {
    // A thing that came, where it is the next one.
    fn accept(&mut self, handed: Handed<T, J>) -> Taken<T>
        ensures { IsTaken self.old self.new result }
    {
        if is_next(self.taken, handed.number) {
            Taken::Next(self.keep(handed))
        } else {
            drop(handed);
            Taken::OutOfTurn
        }
    }

    // The next thing.
    fn keep(&mut self, handed: Handed<T, J>) -> T
        requires { handed.number ≡ length self.old + 1 }
        ensures { self.new ≡ self.old ++ result ∷ [] }
    {
        self.known.compare(&handed.front);
        let Handed {
            number,
            item,
            front,
        } = handed;
        self.known = front;
        self.taken = number;
        item
    }

    /// The next thing, for which it waits.
    pub fn take<R: Wait>(&mut self, rt: &R) -> Taken<T>
        ensures { IsTaken self.old self.new result }
    {
        match self.from.recv(rt) {
            Ok(handed) => self.accept(handed),
            Err(_) => Taken::End,
        }
    }

    /// What is there now, and `None` where nothing is yet. Waits for nobody but for the moment of a
    /// lock.
    pub fn poll<R: Wait>(&mut self, rt: &R) -> Option<Taken<T>>
        ensures { MatchOption result (self.new ≡ self.old) (IsTaken self.old self.new) }
    {
        match self.from.try_recv(rt) {
            Ok(handed) => Some(self.accept(handed)),
            Err(TryRecvError::Empty) => None,
            Err(TryRecvError::Disconnected) => Some(Taken::End),
        }
    }
}

/// A giver and a taker, of which one has given and the other has taken a first thing. `opened` has
/// the name of the history. Refused only for want of memory.
pub fn open<T: Drop, J: Naming>(
    alloc: Global,
    opened: Opened<T>,
    first: &T,
) -> Result<(Giver<T, J>, Taker<T, J>), Memory>
    requires { opened.seen.book ≡ J.book }
    ensures given { IfOk result (λ t. t.0 ≡ first.now ∷ []) }
    ensures taken { IfOk result (λ t. t.1 ≡ first.now ∷ []) }
{
    let Some(history) = opened.begin::<J>(first) else {
        return Err(Memory);
    };
    let known = history.front();
    match unbounded(alloc) {
        Ok((to, from)) => Ok((
            Giver {
                history,
                given: 1,
                to,
            },
            Taker {
                known,
                taken: 1,
                from,
            },
        )),
        Err(_) => {
            drop(history);
            drop(known);
            Err(Memory)
        }
    }
}
