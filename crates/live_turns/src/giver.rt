ghost use Rattle.std.specs.Prelude.{◌≡◌, ◌↔◌, ◌⊎◌, ◌∷◌, ◌++◌, [], IfErr, IsTrue, OnOk};
ghost use Rattle.history.specs.Lists.{StartsWith};
ghost use Rattle.live_turns.specs.Handed.{IsLast};

use crate::handed::Handed;
use crate::taker::Taker;
use crossbeam_channel::Sender;
use history::{History, Naming};
use std::alloc::Global;
use std::marker::Model;
use std::sync::Wait;
use tb_base::Memory;

/// Who gives. Contracts see it as the list of all that was given.
#[derive(Drop)]
pub struct Giver<T: Drop, J: Naming> {
    pub(crate) history: History<T, J>,
    pub(crate) given: u64,
    pub(crate) to: Sender<Handed<T, J>, Global>,
}

impl<T: Drop, J: Naming> Model for Giver<T, J> {
    ghost use Rattle.std.specs.Prelude.{◌≡◌, List, length};

    ghost Value = { List T };

    ghost view = { λ g. g.history.list };

    ghost invariant = { λ g. g.given ≡ length g.history.list };
}

// The thing, with its number and all that was given.
fn handed<T: Drop, J: Naming>(history: &History<T, J>, number: u64, item: T) -> Handed<T, J>
    requires { IsLast history.now.list number item }
    ensures { result ≡ record { number = number; item = item; all = history.now.list } }
{
    Handed {
        number,
        item,
        front: history.front(),
    }
}

impl<T: Drop, J: Naming> Giver<T, J> {
    /// Gives a thing. Waits for nobody but for the moment of a lock. Refused for want of memory, or
    /// where nobody takes any more: the thing is lost then, and it isn't said whether it counts as
    /// given.
    pub fn give<R: Wait>(&mut self, rt: &R, item: T) -> Result<(), Memory>
        ensures given { OnOk result (self.new ≡ self.old ++ item ∷ []) }
        ensures refused { IfErr result
            (λ _. (self.new ≡ self.old) ⊎ (self.new ≡ self.old ++ item ∷ [])) }
    {
        let Some(number) = self.given.checked_add(1) else {
            drop(item);
            return Err(Memory);
        };
        self.history.publish(&item);
        self.given = number;
        let handed = handed(&self.history, number, item);
        match self.to.send(rt, handed) {
            Ok(()) => Ok(()),
            Err(_) => Err(Memory),
        }
    }

    /// Gives nothing more. A taker that has taken all then meets the end.
    pub fn end(self) -> Given<T, J>
        ensures { result ≡ self }
    {
        let Giver { history, given, to } = self;
        drop(to);
        Given { history, given }
    }
}

/// All that was given, to which nothing is added any more.
#[derive(Drop)]
pub struct Given<T: Drop, J: Naming> {
    history: History<T, J>,
    given: u64,
}

impl<T: Drop, J: Naming> Model for Given<T, J> {
    ghost use Rattle.std.specs.Prelude.{◌≡◌, List, length};

    ghost Value = { List T };

    ghost view = { λ g. g.history.list };

    ghost invariant = { λ g. g.given ≡ length g.history.list };
}

impl<T: Drop, J: Naming> Given<T, J> {
    /// What was taken is a first part of what was given. Changes nothing.
    pub fn covers(&mut self, taker: &Taker<T, J>)
        ensures covers { StartsWith self.old taker.now }
        ensures same { self.new ≡ self.old }
    {
        self.history.covers(&taker.known);
    }

    /// Whether all that was given was taken.
    pub fn were_taken(&mut self, taker: &Taker<T, J>) -> bool
        ensures all { IsTrue result ↔ (taker.now ≡ self.old) }
        ensures same { self.new ≡ self.old }
    {
        self.history.covers(&taker.known);
        self.given == taker.taken
    }
}
