ghost use Rattle.std.specs.Prelude.{◌≡◌, ◌≢◌, ◌⊎◌, ◌↔◌, ◌+◌, ◌-◌, ◌<◌, length, slice_get};
ghost use Rattle.std.specs.Prelude.{IfErr, IfNone, IfOk, IfSome, IsTrue, MatchBool, MatchOption, Some};

use crate::edition::Edition;
use crate::pinned::Pinned;
use crate::shared::Shared;
use history::{Front, Naming};
use std::alloc::Global;
use std::marker::Model;
use tb_base::Memory;

/// All editions of a published list, for whoever asks for earlier ones: a store itself lets go of
/// each edition that nobody holds.
#[derive(Drop)]
pub struct Shelf<J: Naming> {
    editions: Vec<Shared>,
    front: Front<Edition, J>,
}

impl<J: Naming> Model for Shelf<J> {
    ghost use Rattle.std.specs.Prelude.{◌≡◌, List};
    ghost use Rattle.edition_store.specs.Editions.{EditionData};

    ghost Value = { List EditionData };

    ghost view = { λ s. s.editions.items };

    ghost invariant = { λ s. s.front.list ≡ s.editions.items };
}

impl<J: Naming> Shelf<J> {
    /// The shelf of a list of one edition, and none of a longer one. Refused only for want of
    /// memory.
    pub fn new(alloc: Global, pinned: &Pinned<J>) -> Result<Option<Shelf<J>>, Memory>
        ensures { IfOk result (λ shelf. MatchOption shelf (length pinned.now.list ≢ 1)
            (λ s. s ≡ pinned.now.list)) }
    {
        if pinned.number() != 1 {
            return Ok(None);
        }
        let mut editions = Vec::new(alloc);
        editions.push(pinned.content.last.share()?)?;
        Ok(Some(Shelf {
            editions,
            front: pinned.content.front.again(),
        }))
    }

    /// Adds the last edition of a list that has one more, and says whether it has. Refused only for
    /// want of memory: the shelf stays as it was.
    pub fn add(&mut self, pinned: &Pinned<J>) -> Result<bool, Memory>
        ensures added { IfOk result (λ added. MatchBool added (self.new ≡ pinned.now.list)
            (self.new ≡ self.old)) }
        ensures told { IfOk result (λ added. IsTrue added
            ↔ (length pinned.now.list ≡ length self.old + 1)) }
        ensures refused { IfErr result (λ _. self.new ≡ self.old) }
    {
        if pinned.number() as usize != self.editions.len() + 1 {
            return Ok(false);
        }
        self.front.compare(&pinned.content.front);
        self.editions.push(pinned.content.last.share()?)?;
        self.front = pinned.content.front.again();
        Ok(true)
    }

    /// The edition of this number, from 1. `None` for 0 and for numbers past the list's end.
    pub fn earlier(&self, number: u32) -> Option<&Edition>
        ensures some { IfSome result
            (λ e. (0 < number) × (slice_get self.now (number - 1) ≡ Some e.now)) }
        ensures none { IfNone result ((number ≡ 0) ⊎ (length self.now < number)) }
    {
        if number == 0 || number as usize > self.editions.len() {
            return None;
        }
        Some(self.editions[number as usize - 1].edition())
    }
}
