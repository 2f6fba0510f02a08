ghost use Rattle.std.specs.Prelude.{◌≡◌, IfOk};

use crate::edition::Edition;
use std::alloc::Global;
use std::marker::Model;
use std::sync::Arc;
use tb_base::Memory;

/// One edition, shared: its shares are one and the same edition, which is dropped with the last of
/// them.
#[derive(Drop)]
pub struct Shared(Arc<Edition>);

impl Model for Shared {
    ghost use Rattle.std.specs.Arc.{arc_value};
    ghost use Rattle.edition_store.specs.Editions.{EditionData};

    ghost Value = { EditionData };

    ghost view = { λ s. arc_value s.0 };
}

impl Shared {
    /// The edition, to be shared. Refused only for want of memory; the edition is dropped then.
    pub fn new(alloc: Global, edition: Edition) -> Result<Shared, Memory>
        ensures { IfOk result (λ s. s ≡ edition) }
    {
        Ok(Shared(Arc::new(alloc, edition)?))
    }

    /// The edition.
    pub fn edition(&self) -> &Edition
        ensures { result.now ≡ self.now }
    {
        &self.0
    }

    /// One more share of the edition. Refused only for want of memory.
    pub fn share(&self) -> Result<Shared, Memory>
        ensures { IfOk result (λ s. s ≡ self.now) }
    {
        Ok(Shared(Arc::try_clone(&self.0).map_err(|_| Memory)?))
    }
}
