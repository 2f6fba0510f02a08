//! Which trips have had which sequence numbers.
ghost use Rattle.std.specs.Prelude.{◌≡◌, ◌∷◌, ◌++◌, [], not, IfOk, OnOk};
ghost use Rattle.std.specs.List.{list_any};
ghost use Rattle.trip_table.specs.References.{same_key};
ghost use Rattle.trip_table.specs.declared.seen.SequenceKey.{SequenceKey};

use std::alloc::Global;
use std::collections::BTreeSet;
use std::marker::Model;
use tb_base::Memory;

/// A trip, by the position of its row in trips.txt, and a sequence number.
#[derive(Clone, Copy, PartialEq, Eq, PartialOrd, Ord)]
pub struct SequenceKey {
    pub trip_row: u32,
    pub sequence: u32,
}

/// The sequence numbers that trips have had, told apart by their order: no choice of numbers makes
/// a look-up slow.
#[derive(Drop)]
pub struct SeenKeys {
    keys: BTreeSet<SequenceKey>,
}

impl Model for SeenKeys {
    ghost use Rattle.std.specs.Prelude.{List};
    ghost use Rattle.trip_table.specs.declared.seen.SequenceKey.{SequenceKey};

    ghost Value = { List SequenceKey };

    ghost view = { λ s. s.keys.keys };
}

impl SeenKeys {
    /// No trip has had a number.
    pub fn new(alloc: Global) -> SeenKeys
        ensures { result ≡ [] }
    {
        SeenKeys {
            keys: BTreeSet::new(alloc),
        }
    }

    /// Notes that a trip has a number, and answers whether it hadn't had it.
    pub fn add(&mut self, key: SequenceKey) -> Result<bool, Memory>
        ensures added { OnOk result ((k : SequenceKey) →
            list_any (same_key k) self.new ≡ list_any (same_key k) (self.old ++ key ∷ [])) }
        ensures fresh { IfOk result (λ fresh. fresh ≡ not (list_any (same_key key) self.old)) }
    {
        let fresh = self.keys.insert(key)?;
        Ok(fresh)
    }
}
