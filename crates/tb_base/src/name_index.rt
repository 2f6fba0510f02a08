//! Names, numbered in the order in which they came.
ghost use Rattle.std.specs.List.{list_any};
ghost use Rattle.std.specs.Prelude.{not, ◌≡◌, ◌≢◌, ◌+◌, ◌<◌, ◌++◌, ◌||◌, ◌∷◌, [], ℕ, OnOk, List, AllPairs, map, position, bytes_eq, IfOk, OnErr, MatchBool, Some, false};

use super::hash_key::HashKey;
use super::memory::Memory;
use super::table::{Station, Stop};
use indexmap::IndexSet;
use std::alloc::Global;
use std::marker::Model;

/// Names that differ, each with its position, from 0, found by a hash. Contracts see it as the list
/// of the names.
#[derive(Drop)]
pub struct NameIndex {
    ids: IndexSet<Vec<u8>, HashKey>,
}

impl Model for NameIndex {
    ghost use Rattle.std.specs.Prelude.{List, ℕ, map};
    ghost use Rattle.tb_base.specs.Distinct.{AreDistinct};

    ghost Value = { List (List ℕ) };

    ghost view = { λ a. map (λ v. v.items) a.ids.keys };

    ghost invariant = { λ a. AreDistinct (map (λ v. v.items) a.ids.keys) };
}

impl NameIndex {
    /// No name. What comes is hashed by the key.
    pub fn new(alloc: Global, key: HashKey) -> NameIndex
        ensures { result ≡ [] }
    {
        NameIndex {
            ids: IndexSet::with_hasher(alloc, key),
        }
    }

    /// The key by which names are hashed.
    pub fn key(&self) -> HashKey {
        *self.ids.hasher()
    }

    /// The names of stops.
    pub(crate) fn of_stops(alloc: Global, key: HashKey, stops: &[Stop]) -> Result<NameIndex, Memory>
        requires { AllPairs (λ m n. m ≢ n) (map (λ s. s.name) stops.now) }
        ensures { IfOk result (λ index. index ≡ map (λ s. s.name) stops.now) }
    {
        let mut index = NameIndex::new(alloc, key);
        for stop in stops {
            index.push(alloc, stop.name.bytes())?;
        }
        Ok(index)
    }

    /// The names of stations.
    pub(crate) fn of_stations(
        alloc: Global,
        key: HashKey,
        stations: &[Station],
    ) -> Result<NameIndex, Memory>
        requires { AllPairs (λ m n. m ≢ n) (map (λ s. s.name) stations.now) }
        ensures { IfOk result (λ index. index ≡ map (λ s. s.name) stations.now) }
    {
        let mut index = NameIndex::new(alloc, key);
        for station in stations {
            index.push(alloc, station.name.bytes())?;
        }
        Ok(index)
    }

    /// The position of a name. No memory is taken.
    pub fn find(&self, id: &[u8]) -> Option<usize>
        ensures { result ≡ position (bytes_eq id.now) self.now }
    {
        self.ids.get_index_of(id)
    }

    /// The same, where one position is looked at first: quicker where the name stands there.
    pub fn find_near(&self, guess: usize, id: &[u8]) -> Option<usize>
        ensures { result ≡ position (bytes_eq id.now) self.now }
    {
        match self.ids.get_index(guess) {
            Some(name) if id == name.as_slice() => Some(guess),
            _ => self.find(id),
        }
    }

    /// Whether a name is there. No memory is taken.
    pub fn contains(&self, id: &[u8]) -> bool
        ensures { result ≡ list_any (bytes_eq id.now) self.now }
    {
        self.ids.contains(id)
    }

    /// Adds a name at the end, unless it is there, and answers whether it was added.
    pub fn add(&mut self, alloc: Global, id: &[u8]) -> Result<bool, Memory>
        ensures members { OnOk result ((name : List ℕ) →
            list_any (bytes_eq name) self.new
            ≡ (list_any (bytes_eq name) self.old || bytes_eq name id.now)) }
        ensures added { IfOk result
            (λ fresh. MatchBool fresh (self.new ≡ self.old ++ id.now ∷ []) (self.new ≡ self.old)) }
        ensures fresh { IfOk result (λ fresh. fresh ≡ not (list_any (bytes_eq id.now) self.old)) }
        ensures memory { OnErr result (self.new ≡ self.old) }
    {
        let mut own: Vec<u8> = Vec::new(alloc);
        if own.extend_from_slice(id).is_err() {
            return Err(Memory);
        }
        self.insert(own)
    }

    // Adds a name at the end, unless it is there.
    fn insert(&mut self, id: Vec<u8>) -> Result<bool, Memory>
        ensures added { IfOk result
            (λ fresh.
            MatchBool fresh (self.new ≡ self.old ++ id.items ∷ []) (self.new ≡ self.old)) }
        ensures fresh { IfOk result (λ fresh. fresh ≡ not (list_any (bytes_eq id.items) self.old)) }
        ensures memory { OnErr result (self.new ≡ self.old) }
    {
        match self.ids.insert_full(id) {
            Ok((_, fresh)) => Ok(fresh),
            Err(_) => Err(Memory),
        }
    }

    // Adds a name that isn't there.
    fn push(&mut self, alloc: Global, name: &[u8]) -> Result<(), Memory>
        requires { list_any (bytes_eq name.now) self.old ≡ false }
        ensures { OnOk result (self.new ≡ self.old ++ name.now ∷ []) }
    {
        let _fresh = self.add(alloc, name)?;
        Ok(())
    }
}
