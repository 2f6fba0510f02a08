//! The places of each key in a list of keys, in linear time.
ghost use Rattle.std.specs.Prelude.{◌≡◌, ◌<◌, ◌+◌, ◌^◌, ◌++◌, ◌∷◌, [], ℕ, List, IfOk, OnOk, OnErr, length, map, replicate, set, get_or, slice_index};
ghost use Rattle.tb_base.specs.KeyPlaces.{places_of};

use super::memory::Memory;
use std::alloc::Global;
use std::marker::Model;

/// For each key the places that have it, from 0, in order. Contracts see it as the list of these
/// lists.
#[derive(Debug, Drop)]
pub struct Groups {
    rows: Vec<Vec<u32>>,
}

impl Model for Groups {
    ghost Value = { List (List ℕ) };

    ghost view = { λ p. map (λ v. v.items) p.rows.items };
}

impl Groups {
    // No place for any of so many keys.
    fn new(alloc: Global, keys: usize) -> Result<Groups, Memory>
        ensures { IfOk result (λ p. p ≡ replicate keys []) }
    {
        let mut rows: Vec<Vec<u32>> = Vec::new(alloc);
        for _key in 0..keys {
            if rows.push(Vec::new(alloc)).is_err() {
                return Err(Memory);
            }
        }
        Ok(Groups { rows })
    }

    // Adds a place to a key.
    fn add(&mut self, key: usize, place: u32) -> Result<(), Memory>
        requires { key < length self.old }
        ensures added { OnOk result
            (self.new ≡ set self.old key (get_or self.old key [] ++ place ∷ [])) }
        ensures memory { OnErr result (self.new ≡ self.old) }
    {
        let row = &mut self.rows[key];
        match row.push(place) {
            Ok(()) => Ok(()),
            Err(_) => Err(Memory),
        }
    }

    /// The places with a key, in order.
    pub fn of(&self, key: usize) -> &[u32]
        requires { key < length self.now }
        ensures { result.now ≡ get_or self.now key [] }
    {
        self.rows[key].as_slice()
    }

    /// The places of each of so many keys.
    pub fn by_key(alloc: Global, keys: &[u32], count: usize) -> Result<Groups, Memory>
        requires keys { (i : ℕ) → i < length keys.now → slice_index keys.now i < count }
        requires fits { length keys.now < 2 ^ 32 }
        ensures length { IfOk result (λ g. length g ≡ count) }
        ensures places { IfOk result
            (λ g. (key : ℕ) → key < count → get_or g key [] ≡ places_of keys.now key) }
    {
        let mut groups = Groups::new(alloc, count)?;
        for i in 0..keys.len() {
            let Ok(()) = groups.add(keys[i] as usize, i as u32) else {
                return Err(Memory);
            };
        }
        Ok(groups)
    }
}
