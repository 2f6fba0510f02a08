ghost use Rattle.std.specs.Prelude.{◌≡◌, ◌<◌, ◌≤◌, ◌∷◌, [], ℕ, List, Option, None, All, IsSomeAnd, MatchBool, OnErr, OnOk, length, replicate, slice_index_or};
ghost use Rattle.tb_base.specs.Lines.{AreDividedInto};
ghost use Rattle.tb_base.specs.TimetableData.{events_of};
ghost use Rattle.segment_queue.specs.Levels.{EntersLevel, level_mark, with_level};
ghost use Rattle.segment_queue.specs.Queue.{IsFalling};

use super::desk::{lower_marks, mark_on};
use super::marks::Marks;
use super::scan::Scan;
use std::alloc::Global;
use std::marker::Model;
use tb_base::{Memory, TripNo};

/// Marks by the number of rides. Level 0 is for one ride; a level is made when a search first comes
/// to it.
#[derive(Drop)]
pub struct Levels {
    levels: Vec<Marks>,
}

impl Model for Levels {
    ghost use Rattle.std.specs.Prelude.{ℕ, List, Option};

    ghost Value = { List (List (Option ℕ)) };

    ghost view = { λ l. l.levels.items };
}

impl Levels {
    /// No level.
    pub fn new(alloc: Global) -> Levels
        ensures { result ≡ [] }
    {
        Levels {
            levels: Vec::new(alloc),
        }
    }

    /// How many levels there are.
    pub fn count(&self) -> usize
        ensures { result ≡ length self.now }
    {
        self.levels.len()
    }

    /// A first level without marks, with room for so many trips. At a refusal there is none.
    pub fn begin(&mut self, alloc: Global, trips: u32) -> Result<(), Memory>
        ensures begun { OnOk result (self.new ≡ replicate trips None ∷ []) }
        ensures refused { OnErr result (self.new ≡ []) }
    {
        self.levels.clear();
        self.levels.push(Marks::with_floors(alloc, trips, 0)?)?;
        Ok(())
    }

    /// A level more, with the marks of the last. At a refusal the levels are as before.
    pub fn make(&mut self, alloc: Global) -> Result<(), Memory>
        requires { 0 < length self.old }
        ensures made { OnOk result (self.new ≡ with_level self.old) }
        ensures refused { OnErr result (self.new ≡ self.old) }
    {
        let last = self.levels[self.levels.len() - 1].copy(alloc)?;
        self.levels.push(last)?;
        Ok(())
    }

    /// The mark of a trip at a level.
    pub fn mark<S: Scan>(&self, scan: &S, level: usize, trip: TripNo) -> u32
        requires level { level < length self.now }
        requires trip { trip < length (S.net scan.now).table.trips }
        requires room { length (S.net scan.now).table.trips
            ≤ length (slice_index_or self.now level []) }
        ensures { result ≡ level_mark (S.net scan.now).table self.now level trip }
    {
        mark_on(&self.levels[level], scan, trip)
    }

    /// Whether a trip has been reached at a level at an index or before: then to enter it there
    /// changes nothing. Of a trip without a mark it may say no although the index is its last.
    #[inline(always)]
    pub fn is_passed<S: Scan>(&self, scan: &S, level: usize, trip: TripNo, at: u32) -> bool
        requires level { level < length self.now }
        requires trip { trip < length (S.net scan.now).table.trips }
        requires room { length (S.net scan.now).table.trips
            ≤ length (slice_index_or self.now level []) }
        requires within { level_mark (S.net scan.now).table self.now level trip
            < length (events_of (S.net scan.now).table trip) }
        ensures { MatchBool result (level_mark (S.net scan.now).table self.now level trip ≤ at)
            (IsSomeAnd (slice_index_or (slice_index_or self.now level []) trip None)
            (λ m. m ≤ at) → ⊥) }
    {
        scan.soundness();
        self.levels[level].is_passed(trip, at)
    }

    /// Lowers the marks of a trip and of the later trips of its line to the index, at a level and
    /// at all higher ones, where they are greater.
    pub fn lower<S: Scan>(&mut self, scan: &S, level: usize, trip: TripNo, at: u32)
        requires trip { trip < length (S.net scan.now).table.trips }
        requires room { All (λ marks. length (S.net scan.now).table.trips ≤ length marks) self.old }
        requires divided { AreDividedInto (S.net scan.now).table (S.net scan.now).lines }
        requires falling { All (λ marks. All (IsFalling (S.net scan.now).table marks)
            (S.net scan.now).lines) self.old }
        ensures lowered { EntersLevel (S.net scan.now) level trip at self.old self.new }
        ensures room { All (λ marks. length (S.net scan.now).table.trips ≤ length marks) self.new }
        ensures falling { All (λ marks. All (IsFalling (S.net scan.now).table marks)
            (S.net scan.now).lines) self.new }
    {
        let last = scan.last_at(trip);
        let onward = scan.onward(trip);
        for k in level..self.levels.len() {
            lower_marks(&mut self.levels[k], scan, trip, onward, at, last);
        }
    }
}
