//! The search for the shortest chains from one stop.
ghost use Rattle.std.specs.Prelude.{◌≡◌, ◌<◌, ◌≤◌, ◌*◌, ◌∷◌, [], All, IfOk, IfSome, OnOk, None, length, slice_index, slice_index_or};
ghost use Rattle.std.specs.List.Sorted.{IsStrictlyIncreasing};
ghost use Rattle.tb_base.specs.Soundness.{IsSoundFootpaths};
ghost use Rattle.tb_base.specs.Walking.{change_between};
ghost use Rattle.foot_close.specs.Shortest.{closure_of};
ghost use Rattle.foot_close.specs.Searching.{mark, IsFresh, IsCovered, IsBounded, reached_count, own_row, leaving, IsRelaxed, IsGoneOn, AreShortest, reached_of};

use footpaths::Paths;
use std::alloc::Global;
use std::marker::Model;
use tb_base::{Memory, Path, StopNo};

/// A stop that chains lead to, with the least of their seconds.
#[derive(Debug, Clone, Copy, PartialEq, Eq)]
pub struct Reached {
    pub stop: StopNo,
    pub secs: u64,
}

// Whether so many seconds are less than a mark.
fn is_less(secs: u64, mark: Option<u64>) -> bool
    ensures { result ≡ Rattle.foot_close.specs.Searching.is_less secs mark }
{
    match mark {
        None => true,
        Some(held) => secs < held,
    }
}

// Whether a mark holds so many seconds.
fn is_held(secs: u64, mark: Option<u64>) -> bool
    ensures { result ≡ Rattle.foot_close.specs.Searching.is_held secs mark }
{
    match mark {
        None => false,
        Some(held) => held == secs,
    }
}

/// The least seconds so far to each stop, the stops that got them, and both in order; a stop stands
/// there once for each time that its seconds fell.
#[derive(Drop)]
pub struct ChainSearch {
    marks: Vec<Option<u64>>,
    lowered: Vec<u32>,
    waiting: Vec<Reached>,
}

impl Model for ChainSearch {
    ghost use Rattle.std.specs.Prelude.{◌<◌, All, length};
    ghost use Rattle.foot_close.specs.declared.search.Reached.{Reached};
    ghost use Rattle.foot_close.specs.Searching.{SearchData, IsCovered};

    ghost Value = { SearchData };

    ghost view = { λ s. record {
      marks = s.marks.items;
      lowered = s.lowered.items;
      waiting = s.waiting.items;
    } };

    ghost invariant = { λ s. IsCovered s.marks.items s.lowered.items
        × All (λ r. Reached.stop r < length s.marks.items) s.waiting.items };
}

impl ChainSearch {
    /// No stop is reached.
    pub fn new(alloc: Global, count: usize) -> Result<ChainSearch, Memory>
        ensures { IfOk result (λ search. IsFresh count search) }
    {
        let marks = vec![in alloc; None; count]?;
        Ok(ChainSearch {
            marks,
            lowered: Vec::new(alloc),
            waiting: Vec::new(alloc),
        })
    }

    // The seconds to a stop.
    fn mark(&self, stop: StopNo) -> Option<u64>
        requires { stop < length self.now.marks }
        ensures { result ≡ mark self.now.marks stop }
    {
        self.marks[stop.index()]
    }

    // Looks at a footpath that so many seconds lead up to.
    fn relax(&mut self, path: Path, secs: u64) -> Result<(), Memory>
        requires few { length self.old.marks ≤ 100000 }
        requires to { path.to < length self.old.marks }
        requires day { path.secs ≤ 86400 }
        requires bounded { IsBounded self.old.marks }
        requires secs { secs ≤ 86400 * reached_count self.old.marks }
        ensures { OnOk result (IsRelaxed (path ∷ []) secs self.old self.new) }
    {
        let at = path.to.index();
        let total = secs + path.secs as u64;
        if is_less(total, self.marks[at]) {
            self.lowered.push(at as u32)?;
            self.waiting.push(Reached {
                stop: path.to,
                secs: total,
            })?;
            self.marks[at] = Some(total);
        }
        Ok(())
    }

    // Looks at the footpaths of a row that so many seconds lead up to.
    fn relax_all(&mut self, row: &[Path], secs: u64) -> Result<(), Memory>
        requires few { length self.old.marks ≤ 100000 }
        requires to { All (λ f. f.to < length self.old.marks) row.now }
        requires day { All (λ f. f.secs ≤ 86400) row.now }
        requires bounded { IsBounded self.old.marks }
        requires secs { secs ≤ 86400 * reached_count self.old.marks }
        ensures { OnOk result (IsRelaxed row.now secs self.old self.new) }
    {
        for path in row {
            self.relax(*path, secs)?;
        }
        Ok(())
    }

    // Looks at the change within a stop that so many seconds lead up to.
    fn relax_own(&mut self, stop: StopNo, own: Option<u32>, secs: u64) -> Result<(), Memory>
        requires few { length self.old.marks ≤ 100000 }
        requires stop { stop < length self.old.marks }
        requires day { IfSome own (λ s. s ≤ 86400) }
        requires bounded { IsBounded self.old.marks }
        requires secs { secs ≤ 86400 * reached_count self.old.marks }
        ensures { OnOk result (IsRelaxed (own_row stop own) secs self.old self.new) }
    {
        match own {
            Some(own) => self.relax(
                Path {
                    to: stop,
                    secs: own,
                },
                secs,
            ),
            None => Ok(()),
        }
    }

    // Looks at the changes from a stop, its own among them, where so many seconds lead up to it.
    fn relax_from(&mut self, paths: &Paths, from: StopNo, secs: u64) -> Result<(), Memory>
        requires sound { IsSoundFootpaths paths.now }
        requires from { from < length paths.now.change }
        requires many { length self.old.marks ≡ length paths.now.change }
        requires bounded { IsBounded self.old.marks }
        requires secs { secs ≤ 86400 * reached_count self.old.marks }
        ensures { OnOk result (IsRelaxed (leaving paths.now from) secs self.old self.new) }
    {
        self.relax_own(from, paths.change_time(from), secs)?;
        self.relax_all(paths.leaving(from), secs)?;
        Ok(())
    }

    // How often a stop's seconds fell.
    fn lowered_count(&self) -> usize
        ensures { result ≡ length self.now.lowered }
    {
        self.lowered.len()
    }

    // The stop whose seconds fell at a place in their order.
    fn lowered_at(&self, at: usize) -> StopNo
        requires { at < length self.now.lowered }
        ensures place { result ≡ slice_index self.now.lowered at }
        ensures within { result < length self.now.marks }
    {
        StopNo(self.lowered[at])
    }

    // How many stops wait or waited.
    fn waiting_count(&self) -> usize
        ensures { result ≡ length self.now.waiting }
    {
        self.waiting.len()
    }

    // A stop that waits, by its place in their order.
    fn waiting_at(&self, at: usize) -> Reached
        requires { at < length self.now.waiting }
        ensures place { result ≡ slice_index_or self.now.waiting at result }
        ensures within { result.stop < length self.now.marks }
    {
        self.waiting[at]
    }

    // Goes on from a stop, where its seconds are still its least.
    fn go_on(&mut self, paths: &Paths, reached: Reached) -> Result<(), Memory>
        requires sound { IsSoundFootpaths paths.now }
        requires stop { reached.stop < length paths.now.change }
        requires many { length self.old.marks ≡ length paths.now.change }
        requires bounded { IsBounded self.old.marks }
        ensures { OnOk result (IsGoneOn paths.now reached self.old self.new) }
    {
        if is_held(reached.secs, self.mark(reached.stop)) {
            self.relax_from(paths, reached.stop, reached.secs)?;
        }
        Ok(())
    }

    // The shortest chains from a stop.
    fn run(&mut self, paths: &Paths, from: StopNo) -> Result<(), Memory>
        requires sound { IsSoundFootpaths paths.now }
        requires from { from < length paths.now.change }
        requires fresh { IsFresh (length paths.now.change) self.old }
        ensures many { OnOk result (length self.new.marks ≡ length paths.now.change) }
        ensures shortest { OnOk result
            (AreShortest (change_between paths.now) from self.new.marks) }
    {
        self.relax_from(paths, from, 0)?;
        let mut next: usize = 0;
        while next < self.waiting_count() {
            let reached = self.waiting_at(next);
            next += 1;
            self.go_on(paths, reached)?;
        }
        Ok(())
    }

    // Puts the stops that were reached in order.
    fn sort(&mut self)
        ensures marks { self.new.marks ≡ self.old.marks }
        ensures covered { IsCovered self.new.marks self.new.lowered }
        ensures ascending { IsStrictlyIncreasing self.new.lowered }
    {
        self.lowered.sort_unstable();
        self.lowered.dedup();
    }

    // The stops that were reached, where they stand in order.
    fn reached(&self, alloc: Global) -> Result<Vec<Reached>, Memory>
        requires covered { IsCovered self.now.marks self.now.lowered }
        requires ascending { IsStrictlyIncreasing self.now.lowered }
        ensures { IfOk result (λ reached. reached.items
            ≡ reached_of (length self.now.marks) (mark self.now.marks)) }
    {
        let mut reached = Vec::new(alloc);
        for place in 0..self.lowered_count() {
            let stop = self.lowered_at(place);
            if let Some(secs) = self.mark(stop) {
                reached.push(Reached { stop, secs })?;
            }
        }
        Ok(reached)
    }

    // No stop is reached any more.
    fn clear(&mut self)
        ensures { IsFresh (length self.old.marks) self.new }
    {
        self.waiting.clear();
        while let Some(stop) = self.lowered.pop() {
            self.marks[stop as usize] = None;
        }
    }

    /// The stops that chains lead to from a stop, in order of their numbers, each with the least
    /// seconds. Only what is reached is touched.
    pub fn reach_from(
        &mut self,
        alloc: Global,
        paths: &Paths,
        from: StopNo,
    ) -> Result<Vec<Reached>, Memory>
        requires sound { IsSoundFootpaths paths.now }
        requires from { from < length paths.now.change }
        requires fresh { IsFresh (length paths.now.change) self.old }
        ensures fresh { OnOk result (IsFresh (length paths.now.change) self.new) }
        ensures reached { IfOk result (λ reached. reached.items
            ≡ reached_of (length paths.now.change) (closure_of paths.now from)) }
    {
        self.run(paths, from)?;
        self.sort();
        let reached = self.reached(alloc)?;
        self.clear();
        Ok(reached)
    }
}
