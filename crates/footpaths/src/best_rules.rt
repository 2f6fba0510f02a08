//! The best ranked rule so far at each stop from which one stop can be reached.
ghost use Rattle.std.specs.Prelude.{◌≡◌, ◌≢◌, ◌==◌, ◌<◌, ℕ, IfOk, OnOk, IfSome, IfNone, length, replicate, set, None, Some, All, AllPairs};
ghost use Rattle.std.specs.List.{list_any};
ghost use Rattle.footpaths.specs.BestRules.{better, more_secs, slot, marked};

use std::alloc::Global;
use std::marker::Model;
use tb_base::Memory;

/// What a rank says of a way: its seconds, or None where it is forbidden.
#[derive(Debug, Clone, Copy, PartialEq, Eq)]
pub struct RankedRule {
    pub rank: u8,
    pub secs: Option<u32>,
}

fn more_secs(a: Option<u32>, b: Option<u32>) -> Option<u32>
    ensures { result ≡ more_secs a b }
{
    match (a, b) {
        (Some(a), Some(b)) => Some(a.max(b)),
        _ => None,
    }
}

fn better(held: Option<RankedRule>, rank: u8, secs: Option<u32>) -> RankedRule
    ensures { result ≡ better held rank secs }
{
    match held {
        None => RankedRule { rank, secs },
        Some(held) => {
            if rank < held.rank {
                RankedRule { rank, secs }
            } else if held.rank == rank {
                RankedRule {
                    rank,
                    secs: more_secs(held.secs, secs),
                }
            } else {
                held
            }
        }
    }
}

/// For each stop a ranked rule, or none.
#[derive(Drop)]
pub struct BestRules {
    slots: Vec<Option<RankedRule>>,
    touched: Vec<u32>,
}

impl Model for BestRules {
    ghost use Rattle.std.specs.Prelude.{List, Option};
    ghost use Rattle.footpaths.specs.declared.best_rules.RankedRule.{RankedRule};
    ghost use Rattle.footpaths.specs.BestRules.{IsCovered};

    ghost Value = { List (Option RankedRule) };

    ghost view = { λ m. m.slots.items };

    ghost invariant = { λ m. IsCovered m.slots.items m.touched.items };
}

impl BestRules {
    /// No ranked rule at any of so many stops.
    pub fn new(alloc: Global, count: usize) -> Result<BestRules, Memory>
        ensures { IfOk result (λ marks. marks ≡ replicate count None) }
    {
        let slots = vec![in alloc; None; count]?;
        Ok(BestRules {
            slots,
            touched: Vec::new(alloc),
        })
    }

    /// One ranked rule more at a stop.
    pub fn mark(&mut self, stop: u32, rank: u8, secs: Option<u32>) -> Result<(), Memory>
        requires { stop < length self.old }
        ensures { OnOk result
            (self.new ≡ set self.old stop (Some (better (slot self.old stop) rank secs))) }
    {
        self.touched.push(stop)?;
        let at = stop as usize;
        self.slots[at] = Some(better(self.slots[at], rank, secs));
        Ok(())
    }

    /// One ranked rule more at each of some stops.
    pub fn mark_all(&mut self, stops: &[u32], rank: u8, secs: Option<u32>) -> Result<(), Memory>
        requires within { All (λ p. p < length self.old) stops.now }
        requires distinct { AllPairs (λ p q. p ≢ q) stops.now }
        ensures length { OnOk result (length self.new ≡ length self.old) }
        ensures marked { OnOk result ((p : ℕ) →
            slot self.new p
            ≡ marked (list_any (λ m. m == p) stops.now) (slot self.old p) rank secs) }
    {
        for stop in stops {
            self.mark(*stop, rank, secs)?;
        }
        Ok(())
    }

    /// The ranked rule at a stop, which then has none.
    pub fn take(&mut self, stop: u32) -> Option<RankedRule>
        requires { stop < length self.old }
        ensures ranked { result ≡ slot self.old stop }
        ensures rest { self.new ≡ set self.old stop None }
    {
        let at = stop as usize;
        let held = self.slots[at];
        self.slots[at] = None;
        held
    }

    /// Some stop that has a ranked rule, which then has none; None exactly where no stop has one.
    pub fn pop(&mut self) -> Option<(u32, RankedRule)>
        ensures stop { IfSome result (λ m. m.0 < length self.old) }
        ensures ranked { IfSome result (λ m. slot self.old m.0 ≡ Some m.1) }
        ensures rest { IfSome result (λ m. self.new ≡ set self.old m.0 None) }
        ensures none { IfNone result ((p : ℕ) → slot self.old p ≡ None) }
        ensures same { IfNone result (self.new ≡ self.old) }
    {
        while let Some(stop) = self.touched.pop() {
            let at = stop as usize;
            if let Some(ranked) = self.slots[at] {
                self.slots[at] = None;
                return Some((stop, ranked));
            }
        }
        None
    }
}
