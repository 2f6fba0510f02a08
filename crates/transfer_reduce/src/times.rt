//! For each stop a time.
ghost use Rattle.std.specs.Prelude.{◌≡◌, ◌<◌, ◌≤◌, ◌+◌, ◌↔◌, ◌⊎◌, ◌≤ℤ◌, ◌+ℤ◌, ℕ, ℤ, pos, negsuc, All, IfOk, None, Some, length, replicate, slice_index_or};
ghost use Rattle.std.specs.Option.{option_map};
ghost use Rattle.tb_base.specs.Transfers.{is_sooner};
ghost use Rattle.transfer_reduce.specs.Reached.{IsBy};

use std::alloc::Global;
use std::marker::Model;
use tb_base::{Memory, Sec, StopNo};

// How many times there are, from a day before the service day to its hundredth hour.
const TIMES: u32 = 446_400;

// The word of a stop at which no time was written. A day of seconds can be added to it.
const UNWRITTEN: u32 = 4_294_880_895;

// The first floor.
const HIGHEST: u32 = UNWRITTEN - TIMES;

/// For each stop a time, if any was offered there, all of them forgotten at once.
///
/// A stop's word is the floor of the trip that wrote it, and the seconds of the time above the
/// least one. Each trip's floor lies by as much below the one before as there are times, so that
/// the words of earlier trips lie above all of its own.
#[derive(Drop)]
pub(crate) struct Times {
    words: Vec<u32>,
    floor: u32,
}

impl Model for Times {
    ghost use Rattle.std.specs.Prelude.{List, Option, ℤ, map, All, ◌≤◌, ◌+◌};
    ghost use Rattle.std.specs.Coded.{coded_list, coded_option, coded_ℤ};
    ghost use Rattle.transfer_reduce.specs.Words.{IsWord, time_in};

    ghost Value = { List (Option ℤ) };

    ghost view = { λ t. map (time_in t.floor) t.words.items };

    ghost invariant = { λ t. (t.floor + 446400 ≤ 4294880895)
        × All (IsWord t.floor) t.words.items };
}

// The word of a time above a floor.
#[inline(always)]
fn word_of(floor: u32, time: Sec) -> u32
    requires floor { floor + 446400 ≤ 4294880895 }
    requires earliest { negsuc 86399 ≤ℤ time }
    requires latest { time ≤ℤ pos 359999 }
    ensures word { pos result ≡ (pos floor +ℤ time) +ℤ pos 86400 }
    ensures above { floor ≤ result }
    ensures below { result < floor + 446400 }
{
    floor + (time + 86_400) as u32
}

// Forgets what was written.
fn wipe(words: &mut [u32])
    ensures { All (λ w. w ≡ 4294880895) words.new }
{
    for word in words.iter_mut() {
        *word = UNWRITTEN;
    }
}

impl Times {
    /// Room for so many stops, with no time at any.
    pub(crate) fn new(alloc: Global, stops: u32) -> Result<Times, Memory>
        ensures { IfOk result (λ times. times ≡ replicate stops None) }
    {
        let mut words = Vec::new(alloc);
        words.resize(stops as usize, UNWRITTEN)?;
        Ok(Times {
            words,
            floor: HIGHEST,
        })
    }

    /// Forgets all times.
    pub(crate) fn clear(&mut self)
        ensures { self.new ≡ replicate (length self.old) None }
    {
        if TIMES <= self.floor {
            self.floor -= TIMES;
        } else {
            wipe(self.words.as_mut_slice());
            self.floor = HIGHEST;
        }
    }

    /// Whether a time is sooner than so many seconds after that of a stop, if it has one.
    #[inline(always)]
    pub(crate) fn is_sooner(&self, time: Sec, stop: StopNo, secs: u32) -> bool
        requires stop { stop < length self.now }
        requires earliest { negsuc 86399 ≤ℤ time }
        requires latest { time ≤ℤ pos 359999 }
        requires secs { secs ≤ 86400 }
        ensures { result ≡ is_sooner (Some time)
            (option_map (λ t. t +ℤ pos secs) (slice_index_or self.now stop None)) }
    {
        word_of(self.floor, time) < self.words[stop.index()] + secs
    }

    /// Lowers the time of a stop to this one, where it is sooner.
    #[inline(always)]
    pub(crate) fn lower(&mut self, stop: StopNo, time: Sec)
        requires stop { stop < length self.old }
        requires earliest { negsuc 86399 ≤ℤ time }
        requires latest { time ≤ℤ pos 359999 }
        ensures length { length self.new ≡ length self.old }
        ensures times { (p : ℕ) (x : ℤ) →
            IsBy self.new p x ↔ (IsBy self.old p x ⊎ ((stop ≡ p) × (time ≤ℤ x))) }
    {
        let word = word_of(self.floor, time);
        let before = self.words[stop.index()];
        self.words[stop.index()] = word.min(before);
    }
}
