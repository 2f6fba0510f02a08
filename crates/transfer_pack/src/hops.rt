ghost use Rattle.std.specs.Prelude.{◌≡◌, ◌+◌, ◌-◌, ◌<◌, ◌≤◌, ◌++◌, ◌∷◌, [], Some, IfOk, IsTrue, ◌↔◌, OnOk, drop, length, map, slice_get, take};
ghost use Rattle.std.specs.Bool.{OnFalse, OnTrue};
ghost use Rattle.transfer_pack.specs.Words.{IsShortHop, Takes, hop_in, hops_held, lent};

use super::ahead::ReadAhead;
use std::alloc::Global;
use std::marker::Model;
use tb_base::{Hop, Memory, TripNo};

// How many trips and how many indices the hops of one word have.
const SHORT_TRIPS: u32 = 4_194_304;

const SHORT_INDICES: u32 = 1024;

// Whether a hop fits one word.
fn is_short(hop: &Hop) -> bool
    ensures { IsTrue result ↔ IsShortHop hop.now }
{
    hop.trip.0 < SHORT_TRIPS && hop.at < SHORT_INDICES
}

// The word of a hop.
fn word_of(hop: &Hop) -> u32
    requires { IsShortHop hop.now }
    ensures { hop_in result ≡ hop.now }
{
    hop.trip.0 * SHORT_INDICES + hop.at
}

// The hop of a word.
#[inline(always)]
fn hop_in(word: u32) -> Hop
    ensures { result ≡ hop_in word }
{
    Hop {
        trip: TripNo(word / SHORT_INDICES),
        at: word % SHORT_INDICES,
    }
}

// The hop of the word at a place.
#[inline(always)]
fn short_at(words: &[u32], place: usize) -> Hop
    requires { place < length words.now }
    ensures { slice_get (map hop_in words.now) place ≡ Some result }
{
    hop_in(words[place])
}

// The hop at a place.
#[inline(always)]
fn long_at(hops: &[Hop], place: usize) -> Hop
    requires { place < length hops.now }
    ensures { slice_get hops.now place ≡ Some result }
{
    hops[place]
}

// The items from one place up to another.
#[inline(always)]
pub(crate) fn part<T>(items: &[T], from: usize, to: usize) -> &[T]
    requires from { from ≤ to }
    requires to { to ≤ length items.now }
    ensures { result.now ≡ take (to - from) (drop from items.now) }
{
    &items[from..to]
}

/// Hops in order, as a set lends them: in one word each, where all of the set's are of trips below
/// 4,194,304 and of indices below 1,024, and in two else.
#[derive(Clone, Copy)]
pub struct Hops<'a> {
    hops: Lent<'a>,
}

// Hops that are lent.
#[derive(Clone, Copy)]
enum Lent<'a> {
    Short(&'a [u32]),
    Long(&'a [Hop]),
}

impl<'a> Hops<'a> {
    /// The hops of a slice.
    pub fn of(hops: &'a [Hop]) -> Hops<'a>
        ensures { lent result ≡ hops.now }
    {
        Hops {
            hops: Lent::Long(hops),
        }
    }

    /// How many there are.
    pub fn count(&self) -> usize
        ensures { result ≡ length (lent self.now) }
    {
        match self.hops {
            Lent::Short(words) => words.len(),
            Lent::Long(hops) => hops.len(),
        }
    }

    /// The hop at a place.
    #[inline(always)]
    pub fn at(&self, place: usize) -> Hop
        requires { place < length (lent self.now) }
        ensures { slice_get (lent self.now) place ≡ Some result }
    {
        match self.hops {
            Lent::Short(words) => short_at(words, place),
            Lent::Long(hops) => long_at(hops, place),
        }
    }
}

/// Hops in order, as a set holds them.
#[derive(Drop)]
pub(crate) struct HopList {
    hops: Held,
}

// Hops that are held.
#[derive(Drop)]
enum Held {
    Short(Vec<u32>),
    Long(Vec<Hop>),
}

impl Model for HopList {
    ghost use Rattle.std.specs.Prelude.{List};
    ghost use Rattle.tb_base.specs.declared.transfer.Hop.{Hop};
    ghost use Rattle.transfer_pack.specs.Words.{hops_held};

    ghost Value = { List Hop };

    ghost view = { λ h. hops_held h.hops };
}

// The hops of words.
fn lengthened(alloc: Global, words: &[u32]) -> Result<Vec<Hop>, Memory>
    ensures { IfOk result (λ hops. hops.items ≡ map hop_in words.now) }
{
    let mut hops = Vec::new(alloc);
    for word in words {
        hops.push(hop_in(*word))?;
    }
    Ok(hops)
}

impl Held {
    // Goes over to two words a hop where one isn't enough for this one.
    fn widen_for(&mut self, alloc: Global, hop: &Hop) -> Result<(), Memory>
        ensures takes { OnOk result (Takes self.new hop.now) }
        ensures hops { OnOk result (hops_held self.new ≡ hops_held self.old) }
    {
        if let Held::Short(words) = self {
            if !is_short(hop) {
                let hops = lengthened(alloc, words.as_slice())?;
                *self = Held::Long(hops);
            }
        }
        Ok(())
    }

    // Appends hops that are lent in words, if it holds words too; tells whether it does.
    fn append_words(&mut self, more: &Hops<'_>) -> Result<bool, Memory>
        ensures appended { IfOk result (λ done. OnTrue done
            (hops_held self.new ≡ hops_held self.old ++ lent more.now)) }
        ensures same { IfOk result
            (λ done. OnFalse done (hops_held self.new ≡ hops_held self.old)) }
    {
        let Lent::Short(others) = more.hops else {
            return Ok(false);
        };
        let Held::Short(words) = self else {
            return Ok(false);
        };
        words.extend_from_slice(others)?;
        Ok(true)
    }

    // Appends a hop that the words are wide enough for.
    fn push(&mut self, hop: &Hop) -> Result<(), Memory>
        requires { Takes self.old hop.now }
        ensures { OnOk result (hops_held self.new ≡ hops_held self.old ++ hop.now ∷ []) }
    {
        match self {
            Held::Short(words) => words.push(word_of(hop))?,
            Held::Long(hops) => hops.push(*hop)?,
        }
        Ok(())
    }
}

impl HopList {
    // No hops.
    pub(crate) fn new(alloc: Global) -> HopList
        ensures { result ≡ [] }
    {
        HopList {
            hops: Held::Short(Vec::new(alloc)),
        }
    }

    // How many there are.
    pub(crate) fn count(&self) -> usize
        ensures { result ≡ length self.now }
    {
        self.all().count()
    }

    // All of them.
    #[inline(always)]
    pub(crate) fn all(&self) -> Hops<'_>
        ensures { lent result ≡ self.now }
    {
        let hops = match &self.hops {
            Held::Short(words) => Lent::Short(words.as_slice()),
            Held::Long(hops) => Lent::Long(hops.as_slice()),
        };
        Hops { hops }
    }

    // Those from one place up to another.
    #[inline(always)]
    pub(crate) fn run(&self, from: usize, to: usize) -> Hops<'_>
        requires from { from ≤ to }
        requires to { to ≤ length self.now }
        ensures { lent result ≡ take (to - from) (drop from self.now) }
    {
        let hops = match &self.hops {
            Held::Short(words) => Lent::Short(part(words.as_slice(), from, to)),
            Held::Long(hops) => Lent::Long(part(hops.as_slice(), from, to)),
        };
        Hops { hops }
    }

    // Appends a hop.
    pub(crate) fn push(&mut self, alloc: Global, hop: Hop) -> Result<(), Memory>
        ensures { OnOk result (self.new ≡ self.old ++ hop ∷ []) }
    {
        self.hops.widen_for(alloc, &hop)?;
        self.hops.push(&hop)
    }

    // Appends hops that are lent, one by one.
    fn append_each(&mut self, alloc: Global, more: &Hops<'_>) -> Result<(), Memory>
        ensures { OnOk result (self.new ≡ self.old ++ lent more.now) }
    {
        for place in 0..more.count() {
            self.push(alloc, more.at(place))?;
        }
        Ok(())
    }

    // Appends hops that are lent.
    pub(crate) fn append(&mut self, alloc: Global, more: &Hops<'_>) -> Result<(), Memory>
        ensures { OnOk result (self.new ≡ self.old ++ lent more.now) }
    {
        if self.hops.append_words(more)? {
            return Ok(());
        }
        self.append_each(alloc, more)
    }

    // Reads a hop ahead, where there is one at this place.
    #[inline(always)]
    pub(crate) fn read_ahead(&self, place: usize, ahead: &mut ReadAhead) {
        match &self.hops {
            Held::Short(words) => {
                if let Some(word) = words.get(place) {
                    ahead.take(*word);
                }
            }
            Held::Long(hops) => {
                if let Some(hop) = hops.get(place) {
                    ahead.take(hop.at);
                }
            }
        }
    }
}
