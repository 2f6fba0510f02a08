ghost use Rattle.std.specs.Prelude.{◌≡◌, ◌-◌, ◌≤◌, All, length};
ghost use Rattle.std.specs.List.{AllWithin};
ghost use Rattle.segment_queue.specs.Clipped.{AreClipped};
ghost use Rattle.segment_queue.specs.Queue.{IsInStep, IsSoundSegment};
ghost use Rattle.segment_queue.specs.Scans.{AreEvents};

use super::desk::Desk;
use super::notes::Note;
use super::scan::Scan;
use transfer_pack::ReadAhead;

// How many segments, or notes, are read ahead at a time: so few that what was read is still at hand
// when it is looked at.
const STRETCH: u32 = 128;

/// What was read of a network ahead. Only a desk makes one, so only what stands in its queue and in
/// its notes is read ahead.
#[derive(Drop)]
pub struct Ahead {
    pub(crate) read: ReadAhead,
}

impl Ahead {
    // Nothing yet.
    pub(crate) fn new() -> Ahead {
        Ahead {
            read: ReadAhead::new(),
        }
    }

    // What another has read.
    fn join(&mut self, other: Ahead) {
        self.read.join(other.read);
    }
}

// Reads the first and the last of the hops from the events of each of these notes ahead.
fn read_hops<S: Scan>(scan: &S, notes: &[Note]) -> Ahead
    requires { All (λ note. AreEvents (S.net scan.now).table note.seen) notes.now }
{
    let mut ahead = Ahead::new();
    for note in notes {
        scan.read_hops_ahead(&note.seen, &mut ahead);
    }
    ahead
}

// Whether a stretch begins at number `n`, where the first one begins at `begin`.
#[inline(always)]
fn begins_stretch(begin: u32, n: u32) -> bool
    requires { begin ≤ n }
{
    (n - begin) % STRETCH == 0
}

// Where the stretch that begins at number `n` ends: at `to` at the latest.
fn stretch_end(n: u32, to: u32) -> u32
    ensures { result ≤ to }
{
    to.min(n.saturating_add(STRETCH))
}

impl Desk {
    // Writes down up to which index each of these segments has to be looked at.
    fn clip<S: Scan>(&self, scan: &S, from: u32, to: u32, ends: &mut [u32])
        requires step { IsInStep (S.net scan.now) self.now }
        requires from { from ≤ to }
        requires to { to ≤ length self.now.segments }
        requires room { to - from ≤ length ends.old }
        ensures long { length ends.new ≡ length ends.old }
        ensures clipped { AreClipped (S.net scan.now) self.now.marks self.now.segments from to
            ends.new }
    {
        for n in from..to {
            let end = self.clipped_end(scan, &self.segments[n as usize]);
            ends[(n - from) as usize] = end;
        }
    }

    // Reads the first event that each of these segments covers ahead.
    fn read_events<S: Scan>(&self, scan: &S, from: u32, to: u32) -> Ahead
        requires sound { All (IsSoundSegment (S.net scan.now).table) self.now.segments }
        requires to { to ≤ length self.now.segments }
    {
        let mut ahead = Ahead::new();
        for n in from..to {
            let segment = self.segments[n as usize];
            scan.read_event_ahead(segment.trip, segment.board + 1, &mut ahead);
        }
        ahead
    }

    // Reads hops from the first event that each of these segments covers ahead.
    fn read_first_hops<S: Scan>(&self, scan: &S, from: u32, to: u32) -> Ahead
        requires sound { All (IsSoundSegment (S.net scan.now).table) self.now.segments }
        requires to { to ≤ length self.now.segments }
    {
        let mut ahead = Ahead::new();
        for n in from..to {
            let segment = self.segments[n as usize];
            scan.read_event_hops_ahead(segment.trip, segment.board + 1, &mut ahead);
        }
        ahead
    }

    /// Before segments of a round are looked at: writes down up to which index each of them has to
    /// be looked at, and reads the first event that it covers ahead. They should be so few that
    /// what was read is still at hand when it is looked at.
    #[inline(never)]
    pub fn clip_ahead<S: Scan>(&mut self, scan: &S, from: u32, to: u32, ends: &mut [u32])
        requires step { IsInStep (S.net scan.now) self.old }
        requires from { from ≤ to }
        requires to { to ≤ length self.old.segments }
        requires room { to - from ≤ length ends.old }
        ensures same { self.new ≡ self.old }
        ensures long { length ends.new ≡ length ends.old }
        ensures clipped { AreClipped (S.net scan.now) self.old.marks self.old.segments from to
            ends.new }
    {
        self.clip(scan, from, to, ends);
        let events = self.read_events(scan, from, to);
        self.ahead.join(events);
    }

    // Reads ahead the first event that each segment of the stretch that begins here covers, and hops
    // from there.
    #[inline(never)]
    fn read_level_stretch<S: Scan>(&mut self, scan: &S, n: u32, to: u32)
        requires sound { All (IsSoundSegment (S.net scan.now).table) self.old.segments }
        requires to { to ≤ length self.old.segments }
        ensures { self.new ≡ self.old }
    {
        let end = stretch_end(n, to);
        let events = self.read_events(scan, n, end);
        self.ahead.join(events);
        let hops = self.read_first_hops(scan, n, end);
        self.ahead.join(hops);
    }

    /// Before segment `n` of a round of a sweep is looked at: at the first segment of each stretch
    /// of 128, counted from where the round begins, reads ahead the first event that each segment
    /// of the stretch covers, up to number `to`, and hops from there. At any other segment it does
    /// nothing.
    #[inline(always)]
    pub fn read_level_ahead<S: Scan>(&mut self, scan: &S, begin: u32, n: u32, to: u32)
        requires sound { All (IsSoundSegment (S.net scan.now).table) self.old.segments }
        requires begin { begin ≤ n }
        requires to { to ≤ length self.old.segments }
        ensures { self.new ≡ self.old }
    {
        if begins_stretch(begin, n) {
            self.read_level_stretch(scan, n, to);
        }
    }

    // Reads the hops of the notes of the stretch that begins here ahead.
    #[inline(never)]
    fn read_notes_stretch<S: Scan>(&mut self, scan: &S, k: usize)
        requires { AllWithin (λ note. AreEvents (S.net scan.now).table note.seen) self.old.notes
            k (length self.old.notes) }
        ensures { self.new ≡ self.old }
    {
        let notes = self.notes.as_slice();
        let from = k.min(notes.len());
        let end = notes.len().min(k.saturating_add(STRETCH as usize));
        let ahead = read_hops(scan, &notes[from..end]);
        self.ahead.join(ahead);
    }

    /// Before note `k` is followed: at the first note of each stretch of 128 reads ahead the first
    /// and the last hop of each note of the stretch. At any other note it does nothing.
    #[inline(always)]
    pub fn read_notes_ahead<S: Scan>(&mut self, scan: &S, k: usize)
        requires { AllWithin (λ note. AreEvents (S.net scan.now).table note.seen) self.old.notes
            k (length self.old.notes) }
        ensures { self.new ≡ self.old }
    {
        if k % STRETCH as usize == 0 {
            self.read_notes_stretch(scan, k);
        }
    }
}
