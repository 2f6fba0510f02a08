ghost use Rattle.std.specs.Prelude.{◌≡◌, ◌<◌, ◌++◌, ◌∷◌, [], Some, length, slice_get, slice_set};
ghost use Rattle.segment_queue.specs.Queue.{spent};

use super::desk::Desk;
use super::seen::Seen;

/// Events that a segment covers, to go on from later: the number of the segment, and the events,
/// which have been looked at.
#[derive(Drop)]
pub struct Note {
    pub segment: u32,
    pub seen: Seen,
}

impl Desk {
    /// Lets the notes go, and keeps all else.
    pub fn clear_notes(&mut self)
        ensures { self.new ≡ record self.old { notes = [] } }
    {
        self.notes.clear();
    }

    /// Appends a note.
    pub fn add_note(&mut self, note: Note)
        requires { length self.old.notes < self.old.note_room }
        ensures { self.new ≡ record self.old { notes = self.old.notes ++ note ∷ [] } }
    {
        self.notes.push_reserved(note);
    }

    /// How many notes there are.
    pub fn note_count(&self) -> usize
        ensures { result ≡ length self.now.notes }
    {
        self.notes.len()
    }

    /// Takes note `k`, and leaves one of no events in its place, by which nobody can go on.
    pub fn take_note(&mut self, k: usize) -> Note
        requires { k < length self.old.notes }
        ensures taken { slice_get self.old.notes k ≡ Some result }
        ensures spent { self.new
            ≡ record self.old { notes = slice_set self.old.notes k (spent result) } }
    {
        let note = &mut self.notes[k];
        Note {
            segment: note.segment,
            seen: note.seen.take(),
        }
    }
}
