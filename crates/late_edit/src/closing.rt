//! Events at which nobody boards or alights.
ghost use Rattle.std.specs.Prelude.{◌≡◌, Err, IfErr, MatchResult, Ok, OnErr, map};
ghost use Rattle.late_edit.specs.Amended.{closed, events_skipped};
ghost use Rattle.late_edit.specs.Updates.{IsOfUpdate};

use crate::late::{LateFault, Skip};
use tb_base::Event;

// An event without its marks.
fn closed(event: &Event) -> Event
    ensures { result ≡ closed event.now }
{
    Event {
        stop: event.stop,
        arr: event.arr,
        dep: event.dep,
        board: false,
        alight: false,
    }
}

/// Closes all events of a trip that is cancelled.
pub(crate) fn close_all(events: &mut [Event])
    ensures { events.new ≡ map closed events.old }
{
    for event in events.iter_mut() {
        *event = closed(event);
    }
}

/// Closes the event of a trip that is skipped, or tells that there is none.
pub(crate) fn close_skipped(events: &mut [Event], skip: &Skip) -> Result<(), LateFault>
    ensures closed { MatchResult result (λ _. events_skipped skip.now events.old ≡ Ok events.new)
        (λ f. events_skipped skip.now events.old ≡ Err f) }
    ensures own { IfErr result IsOfUpdate }
    ensures unchanged { OnErr result (events.new ≡ events.old) }
{
    let at = skip.at as usize;
    if at >= events.len() {
        return Err(LateFault::BadEvent(skip.line));
    }
    events[at] = closed(&events[at]);
    Ok(())
}
