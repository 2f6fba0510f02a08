//! Laws over desks.
ghost use Rattle.std.specs.Prelude.{◌≤◌, length};
ghost use Rattle.tb_base.specs.Network.{NetData};
ghost use Rattle.tb_base.specs.TimetableData.{event_total};
ghost use Rattle.segment_queue.specs.Queue.{DeskData, IsInStep};

/// A desk in step has at most as many segments as there are events.
pub fn segments_within_events()
    ensures { (N : NetData) (D : DeskData) → IsInStep N D →
        length D.segments ≤ event_total N.table }
{}
