ghost use Rattle.std.specs.Prelude.{◌≡◌, ◌<◌, ◌≤◌, ℕ, length};
ghost use Rattle.tb_base.specs.Search.{IsReached};
ghost use Rattle.tb_base.specs.TimetableData.{arrival_at, event_at, events_of, stop_at};

use super::search::Search;
use segment_queue::{Scan, Segment, Visit};

/// What is done at each event that a search looks at, besides weighing it for the hits.
pub trait AtEvent<S: Scan> {
    ghost use Rattle.std.specs.Prelude.{ℕ};
    ghost use Rattle.tb_base.specs.BestValues.{QueryData};
    ghost use Rattle.tb_base.specs.Network.{NetData};

    /// It is ready for the events of this round of a search for the query.
    ghost is_ready: { Self → NetData → QueryData → ℕ → Type 0 };

    /// It has met this event of this trip in this round.
    ghost has_met: { Self → NetData → ℕ → ℕ → ℕ → Type 0 };

    /// Meets event `at` of a segment that was entered in this round.
    fn meet(
        &mut self,
        search: &Search<'_, S>,
        segment: &Segment,
        at: u32,
        round: u32,
        visit: &Visit,
    )
        requires ready { is_ready self.old (S.net search.now.scan.now) search.now.query.now round }
        requires reached { IsReached (S.net search.now.scan.now).table search.now.query.now.from
            search.now.query.now.leave round segment.now.trip segment.now.board }
        requires trip { segment.now.trip < length (S.net search.now.scan.now).table.trips }
        requires onward { segment.now.board < at }
        requires at { at
            < length (events_of (S.net search.now.scan.now).table segment.now.trip) }
        requires stop { visit.now.stop
            ≡ stop_at (S.net search.now.scan.now).table segment.now.trip at }
        requires arr { visit.now.arr
            ≡ arrival_at (S.net search.now.scan.now).table segment.now.trip at }
        requires alight { visit.now.alight
            ≡ (event_at (S.net search.now.scan.now).table segment.now.trip at).alight }
        ensures ready { (later : ℕ) → round ≤ later →
            is_ready self.new (S.net search.now.scan.now) search.now.query.now later }
        ensures met { has_met self.new (S.net search.now.scan.now) segment.now.trip at round }
        ensures kept { (t i r : ℕ) → has_met self.old (S.net search.now.scan.now) t i r →
            has_met self.new (S.net search.now.scan.now) t i r };
}

/// Nothing more is done.
#[derive(Drop)]
pub(crate) struct HitsAlone;

impl<S: Scan> AtEvent<S> for HitsAlone {
    ghost use Rattle.std.specs.Prelude.{⊤};

    ghost is_ready = { λ _ _ _ _. ⊤ };

    ghost has_met = { λ _ _ _ _ _. ⊤ };

    #[inline(always)]
    fn meet(
        &mut self,
        _search: &Search<'_, S>,
        _segment: &Segment,
        _at: u32,
        _round: u32,
        _visit: &Visit,
    ) {}
}
