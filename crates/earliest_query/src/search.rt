ghost use Rattle.std.specs.Prelude.{◌≡◌, length};
ghost use Rattle.earliest_query.specs.Choices.{LeadFromGroup};

use segment_queue::Scan;
use tb_base::Query;

/// What a search reads: a scan, a query, the group of each stop, and the one group that all targets
/// are of, if they are.
#[derive(Drop)]
pub struct Search<'a, S: Scan> {
    pub scan: &'a S,
    pub query: &'a Query,
    pub groups: &'a [u32],
    pub target_group: Option<u32>,
    ghost grouped: { length groups.now ≡ length (S.net scan.now).table.stops },
    ghost apart: { LeadFromGroup (S.net scan.now).table query.now.to groups.now target_group },
}
