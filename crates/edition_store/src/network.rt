ghost use Rattle.std.specs.Prelude.{◌≡◌, ℕ, IfOk};
ghost use Rattle.tb_base.specs.Sufficiency.{AreSufficient};
ghost use Rattle.tb_base.specs.Transfers.{kept_hops};
ghost use Rattle.transfer_pack.specs.Packed.{packed};
ghost use Rattle.edition_store.specs.Editions.{IsNetwork, net_of};

use line_split::Lines;
use segment_queue::{Ahead, Followed, Look, Scan, Seen, Shape, Steps, View, Visit, WalkGroups};
use std::alloc::Global;
use std::marker::Model;
use std::sync::ledger::Ledger;
use tb_base::{Hop, Memory, Path, Sec, StopNo, Timetable, TripNo};
use transfer_pack::Set;

/// A timetable, its lines, the set of its kept transfers and the groups of its stops: all that a
/// search looks at.
#[derive(Drop)]
pub struct Network {
    table: Timetable,
    lines: Lines,
    set: Set,
    groups: WalkGroups,
}

impl Model for Network {
    ghost use Rattle.std.specs.Prelude.{◌≡◌};
    ghost use Rattle.edition_store.specs.Editions.{IsNetwork, NetworkData};

    ghost Value = { NetworkData };

    ghost view = { λ n. record { table = n.table; lines = n.lines.lines; set = n.set } };

    ghost invariant = { λ n. (n.lines.table ≡ n.table) × (n.set.table ≡ n.table)
        × (n.groups ≡ n.table)
        × IsNetwork (record { table = n.table; lines = n.lines.lines; set = n.set }) };
}

impl Network {
    // The network of a timetable with its lines, the set of exactly its kept transfers, and the
    // groups of its stops.
    fn with_groups(table: Timetable, lines: Lines, set: Set, groups: WalkGroups) -> Network
        requires lines { lines.table ≡ table }
        requires set { set.table ≡ table }
        requires groups { groups ≡ table }
        requires hops { (t i : ℕ) → packed set t i ≡ kept_hops table lines.lines t i }
        ensures { result ≡ record { table = table; lines = lines.lines; set = set } }
    {
        table.soundness();
        lines.soundness();
        Network {
            table,
            lines,
            set,
            groups,
        }
    }

    /// The network of a timetable with its lines and the set of exactly its kept transfers. Takes
    /// memory for the groups of its stops. Refused only for want of memory; what it would own is
    /// dropped then.
    pub fn new(alloc: Global, table: Timetable, lines: Lines, set: Set) -> Result<Network, Memory>
        requires lines { lines.table ≡ table }
        requires set { set.table ≡ table }
        requires hops { (t i : ℕ) → packed set t i ≡ kept_hops table lines.lines t i }
        ensures { IfOk result (λ n. n
            ≡ record { table = table; lines = lines.lines; set = set }) }
    {
        match WalkGroups::of(alloc, &table) {
            Ok(groups) => Ok(Network::with_groups(table, lines, set, groups)),
            Err(Memory) => {
                drop(table);
                drop(lines);
                drop(set);
                Err(Memory)
            }
        }
    }

    /// What every network keeps. Does nothing.
    pub fn soundness(&self)
        ensures { IsNetwork self.now }
    {
        let _table = &self.table;
    }

    /// Its timetable.
    pub fn table(&self) -> &Timetable
        ensures { result.now ≡ self.now.table }
    {
        &self.table
    }

    /// The lines of its timetable.
    pub fn lines(&self) -> &Lines
        ensures lines { result.now.lines ≡ self.now.lines }
        ensures table { result.now.table ≡ self.now.table }
    {
        &self.lines
    }

    /// The set of exactly its kept transfers. It is sufficient: a search over it finds all best
    /// values.
    pub fn set(&self) -> &Set
        ensures set { result.now ≡ self.now.set }
        ensures table { result.now.table ≡ self.now.table }
        ensures kept { (t i : ℕ) →
            packed result.now t i ≡ kept_hops self.now.table self.now.lines t i }
        ensures sufficient { AreSufficient self.now.table (packed result.now) }
    {
        &self.set
    }

    // Its parts, as a search looks at them.
    fn view(&self) -> View<'_>
        ensures table { result.0 ≡ self.now.table }
        ensures lines { result.1.lines ≡ self.now.lines }
        ensures set { result.2 ≡ self.now.set }
    {
        View::new(&self.table, &self.lines, &self.set, &self.groups)
    }
}

impl Scan for Network {
    ghost net = { net_of };

    fn soundness(&self) {
        self.view().soundness();
    }

    fn shape(&self) -> Shape {
        self.view().shape()
    }

    fn walks(&self, p: StopNo) -> &[Path] {
        self.view().paths_from(p)
    }

    fn may_walk(&self, p: StopNo, q: StopNo) -> bool {
        self.view().may_walk(p, q)
    }

    fn groups(&self) -> &[u32] {
        self.view().stop_groups()
    }

    fn berths(&self, p: StopNo) -> u32 {
        self.view().berths(p)
    }

    fn last_at(&self, trip: TripNo) -> u32 {
        self.view().last_at(trip)
    }

    fn onward(&self, trip: TripNo) -> &[TripNo] {
        self.view().trips_onward(trip)
    }

    fn before(&self, trip: TripNo) -> Option<TripNo> {
        self.view().trip_before(trip)
    }

    fn hops_from(&self, seen: Seen) -> Followed<'_> {
        self.view().hops_of(seen)
    }

    fn event_of(&self, followed: &Followed<'_>, place: usize) -> u32 {
        self.view().event_of(followed, place)
    }

    fn read_event_ahead(&self, trip: TripNo, at: u32, ahead: &mut Ahead) {
        self.view().read_event_ahead(trip, at, ahead);
    }

    fn read_event_hops_ahead(&self, trip: TripNo, at: u32, ahead: &mut Ahead) {
        self.view().read_event_hops_ahead(trip, at, ahead);
    }

    fn read_hops_ahead(&self, seen: &Seen, ahead: &mut Ahead) {
        self.view().read_hops_ahead(seen, ahead);
    }
}

impl<L: Ledger> Look<L> for Network {
    fn boarding(&self, p: StopNo, berth: u32, time: Sec, steps: &mut Steps<L>) -> Option<Hop> {
        self.view().boarding(p, berth, time, steps)
    }

    fn visit(&self, trip: TripNo, at: u32, steps: &mut Steps<L>) -> Visit {
        self.view().look_at(trip, at, steps)
    }
}
