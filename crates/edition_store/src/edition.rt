ghost use Rattle.std.specs.Prelude.{◌≡◌, ℕ, IfOk, IfSome, MatchOption, None, Some};
ghost use Rattle.tb_base.specs.Sufficiency.{AreSufficient};
ghost use Rattle.tb_base.specs.Transfers.{kept_hops};
ghost use Rattle.edition_store.specs.Mirror.{IsMirror};
ghost use Rattle.transfer_pack.specs.Packed.{packed};
ghost use Rattle.edition_store.specs.Editions.{IsEdition, IsMirrorNetwork, edition_of, kept_count, network_of};

use crate::network::Network;
use line_split::Lines;
use std::alloc::Global;
use std::marker::Model;
use tb_base::{Memory, Timetable};
use transfer_pack::Set;

/// The network of a day, how many transfers are kept in it, and where it is wanted the network of
/// the mirror of its timetable, in which latest departures are looked for.
#[derive(Drop)]
pub struct Edition {
    network: Network,
    kept: u64,
    mirror: Option<Network>,
}

impl Model for Edition {
    ghost use Rattle.edition_store.specs.Editions.{EditionData, IsEdition, edition_of};

    ghost Value = { EditionData };

    ghost view = { λ e. edition_of e.network e.kept e.mirror };

    ghost invariant = { λ e. IsEdition (edition_of e.network e.kept e.mirror) };
}

impl Edition {
    // The edition of a network with so many kept transfers, without a mirror.
    fn new(network: Network, kept: u64) -> Edition
        requires { kept ≡ kept_count network.table network.lines }
        ensures { result ≡ edition_of network kept None }
    {
        network.soundness();
        Edition {
            network,
            kept,
            mirror: None,
        }
    }

    /// The edition of a timetable with its lines, the set of exactly its kept transfers, and how
    /// many these are; it has no mirror. Takes memory for the groups of its stops. Refused only for
    /// want of memory; what it would own is dropped then.
    pub fn with_set(
        alloc: Global,
        table: Timetable,
        lines: Lines,
        set: Set,
        kept: u64,
    ) -> Result<Edition, Memory>
        requires lines { lines.table ≡ table }
        requires set { set.table ≡ table }
        requires hops { (t i : ℕ) → packed set t i ≡ kept_hops table lines.lines t i }
        requires kept { kept ≡ kept_count table lines.lines }
        ensures { IfOk result (λ e. e ≡ edition_of
            (record { table = table; lines = lines.lines; set = set }) kept None) }
    {
        Ok(Edition::new(Network::new(alloc, table, lines, set)?, kept))
    }

    /// The same edition with the network of its mirror.
    pub fn with_mirror(self, mirror: Network) -> Edition
        requires { IsMirror self.table mirror.table }
        ensures { result ≡ record self { mirror = Some mirror } }
    {
        mirror.soundness();
        let Edition {
            network,
            kept,
            mirror: before,
        } = self;
        drop(before);
        Edition {
            network,
            kept,
            mirror: Some(mirror),
        }
    }

    /// What every edition keeps. Does nothing.
    pub fn soundness(&self)
        ensures { IsEdition self.now }
    {
        let _kept = self.kept;
    }

    /// Its network.
    pub fn network(&self) -> &Network
        ensures { result.now ≡ network_of self.now }
    {
        &self.network
    }

    /// Its network alone.
    pub fn into_network(self) -> Network
        ensures { result ≡ network_of self }
    {
        let Edition {
            network,
            kept: _,
            mirror,
        } = self;
        drop(mirror);
        network
    }

    /// The network of its mirror, where it has one.
    pub fn mirror(&self) -> Option<&Network>
        ensures mirror { MatchOption result (self.now.mirror ≡ None)
            (λ m. self.now.mirror ≡ Some m.now) }
        ensures network { IfSome result (λ m. IsMirrorNetwork self.now.table m.now) }
    {
        self.mirror.as_ref()
    }

    /// Its timetable.
    pub fn table(&self) -> &Timetable
        ensures { result.now ≡ self.now.table }
    {
        self.network.table()
    }

    /// The lines of its timetable.
    pub fn lines(&self) -> &Lines
        ensures lines { result.now.lines ≡ self.now.lines }
        ensures table { result.now.table ≡ self.now.table }
    {
        self.network.lines()
    }

    /// The set of exactly its kept transfers. It is sufficient: a search over it finds all best
    /// values.
    pub fn set(&self) -> &Set
        ensures set { result.now ≡ self.now.set }
        ensures table { result.now.table ≡ self.now.table }
        ensures kept { (t i : ℕ) →
            packed result.now t i ≡ kept_hops self.now.table self.now.lines t i }
        ensures sufficient { AreSufficient self.now.table (packed result.now) }
    {
        self.network.set()
    }

    /// How many transfers are kept.
    pub fn kept(&self) -> u64
        ensures { result ≡ self.now.kept }
    {
        self.kept
    }
}
