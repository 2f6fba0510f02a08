//! Which rows of transfers.txt lead to a platform, and what they say of the ways to it.
ghost use Rattle.std.specs.Prelude.{◌≡◌, ◌<◌, ◌≤◌, ◌+◌, ◌-◌, ℕ, IfOk, OnOk, MatchResult, length, map, fold, unwrap_or, All, None, is_some, ◌&&◌};
ghost use Rattle.footpaths.specs.Stops.{platforms, station_of};
ghost use Rattle.footpaths.specs.Footpaths.{takes_in, rank, stations_in, said, have_one_station, secs_between};
ghost use Rattle.footpaths.specs.BestRules.{slot, marked, marked_by, ruled, ranked_secs};
ghost use Rattle.footpaths.specs.LinkedPlatforms.{link_at, IsEnd, HasLinkEnds, HasPlaces, platform_key, station_key, platform_keys, station_keys, parent_keys};

use crate::best_rules::BestRules;
use crate::found::{Found, Link};
use crate::{Options, StopTable};
use std::alloc::{AllocError, Global};
use std::marker::Model;
use tb_base::{Groups, Memory, StopNo};

// The ranks of the defaults, behind those of rows, which are how many stations a row names.
const DEFAULT_CHANGE: u8 = 3;

const WITHIN_STATION: u8 = 4;

fn stations_in(found: Found) -> u8
    ensures { result ≡ stations_in found }
{
    match found {
        Found::Station(_) => 1,
        Found::Platform(_) | Found::Other => 0,
    }
}

fn rank(link: &Link) -> u8
    ensures { result ≡ rank link.now }
{
    stations_in(link.from) + stations_in(link.to)
}

fn platform_key(none: u32, found: Found) -> u32
    ensures { result ≡ platform_key none found }
{
    match found {
        Found::Platform(stop) => stop.0,
        Found::Station(_) | Found::Other => none,
    }
}

fn station_key(none: u32, found: Found) -> u32
    ensures { result ≡ station_key none found }
{
    match found {
        Found::Station(station) => station,
        Found::Platform(_) | Found::Other => none,
    }
}

fn platform_keys(alloc: Global, links: &[Link], none: u32) -> Result<Vec<u32>, AllocError>
    ensures { IfOk result (λ keys. keys.items ≡ platform_keys none links.now) }
{
    links
        .iter()
        .map(|link| platform_key(none, link.to))
        .collect(alloc)
}

fn station_keys(alloc: Global, links: &[Link], none: u32) -> Result<Vec<u32>, AllocError>
    ensures { IfOk result (λ keys. keys.items ≡ station_keys none links.now) }
{
    links
        .iter()
        .map(|link| station_key(none, link.to))
        .collect(alloc)
}

fn parent_keys(alloc: Global, stops: &StopTable) -> Result<Vec<u32>, Memory>
    ensures { IfOk result (λ keys. keys.items ≡ parent_keys stops.now) }
{
    let none = stops.row_count();
    let mut keys = Vec::new(alloc);
    for stop in 0..stops.platforms() {
        keys.push(stops.station_of(StopNo(stop)).unwrap_or(none))?;
    }
    Ok(keys)
}

// So many places have numbers of four bytes. More count as want of memory, and no fewer.
fn check_count(count: usize) -> Result<(), Memory>
    ensures { MatchResult result (λ _. count ≤ 4294967295) (λ _. 4294967296 ≤ count) }
{
    if count > u32::MAX as usize {
        return Err(Memory);
    }
    Ok(())
}

// The places of each key below a count, and of the count itself.
fn places_by(alloc: Global, keys: &[u32], count: u32) -> Result<Groups, Memory>
    requires { All (λ key. key ≤ count) keys.now }
    ensures { IfOk result (λ places. HasPlaces keys.now count places) }
{
    check_count(keys.len())?;
    Groups::by_key(alloc, keys, count as usize + 1)
}

/// The rows by the platform or station that they lead to, and the platforms by their station.
#[derive(Drop)]
pub struct LinkedPlatforms<'a> {
    stops: &'a StopTable,
    links: Vec<Link>,
    members: Groups,
    to_platform: Groups,
    to_station: Groups,
}

impl<'a> Model for LinkedPlatforms<'a> {
    ghost use Rattle.footpaths.specs.LinkedPlatforms.{LinkedPlatformsData, AreLinkedPlatforms};

    ghost Value = { LinkedPlatformsData };

    ghost view = { λ n. record { stops = n.stops.now; links = n.links.items } };

    ghost invariant = { λ n.
        AreLinkedPlatforms n.stops.now n.links.items n.members n.to_platform n.to_station };
}

impl<'a> LinkedPlatforms<'a> {
    /// What these rows link.
    pub fn new(
        alloc: Global,
        links: Vec<Link>,
        stops: &'a StopTable,
    ) -> Result<LinkedPlatforms<'a>, Memory>
        requires { All (HasLinkEnds stops.now) links.items }
        ensures { IfOk result
            (λ linked. linked ≡ record { stops = stops.now; links = links.items }) }
    {
        let none = stops.row_count();
        let members = places_by(alloc, parent_keys(alloc, stops)?.as_slice(), none)?;
        let platform_keys = platform_keys(alloc, links.as_slice(), none)?;
        let to_platform = places_by(alloc, platform_keys.as_slice(), none)?;
        let station_keys = station_keys(alloc, links.as_slice(), none)?;
        let to_station = places_by(alloc, station_keys.as_slice(), none)?;
        Ok(LinkedPlatforms {
            stops,
            links,
            members,
            to_platform,
            to_station,
        })
    }

    // One ranked rule more at each platform that an end of a row takes in.
    fn mark_from(
        &self,
        marks: &mut BestRules,
        from: Found,
        rank: u8,
        secs: Option<u32>,
    ) -> Result<(), Memory>
        requires end { IsEnd self.now.stops from }
        requires many { length marks.old ≡ length (platforms self.now.stops) }
        ensures length { OnOk result (length marks.new ≡ length marks.old) }
        ensures marked { OnOk result ((p : ℕ) → p < length marks.old →
            slot marks.new p
            ≡ marked (takes_in self.now.stops from p) (slot marks.old p) rank secs) }
    {
        match from {
            Found::Platform(stop) => marks.mark(stop.0, rank, secs),
            Found::Station(station) => {
                marks.mark_all(self.members.of(station as usize), rank, secs)
            }
            Found::Other => Ok(()),
        }
    }

    // What the rows at some places say.
    fn mark_links(&self, marks: &mut BestRules, places: &[u32]) -> Result<(), Memory>
        requires places { All (λ i. i < length self.now.links) places.now }
        requires many { length marks.old ≡ length (platforms self.now.stops) }
        ensures length { OnOk result (length marks.new ≡ length marks.old) }
        ensures marked { OnOk result ((p : ℕ) → p < length marks.old →
            slot marks.new p
            ≡ fold (marked_by self.now.stops p) (slot marks.old p)
            (map (link_at self.now.links) places.now)) }
    {
        for place in places {
            let link = &self.links[*place as usize];
            let rank = rank(link);
            self.mark_from(marks, link.from, rank, link.secs)?;
        }
        Ok(())
    }

    // What all rows say of the ways to a platform.
    fn mark_rows(&self, marks: &mut BestRules, stop: StopNo) -> Result<(), Memory>
        requires stop { stop < length (platforms self.now.stops) }
        requires many { length marks.old ≡ length (platforms self.now.stops) }
        requires clear { (p : ℕ) → slot marks.old p ≡ None }
        ensures length { OnOk result (length marks.new ≡ length marks.old) }
        ensures ruled { OnOk result ((p : ℕ) → p < length marks.old →
            slot marks.new p
            ≡ ruled (said self.now.stops self.now.links p stop 0)
            (said self.now.stops self.now.links p stop 1)
            (said self.now.stops self.now.links p stop 2)) }
    {
        self.mark_links(marks, self.to_platform.of(stop.index()))?;
        match self.stops.station_of(stop) {
            Some(station) => self.mark_links(marks, self.to_station.of(station as usize)),
            None => Ok(()),
        }
    }

    // What the default within a station says of the ways to a platform, where there is one.
    fn mark_station(
        &self,
        marks: &mut BestRules,
        stop: StopNo,
        secs: Option<u32>,
    ) -> Result<(), Memory>
        requires stop { stop < length (platforms self.now.stops) }
        requires many { length marks.old ≡ length (platforms self.now.stops) }
        ensures length { OnOk result (length marks.new ≡ length marks.old) }
        ensures marked { OnOk result ((p : ℕ) → p < length marks.old →
            slot marks.new p
            ≡ marked (have_one_station (station_of self.now.stops stop)
            (station_of self.now.stops p)
            && is_some secs) (slot marks.old p) 4 secs) }
    {
        let Some(given) = secs else {
            return Ok(());
        };
        match self.stops.station_of(stop) {
            Some(station) => {
                marks.mark_all(
                    self.members.of(station as usize),
                    WITHIN_STATION,
                    Some(given),
                )
            }
            None => Ok(()),
        }
    }

    /// What the rows and the defaults say of the ways to a platform, at marks that are clear.
    pub fn mark_to(
        &self,
        marks: &mut BestRules,
        stop: StopNo,
        options: &Options,
    ) -> Result<(), Memory>
        requires stop { stop < length (platforms self.now.stops) }
        requires many { length marks.old ≡ length (platforms self.now.stops) }
        requires clear { (p : ℕ) → slot marks.old p ≡ None }
        ensures length { OnOk result (length marks.new ≡ length marks.old) }
        ensures secs { OnOk result ((p : ℕ) → p < length marks.old →
            ranked_secs (slot marks.new p)
            ≡ secs_between self.now.stops options.now self.now.links p stop) }
    {
        self.mark_rows(marks, stop)?;
        marks.mark(stop.0, DEFAULT_CHANGE, Some(options.change))?;
        self.mark_station(marks, stop, options.station)
    }
}
