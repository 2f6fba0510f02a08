//! A plan of days of feeds and of files that amend them, and what becomes of each item.
ghost use Rattle.std.specs.Prelude.{◌≡◌, ◌∷◌, [], OnOk, Some};
ghost use Rattle.edition_build.specs.Plans.{BeginsWithDay, BeginsWithFeed, day_after};

use edition_store::Shared;
use gtfs_rows::FeedFault;
use late_edit::LateFault;
use service_day::Day;
use std::marker::Model;
use tb_base::Memory;

/// A day of a feed: a directory of the folder that has the feed, and the day.
#[derive(Drop)]
pub struct FeedDay {
    pub dir: String,
    pub day: Day,
}

impl Model for FeedDay {
    ghost use Rattle.std.specs.Prelude.{string_bytes};
    ghost use Rattle.edition_build.specs.FeedDays.{FeedDayData};

    ghost Value = { FeedDayData };

    ghost view = { λ d. record { dir = string_bytes d.dir; day = d.day } };
}

/// A file of the folder that says what is known of trips, as `late_edit` reads it.
#[derive(Drop)]
pub struct LateFile {
    pub path: String,
}

impl Model for LateFile {
    ghost use Rattle.std.specs.Prelude.{List, string_bytes, ℕ};

    ghost Value = { List ℕ };

    ghost view = { λ f. string_bytes f.path };
}

/// What an item of a plan is made of.
#[derive(Drop)]
pub enum ItemSource {
    /// A day of a feed.
    Day(FeedDay),
    /// The last day that was published, amended by what a file says. Such files don't add up.
    Late(LateFile),
}

/// An item of a plan: the word that names it, and what its edition is made of.
#[derive(Drop)]
pub struct PlanItem {
    pub word: String,
    pub source: ItemSource,
}

impl Model for PlanItem {
    ghost use Rattle.std.specs.Prelude.{string_bytes};
    ghost use Rattle.edition_build.specs.Plans.{ItemData};

    ghost Value = { ItemData };

    ghost view = { λ i. record { word = string_bytes i.word; source = i.source } };
}

/// What became of an item.
#[derive(Drop)]
pub enum Outcome {
    /// It is a day that was published as the edition of this number, from 1, with so many trips,
    /// lines and kept transfers.
    Published {
        number: u32,
        trips: u32,
        lines: u32,
        kept: u64,
    },
    /// It is a day. The first thing that is wrong with its feed.
    Refused(FeedFault),
    /// It is a file by which the last day is amended. That was published as the edition of this
    /// number: so many trips are touched, and so many transfers kept.
    Amended {
        number: u32,
        touched: u32,
        kept: u64,
    },
    /// It is such a file. The first thing that is wrong with it, or with what it says.
    LateRefused(LateFault),
}

/// The day with which a plan begins.
pub fn first_day(plan: &[PlanItem]) -> &FeedDay
    requires { BeginsWithDay plan.now }
    ensures { BeginsWithFeed plan.now result.now }
{
    let item = &plan[0];
    match &item.source {
        ItemSource::Day(feed) => feed,
        ItemSource::Late(_) => unreachable!(),
    }
}

/// Keeps the edition of an item as that of the last day, where the item is a day.
pub fn keep_day(source: &ItemSource, edition: &Shared, day: &mut Shared) -> Result<(), Memory>
    ensures { OnOk result
        (day_after (Some day.old) source.now (edition.now ∷ []) ≡ Some day.new) }
{
    match source {
        ItemSource::Day(_) => {
            *day = edition.share()?;
            Ok(())
        }
        ItemSource::Late(_) => Ok(()),
    }
}
