//! What is planned by the words of a run of several days, and of a process that lives.
ghost use Rattle.std.specs.Prelude.{◌≡◌, IfOk, IfSome, length, map, option_map};
ghost use Rattle.command_line.specs.Plans.{IsPlan, begins_with_day, late_path, live_request, plan_of, planned_day, planned_file, planned_item, planned_items, serve_request};
ghost use Rattle.command_line.specs.Settings.{AreSettings};

use crate::request::{
    LiveRequest, PlannedDay, PlannedFile, PlannedItem, PlannedSource, ServeRequest,
};
use crate::settings::Settings;
use service_day::day_of;
use std::alloc::Global;
use tb_base::Memory;

/// The most items that one request can name.
pub const MOST_ITEMS: usize = 100;

// The day that `DIR@DATE` names.
fn planned_day(word: &str) -> Option<PlannedItem<'_>>
    ensures { result ≡ planned_day word.now }
{
    let (dir, date) = word.rsplit_once('@')?;
    if dir.is_empty() {
        return None;
    }
    match day_of(date.as_bytes()) {
        Ok(day) => Some(PlannedItem {
            word,
            source: PlannedSource::Day(PlannedDay { dir, day }),
        }),
        Err(_) => None,
    }
}

// The path behind `late:`, where a word begins so.
fn late_path(word: &str) -> Option<&str>
    ensures { option_map (λ path. path.now) result ≡ late_path word.now }
{
    word.strip_prefix("late:")
}

// The file of this path, where that isn't empty.
fn planned_file<'a>(word: &'a str, path: &'a str) -> Option<PlannedItem<'a>>
    ensures { result ≡ planned_file word.now path.now }
{
    if path.is_empty() {
        return None;
    }
    Some(PlannedItem {
        word,
        source: PlannedSource::Late(PlannedFile { path }),
    })
}

// The item that `late:FILE` or `DIR@DATE` names.
fn planned_item(word: &str) -> Option<PlannedItem<'_>>
    ensures { result ≡ planned_item word.now }
{
    match late_path(word) {
        Some(path) => planned_file(word, path),
        None => planned_day(word),
    }
}

// The items that these words name, where each of them names one.
fn planned_items<'a>(
    alloc: Global,
    words: &[&'a str],
) -> Result<Option<Vec<PlannedItem<'a>>>, Memory>
    ensures items { IfOk result (λ items. option_map (λ v. v.items) items
        ≡ planned_items (map (λ word. word.now) words.now)) }
    ensures count { IfOk result (λ items. IfSome items (λ v. length v.items ≡ length words.now)) }
{
    let mut items = Vec::new(alloc);
    for word in words {
        let Some(item) = planned_item(word) else {
            return Ok(None);
        };
        items.push(item)?;
    }
    Ok(Some(items))
}

// Whether some items begin with a day of a feed.
fn begins_with_day(items: &[PlannedItem<'_>]) -> bool
    ensures { result ≡ begins_with_day items.now }
{
    match items {
        [] => false,
        [item, ..] => match &item.source {
            PlannedSource::Day(_) => true,
            PlannedSource::Late(_) => false,
        },
    }
}

// The plan of these words: 1 to 100 items, of which the first is a day.
fn plan_of<'a>(alloc: Global, words: &[&'a str]) -> Result<Option<Vec<PlannedItem<'a>>>, Memory>
    ensures items { IfOk result (λ plan. option_map (λ v. v.items) plan
        ≡ plan_of (map (λ word. word.now) words.now)) }
    ensures plan { IfOk result (λ plan. IfSome plan (λ v. IsPlan v.items)) }
{
    if words.len() > MOST_ITEMS {
        return Ok(None);
    }
    let Some(items) = planned_items(alloc, words)? else {
        return Ok(None);
    };
    if begins_with_day(items.as_slice()) {
        Ok(Some(items))
    } else {
        drop(items);
        Ok(None)
    }
}

/// A request by the words that name the items of its plan: 1 to 100, of which the first is a day.
pub(crate) fn serve_request<'a>(
    alloc: Global,
    settings: Settings,
    words: &[&'a str],
) -> Result<Option<ServeRequest<'a>>, Memory>
    requires { AreSettings settings }
    ensures { IfOk result (λ request.
        request ≡ serve_request settings (map (λ word. word.now) words.now)) }
{
    match plan_of(alloc, words)? {
        Some(plan) => Ok(Some(ServeRequest {
            options: settings.options,
            workers: settings.workers,
            json: settings.json,
            plan,
        })),
        None => Ok(None),
    }
}

/// A request by the words that name the first items of its plan: 1 to 100, of which the first is a
/// day.
pub(crate) fn live_request<'a>(
    alloc: Global,
    settings: Settings,
    words: &[&'a str],
) -> Result<Option<LiveRequest<'a>>, Memory>
    requires { AreSettings settings }
    ensures { IfOk result (λ request.
        request ≡ live_request settings (map (λ word. word.now) words.now)) }
{
    match plan_of(alloc, words)? {
        Some(plan) => Ok(Some(LiveRequest {
            options: settings.options,
            workers: settings.workers,
            lanes: settings.lanes,
            mirror: settings.mirror,
            json: settings.json,
            plan,
        })),
        None => Ok(None),
    }
}
