//! Travel times from an origin to every stop, as rows.
ghost use Rattle.std.specs.Prelude.{◌≡◌, ◌++◌, ◌<◌, IfOk, OnOk, codes, flat_map, length};
ghost use Rattle.std.specs.List.{list_any};
ghost use Rattle.tb_base.specs.Transfers.{numbers_below};
ghost use Rattle.answer_text.specs.Journeys.{stop_name};
ghost use Rattle.answer_text.specs.Questions.{AreDepartureTimes};
ghost use Rattle.query_gate.specs.Replies.{HaveNumbers};
ghost use Rattle.lane_serve.specs.Rows.{AreRowsFrom, IsOriginReply, csv_field, csv_figures, csv_row, csv_rows, csv_time, head_of, json_rows, lines_rows, quoted_byte, quoted_field, rows_of, wants_quotes};

use answer_json::{Frame, add_string};
use answer_text::{Question, Text};
use edition_store::Edition;
use query_gate::{Reply, answer, reply_json, reply_text};
use reach_all::Figures;
use segment_queue::Desk;
use std::alloc::Global;
use tb_base::{Memory, Name, Sec, StopNo, Timetable};

/// In which form rows are written.
#[derive(Debug, Clone, Copy, PartialEq, Eq)]
pub enum RowForm {
    /// `from ORIGIN`, a line for each stop, and an empty line.
    Lines,
    /// One line of JSON for each origin.
    Json,
    /// A row for each origin and stop, as RFC 4180 has it, below the names of the columns.
    Csv,
}

/// At which departures each origin is asked: the first, and one every `step` seconds from it on, up
/// to the last, in seconds since noon minus twelve hours; with at most `rides` rides if that is
/// given.
#[derive(Debug, Clone, Copy, PartialEq, Eq)]
pub struct TimesAsked {
    pub first: Sec,
    pub last: Sec,
    pub step: u32,
    pub rides: Option<u32>,
}

// `from ORIGIN`, the lines of the reply, and an empty line.
fn lines_rows(
    alloc: Global,
    table: &Timetable,
    origin: &[u8],
    reply: &Reply,
) -> Result<Vec<u8>, Memory>
    requires { HaveNumbers table.now reply.now }
    ensures { IfOk result (λ v. v.items ≡ lines_rows table.now origin.now reply.now) }
{
    let lines = reply_text(alloc, table, reply)?;
    let mut text = Text::new(alloc);
    text.add(b"from ")?;
    text.add(origin)?;
    text.add(b"\n")?;
    text.add(lines.as_slice())?;
    text.add(b"\n")?;
    Ok(text.into_bytes())
}

// `{"from":ORIGIN,MEMBER}`
fn json_rows(
    alloc: Global,
    table: &Timetable,
    origin: &[u8],
    reply: &Reply,
) -> Result<Vec<u8>, Memory>
    requires { HaveNumbers table.now reply.now }
    ensures { IfOk result (λ v. v.items ≡ json_rows table.now origin.now reply.now) }
{
    let member = reply_json(alloc, Frame::Array, table, reply)?;
    let mut text = Text::new(alloc);
    text.add(b"{\"from\":")?;
    add_string(&mut text, origin)?;
    text.add(b",")?;
    text.add(member.as_slice())?;
    text.add(b"}\n")?;
    Ok(text.into_bytes())
}

// Whether a field is quoted.
fn wants_quotes(bytes: &[u8]) -> bool
    ensures { result ≡ list_any wants_quotes bytes.now }
{
    bytes
        .iter()
        .any(|b| *b == b',' || *b == b'"' || *b == b'\r' || *b == b'\n')
}

// Adds a byte between quotes.
fn add_quoted_byte(text: &mut Text, b: u8) -> Result<(), Memory>
    ensures { OnOk result (text.new ≡ text.old ++ quoted_byte b) }
{
    if b == b'"' {
        text.add(b"\"\"")
    } else {
        text.add(&[b])
    }
}

// Adds bytes between quotes, one by one.
fn add_quoted_bytes(text: &mut Text, bytes: &[u8]) -> Result<(), Memory>
    ensures { OnOk result (text.new ≡ text.old ++ flat_map quoted_byte bytes.now) }
{
    for b in bytes {
        add_quoted_byte(text, *b)?;
    }
    Ok(())
}

// Adds bytes between quotes.
fn add_quoted(text: &mut Text, bytes: &[u8]) -> Result<(), Memory>
    ensures { OnOk result (text.new ≡ text.old ++ quoted_field bytes.now) }
{
    text.add(b"\"")?;
    add_quoted_bytes(text, bytes)?;
    text.add(b"\"")
}

// Adds a field.
fn add_field(text: &mut Text, bytes: &[u8]) -> Result<(), Memory>
    ensures { OnOk result (text.new ≡ text.old ++ csv_field bytes.now) }
{
    if wants_quotes(bytes) {
        add_quoted(text, bytes)
    } else {
        text.add(bytes)
    }
}

// Adds a travel time.
fn add_time(text: &mut Text, time: Option<Sec>) -> Result<(), Memory>
    ensures { OnOk result (text.new ≡ text.old ++ csv_time time) }
{
    match time {
        Some(time) => {
            text.add(b",")?;
            text.seconds(time)
        }
        None => text.add(b","),
    }
}

// Adds travel times.
fn add_times(text: &mut Text, times: &[Option<Sec>]) -> Result<(), Memory>
    ensures { OnOk result (text.new ≡ text.old ++ flat_map csv_time times.now) }
{
    for time in times {
        add_time(text, *time)?;
    }
    Ok(())
}

// Adds the figures of a stop over so many departures.
fn add_figures(text: &mut Text, departures: u32, figures: &Figures) -> Result<(), Memory>
    ensures { OnOk result (text.new ≡ text.old ++ csv_figures departures figures.now) }
{
    text.add(b",")?;
    text.number(figures.reached)?;
    text.add(b",")?;
    text.number(departures)?;
    add_times(text, &figures.times())
}

// The name of a stop.
fn name_of(table: &Timetable, stop: StopNo) -> &[u8]
    requires { stop < length table.now.stops }
    ensures { result.now ≡ stop_name table.now stop }
{
    let stop = table.stop(stop);
    stop.name.bytes()
}

// Adds the row of an origin and a stop.
fn add_row(
    text: &mut Text,
    table: &Timetable,
    origin: &[u8],
    departures: u32,
    figures: &[Figures],
    stop: StopNo,
) -> Result<(), Memory>
    requires stop { stop < length table.now.stops }
    requires each_stop { length figures.now ≡ length table.now.stops }
    ensures { OnOk result (text.new
        ≡ text.old ++ csv_row table.now origin.now departures figures.now stop) }
{
    add_field(text, origin)?;
    text.add(b",")?;
    add_field(text, name_of(table, stop))?;
    add_figures(text, departures, &figures[stop.index()])?;
    text.add(b"\n")
}

// Adds one row a stop.
fn add_rows(
    text: &mut Text,
    table: &Timetable,
    origin: &[u8],
    departures: u32,
    figures: &[Figures],
) -> Result<(), Memory>
    requires { length figures.now ≡ length table.now.stops }
    ensures { OnOk result (text.new ≡ text.old
        ++ flat_map (csv_row table.now origin.now departures figures.now)
        (numbers_below (length table.now.stops))) }
{
    for stop in 0..table.stop_count() {
        add_row(text, table, origin, departures, figures, StopNo(stop))?;
    }
    Ok(())
}

// Adds a row without a stop.
fn add_lone_row(text: &mut Text, origin: &[u8]) -> Result<(), Memory>
    ensures { OnOk result
        (text.new ≡ text.old ++ csv_field origin.now ++ codes ",,,,,,,,,,\n") }
{
    add_field(text, origin)?;
    text.add(b",,,,,,,,,,\n")
}

// The rows of an origin as RFC 4180 has them.
fn csv_rows(
    alloc: Global,
    table: &Timetable,
    origin: &[u8],
    reply: &Reply,
) -> Result<Vec<u8>, Memory>
    requires { HaveNumbers table.now reply.now }
    ensures { IfOk result (λ v. v.items ≡ csv_rows table.now origin.now reply.now) }
{
    let mut text = Text::new(alloc);
    match reply {
        Reply::Times(travel) => {
            let figures = travel.figures.as_slice();
            add_rows(&mut text, table, origin, travel.departures, figures)?;
        }
        _ => add_lone_row(&mut text, origin)?,
    }
    Ok(text.into_bytes())
}

// The rows of an origin in a form.
fn rows_shown(
    alloc: Global,
    form: RowForm,
    table: &Timetable,
    origin: &[u8],
    reply: &Reply,
) -> Result<Vec<u8>, Memory>
    requires { HaveNumbers table.now reply.now }
    ensures { IfOk result (λ v. v.items ≡ rows_of form table.now origin.now reply.now) }
{
    match form {
        RowForm::Lines => lines_rows(alloc, table, origin, reply),
        RowForm::Json => json_rows(alloc, table, origin, reply),
        RowForm::Csv => csv_rows(alloc, table, origin, reply),
    }
}

/// What stands before all rows.
pub(crate) fn head_of(alloc: Global, form: RowForm) -> Result<Vec<u8>, Memory>
    ensures { IfOk result (λ v. v.items ≡ head_of form) }
{
    match form {
        RowForm::Lines | RowForm::Json => Ok(Vec::new(alloc)),
        RowForm::Csv => Ok(Vec::from_slice(
            alloc,
            b"from,to,reached,departures,least,p5,p25,p50,p75,p95,greatest\n",
        )?),
    }
}

// The reply to an origin by the network of a day.
fn origin_reply(
    alloc: Global,
    edition: &Edition,
    desk: &mut Desk,
    asked: &TimesAsked,
    origin: &Name,
) -> Result<Reply, Memory>
    requires { AreDepartureTimes asked.now.first asked.now.last asked.now.step }
    ensures reply { IfOk result (IsOriginReply edition.now.table asked.now origin.now) }
    ensures numbers { IfOk result (HaveNumbers edition.now.table) }
{
    let from = Name::new(alloc, origin.bytes())?;
    let question = Question::Times {
        from,
        first: asked.first,
        last: asked.last,
        step: asked.step,
        rides: asked.rides,
    };
    let reply = answer(alloc, edition.table(), edition.network(), desk, &question);
    drop(question);
    reply
}

/// The rows of an origin, by the network of a day. Refused only for want of memory.
pub(crate) fn rows_from(
    alloc: Global,
    form: RowForm,
    edition: &Edition,
    desk: &mut Desk,
    asked: &TimesAsked,
    origin: &Name,
) -> Result<Vec<u8>, Memory>
    requires { AreDepartureTimes asked.now.first asked.now.last asked.now.step }
    ensures { IfOk result (λ v.
        AreRowsFrom form edition.now.table asked.now origin.now v.items) }
{
    let reply = origin_reply(alloc, edition, desk, asked, origin)?;
    rows_shown(alloc, form, edition.table(), origin.bytes(), &reply)
}
