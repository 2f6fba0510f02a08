//! How the program ends over files in memory. `route` is called in one function, since whatever
//! calls it is proved over all that its contract names.
ghost use Rattle.std.specs.Prelude.{◌≡◌, ◌<◌, ◌-◌, ◌^◌, [], IfOk};

use super::feeds::Files;
use super::question::Trouble;
use super::watched::Watched;
use gtfs_rows::FeedFault;
use router_cli::{Status, asks_json, end_shown, route};
use std::alloc::Global;
use std::sync::Wait;
use std::thread::Threads;
use tb_base::{Gate, Memory};
use tb_io::{Folder, MemFolder, MemSink, MemSource, Sink, Source};

/// How a run of the program ended: its number, and the bytes on standard output and on standard
/// error.
#[derive(Drop)]
pub struct Ending {
    pub code: u8,
    pub out: Vec<u8>,
    pub err: Vec<u8>,
    /// Of each piece of work that was held, whether another one was done meanwhile.
    pub met: Vec<bool>,
    /// Whether folder, script or output was called after a call of it that failed.
    pub is_called_again: bool,
}

/// How a run ended with a status, and what it wrote; for which faults rows were left out, and whether
/// that and the status are told as JSON.
pub fn ending_of(
    alloc: Global,
    json: bool,
    left_out: &[FeedFault],
    status: &Status,
    out: &[u8],
) -> Result<Ending, Memory> {
    Ok(Ending {
        code: status.code(),
        out: out.to_vec(alloc)?,
        err: end_shown(alloc, json, left_out, status)?,
        met: Vec::new(alloc),
        is_called_again: false,
    })
}

// The number of a call that fails, as objects in memory take it.
fn fails(alloc: Global, number: Option<u32>) -> Result<Vec<u64>, Memory> {
    let mut fails = Vec::new(alloc);
    if let Some(number) = number {
        fails.push(number as u64)?;
    }
    Ok(fails)
}

// A script.
fn script_of(alloc: Global, bytes: &[u8], trouble: Trouble) -> Result<MemSource, Memory>
    ensures { IfOk result (λ source. source.calls.faults ≡ 0) }
{
    let source = MemSource::new(bytes.to_vec(alloc)?, fails(alloc, trouble.input)?);
    Ok(source.with_piece(trouble.piece()))
}

// Where the answer is written.
fn sink_of(alloc: Global, trouble: Trouble) -> Result<MemSink, Memory>
    ensures { IfOk result (λ sink. sink.calls.faults ≡ 0) }
{
    let sink = MemSink::new(alloc, trouble.room as usize, fails(alloc, trouble.output)?)?;
    Ok(sink.with_piece(trouble.piece()))
}

// A folder of files.
fn folder_of(alloc: Global, files: Files, trouble: Trouble) -> Result<MemFolder, Memory>
    ensures { IfOk result (λ folder. folder.calls.faults ≡ 0) }
{
    let folder = MemFolder::new(files, fails(alloc, trouble.folder)?);
    Ok(folder.with_piece(trouble.piece()))
}

// The status of the program over a folder.
fn status_over<R: Threads + Wait + Sync, F: Folder + Send, S: Source, K: Sink, G: Gate>(
    rt: &R,
    alloc: Global,
    words: &[String],
    folder: &mut F,
    script: &mut S,
    sink: &mut K,
    left_out: &mut Vec<FeedFault>,
    gate: &G,
) -> Status
    requires none { left_out.old.items ≡ [] }
    requires folder { F.faults folder.old < 2 ^ 64 - 1 }
    requires script { S.faults script.old < 2 ^ 64 - 1 }
    requires sink { K.faults sink.old < 2 ^ 64 - 1 }
{
    route(rt, alloc, words, folder, script, sink, left_out, gate)
}

// How a run ended, in which an object was called after it failed, or none.
fn noting(ending: Result<Ending, Memory>, is_called_again: bool) -> Result<Ending, Memory> {
    let mut ending = ending?;
    if is_called_again {
        ending.is_called_again = true;
    }
    Ok(ending)
}

// How the program ends over a folder and a script, with a sink in which nothing is.
fn ending_into<R: Threads + Wait + Sync, F: Folder + Send, G: Gate>(
    rt: &R,
    alloc: Global,
    words: &[String],
    folder: &mut F,
    script: &mut Watched<MemSource>,
    sink: &mut Watched<MemSink>,
    gate: &G,
) -> Result<Ending, Memory>
    requires folder { F.faults folder.old < 2 ^ 64 - 1 }
    requires script { script.old.inner.calls.faults < 2 ^ 64 - 1 }
    requires sink { sink.old.inner.calls.faults < 2 ^ 64 - 1 }
{
    let mut left_out = Vec::new(alloc);
    let status = status_over(rt, alloc, words, folder, script, sink, &mut left_out, gate);
    let json = asks_json(words);
    let ending = ending_of(
        alloc,
        json,
        left_out.as_slice(),
        &status,
        sink.inner.bytes(),
    );
    drop(status);
    drop(left_out);
    noting(ending, script.is_called_again() || sink.is_called_again())
}

// The same with a sink of its own.
fn ending_with<R: Threads + Wait + Sync, F: Folder + Send, G: Gate>(
    rt: &R,
    alloc: Global,
    words: &[String],
    folder: &mut F,
    script: &mut Watched<MemSource>,
    trouble: Trouble,
    gate: &G,
) -> Result<Ending, Memory>
    requires folder { F.faults folder.old < 2 ^ 64 - 1 }
    requires script { script.old.inner.calls.faults < 2 ^ 64 - 1 }
{
    let mut sink = Watched::new(sink_of(alloc, trouble)?);
    let ending = ending_into(rt, alloc, words, folder, script, &mut sink, gate);
    drop(sink);
    ending
}

/// How the program ends over a folder and a script, with such trouble outside
/// and such a gate.
pub fn ending_over<R: Threads + Wait + Sync, F: Folder + Send, G: Gate>(
    rt: &R,
    alloc: Global,
    words: &[String],
    folder: &mut F,
    script: &[u8],
    trouble: Trouble,
    gate: &G,
) -> Result<Ending, Memory>
    requires { F.faults folder.old < 2 ^ 64 - 1 }
{
    let mut script = Watched::new(script_of(alloc, script, trouble)?);
    let ending = ending_with(rt, alloc, words, folder, &mut script, trouble, gate);
    drop(script);
    ending
}

/// How the program ends over files and a script, with such trouble outside
/// and such a gate.
pub fn ending_over_files<R: Threads + Wait + Sync, G: Gate>(
    rt: &R,
    alloc: Global,
    words: &[String],
    files: Files,
    script: &[u8],
    trouble: Trouble,
    gate: &G,
) -> Result<Ending, Memory> {
    let mut folder = Watched::new(folder_of(alloc, files, trouble)?);
    let ending = ending_over(rt, alloc, words, &mut folder, script, trouble, gate);
    let is_called_again = folder.is_called_again();
    drop(folder);
    noting(ending, is_called_again)
}
