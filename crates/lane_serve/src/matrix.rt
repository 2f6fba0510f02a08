//! Travel times from many origins, whose rows are written as they are found.
//!
//! The origins are taken in runs of as many as there are lanes. Each run is answered at once, where
//! threads can be started, and its rows are written before the next one is begun: so no more rows
//! are held than those of one run.
ghost use Rattle.std.specs.Prelude.{◌≡◌, ◌⊎◌, ◌+◌, ◌-◌, ◌*◌, ◌^◌, ◌<◌, ◌≤◌, ◌++◌, [], Err, IfErr, IfOk, OnErr, OnOk, All, ℕ, length, take, vec_len};
ghost use Rattle.std.specs.Io.KnownBytes.{Appends};
ghost use Rattle.answer_text.specs.Questions.{AreDepartureTimes};
ghost use Rattle.query_gate.specs.Dealing.{run_of};
ghost use Rattle.query_gate.specs.Dealing.{joined_texts};
ghost use Rattle.lane_serve.specs.Matrix.{HasCutMatrix, HasCutRows, HasCutRun, HasMatrix, HasRows, IsCutHead};
ghost use Rattle.lane_serve.specs.Rows.{head_of};

use crate::rows::{RowForm, TimesAsked, head_of, rows_from};
use edition_store::Edition;
use query_gate::{Office, answer_all, desks_for};
use segment_queue::Desk;
use std::alloc::Global;
use std::mem;
use std::thread::Threads;
use tb_base::{Memory, Name};
use tb_io::{Put, Sink, put_all};

/// Why not all rows were written.
#[derive(Debug, Clone, Copy, PartialEq, Eq)]
pub enum MatrixFault {
    /// The sink failed.
    WriteFault,
    /// Want of memory.
    Memory,
}

// Who answers origins by the network of a day.
#[derive(Drop)]
struct Clerk<'a> {
    form: RowForm,
    asked: TimesAsked,
    edition: &'a Edition,
}

impl<'a> Office<Name, Desk, Vec<u8>> for Clerk<'a> {
    ghost use Rattle.answer_text.specs.Questions.{AreDepartureTimes};
    ghost use Rattle.lane_serve.specs.Rows.{AreRowsFrom};

    ghost may = { λ c origin. AreDepartureTimes c.asked.first c.asked.last c.asked.step };

    ghost right = { λ c origin v. AreRowsFrom c.form c.edition.now.table c.asked origin v.items };

    fn reply(&self, alloc: Global, desk: &mut Desk, origin: &Name) -> Result<Vec<u8>, Memory> {
        rows_from(alloc, self.form, self.edition, desk, &self.asked, origin)
    }
}

// Writes texts, one after another.
fn write_texts<K: Sink>(sink: &mut K, texts: &[Vec<u8>]) -> Result<(), Put>
    requires { K.faults sink.old < 2 ^ 64 - 1 }
    ensures written { OnOk result (Appends (K.written sink.old) (K.written sink.new)
        (joined_texts texts.now)) }
    ensures prefix { OnErr result ((n : ℕ)
        × Appends (K.written sink.old) (K.written sink.new) (take n (joined_texts texts.now))) }
    ensures fault { OnErr result (K.faults sink.old < K.faults sink.new) }
    ensures kept { OnOk result (K.faults sink.new ≡ K.faults sink.old) }
{
    for text in texts {
        match put_all(sink, text.as_slice()) {
            Ok(()) => {}
            Err(fault) => return Err(fault),
        }
    }
    Ok(())
}

// Answers origins, no more than there are desks, and writes their rows. The desks are gone where
// they couldn't be answered.
fn write_run<K: Sink, R: Threads + Sync>(
    rt: &R,
    alloc: Global,
    clerk: &Clerk,
    desks: &mut Vec<Desk>,
    origins: &[Name],
    sink: &mut K,
) -> Result<(), MatrixFault>
    requires some { 0 < vec_len desks.old }
    requires few { length origins.now ≤ vec_len desks.old }
    requires times { AreDepartureTimes clerk.now.asked.first clerk.now.asked.last
        clerk.now.asked.step }
    requires sink { K.faults sink.old < 2 ^ 64 - 1 }
    ensures desks { OnOk result (vec_len desks.new ≡ vec_len desks.old) }
    ensures written { OnOk result (HasRows clerk.now.form clerk.now.edition.now.table
        clerk.now.asked origins.now (K.written sink.old) (K.written sink.new)) }
    ensures cut { IfErr result (λ cause. HasCutRun cause clerk.now.form
        clerk.now.edition.now.table clerk.now.asked origins.now (K.written sink.old)
        (K.written sink.new)) }
    ensures write { result ≡ Err MatrixFault.WriteFault → K.faults sink.old < K.faults sink.new }
    ensures sink { (result ≡ Err MatrixFault.WriteFault)
        ⊎ (K.faults sink.new ≡ K.faults sink.old) }
{
    let own = mem::replace(desks, Vec::new(alloc));
    match answer_all(rt, alloc, clerk, own, origins) {
        Ok((back, texts)) => {
            *desks = back;
            match write_texts(sink, texts.as_slice()) {
                Ok(()) => Ok(()),
                Err(Put::WriteFault) => Err(MatrixFault::WriteFault),
            }
        }
        Err(Memory) => Err(MatrixFault::Memory),
    }
}

// Where the run of origins ends that begins here: there are no more than lanes, and the last one
// has what is left.
fn run_end(from: usize, lanes: usize, all: usize) -> usize
    requires lanes { 0 < lanes }
    requires some { from < all }
    ensures on { from < result }
    ensures few { result ≤ from + lanes }
    ensures most { result ≤ all }
{
    if all - from <= lanes {
        all
    } else {
        from + lanes
    }
}

// The origins from one place on up to another.
fn run_of(origins: &[Name], from: usize, to: usize) -> &[Name]
    requires low { from ≤ to }
    requires high { to ≤ length origins.now }
    ensures run { result.now ≡ run_of origins.now from to }
    ensures count { length result.now ≡ to - from }
{
    &origins[from..to]
}

// Answers origins, run after run, and writes the rows of each run before the next one.
fn write_rows<K: Sink, R: Threads + Sync>(
    rt: &R,
    alloc: Global,
    clerk: &Clerk,
    desks: &mut Vec<Desk>,
    origins: &[Name],
    sink: &mut K,
) -> Result<(), MatrixFault>
    requires some { 0 < vec_len desks.old }
    requires times { AreDepartureTimes clerk.now.asked.first clerk.now.asked.last
        clerk.now.asked.step }
    requires sink { K.faults sink.old < 2 ^ 64 - 1 }
    ensures written { OnOk result (HasRows clerk.now.form clerk.now.edition.now.table
        clerk.now.asked origins.now (K.written sink.old) (K.written sink.new)) }
    ensures cut { IfErr result (λ cause. HasCutRows cause clerk.now.form
        clerk.now.edition.now.table clerk.now.asked origins.now (K.written sink.old)
        (K.written sink.new)) }
    ensures write { result ≡ Err MatrixFault.WriteFault → K.faults sink.old < K.faults sink.new }
    ensures sink { (result ≡ Err MatrixFault.WriteFault)
        ⊎ (K.faults sink.new ≡ K.faults sink.old) }
{
    let mut from = 0;
    while from < origins.len() {
        let to = run_end(from, desks.len(), origins.len());
        let run = run_of(origins, from, to);
        match write_run(rt, alloc, clerk, desks, run, sink) {
            Ok(()) => from = to,
            Err(cause) => return Err(cause),
        }
    }
    Ok(())
}

// Writes what stands before all rows.
fn write_head<K: Sink>(alloc: Global, form: RowForm, sink: &mut K) -> Result<(), MatrixFault>
    requires { K.faults sink.old < 2 ^ 64 - 1 }
    ensures written { OnOk result (Appends (K.written sink.old) (K.written sink.new)
        (head_of form)) }
    ensures cut { IfErr result (λ cause. IsCutHead cause form (K.written sink.old)
        (K.written sink.new)) }
    ensures write { result ≡ Err MatrixFault.WriteFault → K.faults sink.old < K.faults sink.new }
    ensures sink { (result ≡ Err MatrixFault.WriteFault)
        ⊎ (K.faults sink.new ≡ K.faults sink.old) }
{
    let Ok(head) = head_of(alloc, form) else {
        return Err(MatrixFault::Memory);
    };
    match put_all(sink, head.as_slice()) {
        Ok(()) => Ok(()),
        Err(Put::WriteFault) => Err(MatrixFault::WriteFault),
    }
}

// Writes what stands before all rows, and the rows of all origins.
fn write_all<K: Sink, R: Threads + Sync>(
    rt: &R,
    alloc: Global,
    clerk: &Clerk,
    desks: &mut Vec<Desk>,
    origins: &[Name],
    sink: &mut K,
) -> Result<(), MatrixFault>
    requires some { 0 < vec_len desks.old }
    requires times { AreDepartureTimes clerk.now.asked.first clerk.now.asked.last
        clerk.now.asked.step }
    requires sink { K.faults sink.old < 2 ^ 64 - 1 }
    ensures written { OnOk result (HasMatrix clerk.now.form clerk.now.edition.now.table
        clerk.now.asked origins.now (K.written sink.old) (K.written sink.new)) }
    ensures cut { IfErr result (λ cause. HasCutMatrix cause clerk.now.form
        clerk.now.edition.now.table clerk.now.asked origins.now (K.written sink.old)
        (K.written sink.new)) }
    ensures write { result ≡ Err MatrixFault.WriteFault → K.faults sink.old < K.faults sink.new }
    ensures sink { (result ≡ Err MatrixFault.WriteFault)
        ⊎ (K.faults sink.new ≡ K.faults sink.old) }
{
    match write_head(alloc, clerk.form, sink) {
        Ok(()) => match write_rows(rt, alloc, clerk, desks, origins, sink) {
            Ok(()) => Ok(()),
            Err(cause) => Err(cause),
        },
        Err(cause) => Err(cause),
    }
}

/// Writes, for each origin in order, its rows by the network of a day, in a form: for each stop the
/// figures of the travel times to it, or that no stop and no station has the origin's name. So many
/// lanes answer at once, where threads can be started, and no more origins' rows are held than
/// there are lanes. `WriteFault` comes only where the sink's count of faults rose; then a first
/// part was written, and with `Memory` the rows of some first origins, or nothing.
pub fn write_matrix<K: Sink, R: Threads + Sync>(
    rt: &R,
    alloc: Global,
    lanes: u32,
    form: RowForm,
    edition: &Edition,
    asked: &TimesAsked,
    origins: &[Name],
    sink: &mut K,
) -> Result<(), MatrixFault>
    requires lanes { 0 < lanes }
    requires times { AreDepartureTimes asked.now.first asked.now.last asked.now.step }
    requires sink { K.faults sink.old < 2 ^ 64 - 1 }
    ensures written { OnOk result (HasMatrix form edition.now.table asked.now origins.now
        (K.written sink.old) (K.written sink.new)) }
    ensures cut { IfErr result (λ cause. HasCutMatrix cause form edition.now.table asked.now
        origins.now (K.written sink.old) (K.written sink.new)) }
    ensures write { result ≡ Err MatrixFault.WriteFault → K.faults sink.old < K.faults sink.new }
    ensures sink { (result ≡ Err MatrixFault.WriteFault)
        ⊎ (K.faults sink.new ≡ K.faults sink.old) }
{
    let mut desks = match desks_for(alloc, lanes) {
        Ok(desks) => desks,
        Err(Memory) => return Err(MatrixFault::Memory),
    };
    let clerk = Clerk {
        form,
        asked: *asked,
        edition,
    };
    write_all(rt, alloc, &clerk, &mut desks, origins, sink)
}
