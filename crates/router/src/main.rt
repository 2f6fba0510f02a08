//! The program `router`: answers about one service day of a GTFS feed, or answers a script while
//! several days are published.
//!
//! `route` of `router_cli` does all that the program does. `main` hands in the words of the command
//! line, the machine's files, standard input and standard output, and ends as `end` of `router_cli`
//! says: a line on standard error, and the number of how it ended.
#![tactic(auto)]

ghost use Rattle.std.specs.Prelude.{◌≡◌, ◌<◌, ◌-◌, ◌^◌, []};

use gtfs_rows::FeedFault;
use router_cli::{Status, asks_json, end, route};
use std::alloc::Global;
use std::env;
use std::env::FillError;
use std::io::ErrorKind;
use std::process::ExitCode;
use std::rt::Env;
use std::sync::Wait;
use std::thread::Threads;
use tb_base::{HashKey, IdleGate};
use tb_io::{Folder, HostFolder, InSource, OutSink, Sink, Source};

// The flag that asks for JSON.
const JSON: &[u8] = b"--json";

// Ends the options.
const BEHIND_OPTIONS: &[u8] = b"--";

// The length of the longer one of both.
const LONGEST: usize = 6;

// What `asks_json` says of the words, where they can't all be read.
fn asks_json_by_bytes(rt: &impl Env) -> bool {
    let mut room = [0u8; LONGEST];
    for i in 1..usize::MAX {
        match rt.arg(i, &mut room) {
            Ok(count) if &room[..count] == JSON => return true,
            Ok(count) if &room[..count] == BEHIND_OPTIONS => return false,
            Ok(_) | Err(FillError::TooLong) => {}
            Err(FillError::NotPresent) => return false,
        }
    }
    false
}

// The words after the program's name. One that isn't UTF-8 has no meaning.
fn words_of(rt: &(impl Env + AllocGlobal)) -> Result<Vec<String>, Status> {
    let args = match env::args(rt) {
        Ok(args) => args,
        Err(e) if e.kind() == ErrorKind::OutOfMemory => return Err(Status::Memory),
        Err(_) => return Err(Status::Usage),
    };
    let mut words: Vec<String> = Vec::new(rt.alloc());
    for word in args.skip(1) {
        if words.push(word).is_err() {
            return Err(Status::Memory);
        }
    }
    Ok(words)
}

// How `route` ends, without its promise, which would make each of the caller's goals dear.
fn status_of<R: Threads + Wait + Sync, F: Folder + Send, S: Source, K: Sink>(
    rt: &R,
    alloc: Global,
    words: &[String],
    folder: &mut F,
    script: &mut S,
    out: &mut K,
    left_out: &mut Vec<FeedFault>,
) -> Status
    requires none { left_out.old.items ≡ [] }
    requires folder { F.faults folder.old < 2 ^ 64 - 1 }
    requires script { S.faults script.old < 2 ^ 64 - 1 }
    requires out { K.faults out.old < 2 ^ 64 - 1 }
{
    route(rt, alloc, words, folder, script, out, left_out, &IdleGate)
}

// (the answers to its goals are written out, since tactics take minutes over them)
#[tactic(none)]
fn main(rt: HostRuntime) -> ExitCode {
    let words = match words_of(&rt) {
        Ok(words) => words,
        Err(status) => return end(&rt, asks_json_by_bytes(&rt), &[], status),
    };
    let mut folder = HostFolder::new(&rt, HashKey::drawn(&rt));
    let mut script = InSource::new(rt.stdin());
    let mut out = OutSink::new(rt.stdout());
    let mut left_out = Vec::new(rt.alloc());
    let status = status_of(
        &rt,
        rt.alloc(),
        words.as_slice(),
        &mut folder,
        &mut script,
        &mut out,
        &mut left_out,
    );
    end(
        &rt,
        asks_json(words.as_slice()),
        left_out.as_slice(),
        status,
    )
}
