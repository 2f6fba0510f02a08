//! A folder in memory.
ghost use Rattle.std.specs.Prelude.{◌≡◌, ◌↔◌, ◌-◌, ◌^◌, ◌<◌, Some, length, min, option_map, IfOk, IfSome, IsErr, IsSome, IsTrue};
ghost use Rattle.std.specs.Io.{ReadsAtMost};
ghost use Rattle.tb_io.specs.Calls.{fails_next, after_call, no_calls};
ghost use Rattle.tb_io.specs.Causes.{HasCause};
ghost use Rattle.tb_io.specs.Files.{file_at, IsPiece};
ghost use Rattle.tb_io.specs.Stored.{FolderData, stored_files};

use super::calls::Calls;
use super::copy_front;
use crate::{Failed, Folder};
use std::marker::Model;
use tb_base::HashKey;

/// A folder in memory. It tells its contents, and fails at the calls whose numbers are given. Its
/// key is the one that everyone knows.
#[derive(Drop)]
pub struct MemFolder {
    files: Vec<(String, Vec<u8>)>,
    piece: usize,
    calls: Calls,
}

impl Model for MemFolder {
    ghost use Rattle.std.specs.Prelude.{◌<◌};
    ghost use Rattle.tb_io.specs.Stored.{FolderData, stored_files};

    ghost Value = { FolderData };

    ghost view = { λ f.
        record { files = stored_files f.files.items; piece = f.piece; calls = f.calls } };

    ghost invariant = { λ f. 0 < f.piece };
}

impl MemFolder {
    /// A folder with these files, by their paths, that fails at the calls with these numbers,
    /// counted from 0. Of two files with one path the first counts.
    pub fn new(files: Vec<(String, Vec<u8>)>, fails: Vec<u64>) -> MemFolder
        ensures files { result.files ≡ stored_files files.items }
        ensures piece { result.piece ≡ 2 ^ 64 - 1 }
        ensures calls { result.calls ≡ no_calls fails.items }
    {
        MemFolder {
            files,
            piece: usize::MAX,
            calls: Calls::new(fails),
        }
    }

    /// The same folder, of which one reading gives at most so many bytes. No memory is taken.
    pub fn with_piece(self, most: usize) -> MemFolder
        requires { 0 < most }
        ensures { result ≡ record { files = self.files; piece = most; calls = self.calls } }
    {
        let MemFolder {
            files,
            piece: _,
            calls,
        } = self;
        MemFolder {
            files,
            piece: most,
            calls,
        }
    }

    // Counts a call, and says whether it fails.
    fn call_fails(&mut self) -> bool
        ensures fails { result ≡ fails_next self.old.calls }
        ensures calls { self.new.calls ≡ after_call self.old.calls (fails_next self.old.calls) }
        ensures files { self.new.files ≡ self.old.files }
        ensures piece { self.new.piece ≡ self.old.piece }
    {
        let failed = self.calls.fails_next();
        self.calls.count(failed);
        failed
    }
}

// The file at a path.
fn find<'a>(files: &'a [(String, Vec<u8>)], path: &str) -> Option<&'a [u8]>
    ensures { option_map (λ s. s.now) result ≡ file_at (stored_files files.now) path.now }
{
    for file in files {
        if file.0.as_str() == path {
            return Some(file.1.as_slice());
        }
    }
    None
}

// Copies a piece of a file, of at most so many bytes, and says how many it has.
fn copy_piece(file: &[u8], from: u64, most: usize, buf: &mut [u8]) -> usize
    requires { 0 < most }
    ensures count { result ≡ min most (min (length file.now - from) (length buf.new)) }
    ensures piece { IsPiece file.now from result buf.new }
{
    if from >= file.len() as u64 {
        return 0;
    }
    copy_front(&file[from as usize..], most, buf)
}

impl Folder for MemFolder {
    ghost files = { λ f. Some f.files };

    ghost faults = { λ f. f.calls.faults };

    fn key(&self) -> HashKey {
        HashKey::known()
    }

    fn has(&mut self, path: &str) -> Result<bool, Failed>
        ensures told { IfOk result (λ there.
            IsTrue there ↔ IsSome (file_at self.old.files path.now)) }
        ensures same { self.new.files ≡ self.old.files }
        ensures cause { HasCause self.old.calls.faults self.new.calls.faults result }
        ensures fails { IsErr result ↔ IsTrue (fails_next self.old.calls) }
        ensures calls { self.new.calls ≡ after_call self.old.calls (fails_next self.old.calls) }
        ensures pieces { self.new.piece ≡ self.old.piece }
    {
        if self.call_fails() {
            return Err(Failed);
        }
        Ok(find(self.files.as_slice(), path).is_some())
    }

    fn read(&mut self, path: &str, from: u64, buf: &mut [u8]) -> Result<usize, Failed>
        requires { IsSome (file_at self.old.files path.now) }
        ensures bound { ReadsAtMost result buf.new }
        ensures told { IfOk result (λ n.
            IfSome (file_at self.old.files path.now) (λ file. IsPiece file from n buf.new)) }
        ensures same { self.new.files ≡ self.old.files }
        ensures cause { HasCause self.old.calls.faults self.new.calls.faults result }
        ensures fails { IsErr result ↔ IsTrue (fails_next self.old.calls) }
        ensures calls { self.new.calls ≡ after_call self.old.calls (fails_next self.old.calls) }
        ensures most { IfOk result (λ n. IfSome (file_at self.old.files path.now) (λ file.
            n ≡ min self.old.piece (min (length file - from) (length buf.new)))) }
        ensures pieces { self.new.piece ≡ self.old.piece }
    {
        if self.call_fails() {
            return Err(Failed);
        }
        let Some(file) = find(self.files.as_slice(), path) else {
            unreachable!()
        };
        Ok(copy_piece(file, from, self.piece, buf))
    }
}
