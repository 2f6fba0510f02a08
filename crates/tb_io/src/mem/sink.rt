//! A sink in memory.
ghost use Rattle.std.specs.Prelude.{◌≡◌, ◌↔◌, ◌-◌, ◌^◌, ◌<◌, [], Some, length, IfOk, IsErr, IsTrue};
ghost use Rattle.std.specs.Io.{WritesAtMost};
ghost use Rattle.std.specs.Io.KnownBytes.{WriteAppends};
ghost use Rattle.tb_io.specs.Calls.{after_call, no_calls};
ghost use Rattle.tb_io.specs.Causes.{HasCause};
ghost use Rattle.tb_io.specs.Stored.{fitting, write_fails};

use super::calls::Calls;
use crate::{Failed, Sink};
use std::alloc::Global;
use std::marker::Model;
use tb_base::Memory;

/// A sink in memory with room for some bytes. It tells what was written, and fails at the calls
/// whose numbers are given, and at a piece that it has no room for.
#[derive(Drop)]
pub struct MemSink {
    bytes: Vec<u8>,
    room: usize,
    piece: usize,
    calls: Calls,
}

impl Model for MemSink {
    ghost use Rattle.std.specs.Prelude.{◌<◌, ◌≤◌, vec_capacity};
    ghost use Rattle.tb_io.specs.Stored.{SinkData};

    ghost Value = { SinkData };

    ghost view = { λ s.
        record { written = s.bytes.items; room = s.room; piece = s.piece; calls = s.calls } };

    ghost invariant = { λ s. (s.room ≤ vec_capacity s.bytes) × (0 < s.piece) };
}

impl MemSink {
    /// A sink with room for so many bytes, that fails at the calls with these numbers, counted
    /// from 0.
    pub fn new(alloc: Global, room: usize, fails: Vec<u64>) -> Result<MemSink, Memory>
        ensures empty { IfOk result (λ s. s.written ≡ []) }
        ensures room { IfOk result (λ s. s.room ≡ room) }
        ensures piece { IfOk result (λ s. s.piece ≡ 2 ^ 64 - 1) }
        ensures calls { IfOk result (λ s. s.calls ≡ no_calls fails.items) }
    {
        let bytes = Vec::with_capacity(alloc, room)?;
        Ok(MemSink {
            bytes,
            room,
            piece: usize::MAX,
            calls: Calls::new(fails),
        })
    }

    /// The same sink, of which one writing takes at most so many bytes. No memory is taken.
    pub fn with_piece(self, most: usize) -> MemSink
        requires { 0 < most }
        ensures written { result.written ≡ self.written }
        ensures room { result.room ≡ self.room }
        ensures piece { result.piece ≡ most }
        ensures calls { result.calls ≡ self.calls }
    {
        let MemSink {
            bytes,
            room,
            piece: _,
            calls,
        } = self;
        MemSink {
            bytes,
            room,
            piece: most,
            calls,
        }
    }

    /// What was written. No memory is taken.
    pub fn bytes(&self) -> &[u8]
        ensures { result.now ≡ self.now.written }
    {
        self.bytes.as_slice()
    }

    // How many bytes of a piece are taken.
    fn fitting(&self, piece: &[u8]) -> usize
        ensures { result ≡ fitting self.now piece.now }
    {
        let room = self.room.saturating_sub(self.bytes.len());
        self.piece.min(piece.len().min(room))
    }
}

impl Sink for MemSink {
    ghost written = { λ s. Some s.written };

    ghost faults = { λ s. s.calls.faults };

    fn write(&mut self, piece: &[u8]) -> Result<usize, Failed>
        ensures bound { WritesAtMost result piece.now }
        ensures some { IfOk result (λ n. 0 < length piece.now → 0 < n) }
        ensures bytes { WriteAppends (Some self.old.written) (Some self.new.written)
            result piece.now }
        ensures cause { HasCause self.old.calls.faults self.new.calls.faults result }
        ensures most { IfOk result (λ n. n ≡ fitting self.old piece.now) }
        ensures fails { IsErr result ↔ IsTrue (write_fails self.old piece.now) }
        ensures calls { self.new.calls
            ≡ after_call self.old.calls (write_fails self.old piece.now) }
        ensures room { self.new.room ≡ self.old.room }
        ensures pieces { self.new.piece ≡ self.old.piece }
    {
        let count = self.fitting(piece);
        let failed = self.calls.fails_next() || (count == 0 && piece.len() != 0);
        self.calls.count(failed);
        if failed {
            return Err(Failed);
        }
        match self.bytes.extend_from_slice(&piece[..count]) {
            Ok(()) => Ok(count),
            Err(_) => unreachable!(),
        }
    }
}
