//! A source in memory.
ghost use Rattle.std.specs.Prelude.{◌≡◌, ◌↔◌, ◌-◌, ◌^◌, ◌<◌, ◌≤◌, Some, length, min, IfOk, IsErr, IsTrue};
ghost use Rattle.std.specs.Io.{ReadsAtMost};
ghost use Rattle.std.specs.Io.KnownBytes.{ReadConsumes};
ghost use Rattle.tb_io.specs.Calls.{fails_next, after_call, no_calls};
ghost use Rattle.tb_io.specs.Causes.{HasCause};

use super::calls::Calls;
use super::copy_front;
use crate::{Failed, Source};
use std::marker::Model;

/// A source in memory. It tells the bytes that are unread, and fails at the calls whose numbers are
/// given.
#[derive(Drop)]
pub struct MemSource {
    bytes: Vec<u8>,
    at: usize,
    piece: usize,
    calls: Calls,
}

impl Model for MemSource {
    ghost use Rattle.std.specs.Prelude.{◌<◌, ◌≤◌, drop, length};
    ghost use Rattle.tb_io.specs.Stored.{SourceData};

    ghost Value = { SourceData };

    ghost view = { λ s.
        record { left = drop s.at s.bytes.items; piece = s.piece; calls = s.calls } };

    ghost invariant = { λ s. (s.at ≤ length s.bytes.items) × (0 < s.piece) };
}

impl MemSource {
    /// A source of these bytes, that fails at the calls with these numbers, counted from 0.
    pub fn new(bytes: Vec<u8>, fails: Vec<u64>) -> MemSource
        ensures left { result.left ≡ bytes.items }
        ensures piece { result.piece ≡ 2 ^ 64 - 1 }
        ensures calls { result.calls ≡ no_calls fails.items }
    {
        MemSource {
            bytes,
            at: 0,
            piece: usize::MAX,
            calls: Calls::new(fails),
        }
    }

    /// The same source, of which one reading gives at most so many bytes. No memory is taken.
    pub fn with_piece(self, most: usize) -> MemSource
        requires { 0 < most }
        ensures left { result.left ≡ self.left }
        ensures piece { result.piece ≡ most }
        ensures calls { result.calls ≡ self.calls }
    {
        let MemSource {
            bytes,
            at,
            piece: _,
            calls,
        } = self;
        MemSource {
            bytes,
            at,
            piece: most,
            calls,
        }
    }
}

impl Source for MemSource {
    ghost left = { λ s. Some s.left };

    ghost faults = { λ s. s.calls.faults };

    fn read(&mut self, buf: &mut [u8]) -> Result<usize, Failed>
        ensures bound { ReadsAtMost result buf.new }
        ensures bytes { ReadConsumes (Some self.old.left) (Some self.new.left) result buf.new }
        ensures cause { HasCause self.old.calls.faults self.new.calls.faults result }
        ensures fails { IsErr result ↔ IsTrue (fails_next self.old.calls) }
        ensures calls { self.new.calls ≡ after_call self.old.calls (fails_next self.old.calls) }
        ensures most { IfOk result (λ n.
            n ≡ min self.old.piece (min (length self.old.left) (length buf.new))) }
        ensures pieces { self.new.piece ≡ self.old.piece }
    {
        let failed = self.calls.fails_next();
        self.calls.count(failed);
        if failed {
            return Err(Failed);
        }
        let count = copy_front(&self.bytes[self.at..], self.piece, buf);
        self.at += count;
        Ok(count)
    }
}
