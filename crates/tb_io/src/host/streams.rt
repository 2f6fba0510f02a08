//! A source over a reader and a sink over a writer, as those of standard input and output.
ghost use Rattle.std.specs.Prelude.{◌≡◌, ◌<◌, IfOk, length};
ghost use Rattle.std.specs.Io.{WritesAtMost};
ghost use Rattle.std.specs.Io.KnownBytes.{WriteAppends};

use super::counted;
use crate::{Failed, Sink, Source};
use std::io::{Read, Write};
use std::marker::Model;

/// A source over a reader, as standard input. It tells what the reader tells, which is nothing for
/// the machine's, and contracts see it as the reader with its count of faults.
#[derive(Drop)]
pub struct InSource<R: Read> {
    reader: R,
    faults: u64,
}

impl<R: Read> Model for InSource<R> {
    ghost use Rattle.std.specs.Prelude.{ℕ};

    ghost Value = { R × ℕ };

    ghost view = { λ s. (s.reader, s.faults) };
}

impl<R: Read> InSource<R> {
    /// What a reader gives, before the first fault.
    pub fn new(reader: R) -> InSource<R>
        ensures { result ≡ (reader, 0) }
    {
        InSource { reader, faults: 0 }
    }
}

impl<R: Read> Source for InSource<R> {
    ghost left = { λ s. R.remaining s.0 };

    ghost faults = { λ s. s.1 };

    fn read(&mut self, buf: &mut [u8]) -> Result<usize, Failed> {
        counted(&mut self.faults, self.reader.read(buf).map_err(|_| Failed))
    }
}

/// A sink over a writer, as standard output. It tells what the writer tells, which is nothing for
/// the machine's, and contracts see it as the writer with its count of faults.
#[derive(Drop)]
pub struct OutSink<W: Write> {
    writer: W,
    faults: u64,
}

impl<W: Write> Model for OutSink<W> {
    ghost use Rattle.std.specs.Prelude.{ℕ};

    ghost Value = { W × ℕ };

    ghost view = { λ s. (s.writer, s.faults) };
}

impl<W: Write> OutSink<W> {
    /// What goes to a writer, before the first fault.
    pub fn new(writer: W) -> OutSink<W>
        ensures { result ≡ (writer, 0) }
    {
        OutSink { writer, faults: 0 }
    }
}

impl<W: Write> Sink for OutSink<W> {
    ghost written = { λ s. W.contents s.0 };

    ghost faults = { λ s. s.1 };

    fn write(&mut self, piece: &[u8]) -> Result<usize, Failed> {
        counted(&mut self.faults, write_some(&mut self.writer, piece))
    }
}

// How many bytes a writer took; it failed where it took none of a piece that has some.
fn write_some<W: Write>(writer: &mut W, piece: &[u8]) -> Result<usize, Failed>
    ensures bound { WritesAtMost result piece.now }
    ensures some { IfOk result (λ n. 0 < length piece.now → 0 < n) }
    ensures bytes { WriteAppends (W.contents writer.old) (W.contents writer.new) result piece.now }
{
    match writer.write(piece) {
        Ok(count) if count > 0 || piece.is_empty() => Ok(count),
        _ => Err(Failed),
    }
}
