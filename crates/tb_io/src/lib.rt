//! The outside: folders of files, sources and sinks of bytes, which count their faults.
//!
//! The layers above read a whole file by `take_file`, a whole script by `take_source`, and write a
//! whole text by `put_all`. Each gives all the bytes, or a fault at which the object's count of
//! faults rose. An object either tells its contents, as those in memory do, and then contracts say
//! which bytes were moved; or it tells nothing, as those over the real machine, and then the counts
//! alone speak. Nothing here reads or writes but through the object that is handed in.
#![tactic(auto)]

ghost use Rattle.std.specs.Prelude.{◌≡◌, ◌↔◌, ◌-◌, ◌<◌, ℕ, List, Option, IsTrue, IsSome, IfOk, IfSome, length, take};
ghost use Rattle.std.specs.Io.{ReadsAtMost, WritesAtMost};
ghost use Rattle.std.specs.Io.KnownBytes.{ReadConsumes, WriteAppends};
ghost use Rattle.tb_io.specs.Causes.{HasCause};
ghost use Rattle.tb_io.specs.Files.{FileList, file_at, IsPiece};

mod host;
mod mem;
mod put;
mod take;

pub use host::{HostFolder, InSource, OutSink};
pub use mem::{MemFolder, MemSink, MemSource};
pub use put::{Put, put_all};
pub use take::{Taken, take_file, take_source};
use tb_base::HashKey;

/// The outside failed.
#[derive(Debug, Clone, Copy, PartialEq, Eq)]
pub struct Failed;

/// A folder of files. It tells its contents, or nothing, and counts its faults.
pub trait Folder {
    ghost files: { Self → Option FileList };

    ghost faults: { Self → ℕ };

    /// The key by which names of its files are to be hashed.
    fn key(&self) -> HashKey;

    /// Whether the path is one of the folder's files.
    fn has(&mut self, path: &str) -> Result<bool, Failed>
        ensures told { IfOk result (λ there.
            IfSome (files self.old) (λ fs. IsTrue there ↔ IsSome (file_at fs path.now))) }
        ensures same { files self.new ≡ files self.old }
        ensures cause { HasCause (faults self.old) (faults self.new) result };

    /// A piece of a file, from a place on.
    fn read(&mut self, path: &str, from: u64, buf: &mut [u8]) -> Result<usize, Failed>
        requires { IfSome (files self.old) (λ fs. IsSome (file_at fs path.now)) }
        ensures bound { ReadsAtMost result buf.new }
        ensures told { IfOk result (λ n. IfSome (files self.old) (λ fs.
            IfSome (file_at fs path.now) (λ file. IsPiece file from n buf.new))) }
        ensures same { files self.new ≡ files self.old }
        ensures cause { HasCause (faults self.old) (faults self.new) result };
}

/// A stream of bytes that comes in. It tells what is unread, or nothing, and counts its faults.
pub trait Source {
    ghost left: { Self → Option (List ℕ) };

    ghost faults: { Self → ℕ };

    /// Some bytes, none only at the end or where there is no room.
    fn read(&mut self, buf: &mut [u8]) -> Result<usize, Failed>
        ensures bound { ReadsAtMost result buf.new }
        ensures bytes { ReadConsumes (left self.old) (left self.new) result buf.new }
        ensures cause { HasCause (faults self.old) (faults self.new) result };
}

/// A stream of bytes that goes out. It tells what was written, or nothing, and counts its faults.
pub trait Sink {
    ghost written: { Self → Option (List ℕ) };

    ghost faults: { Self → ℕ };

    /// Takes some of the bytes, at least one of a piece that has any.
    fn write(&mut self, piece: &[u8]) -> Result<usize, Failed>
        ensures bound { WritesAtMost result piece.now }
        ensures some { IfOk result (λ n. 0 < length piece.now → 0 < n) }
        ensures bytes { WriteAppends (written self.old) (written self.new) result piece.now }
        ensures cause { HasCause (faults self.old) (faults self.new) result };
}
